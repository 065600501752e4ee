//! The buffers that an item on the rings carries.
use crate::threads::item::RingItem;
use arrayvec::ArrayVec;
use burst::Tagged;
use stages_laws::Run;

impl<J: Run> Tagged for RingItem<J> {
    ghost use Rattle.stages.specs.Numbers.{item_numbers};

    ghost numbers = { item_numbers };

    fn tags(&self, out: &mut ArrayVec<u32, 64>) {
        match self {
            RingItem::Free(segment) => segment.chain.tags(out),
            RingItem::Before(packet) => packet.chain.tags(out),
            RingItem::After(packet) => packet.chain.tags(out),
            RingItem::Mark => (),
        }
    }

    #[inline]
    fn single_tag(&self) -> Option<u32> {
        match self {
            RingItem::Free(segment) => segment.chain.single_tag(),
            RingItem::Before(packet) => packet.chain.single_tag(),
            RingItem::After(packet) => packet.chain.single_tag(),
            RingItem::Mark => None,
        }
    }
}
