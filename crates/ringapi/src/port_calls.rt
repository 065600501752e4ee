//! The calls of a port. A call names a ring by its number, and requires nothing: that there is no such ring, and that a
//! span is open or isn't, are answers. Each call is tried once.
ghost use Rattle.std.specs.Prelude.{◌≡◌, ◌++◌, [], drop, length, take, IfErr, IfOk};
ghost use Rattle.geom.specs.declared.plan.Side.TheVariants.{Put, Take};
ghost use Rattle.fabric.specs.Hands.{IsHandOf, view};
ghost use Rattle.fabric.specs.WholeCalls.{HasMoved, RefusesPut, RefusesTake};
ghost use Rattle.fabric.specs.declared.hand.in_place.OpenSpan.TheVariants as open_span;
ghost use Rattle.ringapi.specs.Ports.{IsIdleOn, RefusesOn, port_rings, port_span, port_view};

use crate::port::Port;
use crate::port_fault::PortFault;
use burst::{Tagged, Word};
use fabric::{Fabric, Hand, HandInPlace, OpenSpan, PutItems, Reserved, Stored, WholeFault};
use geom::How;
use std::sync::Arc;

impl<T: Tagged, const N: usize, S: Stored<T>> Port<T, N, S> {
    /// A hand with the rings that it comes from.
    pub fn of(fabric: Arc<Fabric<T, N, S>>, hand: Hand<T, S>) -> Port<T, N, S>
        requires of { IsHandOf fabric.value hand }
        ensures fabric { result.fabric ≡ fabric }
        ensures view { port_view result ≡ view hand }
        ensures idle { port_span result ≡ open_span.Idle }
    {
        Port {
            fabric,
            hand: HandInPlace::of(hand),
        }
    }

    /// How many rings there are.
    pub fn rings(&self) -> usize
        ensures { result ≡ length (port_rings self.now) }
    {
        self.fabric.rings()
    }

    /// What the hand has open.
    pub fn span(&self) -> OpenSpan
        ensures { result ≡ port_span self.now }
    {
        self.hand.span()
    }

    /// Tries once to put the first items of a list: by bulk all, by burst as many as there is room for. At most four
    /// steps on words. It returns where they were put.
    ///
    /// Errors: `NoRing`; `Open`; `Start`, and no span is open; `Settle`, and the span stays open.
    #[inline(always)]
    pub fn try_put<I: PutItems<T>>(
        &mut self,
        ring: usize,
        items: &mut I,
        how: How,
    ) -> Result<Reserved, PortFault>
        ensures fabric { self.new.fabric ≡ self.old.fabric }
        ensures done { IfOk result (λ r. IsIdleOn self.old ring × (port_span self.new ≡ open_span.Idle)
            × HasMoved T.numbers self.old.fabric.value N how (length (I.items items.old)) ring (port_view self.old) Put
            r [] (take r.range.count (I.items items.old)) (port_view self.new)
            × (I.items items.new ≡ I.after (I.items items.old) r.range.count)) }
        ensures refused { IfErr result (RefusesOn self.old ring self.new (I.items items.new ≡ I.items items.old)
            (λ e. RefusesPut T.numbers self.old.fabric.value N how (length (I.items items.old)) ring
            (port_view self.old) (I.items items.old) (port_span self.new) (port_view self.new) e
            × (I.items items.new ≡ I.items items.old))) }
    {
        if ring >= self.fabric.rings() {
            return Err(PortFault::NoRing);
        }
        match self.hand.span() {
            OpenSpan::Idle => (),
            _ => return Err(PortFault::Open),
        }
        match self.hand.try_put(&self.fabric, ring, items, how) {
            Ok(reserved) => Ok(reserved),
            Err(WholeFault::Start(why)) => Err(PortFault::Start(why)),
            Err(WholeFault::Settle(reserved, why)) => Err(PortFault::Settle(reserved, why)),
        }
    }
}

impl<T: Word, const N: usize, S: Stored<T>> Port<T, N, S> {
    /// Tries once to take words to the front of a slice: by bulk as many as it has places, by burst as many as are
    /// queued. At most four steps on words. It returns where they were.
    ///
    /// Errors: `NoRing`; `Open`; `Start`, and no span is open; `Settle`, and the span stays open and shows its words at
    /// the front of the slice. Otherwise the slice is unchanged.
    #[inline(always)]
    pub fn try_take(&mut self, ring: usize, into: &mut [T], how: How) -> Result<Reserved, PortFault>
        ensures fabric { self.new.fabric ≡ self.old.fabric }
        ensures done { IfOk result (λ r. IsIdleOn self.old ring × (port_span self.new ≡ open_span.Idle)
            × (into.new ≡ take r.range.count into.new ++ drop r.range.count into.old)
            × (length (take r.range.count into.new) ≡ r.range.count)
            × HasMoved T.numbers self.old.fabric.value N how (length into.old) ring (port_view self.old) Take r
            (take r.range.count into.new) (take r.range.count into.new) (port_view self.new)) }
        ensures refused { IfErr result (RefusesOn self.old ring self.new (into.new ≡ into.old)
            (RefusesTake T.numbers self.old.fabric.value N how (length into.old) ring (port_view self.old)
            into.old into.new (port_span self.new) (port_view self.new))) }
    {
        if ring >= self.fabric.rings() {
            return Err(PortFault::NoRing);
        }
        match self.hand.span() {
            OpenSpan::Idle => (),
            _ => return Err(PortFault::Open),
        }
        match self.hand.try_take(&self.fabric, ring, into, how) {
            Ok(reserved) => Ok(reserved),
            Err(WholeFault::Start(why)) => Err(PortFault::Start(why)),
            Err(WholeFault::Settle(reserved, why)) => Err(PortFault::Settle(reserved, why)),
        }
    }
}
