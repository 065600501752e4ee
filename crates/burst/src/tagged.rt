//! Items that carry buffers. A ring of buffers holds each of them only once, provided an item can neither hide a buffer
//! nor name one twice: this trait is where an item reports what it carries.
ghost use Rattle.std.specs.Prelude.{◌≡◌, ℕ, List, []};
ghost use Rattle.burst.specs.Numbers.{AreDistinct, only};

use arrayvec::ArrayVec;

/// An item that reports the numbers of the buffers it carries: at most 64, all distinct.
///
/// A proof sees them as the list `numbers` of the item, in the order in which `tags` writes them. They are a function
/// of the item's value alone, so they stay with it wherever it is moved.
pub trait Tagged: Drop {
    /// The numbers of the buffers that an item carries.
    ghost numbers: { Self → List ℕ };

    /// Writes the numbers of the item's buffers to `out`, in the order of `numbers`. Requires: `out` is empty.
    fn tags(&self, out: &mut ArrayVec<u32, 64>)
        requires empty { out.old.items ≡ [] }
        ensures exact { out.new.items ≡ numbers self.now }
        // no item carries a buffer twice: each `impl` proves it, and a generic caller can use it for any item
        ensures distinct { AreDistinct (numbers self.now) };

    /// The number of the item's buffer if it carries exactly one, as most items do. Called for each item on its way; an
    /// `impl` with a long `tags` has a shorter way to return it.
    #[inline]
    fn single_tag(&self) -> Option<u32>
        ensures { result ≡ only (numbers self.now) }
    {
        let mut out = ArrayVec::new();
        self.tags(&mut out);
        if out.len() == 1 { out.pop() } else { None }
    }
}
