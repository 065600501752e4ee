//! Lookups ahead of the records: the destinations of the records that come next in the reader's buffer are looked up
//! together.
ghost use Rattle.std.specs.Prelude.{◌≡◌, ◌≤◌, IfSome, IsSome};

use ipv4::{LOOKUPS, Lookups, Prefetched, presumed_destination};
use lpm::Table;
use pcapio::{ByteOrder, HEAD, head_in};

/// Lookups, of which the first `len` are for records in the reader's buffer, and `used` of these records have had their
/// turn.
#[derive(Drop)]
pub(crate) struct Lookahead {
    pub(crate) lookups: Lookups,
    len: usize,
    used: usize,
    pub ghost at_most: { len ≤ 64 },
}

impl Lookahead {
    ghost use Rattle.ipv4.specs.Prefetched.{AreLookedUp, IsPrefetched};

    /// Before the first record.
    pub(crate) fn new(table: &Table) -> Lookahead
        ensures { AreLookedUp table.now.members result.lookups }
    {
        Lookahead {
            lookups: Lookups::of(table, [0; LOOKUPS]),
            len: 0,
            used: 0,
        }
    }

    /// The lookup that was made for the next record. `bytes` are those in the reader's buffer, from that record's
    /// header on.
    #[inline]
    pub(crate) fn next(
        &mut self,
        bytes: &[u8],
        order: ByteOrder,
        table: &Table,
    ) -> Option<Prefetched>
        requires known { AreLookedUp table.now.members self.old.lookups }
        ensures known { AreLookedUp table.now.members self.new.lookups }
        ensures there { IsSome result }
        ensures value { IfSome result (IsPrefetched table.now.members) }
    {
        if self.used >= self.len {
            self.refill(bytes, order, table);
        }
        let at = self.used;
        self.used = at.saturating_add(1);
        self.lookups.get(at)
    }

    /// Looks up the destinations of the records that begin here and are in the buffer as a whole.
    fn refill(&mut self, bytes: &[u8], order: ByteOrder, table: &Table)
        ensures known { AreLookedUp table.now.members self.new.lookups }
        ensures begins { self.new.used ≡ 0 }
    {
        let mut addresses = [0; LOOKUPS];
        let mut rest = bytes;
        let mut len = 0;
        while len < LOOKUPS && rest.len() >= HEAD {
            let Some(head) = head_in(order, rest) else {
                break;
            };
            let captured = head.captured as usize;
            if captured > rest.len() - HEAD {
                break;
            }
            addresses[len] = presumed_destination(&rest[HEAD..HEAD + captured]);
            rest = &rest[HEAD + captured..];
            len += 1;
        }
        self.lookups = Lookups::of(table, addresses);
        self.len = len;
        self.used = 0;
    }
}
