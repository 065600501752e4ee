//! The codes below 0 that calls return. `hokhtura.h` has the same numbers.
ghost use Rattle.std.specs.Prelude.{◌≡◌};
ghost use Rattle.capi.specs.Codes.{code_of, number_of};

/// Why a call moved or changed nothing, or isn't finished yet.
#[derive(Drop, Clone, Copy, Debug, PartialEq, Eq)]
pub enum Fault {
    /// Too little room for a put, or too few words for a take.
    NoRoom = 1,
    /// Another thread's call on the same side came first.
    Again = 2,
    /// The call has reserved its positions, but an earlier call of another thread isn't finished yet. Of a forwarding
    /// table: the last version isn't settled.
    Pending = 3,
    /// The hand has an open span.
    Open = 4,
    /// The hand has no open span of that side.
    NotOpen = 5,
    /// There is no ring of this number.
    Ring = 6,
    /// A count of 0, or above the limit, or one that doesn't fit the open span; or no such port.
    Count = 7,
    /// The side is not head/tail-sync.
    Mode = 8,
    /// The handle is null.
    Empty = 9,
    /// The handle is of another kind.
    Kind = 10,
    /// The handle that a new object is for isn't null.
    Used = 11,
    /// Other handles share it.
    Shared = 12,
    /// No memory.
    Memory = 13,
    /// A size, mode or depth that is not possible.
    Plan = 14,
    /// The positions of the ring are used up.
    Worn = 15,
    /// No hand is left to give out: the limit is 2^62.
    Parts = 16,
    /// A number that the pool's handle doesn't have, or that is given twice.
    NotYours = 17,
    /// A depth that is not 1 to 32.
    Depth = 20,
    /// There is no next hop of this number, or it is 2^24 or more.
    Hop = 21,
    /// The routes would need more groups than the table may have.
    Groups = 22,
    /// No such route.
    NoRoute = 23,
    /// The number's turn has passed.
    Late = 24,
    /// The number is a whole window or more ahead.
    Early = 25,
    /// A word with this number is already waiting.
    Double = 26,
}

impl Fault {
    /// The code without its minus sign.
    pub fn number(self) -> u8
        ensures { result ≡ number_of self }
    {
        self as u8
    }
}

/// What a call returns to C: the count, or the fault's number with a minus sign.
pub fn answer(outcome: Result<u32, Fault>) -> i64
    ensures { result ≡ code_of outcome }
{
    match outcome {
        Ok(count) => i64::from(count),
        Err(fault) => -i64::from(fault.number()),
    }
}
