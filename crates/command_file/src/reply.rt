//! The parts of reply lines: texts and numbers.

ghost use Rattle.std.specs.Prelude.{◌≡◌, ◌++◌, OnOk, decimal};

use itoa::Buffer;
use std::alloc::AllocError;

/// Writes a number without leading zeros.
pub fn write_number(reply: &mut Vec<u8>, n: u64) -> Result<(), AllocError>
    ensures { OnOk result (reply.new.items ≡ reply.old.items ++ decimal n) }
{
    let mut buffer = Buffer::new();
    reply.extend_from_slice(buffer.format(n).as_bytes())
}

/// Writes two numbers, each after its words.
pub fn write_two_numbers(
    reply: &mut Vec<u8>,
    first: &[u8],
    n: u64,
    second: &[u8],
    m: u64,
) -> Result<(), AllocError>
    ensures { OnOk result (reply.new.items ≡ reply.old.items ++ (first.now ++ decimal n ++ second.now ++ decimal m)) }
{
    reply.extend_from_slice(first)?;
    write_number(reply, n)?;
    reply.extend_from_slice(second)?;
    write_number(reply, m)
}
