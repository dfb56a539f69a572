//! The condition of `check` on the length of a capture, as a test.

ghost use Rattle.std.specs.Prelude.{◌<◌, ◌^◌, ◌↔◌, IsTrue, length};
ghost use Rattle.nbd_wire.specs.Prelude.{flat};
ghost use Rattle.nbd_judge.specs.Captures.{records_of};

use nbd_wire::Side;

/// Whether chunks have fewer than 2^63 bytes together, which `check` asks of them.
pub(crate) fn are_countable(chunks: &[(Side, Vec<u8>)]) -> bool
    ensures { IsTrue result ↔ (length (flat (records_of chunks.now)) < 2 ^ 63) }
{
    let mut left = i64::MAX as u64;
    for (_, bytes) in chunks {
        let len = bytes.len() as u64;
        if len > left {
            return false;
        }
        left -= len;
    }
    true
}
