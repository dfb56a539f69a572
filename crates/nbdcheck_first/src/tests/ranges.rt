//! How many ranges the contents of the largest export have, which is what they cost.
//!
//! tests/commands/test_refusals.py runs this so that the Nth growth of memory is refused: then there are as many as before.

ghost use Rattle.std.specs.Prelude.{◌≡◌};
ghost use Rattle.nbd_export.specs.Extents.{size_of};

use nbd_export::{Contents, Extents, Start};
use std::alloc::AllocError;

const SIZE: u64 = 9223372036854775807;

/// A change of the bytes from an offset on.
#[derive(Clone, Copy)]
enum Change {
    Put(&'static [u8]),
    Zero(u64),
    Forget(u64),
}

/// An offset, a change there, and how many ranges there are then: from zeroes to zeroes.
const CHANGES: &[(u64, Change, u64)] = &[
    (1000, Change::Put(b"ab"), 3),
    (1001, Change::Zero(1), 3),
    (2000, Change::Forget(2), 5),
    (2001, Change::Put(b"c"), 6),
    (2001, Change::Forget(0), 6),
    (SIZE - 1, Change::Put(b"d"), 7),
    (1, Change::Put(&[9; 2100]), 4),
    (0, Change::Forget(SIZE / 2), 3),
    (0, Change::Zero(SIZE), 1),
];

#[test]
fn split_and_join(rt: HostRuntime) {
    // Memory may be refused here already.
    if let Ok(mut extents) = Extents::new(rt.alloc(), SIZE, Start::Zeroes) {
        assert!(rt; are_counted(&mut extents));
    }
}

/// Whether there are as many ranges as there should be after each change, up to one that is refused.
fn are_counted(extents: &mut Extents) -> bool
    requires { size_of extents.old ≡ 9223372036854775807 }
{
    for (offset, change, ranges) in CHANGES {
        let before = extents.ranges();
        match changed(extents, *offset, *change) {
            Ok(()) if extents.ranges() == *ranges => {}
            Ok(()) => return false,
            Err(_) => return extents.ranges() == before,
        }
    }
    true
}

/// Makes a change that lies within the export.
fn changed(extents: &mut Extents, offset: u64, change: Change) -> Result<(), AllocError>
    requires { size_of extents.old ≡ 9223372036854775807 }
    ensures { size_of extents.new ≡ 9223372036854775807 }
{
    if offset > SIZE {
        return Ok(());
    }
    let left = SIZE - offset;
    match change {
        Change::Put(bytes) if bytes.len() as u64 <= left => extents.put(offset, bytes),
        Change::Zero(len) if len <= left => extents.zero(offset, len),
        Change::Forget(len) if len <= left => extents.forget(offset, len),
        _ => Ok(()),
    }
}
