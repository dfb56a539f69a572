//! Contents: what is known of each byte of an export, and the calls that change and compare them.

ghost use Rattle.std.specs.Prelude.{◌≡◌, ◌+◌, ◌<◌, ◌≤◌, ℕ, Option, length, OnErr, OnOk};
ghost use Rattle.nbd_export.specs.Ranges.{AreSameBelow, DiffersIn, IsLeast, bytes_from, overlay, unknown, zeroes};

use std::alloc::AllocError;

/// The contents of an export: its size, and for each offset below it a known byte or an unknown one.
///
/// A range is an offset and a length, in bytes from the export's start. Each call that takes one
/// requires that it ends at the export's size or before, also where its length is 0.
pub trait Contents {
    /// The export's size in bytes.
    ghost size: { Self → ℕ };

    /// The byte at each offset below the size, None where it is unknown. What it says of other offsets
    /// means nothing.
    ghost byte: { Self → ℕ → Option ℕ };

    /// The export's size in bytes.
    fn size(&self) -> u64
        ensures { result ≡ size self.now };

    /// The byte at an offset; None where it is unknown.
    fn byte_at(&self, offset: u64) -> Option<u8>
        requires { offset < size self.now }
        ensures { result ≡ byte self.now offset };

    /// Makes the range that begins at `offset` these bytes. All is as before where memory is refused.
    fn put(&mut self, offset: u64, bytes: &[u8]) -> Result<(), AllocError>
        requires { offset + length bytes.now ≤ size self.old }
        ensures size { size self.new ≡ size self.old }
        ensures done { OnOk result (AreSameBelow (size self.old) (byte self.new)
            (overlay offset (length bytes.now) (bytes_from offset bytes.now) (byte self.old))) }
        ensures refused { OnErr result (AreSameBelow (size self.old) (byte self.new) (byte self.old)) };

    /// Makes the range zeroes. All is as before where memory is refused.
    fn zero(&mut self, offset: u64, len: u64) -> Result<(), AllocError>
        requires { offset + len ≤ size self.old }
        ensures size { size self.new ≡ size self.old }
        ensures done { OnOk result (AreSameBelow (size self.old) (byte self.new)
            (overlay offset len zeroes (byte self.old))) }
        ensures refused { OnErr result (AreSameBelow (size self.old) (byte self.new) (byte self.old)) };

    /// Makes the range unknown. All is as before where memory is refused.
    fn forget(&mut self, offset: u64, len: u64) -> Result<(), AllocError>
        requires { offset + len ≤ size self.old }
        ensures size { size self.new ≡ size self.old }
        ensures done { OnOk result (AreSameBelow (size self.old) (byte self.new)
            (overlay offset len unknown (byte self.old))) }
        ensures refused { OnErr result (AreSameBelow (size self.old) (byte self.new) (byte self.old)) };

    /// The least offset of the range that begins at `offset` where a byte is known and is not the one in
    /// `bytes`; None where there is none.
    fn differs(&self, offset: u64, bytes: &[u8]) -> Option<u64>
        requires { offset + length bytes.now ≤ size self.now }
        ensures { IsLeast (DiffersIn (byte self.now) offset (length bytes.now) (bytes_from offset bytes.now)) result };

    /// The least offset of the range where a byte is known and is not 0; None where there is none. No byte changes; the
    /// contents may note that there is none, so as not to look again.
    fn differs_zero(&mut self, offset: u64, len: u64) -> Option<u64>
        requires { offset + len ≤ size self.old }
        ensures size { size self.new ≡ size self.old }
        ensures bytes { byte self.new ≡ byte self.old }
        ensures least { IsLeast (DiffersIn (byte self.old) offset len zeroes) result };
}
