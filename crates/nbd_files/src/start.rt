//! What the export held when the session began, as it is given.

ghost use Rattle.std.specs.Prelude.{◌≡◌, IfSome, length};

use std::fs::File;
use std::io::{Read, Seek};

/// A reader of an image, which may know how many bytes it has.
pub trait Measured: Read {
    /// How many bytes are left to read, where that is known before they are read.
    fn bytes_left(&self) -> Option<u64>
        ensures { IfSome result (λ n. IfSome (Self.remaining self.now) (λ bytes. n ≡ length bytes)) };
}

/// What the file system tells: of a regular file its size, less what was read of it, and of another nothing.
impl Measured for File {
    fn bytes_left(&self) -> Option<u64> {
        let (metadata, mut file) = (self.metadata().ok()?, self);
        let behind = file.stream_position().ok()?;
        metadata
            .is_file()
            .then_some(metadata.len().saturating_sub(behind))
    }
}

impl Measured for &[u8] {
    fn bytes_left(&self) -> Option<u64> {
        Some(self.len() as u64)
    }
}

/// What the export held when the session began, an image and a contents text as the readers of their bytes.
#[derive(Drop)]
pub enum StartFrom<I> {
    /// Nothing is known: a byte that was not written may be anything.
    Unknown,
    /// Zeroes.
    Zeroes,
    /// The bytes that this reader has.
    Image(I),
    /// What the contents text says that this reader has.
    Contents(I),
}
