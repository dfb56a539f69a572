//! A writer that tries nothing again.

use std::io;
use std::io::{ErrorKind, Write};

/// A writer of which an interrupted write has failed like any other, and each one after a failed one fails too. So a
/// buffered writer over it, which would try an interrupted write again, and what is left when it is dropped, writes nothing
/// after a fault.
#[derive(Drop)]
pub struct FinalWriter<W> {
    writer: W,
    has_failed: bool,
}

impl<W> FinalWriter<W> {
    /// One over this writer, of which no write has failed.
    pub fn new(writer: W) -> FinalWriter<W> {
        FinalWriter {
            writer,
            has_failed: false,
        }
    }
}

impl<W: Write> Write for FinalWriter<W> {
    ghost contents = { λ final. W.contents final.writer };

    fn write(&mut self, buf: &[u8]) -> io::Result<usize> {
        if self.has_failed {
            return Err(ErrorKind::Other.into());
        }
        match self.writer.write(buf) {
            Ok(count) => {
                self.has_failed = count == 0;
                Ok(count)
            }
            Err(_) => {
                self.has_failed = true;
                Err(ErrorKind::Other.into())
            }
        }
    }

    fn flush(&mut self) -> io::Result<()> {
        self.writer.flush()
    }
}
