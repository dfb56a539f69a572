//! A writer that fails once: what stands written is a front of the lines, and nothing is tried again.

use nbd_capture::write_whole;
use nbd_files::FinalWriter;
use std::alloc::Global;
use std::io;
use std::io::{BufWriter, ErrorKind, Write};
use std::test::Fail;

/// Takes a byte at a time. When it has so many, one call fails or takes nothing; what is tried behind that it takes again.
#[derive(Drop)]
struct Stumbling {
    taken: Vec<u8>,
    room: usize,
    fault: Option<ErrorKind>,
    has_failed: bool,
}

impl Write for Stumbling {
    fn write(&mut self, buf: &[u8]) -> io::Result<usize> {
        if self.taken.len() == self.room && !self.has_failed {
            self.has_failed = true;
            return match self.fault {
                Some(kind) => Err(kind.into()),
                None => Ok(0),
            };
        }
        let first = buf.get(..1).unwrap_or(&[]);
        self.taken.extend_from_slice(first)?;
        Ok(first.len())
    }

    fn flush(&mut self) -> io::Result<()> {
        Ok(())
    }
}

/// What is written, in pieces.
const PIECES: [&[u8]; 3] = [
    b"C 00000003\n",
    b"S 0003e889045565a9",
    b"000000070000000100000000\n",
];

/// All of it.
const WHOLE: &[u8] = b"C 00000003\nS 0003e889045565a9000000070000000100000000\n";

/// How many bytes a buffer holds through which it is written; None without one.
const BUFFERS: [Option<usize>; 4] = [None, Some(1), Some(16), Some(8192)];

#[test]
fn tries_nothing_again(rt: HostRuntime) -> Result<(), Fail> {
    for fault in [None, Some(ErrorKind::Other), Some(ErrorKind::Interrupted)] {
        for size in BUFFERS {
            assert!(rt; leaves_fronts(rt.alloc(), size, fault));
        }
    }
    Ok(())
}

/// Whether a front is left wherever the writer fails.
fn leaves_fronts(alloc: Global, size: Option<usize>, fault: Option<ErrorKind>) -> bool {
    for room in 0..=WHOLE.len() {
        let mut out = Stumbling {
            taken: Vec::new(alloc),
            room,
            fault,
            has_failed: false,
        };
        let is_whole = writes(alloc, size, &mut out);
        if is_whole != Some(room == WHOLE.len()) || out.taken.as_slice() != &WHOLE[..room] {
            return false;
        }
    }
    true
}

/// Whether all is written; None where there is no memory for a buffer.
fn writes(alloc: Global, size: Option<usize>, out: &mut Stumbling) -> Option<bool> {
    match size {
        None => Some(are_written(out)),
        Some(size) => {
            let mut buffer = BufWriter::with_capacity(alloc, size, FinalWriter::new(out)).ok()?;
            Some(are_written(&mut buffer) && buffer.flush().is_ok())
        }
    }
}

fn are_written<W: Write>(out: &mut W) -> bool {
    PIECES.iter().all(|piece| write_whole(out, piece).is_ok())
}
