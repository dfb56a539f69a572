//! A capture that is read whole: what a caller can prove of its chunks, and what readers give it that fail or never end.

ghost use Rattle.std.specs.Prelude.{IfErr, IfOk, IfSome, ◌≤◌, length};
ghost use Rattle.nbd_capture.specs.{Capture.{IsCaptureText, chunks_of}, Reading.NamesFirstBadLine};

use nbd_capture::{CaptureFault, CaptureReader};
use nbd_wire::Side;
use std::alloc::Global;
use std::io;
use std::io::{BufRead, ErrorKind, Read};

/// The chunks of a capture that may have `limit` bytes.
fn read_capture<R: BufRead + Drop>(
    alloc: Global,
    reader: R,
    limit: u64,
) -> Result<Vec<(Side, Vec<u8>)>, CaptureFault>
    ensures chunks { IfOk result (λ chunks. IfSome (R.remaining reader)
        (λ text. IsCaptureText text (chunks_of chunks.items))) }
    ensures limit { IfOk result (λ chunks. IfSome (R.remaining reader) (λ text. length text ≤ limit)) }
    ensures fault { IfErr result (NamesFirstBadLine (R.remaining reader)) }
{
    let mut capture = CaptureReader::new(alloc, reader, limit);
    let mut chunks = Vec::new(alloc);
    while let Some(chunk) = capture.next_chunk()? {
        chunks.push(chunk)?;
    }
    Ok(chunks)
}

/// How a reader goes on behind its text.
#[derive(Clone, Copy)]
enum After {
    Ends,
    Fails(ErrorKind),
    BeginsAgain,
}

/// Gives a text.
#[derive(Drop)]
struct Source {
    text: &'static [u8],
    at: usize,
    after: After,
}

impl Read for Source {
    fn read(&mut self, _buf: &mut [u8]) -> io::Result<usize> {
        Err(ErrorKind::Unsupported.into())
    }
}

impl BufRead for Source {
    fn fill_buf(&mut self) -> io::Result<&[u8]> {
        if self.at >= self.text.len() {
            match self.after {
                After::Ends => return Ok(&[]),
                After::Fails(kind) => return Err(kind.into()),
                After::BeginsAgain => self.at = 0,
            }
        }
        Ok(&self.text[self.at..])
    }

    fn consume(&mut self, amount: usize) {
        self.at = self.at.saturating_add(amount);
    }
}

const FAILS: After = After::Fails(ErrorKind::Other);

const INTERRUPTED: After = After::Fails(ErrorKind::Interrupted);

/// A text, how its reader goes on, how many bytes it may have, and how many chunks there are, or the fault.
const CAPTURES: &[(&[u8], After, u64, Result<usize, CaptureFault>)] = &[
    (b"C 0A\n# x\n\nS \n", After::Ends, 13, Ok(2)),
    (
        b"C 0A\n# x\n\nS \n",
        After::Ends,
        12,
        Err(CaptureFault::Read),
    ),
    (b"C 0A\n", FAILS, 99, Err(CaptureFault::Read)),
    (b"C 0A\n", INTERRUPTED, 99, Err(CaptureFault::Read)),
    (b"", INTERRUPTED, 99, Err(CaptureFault::Read)),
    (b"# x", FAILS, 99, Err(CaptureFault::Read)),
    (b"\nC 0\n", FAILS, 99, Err(CaptureFault::Line(2))),
    (b"C 0A\n", After::BeginsAgain, 999, Err(CaptureFault::Read)),
    (b"\n", After::BeginsAgain, 999, Err(CaptureFault::Read)),
    (b"#", After::BeginsAgain, 999, Err(CaptureFault::Read)),
];

#[test]
fn reads_to_an_end_within_the_limit(rt: HostRuntime) {
    for (text, after, limit, want) in CAPTURES {
        let source = Source {
            text,
            at: 0,
            after: *after,
        };
        assert!(rt; counted(rt.alloc(), source, *limit) == *want);
    }
}

/// How many chunks a capture has.
fn counted(alloc: Global, source: Source, limit: u64) -> Result<usize, CaptureFault> {
    match read_capture(alloc, source, limit) {
        Ok(chunks) => Ok(chunks.len()),
        Err(fault) => Err(fault),
    }
}
