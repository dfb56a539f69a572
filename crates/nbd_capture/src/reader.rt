//! Reading a capture chunk by chunk.

ghost use Rattle.std.specs.Prelude.{◌≡◌, ◌≢◌, ◌+◌, ◌<◌, ◌∷◌, [], Err, IfErr, IfOk, IfSome, None, Ok, Some, length};
ghost use Rattle.nbd_wire.specs.declared.message.Side.{Side};
ghost use Rattle.nbd_capture.specs.declared.capture.CaptureFault.{CaptureFault};

use crate::capture::CaptureFault;
use crate::source::Source;
use nbd_wire::Side;
use std::alloc::Global;
use std::io::BufRead;
use std::marker::Model;

/// Whether a capture reader has more to read.
#[derive(Clone, Copy)]
pub enum State {
    /// It may have.
    Open,
    /// The text ended, and all of it was well formed.
    Ended,
    /// Reading failed, for good.
    Failed(CaptureFault),
}

/// A capture that is read chunk by chunk, from a reader that gives it in whatever pieces.
///
/// A capture is a sequence of lines, each ended by LF. A chunk line is `C` for the client or `S` for the
/// server, one space, and two hexadecimal digits of either case for each byte. An empty line and one that
/// begins with `#` say nothing. This format is this project's choice.
///
/// In a contract it is what it has still to read (`specs/Reading.antt`): the bytes that its reader has left,
/// where these are known, how many bytes these may be, how many lines were read, and its state.
///
/// A line is judged when its LF was read, or where the text ends. The memory is that of one line's bytes and grows
/// with the bytes that come; empty lines and comments take none.
#[derive(Drop)]
pub struct CaptureReader<R: BufRead> {
    alloc: Global,
    source: Source<R>,
    state: State,
}

impl<R: BufRead> Model for CaptureReader<R> {
    ghost use Rattle.nbd_capture.specs.Reading.{Reading};

    ghost Value = { Reading };

    ghost use Rattle.nbd_capture.specs.internal.Pieces.{reading};

    ghost view = { λ r. reading R.remaining r.source r.state };
}

impl<R: BufRead> CaptureReader<R> {
    ghost use Rattle.nbd_capture.specs.{Capture.chunk_of, Reading.{IsReaderFault, Reads, ReadsToEnd, at_start, state_after}, declared.reader.State.TheVariants.{Ended, Failed, Open}};

    /// A reader of a capture that may have `limit` bytes. It reads nothing yet, and takes no memory.
    pub fn new(alloc: Global, reader: R, limit: u64) -> CaptureReader<R>
        ensures { result ≡ at_start (R.remaining reader) limit }
    {
        CaptureReader {
            alloc,
            source: Source::new(reader, limit),
            state: State::Open,
        }
    }

    /// The side and the bytes of the next chunk line, in a vector of their own; `None` where the text ends.
    ///
    /// `None` and each fault are given for good: each later call gives them again and reads nothing.
    /// - `Line`: the line with this number is the first bad one of the text. No chunk was passed over.
    /// - `Read`: the reader failed, or the text has more than `limit` bytes. Every error of the reader is a
    ///   fault, an interruption too, and nothing is tried again. The chunks whose lines stand whole before the
    ///   failure or within the limit were given first.
    /// - `Memory`: an allocation was refused.
    pub fn next_chunk(&mut self) -> Result<Option<(Side, Vec<u8>)>, CaptureFault>
        ensures chunk { IfOk result (λ said. IfSome said (λ c. Reads self.old self.new (chunk_of c ∷ []))) }
        ensures end { self.old.state ≡ Open → result ≡ Ok None → ReadsToEnd self.old self.new [] }
        ensures fault { self.old.state ≡ Open → IfErr result (IsReaderFault self.old self.new) }
        ensures state { self.new.state ≡ state_after result }
        ensures ended { self.old.state ≡ Ended → (result ≡ Ok None) × (self.new ≡ self.old) }
        ensures failed { (fault : CaptureFault) → self.old.state ≡ Failed fault → (result ≡ Err fault)
            × (self.new ≡ self.old) }
        ensures shrinks { IfOk result (λ said. IfSome said
            (λ c. length c.1.items + self.new.room < self.old.room)) }
    {
        let mut bytes = Vec::new(self.alloc);
        match self.next_into(&mut bytes) {
            Ok(Some(side)) => Ok(Some((side, bytes))),
            Ok(None) => Ok(None),
            Err(fault) => Err(fault),
        }
    }

    /// The same with the chunk's bytes in `bytes`, in place of what it held, and in its memory where that is
    /// enough. After `None` and after a fault `bytes` is empty.
    pub fn next_into(&mut self, bytes: &mut Vec<u8>) -> Result<Option<Side>, CaptureFault>
        ensures chunk { IfOk result (λ said. IfSome said
            (λ side. Reads self.old self.new (record { side = side; bytes = bytes.new.items } ∷ []))) }
        ensures end { self.old.state ≡ Open → result ≡ Ok None → ReadsToEnd self.old self.new [] }
        ensures fault { self.old.state ≡ Open → IfErr result (IsReaderFault self.old self.new) }
        ensures state { self.new.state ≡ state_after result }
        ensures ended { self.old.state ≡ Ended → (result ≡ Ok None) × (self.new ≡ self.old) }
        ensures failed { (fault : CaptureFault) → self.old.state ≡ Failed fault → (result ≡ Err fault)
            × (self.new ≡ self.old) }
        ensures shrinks { IfOk result (λ said. IfSome said
            (λ side. length bytes.new.items + self.new.room < self.old.room)) }
        ensures empty { state_after result ≢ Open → bytes.new.items ≡ [] }
    {
        let said = match self.state {
            State::Open => self.source.read_chunk(bytes),
            State::Ended => Ok(None),
            State::Failed(fault) => Err(fault),
        };
        match said {
            Ok(Some(_)) => {}
            Ok(None) => {
                bytes.clear();
                self.state = State::Ended;
            }
            Err(fault) => {
                bytes.clear();
                self.state = State::Failed(fault);
            }
        }
        said
    }
}
