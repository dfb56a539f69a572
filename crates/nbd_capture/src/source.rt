//! A capture that is read line by line, from a reader that gives it in whatever pieces.

ghost use Rattle.std.specs.Prelude.{◌+◌, ◌<◌, ◌≤◌, ◌^◌, length};
ghost use Rattle.nbd_capture.specs.internal.{IsPartOf};

use crate::capture::CaptureFault;
use crate::form::Form;
use crate::lines::first_line;
use nbd_wire::Side;
use std::io::BufRead;

// What one look at a reader's bytes gave.
enum Piece {
    // A part of a line, without its LF.
    Part,
    // The last part of a line, and its LF was read too.
    Last,
    // Nothing: the text ends.
    End,
}

// What stood where a line was to be read.
enum Ending {
    // A line, and its LF.
    LineFeed,
    // The text ends: the line is what stood there, without an LF, possibly nothing.
    Text,
}

// A text and its current line.
#[derive(Drop)]
pub(crate) struct Source<R> {
    reader: R,
    // How many more bytes the text may have.
    room: u64,
    // How many lines were read.
    lines: u64,
    line: Form,
    ghost countable: { lines + room < 2 ^ 64 },
}

impl<R: BufRead> Source<R> {
    ghost use Rattle.std.specs.Prelude.{◌≡◌, IfOk, IfSome};
    ghost use Rattle.nbd_capture.specs.{declared.reader.State.TheVariants.Open, Reading.at_start, internal.{kept, Pieces.{IsAnswer, IsLine, IsPiece, reading}}};

    // A text that may have `limit` bytes. It takes no memory and reads nothing yet.
    pub(crate) fn new(reader: R, limit: u64) -> Source<R>
        ensures { reading R.remaining result Open ≡ at_start (R.remaining reader) limit }
    {
        Source {
            reader,
            room: limit,
            lines: 0,
            line: Form::Empty,
        }
    }

    // Reads lines up to one that stands for a chunk, whose bytes `bytes` then are, or to the end.
    pub(crate) fn read_chunk(&mut self, bytes: &mut Vec<u8>) -> Result<Option<Side>, CaptureFault>
        ensures answer { IsAnswer (reading R.remaining self.old Open) (reading R.remaining self.new Open)
            bytes.new.items result }
        ensures shrinks { IfOk result (λ said. IfSome said
            (λ side. length bytes.new.items + self.new.room < self.old.room)) }
    {
        loop {
            match self.read_line(bytes)? {
                Ending::LineFeed => {}
                Ending::Text if self.line.is_empty() => return Ok(None),
                Ending::Text => return Err(CaptureFault::Line(self.lines + 1)),
            }
            if let Some(side) = self.line.sender(self.lines)? {
                return Ok(Some(side));
            }
        }
    }

    // Reads a line, whose digits spell the bytes then.
    fn read_line(&mut self, bytes: &mut Vec<u8>) -> Result<Ending, CaptureFault>
        ensures { IsLine (reading R.remaining self.old Open) (reading R.remaining self.new Open)
            (kept self.new.line bytes.new.items) result }
    {
        self.line = Form::Empty;
        bytes.clear();
        loop {
            match self.read_piece(bytes)? {
                Piece::Part => {}
                Piece::Last => return Ok(Ending::LineFeed),
                Piece::End => return Ok(Ending::Text),
            }
        }
    }

    // Reads what the reader has at hand of a line. Memory comes first, so that a refusal loses no byte.
    fn read_piece(&mut self, bytes: &mut Vec<u8>) -> Result<Piece, CaptureFault>
        ensures { IsPiece (reading R.remaining self.old Open) (reading R.remaining self.new Open)
            (kept self.old.line bytes.old.items) (kept self.new.line bytes.new.items) result }
    {
        let Ok(shown) = self.reader.fill_buf() else {
            return Err(CaptureFault::Read);
        };
        if shown.is_empty() {
            return Ok(Piece::End);
        }
        let within = &shown[..shown.len().min(self.room as usize)];
        if within.is_empty() {
            return Err(CaptureFault::Read);
        }
        let (part, read, ends) = part_of(within);
        self.line = self.line.with(part, bytes)?;
        self.reader.consume(read);
        self.room -= read as u64;
        if ends {
            self.lines += 1;
            Ok(Piece::Last)
        } else {
            Ok(Piece::Part)
        }
    }
}

// What stands at hand of a line, up to its LF: its bytes, how many these are with the LF, and whether the LF is there.
fn part_of(at_hand: &[u8]) -> (&[u8], usize, bool)
    ensures part { IsPartOf at_hand.now result.0.now result.1 result.2 }
    ensures within { result.1 ≤ length at_hand.now }
{
    match first_line(at_hand) {
        Some((part, _)) => (part, part.len() + 1, true),
        None => (at_hand, at_hand.len(), false),
    }
}
