//! A writer of lines that makes an object of each, where objects are wanted.

use crate::members::{tell_fields, tell_line, tell_words};
use crate::object::Object;
use memchr::memchr;
use std::alloc::{AllocError, Global};
use std::io;
use std::io::{ErrorKind, Write};

/// Stands in the first object. A change that a reader of the objects would not bear raises it.
const FORMAT: u64 = 1;

/// Which lines are told as objects.
#[derive(Clone, Copy, Drop)]
pub enum Lines {
    /// None: all is written as it comes.
    Plain,
    /// Those of `show`.
    Messages,
    /// Those of `show --names`.
    Words,
    /// Those of the other commands.
    Others,
}

/// A writer of lines, which writes an object for each, or what it is given where no object is wanted.
#[derive(Drop)]
pub struct Objects<W> {
    alloc: Global,
    writer: W,
    lines: Lines,
    /// The line that has begun.
    line: Vec<u8>,
    is_first: bool,
    /// Memory was refused.
    is_refused: bool,
}

impl<W: Write> Objects<W> {
    /// One over this writer; takes no memory.
    pub fn new(alloc: Global, writer: W, lines: Lines) -> Objects<W> {
        Objects {
            alloc,
            writer,
            lines,
            line: Vec::new(alloc),
            is_first: true,
            is_refused: false,
        }
    }

    /// Whether memory was refused for an object, which then was not written.
    pub fn is_refused(&self) -> bool {
        self.is_refused
    }

    // Takes more of a line.
    fn add(&mut self, bytes: &[u8]) -> io::Result<()> {
        match self.line.extend_from_slice(bytes) {
            Ok(()) => Ok(()),
            Err(refused) => self.refuse(refused),
        }
    }

    // The object of the line that has come.
    fn object(&self) -> Result<Vec<u8>, AllocError> {
        let line = str::from_utf8(&self.line).unwrap_or("");
        object_of(self.alloc, line, self.lines, self.is_first)
    }

    // Writes it.
    fn put(&mut self) -> io::Result<()> {
        match self.object() {
            Ok(object) => {
                self.line.clear();
                self.is_first = false;
                self.writer.write_all(&object)
            }
            Err(refused) => self.refuse(refused),
        }
    }

    fn refuse(&mut self, _: AllocError) -> io::Result<()> {
        self.is_refused = true;
        Err(ErrorKind::OutOfMemory.into())
    }
}

impl<W: Write> Write for Objects<W> {
    // (up to the end of a line)
    fn write(&mut self, buf: &[u8]) -> io::Result<usize> {
        if let Lines::Plain = self.lines {
            return self.writer.write(buf);
        }
        match memchr(b'\n', buf) {
            Some(place) => {
                self.add(&buf[..place])?;
                self.put()?;
                Ok(place + 1)
            }
            None => {
                self.add(buf)?;
                Ok(buf.len())
            }
        }
    }

    fn flush(&mut self) -> io::Result<()> {
        self.writer.flush()
    }
}

// The object of a line; the first one tells the format.
fn object_of(
    alloc: Global,
    line: &str,
    lines: Lines,
    is_first: bool,
) -> Result<Vec<u8>, AllocError> {
    let mut object = Object::new(alloc);
    if is_first {
        object.number("format", FORMAT);
    }
    match (lines, side_of(line)) {
        (Lines::Messages, Some((side, fields))) => {
            object.text("side", side);
            tell_fields(alloc, fields, &mut object);
        }
        (Lines::Words, Some((side, words))) => {
            object.text("side", side);
            tell_words(alloc, words, &mut object);
        }
        _ => tell_line(alloc, line, &mut object),
    }
    object.line()
}

// The side of a message, and its line behind that.
fn side_of(line: &str) -> Option<(&'static str, &str)> {
    match line.split_once(" ")? {
        ("C", behind) => Some(("client", behind)),
        ("S", behind) => Some(("server", behind)),
        _ => None,
    }
}
