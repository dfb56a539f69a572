//! A second look at the files of a run, behind the answer. What is no regular file can be read once alone, and is left alone.

ghost use Rattle.std.specs.Prelude.{◌≡◌, ◌-◌, IfSome, length};

use nbd_capture::CaptureReader;
use nbd_files::READ_LIMIT;
use nbd_wire::Side;
use std::alloc::Global;
use std::fs;
use std::fs::File;
use std::io::{BufRead, BufReader, Read};

/// A server's first bytes.
const MAGIC: &[u8] = b"NBDMAGIC";

/// Whether a file is empty.
pub fn is_empty(rt: &HostRuntime, path: &str) -> bool {
    match fs::metadata(rt, path) {
        Ok(found) => found.is_file() && found.len() == 0,
        Err(_) => false,
    }
}

/// Why a file that is there cannot be read, where the file system tells.
pub fn unreadable(rt: &HostRuntime, path: &str) -> Option<&'static str> {
    let found = fs::metadata(rt, path).ok()?;
    if found.is_dir() {
        Some("it is a directory")
    } else if found.len() > READ_LIMIT as u64 {
        Some("it has more than 1099511627776 bytes, the most that an input may have")
    } else {
        None
    }
}

/// Whether the client's first bytes in a capture are a server's.
pub fn is_exchanged(rt: &HostRuntime, path: &str) -> bool {
    match reopened(rt, path) {
        Some(file) => begins_as_server(CaptureReader::new(rt.alloc(), file, READ_LIMIT as u64)),
        None => false,
    }
}

// Whether the first bytes of the client are a server's, in however many chunks they stand.
fn begins_as_server(reader: CaptureReader<BufReader<File>>) -> bool {
    let mut reader = reader;
    let mut left = MAGIC;
    while let Ok(Some((side, bytes))) = reader.next_chunk() {
        if side == Side::Client {
            match behind(left, &bytes) {
                Some([]) => return true,
                Some(rest) => left = rest,
                None => return false,
            }
        }
    }
    false
}

// What is left of the wanted bytes behind those that came; None where others came.
fn behind<'a>(wanted: &'a [u8], came: &[u8]) -> Option<&'a [u8]>
    ensures { IfSome result (λ rest. length rest.now ≡ length wanted.now - length came.now) }
{
    let count = wanted.len().min(came.len());
    if wanted[..count] == came[..count] {
        Some(&wanted[count..])
    } else {
        None
    }
}

/// Whether a file begins as an answer that has no order.
pub fn is_answer(rt: &HostRuntime, path: &str) -> bool {
    let mut first = [0u8; 7];
    match read_first(rt, path, &mut first) {
        Some(_) => first.starts_with(b"no ") || first == *b"gave up",
        None => false,
    }
}

// Reads the first bytes of a file, and answers how many that were.
fn read_first(rt: &HostRuntime, path: &str, first: &mut [u8]) -> Option<usize> {
    reopened(rt, path)?.read(first).ok()
}

/// The line of a file with this number, counted from 1, with the line feed that ends it; empty behind the end.
pub fn line_of(rt: &HostRuntime, path: &str, number: u64) -> Option<Vec<u8>> {
    match reopened(rt, path) {
        Some(mut reader) => line_in(rt.alloc(), &mut reader, number),
        None => None,
    }
}

// The line with this number of those that are left.
fn line_in(alloc: Global, reader: &mut BufReader<File>, number: u64) -> Option<Vec<u8>> {
    let mut line = Vec::new(alloc);
    if read_line(reader, number, &mut line) {
        Some(line)
    } else {
        None
    }
}

// Reads that line, and answers whether nothing failed.
fn read_line(reader: &mut BufReader<File>, number: u64, line: &mut Vec<u8>) -> bool {
    for _ in 1..number {
        if reader.skip_until(b'\n').is_err() {
            return false;
        }
    }
    reader.read_until(b'\n', line).is_ok()
}

/// The line of a contents text with this number, with its line feed, behind the last line before it that tells something, without one.
pub fn lines_of(rt: &HostRuntime, path: &str, number: u64) -> Option<(Vec<u8>, Vec<u8>)> {
    match reopened(rt, path) {
        Some(mut reader) => lines_in(rt.alloc(), &mut reader, number),
        None => None,
    }
}

// The same of the lines that are left.
fn lines_in(
    alloc: Global,
    reader: &mut BufReader<File>,
    number: u64,
) -> Option<(Vec<u8>, Vec<u8>)> {
    let (mut before, mut line) = (Vec::new(alloc), Vec::new(alloc));
    if read_lines(reader, number, &mut before, &mut line) {
        Some((before, line))
    } else {
        None
    }
}

// Reads these two, and answers whether nothing failed.
fn read_lines(
    reader: &mut BufReader<File>,
    number: u64,
    before: &mut Vec<u8>,
    line: &mut Vec<u8>,
) -> bool {
    for _ in 1..number {
        line.clear();
        if reader.read_until(b'\n', line).is_err() {
            return false;
        }
        if !matches!(line.as_slice(), [] | [b'\n' | b'#', ..]) {
            line.pop();
            std::mem::swap(before, line);
        }
    }
    line.clear();
    reader.read_until(b'\n', line).is_ok()
}

// Opens a regular file once more.
fn reopened(rt: &HostRuntime, path: &str) -> Option<BufReader<File>> {
    if !fs::metadata(rt, path).ok()?.is_file() {
        return None;
    }
    BufReader::new(rt.alloc(), File::open(rt, path).ok()?).ok()
}
