//! Why a run of the program has no answer.
ghost use Rattle.std.specs.Prelude.{◌≡◌};
ghost use Rattle.nbd_files.specs.{RunFaults.{of_capture, of_contents, of_order, status}, internal.{line_of, name_of}};

use nbd_capture::{CaptureFault, ContentsFault, OrderTextFault, WriteFault};
use std::alloc::AllocError;
use std::fmt;
use thiserror::Error;

/// Why a run gave no answer. The text goes to standard error. Nothing was written, but for `Write` and
/// `Memory`.
#[derive(Drop, Error)]
pub enum RunFault {
    /// The capture's line with this number, counted from 1, is malformed, or no line feed
    /// ends it.
    CaptureLine(u64),
    /// The capture could not be opened or read, or has more bytes than `READ_LIMIT`.
    CaptureRead,
    /// The order's line with this number, counted from 1, is malformed, or no line feed ends it.
    OrderLine(u64),
    /// The order could not be opened or read, or has more bytes than `READ_LIMIT`.
    OrderRead,
    /// The image could not be opened or read, or has more bytes than `READ_LIMIT`.
    ImageRead,
    /// The contents text's line with this number, counted from 1, is malformed or does not begin where the one before ended,
    /// or no line feed ends it; or it is missing, since the text ends before its size is reached.
    ContentsLine(u64),
    /// The contents text could not be opened or read, or has more bytes than `READ_LIMIT`.
    ContentsRead,
    /// The file that contents are compared with could not be opened or read, or has 2^63 bytes or more.
    AgainstRead,
    /// The script's line with this number, counted from 1, is malformed, or no line feed ends it, or its
    /// message has no encoding.
    ScriptLine(u64),
    /// The script could not be opened or read, or has more bytes than `READ_LIMIT`.
    ScriptRead,
    /// The output could not be written whole. A prefix of it stands written.
    Write,
    /// A growth of memory was refused. Of `run_check` nothing stands written, of `run_show`, `run_names` and `run_make`
    /// a prefix of the message lines or chunk lines, possibly nothing.
    Memory,
}

// As it is printed, which is less to prove than what a derived one writes.
impl fmt::Debug for RunFault {
    fn fmt<W: fmt::Write>(&self, f: &mut fmt::Formatter<W>) -> fmt::Result {
        fmt::Display::fmt(self, f)
    }
}

impl RunFault {
    /// The exit status of a run with this fault: 4 for out of memory, else 3.
    pub fn status(&self) -> u8
        ensures { result ≡ status self.now }
    {
        match self {
            RunFault::Memory => 4,
            _ => 3,
        }
    }

    // What the fault was met in.
    fn name(&self) -> &'static str
        ensures { result.now ≡ name_of self.now }
    {
        match self {
            RunFault::CaptureLine(_) => "capture",
            RunFault::CaptureRead => "capture read",
            RunFault::OrderLine(_) => "order",
            RunFault::OrderRead => "order read",
            RunFault::ImageRead => "image read",
            RunFault::ContentsLine(_) => "contents",
            RunFault::ContentsRead => "contents read",
            RunFault::AgainstRead => "against read",
            RunFault::ScriptLine(_) => "script",
            RunFault::ScriptRead => "script read",
            RunFault::Write => "write",
            RunFault::Memory => "memory",
        }
    }

    // The number of the malformed line, of a fault that has one.
    fn line(&self) -> Option<u64>
        ensures { result ≡ line_of self.now }
    {
        match self {
            RunFault::CaptureLine(number) => Some(*number),
            RunFault::OrderLine(number) => Some(*number),
            RunFault::ContentsLine(number) => Some(*number),
            RunFault::ScriptLine(number) => Some(*number),
            _ => None,
        }
    }
}

impl fmt::Display for RunFault {
    ghost use Rattle.std.specs.Prelude.{Some};
    ghost use Rattle.nbd_files.specs.RunFaults.{words};

    ghost output = { λ fault. Some (words fault) };

    fn fmt<W: fmt::Write>(&self, f: &mut fmt::Formatter<W>) -> fmt::Result {
        let name = self.name();
        match self.line() {
            Some(number) => write!(f, "fault {name} line {number}"),
            None => write!(f, "fault {name}"),
        }
    }
}

impl From<AllocError> for RunFault {
    ghost use Rattle.nbd_files.specs.declared.fault.RunFault.TheVariants.{Memory};

    ghost from_gives = { λ _ fault. fault ≡ Memory };

    fn from(_: AllocError) -> RunFault {
        RunFault::Memory
    }
}

impl From<CaptureFault> for RunFault {
    ghost from_gives = { λ fault run. run ≡ of_capture fault };

    fn from(fault: CaptureFault) -> RunFault {
        match fault {
            CaptureFault::Line(number) => RunFault::CaptureLine(number),
            CaptureFault::Read => RunFault::CaptureRead,
            CaptureFault::Memory => RunFault::Memory,
        }
    }
}

impl From<OrderTextFault> for RunFault {
    ghost from_gives = { λ fault run. run ≡ of_order fault };

    fn from(fault: OrderTextFault) -> RunFault {
        match fault {
            OrderTextFault::Line(number) => RunFault::OrderLine(number),
            OrderTextFault::Memory => RunFault::Memory,
        }
    }
}

impl From<ContentsFault> for RunFault {
    ghost from_gives = { λ fault run. run ≡ of_contents fault };

    fn from(fault: ContentsFault) -> RunFault {
        match fault {
            ContentsFault::Line(number) => RunFault::ContentsLine(number),
            ContentsFault::Memory => RunFault::Memory,
        }
    }
}

impl From<WriteFault> for RunFault {
    ghost use Rattle.nbd_files.specs.declared.fault.RunFault.TheVariants.{Write};

    ghost from_gives = { λ _ fault. fault ≡ Write };

    fn from(_: WriteFault) -> RunFault {
        RunFault::Write
    }
}
