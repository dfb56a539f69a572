//! The line that states a verdict.
ghost use Rattle.std.specs.{Prelude.{◌≡◌, ◌↔◌, ◌⊎◌, IfErr, IfOk, IsTrue, OnOk}, Io.KnownBytes.{Appends, Keeps}};
ghost use Rattle.nbd_capture.specs.Writing.{AppendsPrefix};
ghost use Rattle.nbd_tool.specs.{Verdicts.{IsYes, fault_name, line, order_fault_name, words}, internal.parts_words};
ghost use Rattle.nbd_files.specs.declared.fault.RunFault.TheVariants.{Memory, Write};

use nbd_capture::write_whole;
use nbd_files::RunFault;
use nbd_judge::{OrderFault, Verdict};
use nbd_session::WireFault;
use std::alloc::{AllocError, Global};
use std::fmt;
use std::io::Write;

/// Whether a verdict is yes.
pub fn is_yes(verdict: &Verdict) -> bool
    ensures { IsTrue result ↔ IsYes verdict.now }
{
    matches!(verdict, Verdict::Yes { .. })
}

/// Writes a verdict's line, and answers whether the verdict is yes. After `Write` a prefix of the line stands written, after
/// `Memory` nothing of it.
pub fn write_verdict<W: Write>(
    alloc: Global,
    verdict: Verdict,
    out: &mut W,
) -> Result<bool, RunFault>
    ensures answer { IfOk result (λ yes. IsTrue yes ↔ IsYes verdict) }
    ensures written { OnOk result (Appends (W.contents out.old) (W.contents out.new) (line verdict)) }
    ensures left { IfErr result (λ fault. (fault ≡ Write) × AppendsPrefix (W.contents out.old) (W.contents out.new) (line verdict)
        ⊎ (fault ≡ Memory) × Keeps (W.contents out.old) (W.contents out.new)) }
{
    let line = line_of(alloc, verdict)?;
    write_whole(out, line.as_bytes())?;
    Ok(is_yes(&verdict))
}

/// A verdict's line. An `Err` says that memory ran out.
pub fn line_of(alloc: Global, verdict: Verdict) -> Result<String, AllocError>
    ensures { IfOk result (λ text. text.bytes.items ≡ line verdict) }
{
    format!(in alloc; "{}\n", Line { verdict })
}

/// A verdict as its line has it, without the line feed.
#[derive(Clone, Copy, Drop)]
pub struct Line {
    pub verdict: Verdict,
}

impl fmt::Display for Line {
    ghost use Rattle.std.specs.Prelude.{Some};
    ghost use Rattle.nbd_tool.specs.Verdicts.{words};

    ghost output = { λ line. Some (words line.verdict) };

    fn fmt<W: fmt::Write>(&self, f: &mut fmt::Formatter<W>) -> fmt::Result {
        parts_of(self.verdict).fmt(f)
    }
}

/// The words of a verdict's line, of which only the rest differs in form.
#[derive(Clone, Copy, Drop)]
struct Parts {
    first: &'static str,
    number: u64,
    second: &'static str,
    rest: Rest,
}

/// What such words end with.
#[derive(Clone, Copy, Drop)]
enum Rest {
    /// A name.
    Name(&'static str),
    /// A number.
    Number(u64),
    /// How many requests were answered, and how many of them were improper.
    Counts(u64, u64),
}

// The parts of a verdict's words.
fn parts_of(verdict: Verdict) -> Parts
    ensures { parts_words result ≡ words verdict }
{
    match verdict {
        Verdict::Yes {
            requests,
            answered,
            improper,
        } => Parts {
            first: "yes requests ",
            number: requests,
            second: " answered ",
            rest: Rest::Counts(answered, improper),
        },
        Verdict::Wire { at, fault } => Parts {
            first: "no at byte ",
            number: at,
            second: ": ",
            rest: Rest::Name(fault_name(fault)),
        },
        Verdict::Image { image, size } => Parts {
            first: "no image ",
            number: image,
            second: " size ",
            rest: Rest::Number(size),
        },
        Verdict::Order { entry, fault } => Parts {
            first: "no order entry ",
            number: entry,
            second: ": ",
            rest: Rest::Name(order_fault_name(fault)),
        },
        Verdict::Content { request, offset } => Parts {
            first: "no content request ",
            number: request,
            second: " offset ",
            rest: Rest::Number(offset),
        },
        Verdict::Status { request, offset } => Parts {
            first: "no status request ",
            number: request,
            second: " offset ",
            rest: Rest::Number(offset),
        },
    }
}

impl fmt::Display for Parts {
    ghost use Rattle.std.specs.Prelude.{Some};
    ghost use Rattle.nbd_tool.specs.internal.{parts_words};

    ghost output = { λ parts. Some (parts_words parts) };

    fn fmt<W: fmt::Write>(&self, f: &mut fmt::Formatter<W>) -> fmt::Result {
        write!(
            f,
            "{}{}{}{}",
            self.first, self.number, self.second, self.rest
        )
    }
}

impl fmt::Display for Rest {
    ghost use Rattle.std.specs.Prelude.{Some};
    ghost use Rattle.nbd_tool.specs.internal.{rest_words};

    ghost output = { λ rest. Some (rest_words rest) };

    fn fmt<W: fmt::Write>(&self, f: &mut fmt::Formatter<W>) -> fmt::Result {
        match *self {
            Rest::Name(name) => f.write_str(name),
            Rest::Number(number) => number.fmt(f),
            Rest::Counts(answered, improper) => write!(f, "{answered} improper {improper}"),
        }
    }
}

/// The name of a wire fault.
fn fault_name(fault: WireFault) -> &'static str
    ensures { result.now ≡ fault_name fault }
{
    match fault {
        WireFault::BadMagic => "BadMagic",
        WireFault::NotFixedNewstyle => "NotFixedNewstyle",
        WireFault::BadClientFlags => "BadClientFlags",
        WireFault::OutOfTurn => "OutOfTurn",
        WireFault::WrongOption => "WrongOption",
        WireFault::BadReplyKind => "BadReplyKind",
        WireFault::OutOfProfile => "OutOfProfile",
        WireFault::BadReplyPayload => "BadReplyPayload",
        WireFault::MissingExportInfo => "MissingExportInfo",
        WireFault::BadExport => "BadExport",
        WireFault::ExportTooLarge => "ExportTooLarge",
        WireFault::CookieInUse => "CookieInUse",
        WireFault::UnknownCookie => "UnknownCookie",
        WireFault::SimpleForbidden => "SimpleForbidden",
        WireFault::ChunkForbidden => "ChunkForbidden",
        WireFault::BadChunk => "BadChunk",
        WireFault::BadContent => "BadContent",
        WireFault::IncompleteRead => "IncompleteRead",
        WireFault::SuccessOfImproper => "SuccessOfImproper",
        WireFault::BadDisconnect => "BadDisconnect",
        WireFault::Unfinished => "Unfinished",
        WireFault::IncompleteStatus => "IncompleteStatus",
        WireFault::BadReplyOffset => "BadReplyOffset",
    }
}

/// The name of an order's fault.
fn order_fault_name(fault: OrderFault) -> &'static str
    ensures { result.now ≡ order_fault_name fault }
{
    match fault {
        OrderFault::NoSuchRequest => "NoSuchRequest",
        OrderFault::Twice => "Twice",
        OrderFault::Late => "Late",
        OrderFault::Missing => "Missing",
        OrderFault::BadPart => "BadPart",
        OrderFault::NotCovered => "NotCovered",
    }
}
