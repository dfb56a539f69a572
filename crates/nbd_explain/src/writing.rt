//! A verdict's line with its explanation, and how a text is written that was made before.

ghost use Rattle.std.specs.{Prelude.{◌≡◌, ℕ, IfErr, IfOk}, Io.KnownBytes.Appends};
ghost use Rattle.nbd_files.specs.declared.fault.RunFault.TheVariants.{Write};
ghost use Rattle.nbd_wire.specs.protocol.Explains as definitions;
ghost use Rattle.nbd_tool.specs.{Beginnings.IsReadAs, Verdicts.line};
ghost use Rattle.nbd_explain.specs.{Answering.IsAnswerTo, internal.Lines.Begins};

use crate::answer::{Answer, verdict_answer};
use nbd_capture::write_whole;
use nbd_export::Start;
use nbd_files::RunFault;
use nbd_judge::Verdict;
use nbd_story::{Sources, explanation_of};
use nbd_tool::{Beginning, Line};
use std::alloc::{AllocError, Global};
use std::io::Write;

/// A verdict's line with the explanation behind it, and the answer.
pub fn told_verdict(
    alloc: Global,
    verdict: Verdict,
    sources: Sources<'_>,
) -> Result<(String, Answer), AllocError>
    ensures answer { IfOk result (λ told. IsAnswerTo verdict told.1) }
    ensures begins { IfOk result (λ told. Begins (line verdict) told.0.bytes.items) }
{
    let explanation = explanation_of(alloc, &verdict, sources)?;
    let text = format!(in alloc; "{}\n{}", Line { verdict }, explanation)?;
    Ok((text, verdict_answer(&verdict)))
}

/// Writes a text, and gives the answer that goes with it.
pub fn write_told<A: Drop, W: Write>(told: (String, A), out: &mut W) -> Result<A, RunFault>
    ensures written { IfOk result (λ answer. (answer ≡ told.1)
        × Appends (W.contents out.old) (W.contents out.new) told.0.bytes.items) }
    ensures fault { IfErr result (λ fault. fault ≡ Write) }
{
    let (text, answer) = told;
    write_whole(out, text.as_bytes())?;
    Ok(answer)
}

/// A beginning once more, since what judges takes it. They share an image.
pub fn copy_of(beginning: &Beginning) -> Result<Beginning, AllocError>
    ensures { IfOk result (λ copy. (room : ℕ) (initial : definitions.Start) →
        IsReadAs room initial beginning.now → IsReadAs room initial copy) }
{
    match beginning {
        Beginning::Whole(Start::Unknown) => Ok(Beginning::Whole(Start::Unknown)),
        Beginning::Whole(Start::Zeroes) => Ok(Beginning::Whole(Start::Zeroes)),
        Beginning::Whole(Start::Image(image)) => Ok(Beginning::Whole(Start::Image(image.clone()?))),
        Beginning::Whole(Start::Contents(contents)) => {
            Ok(Beginning::Whole(Start::Contents(contents.clone()?)))
        }
        Beginning::Longer(image) => Ok(Beginning::Longer(*image)),
    }
}

/// What the export held at first, where that was kept.
pub fn kept_of(beginning: &Beginning) -> Option<&Start> {
    match beginning {
        Beginning::Whole(start) => Some(start),
        Beginning::Longer(_) => None,
    }
}
