//! Which files `check` opens, and in which order.
ghost use Rattle.std.specs.Prelude.{◌≡◌, ◌++◌, ◌∷◌, [], ℕ, List, Option, None, OnOk, IfOk, IfErr};
ghost use Rattle.nbd_files.specs.Opening.{AsksFor, IsAt, IsOpeningCause, IsOpeningFault, StartsAt, start_path};

use crate::command_line::StartWord;
use crate::fault::RunFault;
use crate::start::{Measured, StartFrom};
use std::io;

/// What opens files by their paths.
pub trait Opener {
    /// An opened file.
    type Input: Measured + Drop;

    /// The paths that it was asked for, in their order, where it tells them.
    ghost asked: { Self → Option (List (List ℕ)) } = { λ _. None };

    /// The path of an input, where that is told.
    ghost path_of: { Self.Input → Option (List ℕ) } = { λ _. None };

    /// Opens the file with this path.
    fn open(&mut self, path: &str) -> io::Result<Self::Input>
        ensures asked { AsksFor (asked self.old) (asked self.new) (path.now ∷ []) }
        ensures input { IfOk result (λ input. IsAt path_of input path.now) };
}

/// The inputs of `check`, none of which was read.
#[derive(Drop)]
pub struct Inputs<I> {
    pub capture: I,
    pub order: I,
    pub start: StartFrom<I>,
}

/// Opens the capture, then the order, then the image or the contents text, if there is one. The first that cannot be opened gives the fault of a reader of
/// its kind, and none is opened after it.
pub fn open_inputs<O: Opener>(
    opener: &mut O,
    capture: &str,
    order: &str,
    start: StartWord<'_>,
) -> Result<Inputs<O::Input>, RunFault>
    ensures asked { OnOk result (AsksFor (O.asked opener.old) (O.asked opener.new)
        (capture.now ∷ order.now ∷ start_path start.entry)) }
    ensures paths { IfOk result (λ inputs. IsAt O.path_of inputs.capture capture.now
        × IsAt O.path_of inputs.order order.now × StartsAt O.path_of start.entry inputs.start) }
    ensures cause { IfErr result
        (IsOpeningCause (O.asked opener.old) (O.asked opener.new) capture.now order.now start.entry) }
{
    let Ok(capture) = opener.open(capture) else {
        return Err(RunFault::CaptureRead);
    };
    let Ok(order) = opener.open(order) else {
        return Err(RunFault::OrderRead);
    };
    let start = open_start(opener, start)?;
    Ok(Inputs {
        capture,
        order,
        start,
    })
}

/// Opens the image or the contents text, if the start is one.
pub fn open_start<O: Opener>(
    opener: &mut O,
    start: StartWord<'_>,
) -> Result<StartFrom<O::Input>, RunFault>
    ensures asked { AsksFor (O.asked opener.old) (O.asked opener.new) (start_path start.entry) }
    ensures paths { IfOk result (λ opened. StartsAt O.path_of start.entry opened) }
    ensures cause { IfErr result (IsOpeningFault start.entry) }
{
    match start {
        StartWord::Unknown => Ok(StartFrom::Unknown),
        StartWord::Zero => Ok(StartFrom::Zeroes),
        StartWord::Image(path) => match opener.open(path) {
            Ok(image) => Ok(StartFrom::Image(image)),
            Err(_) => Err(RunFault::ImageRead),
        },
        StartWord::Contents(path) => match opener.open(path) {
            Ok(text) => Ok(StartFrom::Contents(text)),
            Err(_) => Err(RunFault::ContentsRead),
        },
    }
}
