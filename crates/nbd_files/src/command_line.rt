//! What the words of a command line name, and with which exit status it ends.
ghost use Rattle.std.specs.Prelude.{◌≡◌};
ghost use Rattle.nbd_files.specs.CommandLine.{IsNamed, exit_status};

use crate::fault::RunFault;

/// What the export held when the session began, as a word names it.
#[derive(Clone, Copy)]
pub enum StartWord<'a> {
    Unknown,
    Zero,
    /// The path of an image.
    Image(&'a str),
    /// The path of a contents text.
    Contents(&'a str),
}

/// The start that this word names, if it names one: `unknown`, `zero`, or `image:` or `contents:` and a path, which may be
/// empty.
pub fn start_of(word: &str) -> Option<StartWord<'_>>
    ensures { IsNamed word.now result }
{
    match word {
        "unknown" => Some(StartWord::Unknown),
        "zero" => Some(StartWord::Zero),
        _ => match word.strip_prefix("image:") {
            Some(path) => Some(StartWord::Image(path)),
            None => word.strip_prefix("contents:").map(StartWord::Contents),
        },
    }
}

/// The exit status of an answer: 0 of a yes, 1 of a no, and that of a fault.
pub fn exit_status(answer: &Result<bool, RunFault>) -> u8
    ensures { result ≡ exit_status answer.now }
{
    match answer {
        Ok(true) => 0,
        Ok(false) => 1,
        Err(fault) => fault.status(),
    }
}
