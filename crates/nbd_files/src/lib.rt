//! What the commands need that knows no session and no message: the words of a command line, how files are opened and read,
//! and why a run has no answer.
//!
//! Which words and faults there are is this project's choice.
#![tactic(auto)]

pub mod command_line;
pub mod fault;
pub mod files;
mod final_writer;
pub mod input;
pub mod laws;
pub mod opening;
pub mod saying;
pub mod start;

pub use command_line::{StartWord, exit_status, start_of};
pub use fault::RunFault;
pub use files::Files;
pub use final_writer::FinalWriter;
pub use input::{PORTION, READ_LIMIT, ReadFault, Text, read_whole, read_within};
pub use opening::{Inputs, Opener, open_inputs, open_start};
pub use saying::{complain, refuse_words, tell, terminal};
pub use start::{Measured, StartFrom};
