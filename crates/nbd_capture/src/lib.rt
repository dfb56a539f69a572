//! The texts that the checker reads: captures, service orders and contents.
//!
//! A text is a sequence of lines, each ended by LF. Which lines there are is this project's choice.
#![tactic(auto)]

pub mod capture;
pub mod contents;
mod contents_line;
mod form;
pub mod laws;
mod lines;
pub mod order;
pub mod reader;
mod source;
pub mod writing;

pub use capture::CaptureFault;
pub use contents::{ContentsFault, parse_contents};
pub use lines::first_line;
pub use order::{OrderTextFault, parse_order};
pub use reader::CaptureReader;
pub use writing::{WriteFault, write_whole};
