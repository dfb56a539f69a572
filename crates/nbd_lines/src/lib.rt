//! Messages as lines of text, scripts of such lines and `make`; and the printing of chunk lines and of contents.
//!
//! Which lines there are is this project's choice.
#![tactic(auto)]

pub mod chunk_writing;
pub mod contents_writing;
mod fields;
pub mod forms;
pub mod laws;
mod make_command;
pub mod making;
pub mod output;
mod parts;
pub mod printing;
pub mod reading;
pub mod script;

pub use chunk_writing::write_chunk;
pub use contents_writing::write_contents;
pub use make_command::run_make;
pub use making::{MakeFault, make};
pub use output::{OutputFault, show, show_by, write_chunks};
pub use printing::append_line;
pub use reading::parse_message;
pub use script::{ScriptFault, parse_script};
