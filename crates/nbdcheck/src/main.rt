//! `nbdcheck` checks recorded sessions between an NBD client and an NBD server.
#![tactic(auto)]

mod command;
mod files;

use std::process::ExitCode;

fn main(rt: HostRuntime) -> ExitCode {
    ExitCode::from(command::run(&rt))
}
