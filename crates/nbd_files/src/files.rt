//! The files of the system: how they are opened, and what is said where that fails.

ghost use Rattle.std.specs.Prelude.{◌≡◌};
ghost use Rattle.nbd_files.specs.CommandLine.{exit_status};

use crate::command_line::exit_status;
use crate::fault::RunFault;
use crate::opening::Opener;
use crate::saying::tell;
use std::fmt::Display;
use std::fs::File;
use std::io;
use std::io::{BufReader, IsTerminal};
use std::os::unix::fs::{FileTypeExt, MetadataExt};

/// Why a pipe is not opened again.
const SPENT: &str = "it is a pipe that another input is read from, and can be read once";

/// The files of the system.
#[derive(Drop)]
pub struct Files<'a> {
    pub rt: &'a HostRuntime,
    // Reasons are wanted off a terminal too.
    is_hinted: bool,
    /// Which file could not be opened, and why.
    refused: Option<String>,
    /// The pipes that were opened, by their devices and inodes: what is in one can be read once.
    pipes: Vec<(u64, u64)>,
}

impl<'a> Files<'a> {
    /// No file was opened. A person is told reasons on a terminal, and elsewhere where `is_hinted`.
    pub fn new(rt: &'a HostRuntime, is_hinted: bool) -> Files<'a> {
        Files {
            rt,
            is_hinted,
            refused: None,
            pipes: Vec::new(rt.alloc()),
        }
    }

    /// Whether a person is told reasons beside an answer or a fault.
    pub fn are_hints_told(&self) -> bool {
        self.is_hinted || self.rt.stderr().is_terminal()
    }

    /// Prints a line for a person on standard error, where reasons are told.
    pub fn hint<D: Display + Drop>(&self, text: D) {
        if self.are_hints_told() {
            tell(self.rt, text);
        }
    }

    // Opens a file; None of a pipe that was opened before, under whatever name.
    fn opened(&mut self, path: &str) -> io::Result<Option<File>> {
        let file = File::open(self.rt, path)?;
        let found = file.metadata()?;
        if found.file_type().is_fifo() {
            let pipe = (found.dev(), found.ino());
            if self.pipes.contains(&pipe) {
                return Ok(None);
            }
            self.pipes.push(pipe)?;
        }
        Ok(Some(file))
    }

    // Notes why a file is not opened.
    fn refuse<D: Display>(&mut self, path: &str, reason: &D) {
        self.refused = format!(in self.rt.alloc(); "{path}: {reason}").ok();
    }

    /// Opens a file for a buffered reader.
    pub fn open_buffered(
        &mut self,
        path: &str,
        fault: RunFault,
    ) -> Result<BufReader<File>, RunFault> {
        let Ok(file) = self.open(path) else {
            return Err(fault);
        };
        BufReader::new(self.rt.alloc(), file).map_err(|_| RunFault::Memory)
    }

    /// The exit status of an answer. A fault is printed.
    pub fn report(&self, answer: &Result<bool, RunFault>) -> u8
        ensures { result ≡ exit_status answer.now }
    {
        if let Err(fault) = answer {
            self.say(fault);
        }
        exit_status(answer)
    }

    /// Prints a fault, and where reasons are told which file could not be opened, and why.
    pub fn say(&self, fault: &RunFault) {
        tell(self.rt, fault);
        if let Some(refused) = &self.refused {
            self.hint(refused);
        }
    }
}

impl Opener for Files<'_> {
    type Input = File;

    fn open(&mut self, path: &str) -> io::Result<File> {
        match self.opened(path) {
            Ok(Some(file)) => Ok(file),
            Ok(None) => {
                self.refuse(path, &SPENT);
                Err(io::Error::from(io::ErrorKind::InvalidInput))
            }
            Err(error) => {
                self.refuse(path, &error);
                Err(error)
            }
        }
    }
}
