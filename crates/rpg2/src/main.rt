//! The program `rpg2`: its commands on files, and the lines and exit statuses that
//! they end with.
#![tactic(auto)]

mod program;

use crate::program::main_with;
use std::fs;
use std::io::{self, IsTerminal};
use std::process::ExitCode;
use std::rt::Files;

/// Opens what replaces a closed standard stream.
///
/// The next file that is opened gets the number of a closed stream. If that were a file of the job, messages to the stream would be
/// written into it. `/dev/null` is opened only for reading: closed input is empty, and writing to a closed output fails. If it can't be
/// opened, the program continues without it.
fn stand_in<R: Files>(rt: &R) -> io::Result<R::File> {
    fs::open(rt, "/dev/null")
}

fn main(rt: HostRuntime) -> ExitCode {
    let _held = (stand_in(&rt), stand_in(&rt), stand_in(&rt));
    let is_terminal = rt.stderr().is_terminal();
    main_with(&rt, is_terminal)
}
