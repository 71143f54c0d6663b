//! Where a command prints its text, apart from the line of its answer.

use crate::files::Reason;
use rpg_cli_diagnostics::{Diagnostic, Diagnostics, FileName, Place};
use std::alloc::AllocError;

/// Writes diagnostics to standard error, as text or as JSON objects, and texts to standard output.
pub trait Listener {
    /// Prints a diagnostic, or loses it if it can't be written.
    fn tell(&mut self, told: &Diagnostic<'_>);

    /// Adds a remark on a file to the error that says why the command ends: to the last diagnostic if that is an error, else to the next.
    fn remark(&mut self, file: FileName<'_>, message: &str);

    /// Prints a line about a running job, after the record if it is about one. Lines may wait for others.
    fn line(&mut self, record: Option<Place<'_>>, text: &str);

    /// Prints the lines and the diagnostic that wait for others.
    fn pass_on(&mut self);

    /// Prints all that waits. Remarks without an error are notes of their own.
    fn end(&mut self);

    /// Loses a diagnostic, since memory ran out for it.
    fn lose(&mut self);

    /// Whether a diagnostic was lost.
    fn has_lost(&self) -> bool;

    /// Prints a text before the line. The error is why it couldn't be written completely.
    fn show(&mut self, text: &str) -> Result<(), Reason>;
}

/// Prints a diagnostic, unless memory ran out for it.
pub fn tell_made<L: Listener>(listener: &mut L, made: Result<Diagnostic<'_>, AllocError>) {
    match made {
        Ok(told) => listener.tell(&told),
        Err(_) => listener.lose(),
    }
}

/// Prints diagnostics one by one.
pub fn tell_all<L: Listener>(listener: &mut L, made: &Diagnostics<'_>) {
    for told in made.as_slice() {
        listener.tell(told);
    }
    if made.has_lost() {
        listener.lose();
    }
}

/// Adds a remark on a file, unless memory ran out for it.
pub fn remark_made<L: Listener>(
    listener: &mut L,
    file: FileName<'_>,
    message: Result<String, AllocError>,
) {
    match message {
        Ok(message) => listener.remark(file, message.as_str()),
        Err(_) => listener.lose(),
    }
}
