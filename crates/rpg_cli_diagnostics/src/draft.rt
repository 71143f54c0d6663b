//! Diagnostics under construction.

use crate::value::{Child, Diagnostic, Level, Made, Place};
use rpg_cli_text::{Piece, TextWriter, Topic};
use std::alloc::{AllocError, Global};

/// A diagnostic under construction. Once an allocation fails, [`Draft::finish`] returns the error, so nothing in between has to.
#[derive(Drop)]
pub struct Draft<'a> {
    alloc: Global,
    level: Level,
    place: Option<Place<'a>>,
    code: Option<Topic>,
    pub message: TextWriter,
    children: Vec<Child<'a>>,
    ran_out: bool,
}

impl<'a> Draft<'a> {
    pub fn new(alloc: Global, level: Level, place: Option<Place<'a>>, code: Option<Topic>) -> Self {
        Draft {
            alloc,
            level,
            place,
            code,
            message: TextWriter::new(alloc),
            children: Vec::new(alloc),
            ran_out: false,
        }
    }

    /// Begins an error at a place, without a code.
    pub fn error(alloc: Global, place: Place<'a>) -> Self {
        Draft::new(alloc, Level::Error, Some(place), None)
    }

    /// Begins a note on a place.
    pub fn note(alloc: Global, place: Place<'a>) -> Self {
        Draft::new(alloc, Level::Note, Some(place), None)
    }

    pub fn path(&self) -> Option<&'a str> {
        Some(self.place?.file.path)
    }

    /// Returns an empty text, for a remark.
    pub fn text(&self) -> TextWriter {
        TextWriter::new(self.alloc)
    }

    /// Adds a remark with a place of its own.
    pub fn add(&mut self, place: Option<Place<'a>>, message: TextWriter) {
        let Ok(message) = message.finish() else {
            self.ran_out = true;
            return;
        };
        self.ran_out |= self.children.push(Child { place, message }).is_err();
    }

    /// Adds a remark about the same place, which isn't shown again.
    pub fn remark(&mut self, message: TextWriter) {
        let place = self.place.map(|place| place.without_picture());
        self.add(place, message);
    }

    /// Returns the diagnostic, after a sentence with a piece at each of its places.
    pub fn filled(mut self, sentence: &str, pieces: &[Piece<'_>]) -> Made<Diagnostic<'a>> {
        self.message.fill(sentence, pieces);
        self.finish()
    }

    pub fn finish(self) -> Made<Diagnostic<'a>> {
        let Draft {
            level,
            place,
            code,
            message,
            children,
            ran_out,
            ..
        } = self;
        if ran_out {
            return Err(AllocError);
        }
        Ok(Diagnostic {
            level,
            place,
            code,
            message: message.finish()?,
            children,
        })
    }
}

/// Diagnostics in their order, up to the first that memory ran out for.
#[derive(Drop)]
pub struct Diagnostics<'a> {
    list: Vec<Diagnostic<'a>>,
    ran_out: bool,
}

impl<'a> Diagnostics<'a> {
    pub fn new(alloc: Global) -> Self {
        Diagnostics {
            list: Vec::new(alloc),
            ran_out: false,
        }
    }

    /// Adds a diagnostic. After one that memory ran out for, none is added.
    pub fn push(&mut self, made: Made<Diagnostic<'a>>) {
        match made {
            Ok(diagnostic) if !self.ran_out => {
                self.ran_out = self.list.push(diagnostic).is_err();
            }
            _ => self.ran_out = true,
        }
    }

    /// Notes that memory ran out for the next one.
    pub fn lose(&mut self) {
        self.ran_out = true;
    }

    pub fn as_slice(&self) -> &[Diagnostic<'a>] {
        &self.list
    }

    pub fn has_lost(&self) -> bool {
        self.ran_out
    }
}
