//! The printed form: where the paper is, and the bytes that move it to a line.

ghost use Rattle.std.specs.Prelude.{◌≡◌, ◌+◌, ◌<◌, ◌≤◌, [], ◌++◌, Option, Some, None, OnOk, OnErr};
ghost use Rattle.rpg_text.specs.Texts.{trimmed};
ghost use Rattle.rpg_paper.specs.Paper.{IsPage, Position, skip_turns_on, skipped, space_turns_on, spaced, standard_page, top_of_paper};
ghost use Rattle.rpg_paper.specs.Form.{Adds, AddsLine, PrintsLine, StandsAt, HasPrinted, at_first_line, here_of, form_after_space, form_after_skip, after_line, way_of};

use crate::paper::append_times;
use rpg_text::trimmed;
use std::alloc::AllocError;
use std::error::Error;
use std::fmt;
use std::marker::Model;

/// Memory ran out for the printer's bytes.
#[derive(Clone, Copy, Debug)]
pub struct NoMemory;

impl fmt::Display for NoMemory {
    fn fmt<W: fmt::Write>(&self, f: &mut fmt::Formatter<W>) -> fmt::Result {
        f.write_str("no memory")
    }
}

impl Error for NoMemory {}

/// A page of the form.
#[derive(Clone, Copy)]
pub struct Page {
    /// How many lines it has, 3 to 112.
    pub lines: u8,
    /// Where the overflow area begins, 1 to the last line: a movement that ends there turns the overflow indicator on.
    pub overflow_line: u8,
}

impl Page {
    /// Returns the page of a program that names none: 66 lines, with overflow line 60.
    pub fn standard() -> Self
        ensures { result ≡ standard_page }
    {
        Page {
            lines: 66,
            overflow_line: 60,
        }
    }
}

const LINE_FEED: u8 = 10;

const FORM_FEED: u8 = 12;

const CARRIAGE_RETURN: u8 = 13;

/// Where the printer's paper is: the line placed last, the pages begun since, and the present line. Lines are counted from 1, on endless
/// pages; the page is named at each movement.
#[derive(Clone, Copy)]
pub struct Form {
    last: Option<u8>,
    begun: u16,
    line: u8,
}

impl Model for Form {
    ghost use Rattle.rpg_paper.specs.Form.{Standing, IsOnPaper};

    ghost Value = { Standing };

    ghost view = { λ f. record { last = f.last; begun = f.begun; line = f.line } };

    ghost invariant = { λ f. IsOnPaper f.last f.begun f.line };

    ghost inverse = { λ s. record { last = s.last; begun = s.begun; line = s.line } };
}

impl Form {
    /// Returns a form at the first line of the first page, with nothing placed.
    pub fn new() -> Self
        ensures stands { StandsAt result None top_of_paper }
        ensures paper { HasPrinted result [] top_of_paper [] }
        ensures form { result ≡ at_first_line }
    {
        Form {
            last: None,
            begun: 0,
            line: 1,
        }
    }

    /// Returns how many pages were begun since a line was placed, or since the first page if none was.
    pub fn begun(&self) -> u16
        ensures { result ≡ self.now.begun }
    {
        self.begun
    }

    /// Returns the line placed last on its page, if there is one.
    pub fn last(&self) -> Option<u8>
        ensures { result ≡ self.now.last }
    {
        self.last
    }

    /// Moves on by `lines` lines. Returns whether this turns the overflow indicator on.
    pub fn space(&mut self, page: Page, lines: u8) -> bool
        requires page { IsPage page }
        requires few_lines { lines ≤ 3 }
        requires few_pages { self.old.begun < 1000 }
        ensures moved { (last : Option Position) (here : Position) → StandsAt self.old last here
            → StandsAt self.new last (spaced page lines here) }
        ensures overflow { (last : Option Position) (here : Position) → StandsAt self.old last here
            → result ≡ space_turns_on page lines here }

        // The same in terms of the form's own state.
        ensures form { self.new ≡ form_after_space page lines self.old }
        ensures test { result ≡ space_turns_on page lines (here_of self.old) }
    {
        let from = self.line;
        if lines == 0 {
            return false;
        }
        let line = from + lines;
        if line > page.lines {
            self.begun += 1;
            self.line = line - page.lines;
            return from < page.overflow_line;
        }
        self.line = line;
        line >= page.overflow_line
    }

    /// Moves to the next line with this number that isn't before the present one. Returns whether this turns the overflow indicator on.
    pub fn skip(&mut self, page: Page, line: u8) -> bool
        requires low { 1 ≤ line }
        requires high { line ≤ 112 }
        requires few_pages { self.old.begun < 1000 }
        ensures moved { (last : Option Position) (here : Position) → StandsAt self.old last here
            → StandsAt self.new last (skipped line here) }
        ensures overflow { (last : Option Position) (here : Position) → StandsAt self.old last here
            → result ≡ skip_turns_on page line here }

        // The same in terms of the form's own state.
        ensures form { self.new ≡ form_after_skip line self.old }
        ensures test { result ≡ skip_turns_on page line (here_of self.old) }
    {
        let from = self.line;
        self.line = line;
        if line < from {
            self.begun += 1;
            return false;
        }
        line > from && line >= page.overflow_line
    }

    /// Places a line of text here: appends the bytes that move the paper from the line placed last to this one, and the text without
    /// trailing blanks.
    pub fn place(&mut self, text: &[u8], out: &mut Vec<u8>) -> Result<(), NoMemory>
        // The bytes are those of the paper, whatever was placed before.
        ensures paper { PrintsLine result self.old out.old.items text.now self.new out.new.items }
        ensures bytes { AddsLine result self.old out.old.items text.now out.new.items }
        ensures stands { (last : Option Position) (here : Position) → StandsAt self.old last here
            → OnOk result (StandsAt self.new (Some here) here) }

        // The same in terms of the form's own state.
        ensures line { OnOk result (out.new.items ≡ out.old.items ++ way_of self.old ++ trimmed text.now) }
        ensures form { OnOk result (self.new ≡ after_line self.old) }

        ensures same_form { OnErr result (self.new ≡ self.old) }
        ensures same_bytes { OnErr result (out.new.items ≡ out.old.items) }
    {
        let before = out.len();
        if self.append_line(text, out).is_err() {
            out.truncate(before);
            return Err(NoMemory);
        }
        self.last = Some(self.line);
        self.begun = 0;
        Ok(())
    }

    fn append_line(&self, text: &[u8], out: &mut Vec<u8>) -> Result<(), AllocError>
        ensures { Adds result out.old.items out.new.items (way_of self.now ++ trimmed text.now) }
    {
        self.append_way(out)?;
        out.extend_from_slice(trimmed(text))
    }

    fn append_way(&self, out: &mut Vec<u8>) -> Result<(), AllocError>
        ensures { Adds result out.old.items out.new.items (way_of self.now) }
    {
        if self.begun > 0 {
            append_times(out, FORM_FEED, self.begun)?;
            return append_times(out, LINE_FEED, u16::from(self.line - 1));
        }
        match self.last {
            None => append_times(out, LINE_FEED, u16::from(self.line - 1)),
            Some(last) if last == self.line => append_times(out, CARRIAGE_RETURN, 1),
            Some(last) => append_times(out, LINE_FEED, u16::from(self.line - last)),
        }
    }
}

impl Default for Form {
    ghost is_default = { λ f. f ≡ at_first_line };

    fn default() -> Self {
        Form::new()
    }
}
