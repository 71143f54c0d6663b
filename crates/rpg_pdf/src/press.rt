//! The press: it reads a print, and writes the sheets of its pages.

ghost use Rattle.std.specs.Prelude.{◌≡◌, ◌+◌, ◌<◌, ◌≤◌, ◌∷◌, [], ℕ, List, Ok, IfErr, IfOk, MatchResult, OnOk, false, length};
ghost use Rattle.rpg_files.specs.Counting.{device_of};
ghost use Rattle.rpg_pdf.specs.Outcomes.{CanFail, EndsPage, Finishes, HasPrinted, HasSent, IsFault, IsFresh, IsUnsent, ReadsAll, TakesBytes, bytes_left, failures_after, failures_of};
ghost use Rattle.rpg_pdf.specs.declared.state.Sheet.{Sheet};
ghost use Rattle.rpg_pdf.specs.Sheets.{sheet_of};

use crate::state::{Made, PageFault, PaperFault, Press, Settings, Sheet};
use rpg_files::{Counted, send};
use std::alloc::{AllocError, Global};
use std::io::{Read, Write};

/// The most pages of a print.
const MOST_PAGES: u32 = 99_999;

/// The most bytes of a PDF: a place has ten digits in the table of its objects.
const MOST_BYTES: u64 = 9_999_999_999;

/// The most bytes of a page.
const MOST_PAGE_BYTES: usize = 1_048_576;

const FORM_FEED: u8 = 12;

impl<R: Read, W: Write> Press<R, W> {
    pub fn new(alloc: Global, settings: Settings, reader: R, writer: W) -> Press<R, W>
        ensures sheet { result.sheet ≡ sheet_of settings }
        ensures fresh { IsFresh result.sheet result }
        ensures can_fail { CanFail result }
        ensures reader { device_of result.reader ≡ reader }
        ensures writer { device_of result.writer ≡ writer }
        ensures failures { failures_of result ≡ record { reads = 0; writes = 0; is_short = false } }
    {
        Press {
            reader: Counted::new(reader),
            writer: Counted::new(writer),
            sheet: Sheet::of(settings),
            page: Vec::new(alloc),
            made: Made {
                out: Vec::new(alloc),
                entries: Vec::new(alloc),
                contents: Vec::new(alloc),
                at: 0,
            },
            number: 0,
            is_short: false,
        }
    }

    /// Notes whether memory ran out.
    fn noted<T>(&mut self, made: Result<T, AllocError>) -> Result<T, PaperFault>
        ensures made { IfOk result (λ x. (made ≡ Ok x) × (self.new ≡ self.old)) }
        ensures fault { IfErr result (λ e. (self.new.writer ≡ self.old.writer) × ((s : Sheet) (all : List (List ℕ)) → IsFault s all e)) }
        ensures failures { failures_of self.new ≡ failures_after (failures_of self.old) result }
    {
        match made {
            Ok(value) => Ok(value),
            Err(_) => {
                self.is_short = true;
                Err(PaperFault::NoMemory)
            }
        }
    }

    /// Writes what was made.
    fn send(&mut self) -> Result<(), PaperFault>
        requires { CanFail self.old }
        ensures sent { MatchResult result (λ _. HasSent W.contents self.old self.new) (IsUnsent W.contents self.old self.new) }
        ensures failures { failures_of self.new ≡ failures_after (failures_of self.old) result }
    {
        let length = self.made.out.len() as u64;
        if length > MOST_BYTES - self.made.at {
            return Err(PaperFault::Size);
        }
        if send(&mut self.writer, self.made.out.as_slice()).is_err() {
            return Err(PaperFault::Write);
        }
        self.made.at += length;
        self.made.out.clear();
        Ok(())
    }

    /// Writes the page that was begun.
    fn end_page(&mut self) -> Result<(), PaperFault>
        requires failures { CanFail self.old }
        requires few { self.old.number < 99999 }
        ensures reached { EndsPage W.contents self.old self.new result }
        ensures moved { OnOk result ((self.new.reader ≡ self.old.reader) × (self.new.page.items ≡ []) × (self.new.number ≡ self.old.number + 1)) }
        ensures failures { failures_of self.new ≡ failures_after (failures_of self.old) result }
    {
        let page = self.page.as_slice();
        let made = self.made.add_page(&self.sheet, self.number, page);
        if let Some(fault) = self.noted(made)? {
            let number = self.number + 1;
            return Err(PaperFault::Page { number, fault });
        }
        self.send()?;
        self.number += 1;
        self.page.clear();
        Ok(())
    }

    /// Takes the next byte of the print.
    fn take(&mut self, byte: u8) -> Result<(), PaperFault>
        requires { CanFail self.old }
        ensures reading { TakesBytes W.contents (byte ∷ []) self.old self.new result }
        ensures moved { OnOk result ((self.new.reader ≡ self.old.reader) × (bytes_left self.new < bytes_left self.old)) }
        ensures failures { failures_of self.new ≡ failures_after (failures_of self.old) result }
    {
        if self.number >= MOST_PAGES {
            return Err(PaperFault::Pages);
        }
        if byte == FORM_FEED {
            return self.end_page();
        }
        if self.page.len() >= MOST_PAGE_BYTES {
            let (number, fault) = (self.number + 1, PageFault::Bytes);
            return Err(PaperFault::Page { number, fault });
        }
        let pushed = self.page.extend_from_slice(&[byte]);
        self.noted(pushed)
    }

    /// Takes the next bytes of the print.
    fn take_all(&mut self, piece: &[u8]) -> Result<(), PaperFault>
        requires { CanFail self.old }
        ensures reading { TakesBytes W.contents piece.now self.old self.new result }
        ensures moved { OnOk result ((self.new.reader ≡ self.old.reader) × (bytes_left self.new + length piece.now ≤ bytes_left self.old)) }
        ensures failures { failures_of self.new ≡ failures_after (failures_of self.old) result }
    {
        for byte in piece {
            self.take(*byte)?;
        }
        Ok(())
    }

    /// Reads the print to its end, and writes its pages but for the last.
    fn read_all(&mut self) -> Result<(), PaperFault>
        requires { CanFail self.old }
        ensures reading { ReadsAll R.remaining W.contents self.old self.new result }
        ensures failures { failures_of self.new ≡ failures_after (failures_of self.old) result }
    {
        let mut piece = [0; 4096];
        'reads: loop {
            match self.reader.read(&mut piece) {
                Ok(0) => return Ok(()),
                Ok(count) => self.take_all(&piece[..count])?,
                Err(_) => return Err(PaperFault::Read),
            }
        }
    }

    /// Writes the last page and what comes after the pages. Returns how many pages there are.
    fn finish(&mut self) -> Result<u32, PaperFault>
        requires { CanFail self.old }
        ensures paper { Finishes W.contents self.old self.new result }
        ensures failures { failures_of self.new ≡ failures_after (failures_of self.old) result }
    {
        if self.number >= MOST_PAGES {
            return Err(PaperFault::Pages);
        }
        self.end_page()?;
        let made = self.made.add_end(&self.sheet, self.number);
        self.noted(made)?;
        self.send()?;
        match self.writer.flush() {
            Ok(()) => Ok(self.number),
            Err(_) => Err(PaperFault::Write),
        }
    }

    /// Writes the PDF of the print: a sheet for each page. Returns how many there are.
    ///
    /// Memory use grows with the longest page, by 49 bytes a page, and at the end by 50 more.
    pub fn print(&mut self) -> Result<u32, PaperFault>
        requires fresh { IsFresh self.old.sheet self.old }
        requires failures { CanFail self.old }
        // However short the reads are, the bytes are those of the definition, and a fault of the print is its first.
        ensures paper { HasPrinted R.remaining W.contents self.old self.new result }
        // A fault of a device or of memory is reported as that, and no other is.
        ensures failures { failures_of self.new ≡ failures_after (failures_of self.old) result }
    {
        let made = self.made.add_first();
        self.noted(made)?;
        self.read_all()?;
        self.finish()
    }
}
