//! Codes, and their pages.

use crate::page::Page;
use crate::pages::{BYTES, FAULTS, HALTS as HALT_PAGES, REWRITINGS, RULES, SHEETS, WARNINGS};
use crate::writer::TextWriter;

/// A code with a page, by its number in its family, from 1.
#[derive(Clone, Copy)]
pub enum Topic {
    Sheet(usize),
    Fault(usize),
    Warning(usize),
    Halt(usize),
    Rule(usize),
    Bytes(usize),
    /// A rule for rewriting old decks.
    Rewriting(usize),
}

/// The numbers of halts.
pub const HALTS: [usize; 8] = [1, 2, 3, 4, 5, 6, 7, 8];

/// The first code of each family, in the order of the pages.
pub(crate) const FAMILIES: [Topic; 7] = [
    Topic::Sheet(1),
    Topic::Fault(1),
    Topic::Warning(1),
    Topic::Halt(1),
    Topic::Rule(1),
    Topic::Bytes(1),
    Topic::Rewriting(1),
];

impl Topic {
    /// Returns what the codes of its family begin with.
    const fn letters(self) -> &'static str {
        match self {
            Topic::Sheet(_) => "S",
            Topic::Fault(_) => "F",
            Topic::Warning(_) => "W",
            Topic::Halt(_) => "halt",
            Topic::Rule(_) => "V",
            Topic::Bytes(_) => "B",
            Topic::Rewriting(_) => "A",
        }
    }

    /// Returns the pages of its family, and its number among them.
    const fn place(self) -> (&'static str, usize) {
        match self {
            Topic::Sheet(number) => (SHEETS, number),
            Topic::Fault(number) => (FAULTS, number),
            Topic::Warning(number) => (WARNINGS, number),
            Topic::Halt(number) => (HALT_PAGES, number),
            Topic::Rule(number) => (RULES, number),
            Topic::Bytes(number) => (BYTES, number),
            Topic::Rewriting(number) => (REWRITINGS, number),
        }
    }

    /// Returns the code of its family with this number.
    const fn sibling(self, number: usize) -> Topic {
        match self {
            Topic::Sheet(_) => Topic::Sheet(number),
            Topic::Fault(_) => Topic::Fault(number),
            Topic::Warning(_) => Topic::Warning(number),
            Topic::Halt(_) => Topic::Halt(number),
            Topic::Rule(_) => Topic::Rule(number),
            Topic::Bytes(_) => Topic::Bytes(number),
            Topic::Rewriting(_) => Topic::Rewriting(number),
        }
    }

    /// Returns the code of its family with this number, if there is one.
    pub(crate) fn sibling_if_any(self, number: usize) -> Option<Topic> {
        let topic = self.sibling(number);
        if number == 0 || topic.page().code.is_empty() {
            None
        } else {
            Some(topic)
        }
    }

    pub(crate) fn page(self) -> Page {
        let (pages, number) = self.place();
        Page::of(pages, number.saturating_sub(1))
    }

    /// Writes the code: `F16`, `halt 4`.
    pub fn write_code(self, out: &mut TextWriter) {
        let (_, number) = self.place();
        let blank = if let Topic::Halt(_) = self { " " } else { "" };
        out.fill_three("{}{}{}", self.letters(), blank, number);
    }

    /// Returns a sentence on what is wrong, or what a rule does.
    pub fn sentence(self) -> &'static str {
        self.page().sentence
    }

    pub fn advice(self) -> &'static str {
        self.page().advice
    }

    /// Returns what happens then: when it is reported, what becomes of the work, and the exit status.
    pub(crate) const fn following(self) -> &'static str {
        match self {
            Topic::Sheet(_) => {
                "F codes of other cards are reported too, unless they depend on its sheet. Nothing is written;\nstatus 3"
            }
            Topic::Fault(_) => {
                "the line has the first card and its lowest code; standard error has all. Beside a card with an S\ncode only those are reported that don't depend on its sheet. Nothing is written; status 3"
            }
            Topic::Warning(_) => {
                "reported on standard error for a source without a fault. The object program is written, and the\nline is as without it; status 0. With --deny nothing is written, and the line has the code; status 3"
            }
            Topic::Halt(_) => { "the job ends at once, and its output so far stays; status 5" }
            Topic::Rule(_) => {
                "nothing is run. The lowest rule that a row breaks is reported, with the first row that breaks\nit, counted from 0; status 4"
            }
            Topic::Bytes(_) => {
                "nothing is run. The first number that is wrong is reported, with the offset of its first byte,\ncounted from 0; the rules, V1 to V26, come after; status 4"
            }
            Topic::Rewriting(_) => {
                "rpg2 fit reports each change with its card; status 0. If the rule can't rewrite a card to the same\nmeaning, this is reported with the reason, and no NEW is written; status 3"
            }
        }
    }
}

/// Returns the number after a family's letters, in either case: 16 of `f16` for `F`, 4 of `Halt 4` for `halt`.
fn number_following(code: &str, letters: &str) -> Option<usize> {
    let given = code.get(..letters.len())?;
    if !given.eq_ignore_ascii_case(letters) {
        return None;
    }
    code.get(letters.len()..)?.trim().parse().ok()
}

/// Returns the topic of a code as a user types it: `F16`, `s5` or `halt 4`.
pub fn topic_of(code: &str) -> Option<Topic> {
    for family in FAMILIES {
        if let Some(number) = number_following(code, family.letters()) {
            return family.sibling_if_any(number);
        }
    }
    None
}

/// Returns the sentence of a code, such as `F17` or `B3`; empty if there is no such code.
pub fn sentence_of(code: &str) -> &'static str {
    match topic_of(code) {
        None => "",
        Some(topic) => topic.sentence(),
    }
}
