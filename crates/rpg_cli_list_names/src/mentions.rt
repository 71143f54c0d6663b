//! The cards that name something.

use rpg_cli_text::TextWriter;
use std::alloc::{AllocError, Global};

/// Nothing, unless memory ran out.
pub type Done = Result<(), AllocError>;

/// How many numbers go on a line of the listing.
const ON_A_LINE: usize = 12;

const COLUMN: usize = 10;

#[derive(Clone, Copy, PartialEq, Eq)]
pub enum By {
    Giving,
    Setting,
    Using,
}

#[derive(Clone, Copy)]
struct Mention {
    by: By,
    card: u16,
}

/// The cards that name something, in order, and how each uses it.
#[derive(Drop)]
pub struct Mentions {
    list: Vec<Mention>,
}

impl Mentions {
    pub fn new(alloc: Global) -> Self {
        Mentions {
            list: Vec::new(alloc),
        }
    }

    /// Notes a card, whose number isn't less than that of the last one.
    pub fn note(&mut self, by: By, card: u16) -> Done {
        Ok(self.list.push(Mention { by, card })?)
    }

    /// Writes the numbers of the cards with this use into a column, or a dash if there are none.
    pub fn write_column(&self, out: &mut TextWriter, by: By) {
        let end = out.len().saturating_add(COLUMN);
        self.write_lines(out, by, 0);
        out.pad_to(end);
        out.write_str("  ");
    }

    /// Writes the numbers of the cards with this use, each once, or a dash if there are none. With a margin, twelve go on a line, and
    /// further lines begin after `margin` blanks.
    pub fn write_lines(&self, out: &mut TextWriter, by: By, margin: usize) {
        let mut last: u16 = 0;
        let mut count: usize = 0;
        for mention in &self.list {
            if mention.by == by && mention.card != last {
                write_gap(out, count, margin);
                out.fill_one("{}", mention.card);
                last = mention.card;
                count = count.saturating_add(1);
            }
        }
        if count == 0 {
            out.write_char('-');
        }
    }
}

/// Writes what goes between `count` numbers and the next one.
fn write_gap(out: &mut TextWriter, count: usize, margin: usize) {
    if count == 0 {
        return;
    }
    if margin > 0 && count % ON_A_LINE == 0 {
        out.write_char('\n');
        out.pad_to(out.len().saturating_add(margin));
    } else {
        out.write_char(' ');
    }
}
