//! Calculations with their AN and OR cards.

use rpg_fit_deck::{Address, Card, Editor, Seen, View};
use rpg_fit_terms::{Done, Indicator, Outcome, is_card};
use std::alloc::Global;

/// The part of the cycle that a calculation belongs to.
#[derive(Clone, Copy, PartialEq, Eq)]
pub enum Section {
    Detail,
    Total,
    Subroutine,
}

impl Section {
    /// Returns the section of a calculation's first card.
    fn of(card: &Card) -> Section {
        let level = Indicator::at(card, 7);
        if level == Indicator::SUBROUTINE {
            Section::Subroutine
        } else if level.is_blank() {
            Section::Detail
        } else {
            Section::Total
        }
    }

    /// Returns columns 7 to 8 of a calculation that is always done there.
    pub fn level(self) -> Indicator {
        match self {
            Section::Detail => Indicator::BLANK,
            Section::Total => Indicator::ALWAYS,
            Section::Subroutine => Indicator::SUBROUTINE,
        }
    }
}

/// A calculation: its last card, with the operation, and the cards before it.
#[derive(Drop)]
pub struct Group {
    pub leading: Vec<Seen>,
    pub last: Seen,
}

impl Group {
    /// Returns its first card.
    pub fn first(&self) -> &Seen {
        self.leading.first().unwrap_or(&self.last)
    }

    /// Returns the section of its first card.
    pub fn section(&self) -> Section {
        Section::of(&self.first().card)
    }

    /// Returns its operation, trimmed of blanks.
    pub fn operation(&self) -> &[u8] {
        self.last.card.value(28, 32)
    }

    /// Appends a card, which becomes the last one.
    fn push(&mut self, seen: Seen) -> Done {
        self.leading.push(self.last)?;
        self.last = seen;
        Ok(())
    }
}

/// Whether a card continues the calculation before it.
fn continues(card: &Card) -> bool {
    matches!(card.columns(7, 8), b"AN" | b"OR")
}

fn push_card(alloc: Global, found: &mut Vec<Group>, seen: &Seen) -> Done {
    if continues(&seen.card) {
        if let Some(group) = found.last_mut() {
            return group.push(*seen);
        }
    }
    found.push(Group {
        leading: Vec::new(alloc),
        last: *seen,
    })?;
    Ok(())
}

/// Whether the card at an address belongs to a detail calculation.
pub(crate) fn is_in_detail(view: &View, at: Address) -> bool {
    let mut is_detail = false;
    for seen in view.cards.iter() {
        if is_card(seen, b'C') {
            if !continues(&seen.card) {
                is_detail = Section::of(&seen.card) == Section::Detail;
            }
            if seen.at == at {
                return is_detail;
            }
        }
    }
    false
}

/// Returns the calculations of a deck in its present form.
pub fn groups_now(editor: &Editor) -> Outcome<Vec<Group>> {
    groups(&editor.view()?)
}

/// Returns the calculations of a deck, in order.
pub fn groups(view: &View) -> Outcome<Vec<Group>> {
    let mut found = Vec::new(view.alloc);
    for seen in view.cards.iter() {
        if is_card(seen, b'C') {
            push_card(view.alloc, &mut found, seen)?;
        }
    }
    Ok(found)
}
