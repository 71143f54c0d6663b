//! The calculations that reset PAGE.

use crate::overflow::Part;
use rpg_fit_deck::{Editor, View, Word};
use rpg_fit_words::{
    Conjunction, Done, FreeIndicators, FreshNames, List, NewCard, Outcome, Place, calculation,
    insert_at, push_conditioned,
};

/// The indicators and names of these calculations.
#[derive(Clone, Copy)]
pub(crate) struct Marks<'a> {
    view: &'a View,
    indicators: FreeIndicators,
    names: FreshNames,
}

/// Resets PAGE before the lines of a time are printed, if one of the conditions holds.
pub(crate) fn reset(editor: &mut Editor, part: Part, when: &[Conjunction], card: usize) -> Done {
    let reset = calculation(b"||Z-ADD|0|PAGE", &[], card);
    let mut cards = List::new(editor.alloc());
    push_conditioned(
        &mut cards,
        when,
        reset.with(7, 8, part.level().word().text()),
    )?;
    insert_at(editor, part.end(), cards.checked()?, card)
}

/// How PAGE is reset before overflow output.
#[derive(Clone, Copy)]
pub(crate) struct Saving {
    /// On if it is reset.
    flag: Word,
    /// On if it is still 0 after overflow output.
    at_zero: Word,
    /// The field that saves its value.
    saved: Word,
    /// The card that the calculations are derived from.
    card: usize,
}

impl<'a> Marks<'a> {
    /// Starts with all that no card has.
    pub fn of(view: &'a View) -> Marks<'a> {
        Marks {
            view,
            indicators: FreeIndicators::new(),
            names: FreshNames::of(b"PG#", 6),
        }
    }

    /// Returns those that reset PAGE for a card.
    pub fn saving(&mut self, card: usize) -> Outcome<Saving> {
        Ok(Saving {
            flag: self.indicators.take(self.view, card)?.word(),
            saved: self.names.take(self.view, card)?,
            at_zero: self.indicators.take(self.view, card)?.word(),
            card,
        })
    }
}

impl Saving {
    /// Resets PAGE before overflow output, if one of the conditions holds, and restores it if nothing has printed it.
    pub fn reset(&self, editor: &mut Editor, conditions: &[Conjunction]) -> Done {
        self.put_before(editor, conditions)?;
        insert_at(editor, Place::DetailFront, &self.after(), self.card)
    }

    /// Inserts the calculations before overflow output: they turn the flag on if one of the conditions holds, then save PAGE and reset it.
    fn put_before(&self, editor: &mut Editor, conditions: &[Conjunction]) -> Done {
        let on = self.total(b"||SETON||||%", &[self.flag]);
        let mut cards = List::new(editor.alloc());
        cards.push(self.total(b"||SETOF||||%", &[self.flag]));
        push_conditioned(&mut cards, conditions, on)?;
        cards.push(self.total(b" %||Z-ADD|PAGE|%|  40", &[self.flag, self.saved]));
        cards.push(self.total(b" %||Z-ADD|0|PAGE", &[self.flag]));
        insert_at(editor, Place::TotalEnd, cards.checked()?, self.card)
    }

    fn card(&self, template: &[u8], words: &[Word]) -> NewCard {
        calculation(template, words, self.card)
    }

    /// Returns a total calculation.
    fn total(&self, template: &[u8], words: &[Word]) -> NewCard {
        self.card(template, words).with(7, 8, b"L0")
    }

    /// Restores PAGE if the flag is on and PAGE is still 0. Both indicators go off.
    fn after(&self) -> [NewCard; 3] {
        let (flag, at_zero) = (self.flag, self.at_zero);
        [
            self.card(b" %|PAGE|COMP|0|||||%", &[flag, at_zero]),
            self.card(b" % %||Z-ADD|%|PAGE", &[flag, at_zero, self.saved]),
            self.card(b"||SETOF||||%|%", &[flag, at_zero]),
        ]
    }
}
