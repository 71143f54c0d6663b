//! The calculations of a deck, one after another, and cards that replace one.

use rpg_fit_deck::{Editor, Seen, Sentence, View, Word};
use rpg_fit_words::{
    Cards, Conjunction, Done, FreeIndicators, Group, Indicator, List, Outcome, Section, ShortNames,
    calculation, is, push_copies, put_cards, remove_cards,
};

/// A deck, but for cards that replaced calculations, and the calculation that is next.
#[derive(Drop)]
pub(crate) struct Now<'a> {
    pub view: View,
    pub group: &'a Group,
    /// The last card of the calculation, with the present names of arrays.
    pub seen: Seen,
    pub free: FreeIndicators,
    names: ShortNames,
}

/// The conditions of calculations that replace another one.
#[derive(Clone, Copy)]
pub(crate) struct Under {
    /// Columns 7 to 8 of each calculation.
    pub level: Indicator,
    /// Columns 9 to 17 of each calculation.
    pub conditions: Word,
    /// The indicator that is on if the conditions hold; blank if they fit on a single card.
    pub flag: Indicator,
}

impl<'a> Now<'a> {
    /// Begins with a calculation.
    pub fn of(editor: &Editor, first: &'a Group) -> Outcome<Now<'a>> {
        Ok(Now {
            view: editor.view()?,
            group: first,
            seen: first.last,
            free: FreeIndicators::new(),
            names: ShortNames::new(editor.alloc()),
        })
    }

    /// Goes on to a calculation, as it was before arrays were renamed.
    pub fn turn(&mut self, group: &'a Group) {
        self.group = group;
        self.seen = group.last;
        for card in self.view.cards.iter() {
            if card.at == group.last.at {
                self.seen = *card;
            }
        }
    }

    /// Sees the names on cards that replaced calculations too.
    pub fn look(&mut self, editor: &Editor) -> Done {
        self.view = editor.view()?;
        self.turn(self.group);
        Ok(())
    }

    /// Gives an array a name with room for a comma and an index.
    pub fn make_room(&mut self, editor: &mut Editor, array: Word, index: Word) -> Done {
        let name = self.names.with_room(editor, array.text(), index)?;
        if !is(name.text(), array.text()) {
            self.look(editor)?;
        }
        Ok(())
    }

    /// Returns the conditions of the calculations that replace this one: its own if one card has them, else a free indicator.
    pub fn under(&mut self) -> Outcome<Under> {
        if !self.group.leading.is_empty() {
            return self.under_flag();
        }
        let card = &self.group.last.card;
        Ok(Under {
            level: Indicator::at(card, 7),
            conditions: Word::of(card.columns(9, 17)),
            flag: Indicator::BLANK,
        })
    }

    /// Returns a free indicator as the condition of the calculations that replace this one.
    pub fn under_flag(&mut self) -> Outcome<Under> {
        let flag = self.free.take(&self.view, self.seen.number)?;
        let level = match self.group.section() {
            Section::Total => Indicator::ALWAYS,
            _ => Indicator::at(&self.group.first().card, 7),
        };
        Ok(Under {
            level,
            conditions: Conjunction::on(flag).columns(0),
            flag,
        })
    }

    /// Returns the cards that come first: they turn the flag on if the calculation is done.
    pub fn cards_before(&self, under: &Under) -> Cards {
        let Group { leading, last } = self.group;
        let flag = under.flag.word();
        let mut cards = List::new(self.view.alloc);
        if !under.flag.is_blank() {
            let off = calculation(b"||SETOF||||%", &[flag], last.number);
            let on = calculation(b"||SETON||||%", &[flag], last.number);
            cards.push(off.with(7, 8, under.level.word().text()));
            push_copies(&mut cards, leading.as_slice());
            cards.push(on.with_columns(7, 17, &last.card));
        }
        cards
    }

    /// Replaces the calculation by cards, and reports it.
    pub fn replace(&self, editor: &mut Editor, cards: Cards, remark: Sentence) -> Done {
        let (group, number) = (self.group, self.seen.number);
        put_cards(editor, group.first().at, cards.checked()?, number)?;
        remove_cards(editor, group.leading.as_slice(), number);
        editor.remove(group.last.at, number);
        editor.report(number, remark);
        Ok(())
    }
}
