//! A whole record, as fields of at most 256 columns.

use rpg_fit_deck::{Editor, View, Word};
use rpg_fit_terms::address_after;
use rpg_fit_words::{Cards, Done, FreshNames, List, NewCard, Outcome, RecordType, put_cards};

/// The most columns of a text.
const LONGEST: usize = 256;

/// A part of a record.
#[derive(Clone, Copy)]
struct Part {
    field: Word,
    first: usize,
    last: usize,
}

/// The fields with all columns of a record, in order.
#[derive(Drop)]
pub(crate) struct RecordText {
    pub length: usize,
    parts: List<Part>,
}

impl RecordText {
    /// Returns fields that no card has, for records of a length.
    pub fn of(view: &View, length: usize, card: usize) -> Outcome<RecordText> {
        let mut names = FreshNames::of(b"REC#", 6);
        let mut parts = List::new(view.alloc);
        let mut last: usize = 0;
        for _ in 0..length.div_ceil(LONGEST) {
            let first = last.saturating_add(1);
            last = last.saturating_add(LONGEST).min(length);
            parts.push(Part {
                field: names.take(view, card)?,
                first,
                last,
            });
        }
        parts.check()?;
        Ok(RecordText { length, parts })
    }

    /// Inserts the fields into a record type, as part of the change of the card `with`.
    pub fn read(&self, editor: &mut Editor, view: &View, kind: &RecordType, with: usize) -> Done {
        let number = kind.head.number;
        let mut cards = List::new(view.alloc);
        for part in self.parts.as_slice() {
            let card = NewCard::of_form(b'I', number).with(53, 58, part.field.text());
            let card = card.with_number(44, 47, part.first);
            cards.push(card.with_number(48, 51, part.last));
        }
        let following = address_after(view, kind.last().at);
        put_cards(editor, following, cards.checked()?, with)
    }

    /// Appends the fields as those of a line, derived from a card.
    pub fn push_fields(&self, cards: &mut Cards, number: usize) {
        for part in self.parts.as_slice() {
            let card = NewCard::of_form(b'O', number).with(32, 37, part.field.text());
            cards.push(card.with_number(40, 43, part.last));
        }
    }
}
