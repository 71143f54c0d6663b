//! Codes by zone or digit: replaced by codes for the characters that have it.

use crate::zone::{same_digit, same_zone};
use rpg_fit_deck::{Editor, MOST_CARDS, Seen, Sentence, View, Word};
use rpg_fit_terms::address_after;
use rpg_fit_words::{
    Cards, Constant, DeckTypes, Done, Indicator, List, NewCard, Outcome, RecordType, RuleStop,
    is_or, put_cards, remove_cards,
};
use std::alloc::Global;

/// The first columns of a card's codes.
const CODES: [usize; 3] = [21, 28, 35];

/// The most alternatives of a type.
const MOST: usize = 100;

/// Replaces codes by zone or digit: an alternative for each character that has it, and conditions on all of them for a code with N.
pub fn zone_codes(editor: &mut Editor) -> Done {
    let deck = DeckTypes::of(editor)?;
    rewrite_types(editor, &deck)
}

fn rewrite_types(editor: &mut Editor, deck: &DeckTypes) -> Done {
    for kind in deck.types.iter() {
        rewrite_type(editor, &deck.view, kind)?;
    }
    Ok(())
}

/// Whether one of some cards has a code by zone or digit.
fn has_zone_code(cards: &[Seen]) -> bool {
    for seen in cards {
        let card = &seen.card;
        if is_zone(card.column(26)) || is_zone(card.column(33)) || is_zone(card.column(40)) {
            return true;
        }
    }
    false
}

/// Whether a code compares zones or digits, by its letter.
fn is_zone(kind: u8) -> bool {
    matches!(kind, b'Z' | b'D')
}

/// A code of a record type, with the characters that it stands for.
#[derive(Clone, Copy)]
struct Code {
    /// The four columns of the position.
    position: Word,
    /// Whether none of them may stand there.
    is_not: bool,
    /// C, or a letter that no code has.
    kind: u8,
    characters: Constant,
}

impl Code {
    /// Returns the code in the columns of a card.
    fn of(seen: &Seen, column: usize) -> Outcome<Code> {
        let kind = seen.card.column(column.saturating_add(5));
        let character = seen.card.column(column.saturating_add(6));
        let found = match kind {
            b'Z' => same_zone(character),
            b'D' => same_digit(character),
            _ => None,
        };
        if found.is_none() && kind == b'Z' {
            let why = "the zone of '%', which is a sign";
            return Err(RuleStop::about(seen.number, why, Word::of(&[character])));
        }
        Ok(Code {
            position: Word::of(seen.card.columns(column, column.saturating_add(3))),
            is_not: seen.card.column(column.saturating_add(4)) == b'N',
            kind: if is_zone(kind) { b'C' } else { kind },
            characters: Constant::empty().and(found.unwrap_or(&[character])),
        })
    }

    fn alternatives(&self) -> usize {
        if self.is_not {
            1
        } else {
            self.characters.text().len()
        }
    }
}

fn codes_of(alloc: Global, cards: &[Seen]) -> Outcome<List<Code>> {
    let mut codes = List::new(alloc);
    for seen in cards {
        for column in CODES {
            if !seen.card.is_blank(column, column.saturating_add(6)) {
                codes.push(Code::of(seen, column)?);
            }
        }
    }
    Ok(codes)
}

/// Returns how many alternatives codes make together.
fn count_of(codes: &[Code]) -> usize {
    let mut count: usize = 1;
    for code in codes {
        count = count.saturating_mul(code.alternatives());
    }
    count
}

/// The cards that replace those of a type's codes, and its alternatives so far.
#[derive(Drop)]
struct Punch {
    cards: Cards,
    /// The last card.
    last: NewCard,
    /// How many codes the last card has.
    held: usize,
    /// How many alternatives there are.
    count: usize,
    /// The indicator of the last alternative.
    indicator: Indicator,
}

impl Punch {
    fn new(alloc: Global, head: &Seen) -> Punch {
        Punch {
            cards: List::new(alloc),
            last: NewCard {
                card: head.card.with(21, 41, &[]),
                number: head.number,
            },
            held: 0,
            count: 0,
            indicator: Indicator::at(&head.card, 19),
        }
    }

    /// Begins another card.
    fn begin(&mut self, card: NewCard) {
        self.cards.push(self.last);
        self.last = card;
        self.held = 0;
    }

    /// Appends a code for one character.
    fn push(&mut self, code: &Code, character: u8) {
        if self.held == CODES.len() {
            let and = NewCard::of_form(b'I', self.last.number);
            self.begin(and.with(14, 16, b"AND"));
        }
        let not = if code.is_not { b"N" } else { b" " };
        let text = code.position.and(not).and(&[code.kind, character]);
        let column = self.held.saturating_mul(7).saturating_add(21);
        let end = column.saturating_add(6);
        self.last = self.last.with(column, end, text.text());
        self.held = self.held.saturating_add(1);
    }

    /// Appends an alternative of codes, by its number among theirs.
    fn push_codes(&mut self, codes: &[Code], number: usize) {
        let mut left = count_of(codes).max(1);
        for code in codes {
            if code.is_not {
                self.push_all(code);
            } else {
                let choices = code.alternatives().max(1);
                left = (left / choices).max(1);
                let chosen = number / left % choices;
                let character = code.characters.text().get(chosen).copied();
                self.push(code, character.unwrap_or(b' '));
            }
        }
    }

    /// Appends a code for each of its characters.
    fn push_all(&mut self, code: &Code) {
        for character in code.characters.text() {
            self.push(code, *character);
        }
    }

    /// Appends the alternatives of a type's code cards. `head`: the number of its card.
    fn push_cards(&mut self, alloc: Global, cards: &[Seen], head: usize) -> Done {
        let mut start: usize = 0;
        for end in 1..cards.len().saturating_add(1) {
            if ends_before(cards, end) {
                let alternative = cards.get(start..end).unwrap_or(&[]);
                self.push_alternative(alloc, alternative, head)?;
                start = end;
            }
        }
        Ok(())
    }

    fn push_alternative(&mut self, alloc: Global, cards: &[Seen], head: usize) -> Done {
        let codes = codes_of(alloc, cards)?;
        match cards.first() {
            Some(first) => self.push_alternatives(first, codes.checked()?, head),
            None => Ok(()),
        }
    }

    /// Appends the alternatives of codes. `head`: the number of the type's card.
    fn push_alternatives(&mut self, first: &Seen, codes: &[Code], head: usize) -> Done {
        let count = count_of(codes);
        if count > MOST {
            return Err(RuleStop::about(head, "% alternatives", Word::of_number(count)));
        }
        let own = Indicator::at(&first.card, 19);
        self.indicator = if own.is_blank() { self.indicator } else { own };
        for number in 0..count {
            if self.count > 0 {
                self.begin(or_card(first, self.indicator));
            }
            self.push_codes(codes, number);
            self.count = self.count.saturating_add(1);
            if self.cards.as_slice().len() > 2 * MOST_CARDS {
                return Err(RuleStop::TooMany);
            }
        }
        Ok(())
    }
}

/// Returns the card that begins another alternative.
fn or_card(first: &Seen, indicator: Indicator) -> NewCard {
    NewCard::copy(first)
        .with(7, 18, &[])
        .with(14, 15, b"OR")
        .with(19, 20, indicator.word().text())
        .with(21, 41, &[])
}

/// Replaces the codes of a type, if one of them compares zones or digits.
fn rewrite_type(editor: &mut Editor, view: &View, kind: &RecordType) -> Done {
    let cards = kind.code_cards(view.alloc);
    let cards = cards.checked()?;
    if has_zone_code(cards) {
        rewrite_codes(editor, view, kind, cards)
    } else {
        Ok(())
    }
}

fn rewrite_codes(editor: &mut Editor, view: &View, kind: &RecordType, cards: &[Seen]) -> Done {
    let mut punch = Punch::new(view.alloc, &kind.head);
    punch.push_cards(view.alloc, cards, kind.head.number)?;
    put_codes(editor, view, kind, &punch)
}

/// Whether an alternative ends before a card, by its place.
fn ends_before(cards: &[Seen], place: usize) -> bool {
    match cards.get(place) {
        Some(next) => is_or(next),
        None => true,
    }
}

/// Replaces the cards of a type's codes.
fn put_codes(editor: &mut Editor, view: &View, kind: &RecordType, punch: &Punch) -> Done {
    let head = &kind.head;
    let (one, several) = (
        "codes by zone or digit: % alternative of characters",
        "codes by zone or digit: % alternatives of characters",
    );
    let sentence = Sentence::counted(one, several, punch.count);
    editor.report(head.number, sentence);
    let Punch { cards, last, .. } = punch;
    let following = address_after(view, head.at);
    match cards.checked()? {
        [first, more @ ..] => {
            editor.change(head.at, first.card, head.number);
            put_cards(editor, following, more, head.number)?;
            put_cards(editor, following, &[*last], head.number)?;
        }
        [] => editor.change(head.at, last.card, head.number),
    }
    remove_cards(editor, kind.more.as_slice(), head.number);
    Ok(())
}
