//! Output lines.

use crate::list::Cards;
use crate::record_type::is_or;
use rpg_fit_deck::{Address, Editor, Seen, View, Word};
use rpg_fit_terms::{Conjunction, Done, NewCard, Operand, Outcome, is, is_card};
use std::alloc::Global;

/// When a line is printed.
#[derive(Clone, Copy, PartialEq, Eq)]
pub enum Time {
    Heading,
    Detail,
    Total,
    /// By EXCPT.
    Exception,
    /// Any other letter.
    Unknown,
}

impl Time {
    fn of(letter: u8) -> Time {
        match letter {
            b'H' => Time::Heading,
            b'D' => Time::Detail,
            b'T' => Time::Total,
            b'E' => Time::Exception,
            _ => Time::Unknown,
        }
    }

    /// Whether it is that of heading and detail lines.
    pub fn is_detail(self) -> bool {
        self == Time::Heading || self == Time::Detail
    }
}

/// Conditions under which a line is printed, and the first of their cards.
#[derive(Clone, Copy)]
pub struct Alternative {
    pub card: Seen,
    pub condition: Conjunction,
}

impl Alternative {
    /// Appends the conditions of an AND card.
    fn push_card(&mut self, seen: &Seen) -> Done {
        self.condition = self.condition.and_all(&Conjunction::at(&seen.card, 23));
        self.condition.check(seen.number)
    }
}

/// An output line.
#[derive(Drop)]
pub struct Line {
    pub head: Seen,
    /// Its AND and OR cards.
    pub more: Vec<Seen>,
    pub fields: Vec<Seen>,
    pub alternatives: Vec<Alternative>,
    pub file: Word,
    pub time: Time,
}

/// Whether a card continues the conditions of a line: AND or OR in 14 to 16.
fn continues(seen: &Seen) -> bool {
    seen.card.is_blank(7, 13) && (matches!(seen.card.columns(14, 16), b"AND") || is_or(seen))
}

/// Returns what an output field prints: a name, and its index.
pub fn operand_on(field: &Seen) -> Operand<'_> {
    Operand::of(field.card.value(32, 37))
}

fn alternative_at(seen: &Seen) -> Alternative {
    Alternative {
        card: *seen,
        condition: Conjunction::at(&seen.card, 23),
    }
}

impl Line {
    /// Begins a line with only its record card.
    fn begin(alloc: Global, head: &Seen, file: Word) -> Outcome<Line> {
        let mut alternatives = Vec::new(alloc);
        alternatives.push(alternative_at(head))?;
        Ok(Line {
            head: *head,
            more: Vec::new(alloc),
            fields: Vec::new(alloc),
            alternatives,
            file,
            time: Time::of(head.card.column(15)),
        })
    }

    /// Appends an AND or OR card.
    fn push_more(&mut self, seen: &Seen) -> Done {
        self.more.push(*seen)?;
        if is_or(seen) {
            return Ok(self.alternatives.push(alternative_at(seen))?);
        }
        match self.alternatives.last_mut() {
            Some(last) => last.push_card(seen),
            None => Ok(()),
        }
    }

    /// Returns the card at an address, if it has conditions of the line.
    pub fn card_at(&self, at: Address) -> Option<&Seen> {
        if self.head.at == at {
            return Some(&self.head);
        }
        self.more.iter().find(|seen| seen.at == at)
    }

    /// Removes all cards of the line, as part of the change of the card `with`.
    pub fn remove(&self, editor: &mut Editor, with: usize) {
        editor.remove(self.head.at, with);
        remove_cards(editor, self.more.as_slice(), with);
        remove_cards(editor, self.fields.as_slice(), with);
    }

    /// Whether it is printed at the first output.
    pub fn is_put_first(&self) -> bool {
        let mut alternatives = self.alternatives.iter();
        self.time.is_detail() && alternatives.any(|one| one.condition.holds_first())
    }

    /// Whether one of its fields is printed at the first output.
    pub fn is_field_put_first(&self, field: &Seen) -> bool {
        self.is_put_first() && Conjunction::at(&field.card, 23).holds_first()
    }

    /// Whether it blanks a field, or an entry of an array, after printing it.
    pub fn blanks(&self, name: &[u8]) -> bool {
        let mut fields = self.fields.iter();
        fields.any(|field| field.card.column(39) == b'B' && is(operand_on(field).name, name))
    }

    /// Returns a copy of its record card, with its file's name on it.
    pub fn new_head(&self) -> NewCard {
        NewCard::copy(&self.head).with(7, 14, self.file.text())
    }

    /// Appends a copy of this line with another record card and other alternatives, at least one, of at most 60 conditions.
    pub fn push_copy(&self, cards: &mut Cards, head: NewCard, when: &[Conjunction]) -> Done {
        push_conditions(cards, head, when)?;
        push_copies(cards, self.fields.as_slice());
        Ok(())
    }
}

/// Appends a record card with alternatives, at least one, of at most 60 conditions.
pub fn push_conditions(cards: &mut Cards, head: NewCard, alternatives: &[Conjunction]) -> Done {
    let mut first = head;
    for condition in alternatives {
        condition.check(head.number)?;
        cards.push(first.with(23, 31, condition.columns(0).text()));
        push_and_cards(cards, condition, head.number);
        first = NewCard::of_form(b'O', head.number).with(14, 16, b"OR");
    }
    Ok(())
}

/// Appends the AND cards that an alternative needs after its first card.
fn push_and_cards(cards: &mut Cards, condition: &Conjunction, number: usize) {
    for part in 1..condition.cards() {
        let and = NewCard::of_form(b'O', number).with(14, 16, b"AND");
        cards.push(and.with(23, 31, condition.columns(part).text()));
    }
}

/// Appends copies of cards.
pub fn push_copies(copies: &mut Cards, cards: &[Seen]) {
    for seen in cards {
        copies.push(NewCard::copy(seen));
    }
}

/// Removes cards, as part of the change of the card `with`.
pub fn remove_cards(editor: &mut Editor, cards: &[Seen], with: usize) {
    for seen in cards {
        editor.remove(seen.at, with);
    }
}

/// Appends a card to the line that it belongs to.
fn push_to_last(found: &mut Vec<Line>, seen: &Seen) -> Done {
    match found.last_mut() {
        Some(line) if continues(seen) => line.push_more(seen),
        Some(line) => Ok(line.fields.push(*seen)?),
        None => Ok(()),
    }
}

/// Appends a card to the line that it belongs to, or the line that it begins. `file`: that of the previous line.
fn push_card(alloc: Global, found: &mut Vec<Line>, file: &mut Word, seen: &Seen) -> Done {
    if continues(seen) || seen.card.is_blank(7, 16) {
        return push_to_last(found, seen);
    }
    if !seen.card.is_blank(7, 14) {
        *file = Word::of(seen.card.value(7, 14));
    }
    found.push(Line::begin(alloc, seen, *file)?)?;
    Ok(())
}

/// Returns the lines of a deck, in order, each with the name of its file. No alternative may have more than 60 conditions.
pub fn lines(view: &View) -> Outcome<Vec<Line>> {
    let mut found = Vec::new(view.alloc);
    let mut file = Word::empty();
    for seen in view.cards.iter() {
        if is_card(seen, b'O') {
            push_card(view.alloc, &mut found, &mut file, seen)?;
        }
    }
    Ok(found)
}

/// A deck's cards, and its lines.
#[derive(Drop)]
pub struct DeckLines {
    pub view: View,
    pub lines: Vec<Line>,
}

impl DeckLines {
    /// Returns those of a deck in its present form.
    pub fn of(editor: &Editor) -> Outcome<DeckLines> {
        let view = editor.view()?;
        let lines = lines(&view)?;
        Ok(DeckLines { view, lines })
    }
}

/// Puts the name of its file on each line's card, so that lines may be moved, as part of the change of the card `with`.
pub fn name_files(editor: &mut Editor, lines: &[Line], with: usize) {
    for line in lines {
        if !is(line.head.card.value(7, 14), line.file.text()) {
            let named = line.head.card.with(7, 14, line.file.text());
            editor.change(line.head.at, named, with);
        }
    }
}
