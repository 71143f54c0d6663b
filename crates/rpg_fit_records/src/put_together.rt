//! Data structures that several input fields fill: the whole is made of them at the start of detail.

use crate::structure::{Structure, Subfield, reads};
use rpg_fit_deck::{Editor, Sentence, Word};
use rpg_fit_words::{
    Cards, Done, FreshNames, List, NewCard, Outcome, Place, RuleStop, array_of, calculation,
    insert_at, is, is_structure,
};

/// Replaces a structure by calculations that make its whole of the pieces that are read.
pub(crate) fn assemble(editor: &mut Editor, structure: &Structure, pieces: &[Subfield]) -> Done {
    let number = structure.number();
    let Some(whole) = whole_of(structure) else {
        let why = "a data structure with more names than its fields and one of the whole";
        return Err(RuleStop::because(number, why));
    };
    check_all(structure, &whole, pieces)?;
    let cards = moves_of(structure, &whole, pieces)?;
    structure.remove(editor);
    insert_at(editor, Place::DetailFront, cards.checked()?, number)?;
    let text = "a data structure: % is put together from % fields at the front of detail";
    let sentence = Sentence::with(text, &[whole.name, Word::of_number(pieces.len())]);
    editor.report(number, sentence);
    Ok(())
}

/// Rejects a whole that is changed, and pieces that it can't be made of.
fn check_all(structure: &Structure, whole: &Subfield, pieces: &[Subfield]) -> Done {
    structure.check_unchanged(structure.number(), whole.name)?;
    for piece in pieces {
        check(structure, whole, pieces, piece)?;
    }
    Ok(())
}

/// Returns the whole of a structure: by its own name, or its only subfield that isn't read; None if there is none, or another name that
/// isn't read.
fn whole_of(structure: &Structure) -> Option<Subfield> {
    let mut whole = (structure.name.len() > 0).then_some(structure.whole());
    for subfield in structure.subfields.as_slice() {
        if !structure.is_read(subfield.name.text()) {
            if whole.is_some() {
                return None;
            }
            whole = Some(*subfield);
        }
    }
    whole
}

/// Rejects a piece that is changed, that shares columns with another one, or that isn't always there.
fn check(structure: &Structure, whole: &Subfield, all: &[Subfield], piece: &Subfield) -> Done {
    let (card, name) = (piece.seen.number, piece.name);
    structure.check_unchanged(structure.number(), name)?;
    if array_of(&structure.view, name.text()).is_some()
        || !whole.span.has(piece.span)
        || is_overlaid(all, piece)
    {
        return Err(RuleStop::with(card, "% isn't a piece of % of its own", &[name, whole.name]));
    }
    if piece.decimals() != b' ' && !is_always_read(structure, name) {
        let why = "the number % isn't read by every type";
        return Err(RuleStop::about(card, why, name));
    }
    structure.check_inputs(name, piece.span, piece.decimals())
}

/// Whether another piece that begins no later ends within a piece, or after it.
fn is_overlaid(pieces: &[Subfield], piece: &Subfield) -> bool {
    pieces.iter().any(|other| {
        let is_other = !is(other.name.text(), piece.name.text());
        is_other && other.span.first <= piece.span.first && other.span.last >= piece.span.first
    })
}

/// Whether each record type reads a field.
fn is_always_read(structure: &Structure, name: Word) -> bool {
    structure.types.iter().all(|kind| {
        is_structure(&kind.head.card) || kind.is_looked_ahead() || reads(kind, name.text())
    })
}

/// Returns the first piece after a column.
fn next_piece(pieces: &[Subfield], column: usize) -> Option<&Subfield> {
    let mut found: Option<&Subfield> = None;
    for piece in pieces {
        let is_nearer = match found {
            Some(other) => piece.span.first < other.span.first,
            None => true,
        };
        if piece.span.first > column && is_nearer {
            found = Some(piece);
        }
    }
    found
}

/// Returns the calculations that make the whole: each piece is moved to the end of what is there so far.
fn moves_of(structure: &Structure, whole: &Subfield, pieces: &[Subfield]) -> Outcome<Cards> {
    let number = structure.number();
    let mut names = FreshNames::of(b"DS#", 6);
    let mut cards = List::new(structure.view.alloc);
    let mut made: Option<Word> = None;
    let mut last = whole.span.first.saturating_sub(1);
    for _ in pieces {
        if let Some(piece) = next_piece(pieces, last) {
            last = piece.span.last;
            let is_whole = last == whole.span.last;
            let into = if is_whole {
                whole.name
            } else {
                names.take(&structure.view, number)?
            };
            push_piece(
                &mut cards,
                made,
                piece.name,
                Part::of(whole, into, last, number),
            );
            made = Some(into);
        }
    }
    if let (Some(made), true) = (made, last < whole.span.last) {
        let part = Part::of(whole, whole.name, whole.span.last, number);
        cards.push(part.calculation(b"||MOVEL|%|%", made));
    }
    Ok(cards)
}

/// A field with the first columns of the whole.
#[derive(Clone, Copy)]
struct Part {
    name: Word,
    length: usize,
    /// The card that calculations are derived from.
    card: usize,
}

impl Part {
    /// Returns a field with the columns of a whole up to one of the structure.
    fn of(whole: &Subfield, name: Word, last: usize, card: usize) -> Part {
        let length = last.saturating_add(1).saturating_sub(whole.span.first);
        Part { name, length, card }
    }

    /// Returns a calculation that fills it, and gives it its length.
    fn calculation(&self, template: &[u8], from: Word) -> NewCard {
        calculation(template, &[from, self.name], self.card).with_number(49, 51, self.length)
    }
}

/// Appends the calculations that move a piece to the end of a part, after what is there so far.
fn push_piece(cards: &mut Cards, made: Option<Word>, piece: Word, part: Part) {
    let moved = part.calculation(b"||MOVE|%|%", piece);
    match made {
        Some(made) => {
            cards.push(part.calculation(b"||MOVEL|%|%", made));
            cards.push(moved.with(49, 51, &[]));
        }
        None => cards.push(moved),
    }
}
