//! *PLACE: repeats the fields above the first one in its line.

use crate::field::{end_on, name_on};
use rpg_fit_deck::{Editor, Seen, Sentence, Word};
use rpg_fit_words::{
    Conjunction, DeckLines, Done, Line, List, NewCard, Outcome, RuleStop, is, put_cards,
};

/// Replaces each *PLACE by copies of the fields above the first one, moved to the right so that they end where it ends.
pub fn places(editor: &mut Editor) -> Done {
    let deck = DeckLines::of(editor)?;
    repeat_all(editor, deck.lines.as_slice())
}

fn repeat_all(editor: &mut Editor, lines: &[Line]) -> Done {
    for line in lines {
        repeat_fields(editor, line.fields.as_slice())?;
    }
    Ok(())
}

/// Returns how many fields stand above the first *PLACE.
fn fields_above(fields: &[Seen]) -> usize {
    let place = fields.iter().position(|field| is_place(field));
    place.unwrap_or(fields.len())
}

fn is_place(field: &Seen) -> bool {
    is(name_on(&field.card), b"*PLACE")
}

/// Returns where the last of some fields ends.
fn highest_end(fields: &[Seen]) -> usize {
    let mut highest = 0;
    for field in fields {
        highest = highest.max(end_on(&field.card));
    }
    highest
}

/// Replaces the *PLACE of a line, below which no field stands.
fn repeat_fields(editor: &mut Editor, fields: &[Seen]) -> Done {
    let above = fields_above(fields);
    let group = fields.get(..above).unwrap_or(&[]);
    let highest = highest_end(group);
    let mut last = highest;
    for place in fields.get(above..).unwrap_or(&[]) {
        if !is_place(place) {
            return Err(RuleStop::because(place.number, "a field below *PLACE"));
        }
        check_place(place, group, last.saturating_add(highest))?;
        repeat(editor, group, highest, place)?;
        last = end_on(&place.card);
    }
    Ok(())
}

/// Rejects *PLACE if it would count pages twice, or if the copies don't begin after what the line has before them.
fn check_place(place: &Seen, group: &[Seen], least: usize) -> Done {
    if group.iter().any(|field| is(name_on(&field.card), b"PAGE")) {
        return Err(RuleStop::because(place.number, "PAGE stands before *PLACE"));
    }
    if end_on(&place.card) < least {
        let least = Word::of_number(least);
        return Err(RuleStop::about(place.number, "its end is less than %", least));
    }
    Ok(())
}

/// Replaces *PLACE by copies of fields of which the last ends at `highest`.
fn repeat(editor: &mut Editor, group: &[Seen], highest: usize, place: &Seen) -> Done {
    let further = end_on(&place.card).saturating_sub(highest);
    let mut copies = List::new(editor.alloc());
    for field in group {
        copies.push(moved(NewCard::copy(field), place, further)?);
    }
    put_cards(editor, place.at, copies.checked()?, place.number)?;
    editor.remove(place.at, place.number);
    let (one, several) = ("*PLACE: % field once more", "*PLACE: % fields once more");
    editor.report(place.number, Sentence::counted(one, several, group.len()));
    Ok(())
}

/// Returns a copy of a field, moved to the right, under the conditions of *PLACE and its own, without blank after.
fn moved(field: NewCard, place: &Seen, further: usize) -> Outcome<NewCard> {
    let own = Conjunction::at(&field.card, 23);
    let together = Conjunction::at(&place.card, 23).and_missing(&own);
    if together.cards() > 1 {
        return Err(RuleStop::because(place.number, "more than three conditions together"));
    }
    let end = end_on(&field.card).saturating_add(further);
    let moved = field.with(39, 39, &[]).with_number(40, 43, end);
    Ok(moved.with(23, 31, together.columns(0).text()))
}
