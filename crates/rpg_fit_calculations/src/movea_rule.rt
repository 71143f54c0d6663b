//! MOVEA.

use crate::figure_rule::is_literal;
use crate::movea::{Entries, Moves, Side, moves_of};
use crate::now::{Now, Under};
use rpg_fit_deck::{Card, Editor, Seen, Sentence, View, Word};
use rpg_fit_words::{
    Array, Cards, Columns, Constant, Done, Group, NewCard, Operand, Outcome, RuleStop, array_of,
    entry, form_of, groups_now, is, unused_prefix,
};

/// Rewrites MOVEA as moves of single entries.
pub fn moves(editor: &mut Editor) -> Done {
    let found = groups_now(editor)?;
    let Some(first) = found.first() else {
        return Ok(());
    };
    let mut now = Now::of(editor, first)?;
    rewrite_moves(editor, &mut now, found.as_slice())
}

fn rewrite_moves<'a>(editor: &mut Editor, now: &mut Now<'a>, found: &'a [Group]) -> Done {
    for group in found {
        if is(group.operation(), b"MOVEA") {
            now.turn(group);
            rewrite_group(editor, now)?;
        }
    }
    Ok(())
}

/// Rewrites a MOVEA. One whose operands can't be read stays, for the compiler to report.
fn rewrite_group(editor: &mut Editor, now: &mut Now) -> Done {
    match meaning(now)? {
        None => Ok(()),
        Some(Moves::Left) => {
            let card = now.seen.card.with(28, 32, b"MOVEL");
            editor.rewrite(&now.seen, card, Sentence::of("MOVEA of fields is MOVEL"));
            Ok(())
        }
        Some(moves) => {
            make_rooms(editor, now)?;
            move_entries(editor, now, moves)
        }
    }
}

/// Returns what a MOVEA becomes, or None if its operands can't be read.
fn meaning(now: &Now) -> Outcome<Option<Moves>> {
    let factor = Columns::Factor2.value(&now.seen.card);
    let result = Columns::Result.value(&now.seen.card);
    let Some(from) = side(now, factor)? else {
        return Ok(None);
    };
    let Some(to) = side(now, result)? else {
        return Ok(None);
    };
    let is_same = is(Operand::of(factor).name, Operand::of(result).name);
    match moves_of(from, to, is_same) {
        Ok(moves) => Ok(Some(moves)),
        Err(why) => Err(RuleStop::refused(now.seen.number, why)),
    }
}

/// Returns a side of a MOVEA; None if nothing defines the operand, or its array has no such entry.
fn side(now: &Now, text: &[u8]) -> Outcome<Option<Side>> {
    if is_literal(text) {
        let characters = Constant::of(text).text().len();
        return Ok(Some(Side::Field(characters)));
    }
    let operand = Operand::of(text);
    if operand.has_index_field() {
        let why = "MOVEA from or to an entry by an index field";
        return Err(RuleStop::because(now.seen.number, why));
    }
    let Some(form) = form_of(&now.view, operand.name) else {
        return Ok(None);
    };
    if form.is_number() {
        return Err(RuleStop::because(now.seen.number, "MOVEA of a number"));
    }
    match array_of(&now.view, operand.name) {
        None => Ok(Some(Side::Field(form.length))),
        Some(array) => Ok(entries_side(array, operand.index)),
    }
}

/// Returns the entries of an array from an index on, or all without one; None if it has no such entry.
fn entries_side(array: Array, index: &[u8]) -> Option<Side> {
    let first = Card::of(index).number(1, 10).unwrap_or(1);
    if first == 0 || first > array.entries {
        return None;
    }
    Some(Side::Array(Entries {
        first,
        count: (array.entries - first).saturating_add(1),
        length: array.form.length,
    }))
}

/// Rewrites a MOVEA with an array.
fn move_entries(editor: &mut Editor, now: &mut Now, moves: Moves) -> Done {
    let work = match moves {
        Moves::Into(_) | Moves::OutOf(_) => work_prefix(&now.view, now.seen.number)?,
        _ => Word::empty(),
    };
    let under = now.under()?;
    let plan = Plan::of(&now.seen, &under, work);
    let mut cards = now.cards_before(&under);
    plan.push_moves(&mut cards, moves);
    let count = cards.as_slice().len();
    let remark = Sentence::counted("MOVEA is % calculation", "MOVEA is % calculations", count);
    now.replace(editor, cards, remark)?;
    if work.len() > 0 {
        now.look(editor)
    } else {
        Ok(())
    }
}

/// Gives the arrays of a MOVEA names with room for an index, in alphabetical order.
fn make_rooms(editor: &mut Editor, now: &mut Now) -> Done {
    let from = Operand::of(Columns::Factor2.value(&now.seen.card)).name;
    if from <= Operand::of(Columns::Result.value(&now.seen.card)).name {
        make_room(editor, now, Columns::Factor2)?;
        make_room(editor, now, Columns::Result)
    } else {
        make_room(editor, now, Columns::Result)?;
        make_room(editor, now, Columns::Factor2)
    }
}

/// Gives the array in columns a name with room for the index of its last entry.
fn make_room(editor: &mut Editor, now: &mut Now, columns: Columns) -> Done {
    let name = Operand::of(columns.value(&now.seen.card)).name;
    match array_of(&now.view, name) {
        Some(array) => now.make_room(editor, array.name, Word::of_number(array.entries)),
        None => Ok(()),
    }
}

/// Returns a prefix for work fields that no name has.
fn work_prefix(view: &View, number: usize) -> Outcome<Word> {
    let prefix = unused_prefix(view, b"MV", LAST)
        .or(unused_prefix(view, b"MW", LAST))
        .or(unused_prefix(view, b"MX", LAST))
        .or(unused_prefix(view, b"M#", LAST));
    match prefix {
        Some(prefix) => Ok(prefix),
        None => Err(RuleStop::because(number, "no name is free")),
    }
}

/// The last characters of prefixes for work fields.
const LAST: &[u8] = b"#$@VWXYZ";

/// What the calculations that replace a MOVEA share.
#[derive(Clone, Copy)]
struct Plan {
    /// The MOVEA's conditions.
    base: NewCard,
    from: Word,
    to: Word,
    /// The prefix of work fields.
    work: Word,
}

impl Plan {
    fn of(seen: &Seen, under: &Under, work: Word) -> Plan {
        Plan {
            base: NewCard::copy(seen)
                .with(7, 8, under.level.word().text())
                .with(9, 17, under.conditions.text()),
            from: Word::of(Operand::of(Columns::Factor2.value(&seen.card)).name),
            to: Word::of(Operand::of(Columns::Result.value(&seen.card)).name),
            work,
        }
    }

    /// Appends the moves of all entries.
    fn push_moves(&self, cards: &mut Cards, moves: Moves) {
        match moves {
            Moves::Left => {}
            Moves::EntryToEntry { from, to, count } => {
                self.push_entry_to_entry(cards, from, to, count);
            }
            Moves::Into(to) => self.push_into(cards, to),
            Moves::OutOf(from) => self.push_out_of(cards, from),
        }
    }

    /// Appends a MOVE for each entry.
    fn push_entry_to_entry(&self, cards: &mut Cards, from: usize, to: usize, count: usize) {
        for place in 0..count {
            let from = numbered(self.from, from.saturating_add(place));
            let to = numbered(self.to, to.saturating_add(place));
            cards.push(self.from(b"MOVE", from).with(43, 48, to.text()));
        }
    }

    /// Appends, for each entry, a MOVEL of everything up to its end to a work field, and a MOVE of that to the entry.
    fn push_into(&self, cards: &mut Cards, to: Entries) {
        for place in 0..to.count {
            let number = place.saturating_add(1);
            let work = self.work_field(number);
            let entry = numbered(self.to, to.first.saturating_add(place));
            cards.push(self.to_work(b"MOVEL", work, number.saturating_mul(to.length)));
            let out = self.from(b"MOVE", work).with(43, 48, entry.text());
            cards.push(out.with(49, 52, b""));
        }
    }

    /// Appends, for each entry from the last one down, a MOVE of it to the end of a work field, and a MOVEL of that to the result. The
    /// first of them keeps the length that the card gives the result.
    fn push_out_of(&self, cards: &mut Cards, from: Entries) {
        for place in 0..from.count {
            let number = from.count.saturating_sub(place);
            let work = self.work_field(number);
            let last = from.first.saturating_add(number).saturating_sub(1);
            let last = numbered(self.from, last);
            let into = self.to_work(b"MOVE", work, number.saturating_mul(from.length));
            cards.push(into.with(33, 42, last.text()));
            let out = self.from(b"MOVEL", work);
            cards.push(if place == 0 {
                out
            } else {
                out.with(49, 52, b"")
            });
        }
    }

    /// Returns an operation with another factor 2.
    fn from(&self, operation: &[u8], from: Word) -> NewCard {
        self.base.with(28, 32, operation).with(33, 42, from.text())
    }

    fn work_field(&self, number: usize) -> Word {
        self.work.and(Word::of_number(number).text())
    }

    /// Returns an operation whose result is a work field of a length.
    fn to_work(&self, operation: &[u8], work: Word, length: usize) -> NewCard {
        self.base
            .with(28, 32, operation)
            .with(43, 48, work.text())
            .with_number(49, 51, length)
            .with(52, 52, b"")
    }
}

/// Returns an entry of an array, by its number.
fn numbered(array: Word, number: usize) -> Word {
    entry(array, Word::of_number(number))
}
