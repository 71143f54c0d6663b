//! Calculations with whole arrays.

use crate::figure_rule::is_move;
use crate::now::{Now, Under};
use rpg_fit_deck::{Card, Editor, Sentence, View, Word};
use rpg_fit_words::{
    Array, Cards, Columns, Done, FreshNames, Group, Indicator, NewCard, Operand, Outcome, RuleStop,
    array_of, calculation, entry, fresh_name, groups_now, is,
};

/// The least number of entries for which the calculations are a loop.
const LOOP_FROM: usize = 31;

/// Rewrites calculations with whole arrays as calculations with their entries.
pub fn whole_calculations(editor: &mut Editor) -> Done {
    let found = groups_now(editor)?;
    let Some(first) = found.first() else {
        return Ok(());
    };
    let mut now = Now::of(editor, first)?;
    rewrite_wholes(editor, &mut now, found.as_slice())
}

fn rewrite_wholes<'a>(editor: &mut Editor, now: &mut Now<'a>, found: &'a [Group]) -> Done {
    for (place, group) in found.iter().enumerate() {
        if !is_left(group.operation()) {
            now.turn(group);
            rewrite_group(editor, now, found.get(place.saturating_add(1)))?;
        }
    }
    Ok(())
}

/// Whether an operation accepts whole arrays, or names labels or subroutines.
fn is_left(operation: &[u8]) -> bool {
    let is_label = is(operation, b"GOTO") || is(operation, b"TAG") || is(operation, b"EXSR");
    let is_subroutine = is(operation, b"BEGSR") || is(operation, b"ENDSR");
    is_label || is_subroutine || is(operation, b"LOKUP") || is(operation, b"XFOOT")
}

/// Whether an operation does the same to a whole array as to each of its entries.
fn is_by_entry(operation: &[u8]) -> bool {
    matches!(operation, b"ADD" | b"SUB" | b"DIV")
        || is(operation, b"MULT")
        || is(operation, b"Z-ADD")
        || is(operation, b"Z-SUB")
        || is_move(operation)
}

/// The whole arrays of a calculation.
#[derive(Clone, Copy)]
struct Wholes {
    factor1: Option<Array>,
    factor2: Option<Array>,
    result: Option<Array>,
}

impl Wholes {
    fn of(view: &View, card: &Card) -> Wholes {
        Wholes {
            factor1: array_of(view, Columns::Factor1.value(card)),
            factor2: array_of(view, Columns::Factor2.value(card)),
            result: array_of(view, Columns::Result.value(card)),
        }
    }

    fn at(&self, columns: Columns) -> Option<Array> {
        match columns {
            Columns::Factor1 => self.factor1,
            Columns::Factor2 => self.factor2,
            Columns::Result => self.result,
        }
    }

    /// Returns the least number of entries, or None if there is no array.
    fn least_entries(&self) -> Option<usize> {
        let mut least = None;
        for columns in &Columns::ALL {
            if let Some(array) = self.at(*columns) {
                least = Some(array.entries.min(least.unwrap_or(array.entries)));
            }
        }
        least
    }
}

fn is_entry_of(text: &[u8], array: &[u8]) -> bool {
    !is(text, array) && is(Operand::of(text).name, array)
}

/// Rejects an operation that can't be done entry by entry, a result that isn't a whole array or is a factor by one of its entries, and
/// resulting indicators.
fn check(now: &Now, whole: &Wholes, next: Option<&Group>) -> Done {
    let card = &now.seen.card;
    let number = now.seen.number;
    let operation = card.value(28, 32);
    let array = Columns::Result.value(card);
    if !is_by_entry(operation) {
        let why = "a whole array beside %";
        return Err(RuleStop::about(number, why, Word::of(operation)));
    }
    if whole.result.is_none() {
        return Err(RuleStop::because(number, "a whole array into a field"));
    }
    if !card.is_blank(54, 59) {
        return Err(RuleStop::because(number, "resulting indicators of a whole array"));
    }
    match next {
        Some(group) if matches!(group.operation(), b"MVR") => {
            let why = "MVR after a DIV of whole arrays";
            return Err(RuleStop::because(group.last.number, why));
        }
        _ => {}
    }
    if is_entry_of(Columns::Factor1.value(card), array)
        || is_entry_of(Columns::Factor2.value(card), array)
    {
        let why = "an entry of % as a factor of the whole of it";
        return Err(RuleStop::about(number, why, Word::of(array)));
    }
    Ok(())
}

/// Rewrites a calculation, if it has whole arrays.
fn rewrite_group(editor: &mut Editor, now: &mut Now, next: Option<&Group>) -> Done {
    let whole = Wholes::of(&now.view, &now.seen.card);
    let Some(entries) = whole.least_entries() else {
        return Ok(());
    };
    check(now, &whole, next)?;
    match entries {
        0 => Ok(()),
        _ if entries < LOOP_FROM => by_entry(editor, now, &whole, entries),
        _ => by_loop(editor, now, &whole, entries),
    }
}

/// Gives the whole arrays of a calculation names with room for a comma and an index.
fn make_rooms(editor: &mut Editor, now: &mut Now, whole: &Wholes, index: Word) -> Done {
    for columns in &Columns::ALL {
        if whole.at(*columns).is_some() {
            let name = Word::of(columns.value(&now.seen.card));
            now.make_room(editor, name, index)?;
        }
    }
    Ok(())
}

/// Returns the calculation of an entry, with an index for each whole array.
fn entry_card(whole: &Wholes, base: NewCard, index: Word) -> NewCard {
    let mut new = base;
    for columns in &Columns::ALL {
        if whole.at(*columns).is_some() {
            let array = Word::of(columns.value(&new.card));
            new.card = columns.put(new.card, entry(array, index).text());
        }
    }
    new
}

/// Rewrites a calculation as one for each entry.
fn by_entry(editor: &mut Editor, now: &mut Now, whole: &Wholes, count: usize) -> Done {
    make_rooms(editor, now, whole, Word::of_number(count))?;
    let under = now.under()?;
    let base = base_of(now, under.level).with(9, 17, under.conditions.text());
    let mut cards = now.cards_before(&under);
    for place in 0..count {
        let index = Word::of_number(place.saturating_add(1));
        cards.push(entry_card(whole, base, index));
    }
    let (one, several) = (
        "whole arrays: % calculation",
        "whole arrays: % calculations",
    );
    let remark = Sentence::counted(one, several, cards.as_slice().len());
    now.replace(editor, cards, remark)
}

/// Returns what the calculations of all entries share, without conditions.
fn base_of(now: &Now, level: Indicator) -> NewCard {
    NewCard::copy(&now.seen)
        .with(7, 8, level.word().text())
        .with(9, 17, b"")
        .with(49, 52, b"")
}

/// Rewrites a calculation as a loop over the entries.
fn by_loop(editor: &mut Editor, now: &mut Now, whole: &Wholes, count: usize) -> Done {
    let index = FreshNames::of(b"X#", 2).take(&now.view, now.seen.number)?;
    make_rooms(editor, now, whole, index)?;
    let under = now.under_flag()?;
    let frame = Loop::of(now, &under, index)?;
    let cards = frame.cards(now.cards_before(&under), whole, count);
    put_loop(editor, now, cards, count)
}

fn put_loop(editor: &mut Editor, now: &mut Now, cards: Cards, count: usize) -> Done {
    let remark =
        "whole arrays: a loop of %; give --allowance more than 1000 where it is done often";
    now.replace(
        editor,
        cards,
        Sentence::about(remark, Word::of_number(count)),
    )?;
    now.look(editor)
}

/// The parts of a loop around the calculation of an entry.
#[derive(Clone, Copy)]
struct Loop {
    /// Columns 7 to 8 of each calculation.
    level: Indicator,
    /// On if the loop is done at all, then while it continues.
    flag: Indicator,
    index: Word,
    /// The label at its start.
    again: Word,
    /// The label after it.
    done: Word,
    /// The calculation of an entry, without its operands.
    base: NewCard,
    number: usize,
}

impl Loop {
    fn of(now: &Now, under: &Under, index: Word) -> Outcome<Loop> {
        let number = now.seen.number;
        Ok(Loop {
            level: under.level,
            flag: under.flag,
            index,
            again: fresh_name(&now.view, b"LOOP#", number)?,
            done: fresh_name(&now.view, b"DONE#", number)?,
            base: base_of(now, under.level),
            number,
        })
    }

    fn card(&self, template: &[u8], words: &[Word]) -> NewCard {
        let card = calculation(template, words, self.number);
        card.with(7, 8, self.level.word().text())
    }

    /// Returns the cards of the loop, after those that come first.
    fn cards(&self, before: Cards, whole: &Wholes, count: usize) -> Cards {
        let mut cards = before;
        cards.push_all(&self.begin());
        cards.push(entry_card(whole, self.base, self.index));
        cards.push_all(&self.end(count));
        cards
    }

    /// Returns the cards before the calculation, which set the index to 1.
    fn begin(&self) -> [NewCard; 3] {
        [
            self.card(b"N%||GOTO|%", &[self.flag.word(), self.done]),
            self.card(b"||Z-ADD|1|%|  40", &[self.index]),
            self.card(b"|%|TAG", &[self.again]),
        ]
    }

    /// Returns the cards after the calculation: the next index, and back while it has an entry.
    fn end(&self, entries: usize) -> [NewCard; 4] {
        let (flag, entries) = (self.flag.word(), Word::of_number(entries));
        [
            self.card(b"|%|ADD|1|%", &[self.index, self.index]),
            self.card(b"|%|COMP|%||||%|%", &[self.index, entries, flag, flag]),
            self.card(b" %||GOTO|%", &[flag, self.again]),
            self.card(b"|%|TAG", &[self.done]),
        ]
    }
}
