//! Lines of which several may be for one record: all of them become one line.

use crate::other_printer::is_page;
use crate::updated::{Both, Updated};
use rpg_fit_deck::{Editor, Seen, Sentence, Word};
use rpg_fit_words::{
    Cards, Conjunction, Done, FreeIndicators, Indicator, Line, List, NewCard, Outcome, Place,
    Printer, RuleStop, calculation, insert_at, is, operand_on, push_conditioned, push_conditions,
    put_cards,
};

/// Rejects lines that one line can't stand for. `both`: two that may be for one record.
pub(crate) fn check_joined(updated: &Updated, both: &Both) -> Done {
    let printer = Printer::of(&updated.deck.view);
    let lines = updated.lines();
    lines.check()?;
    let lines = lines.as_slice();
    for line in lines {
        check_fields(updated, line, both)?;
        check_overflow(updated, &printer, line)?;
    }
    check_between(updated, lines)
}

/// Writes all lines of a file as one: the whole record, and over it each line's fields, under an indicator of its own that the line's
/// conditions turn on.
pub(crate) fn join(editor: &mut Editor, free: &mut FreeIndicators, updated: &Updated) -> Done {
    let lines = updated.lines();
    lines.check()?;
    let lines = lines.as_slice();
    let mut joined = Joined {
        calculations: List::new(editor.alloc()),
        fields: List::new(editor.alloc()),
    };
    for line in lines {
        let flag = free.take(&updated.deck.view, line.head.number)?;
        joined.push(editor, line, flag)?;
    }
    joined.put(editor, updated, lines)
}

/// Rejects fields that are blanked or counted, or leave no room for another condition.
fn check_fields(updated: &Updated, line: &Line, both: &Both) -> Done {
    for field in line.fields.iter() {
        if !may_be_joined(field) {
            let why =
                "two lines may change one record of % (cards % and %), and this field is blanked, is PAGE or *PLACE or has three conditions";
            let (first, second) = (Word::of_number(both.earlier), Word::of_number(both.later));
            return Err(RuleStop::with(field.number, why, &[updated.name(), first, second]));
        }
    }
    Ok(())
}

/// Whether a field may be put out with one condition more.
fn may_be_joined(field: &Seen) -> bool {
    let card = &field.card;
    let is_counted = is_page(field) || is(operand_on(field).name, b"*PLACE");
    !is_counted && card.column(39) != b'B' && Conjunction::at(card, 23).terms().len() < 3
}

/// Rejects a field that a line of another file blanks between them.
fn check_between(updated: &Updated, lines: &[&Line]) -> Done {
    let mut blanked: Option<&Seen> = None;
    let mut is_between = false;
    for line in updated.deck.lines.iter() {
        if !updated.has(line) {
            if is_between && line.time.is_detail() {
                blanked = blanked.or(blanked_on(line, lines));
            }
        } else if let Some(field) = blanked {
            let why = "two lines may change one record of %, and % is blanked between them";
            let name = Word::of(operand_on(field).name);
            return Err(RuleStop::with(field.number, why, &[updated.name(), name]));
        } else {
            is_between = true;
        }
    }
    Ok(())
}

/// Returns the first field that a line blanks and one of some lines has.
fn blanked_on<'a>(line: &'a Line, lines: &[&Line]) -> Option<&'a Seen> {
    line.fields.iter().find(|field| field.card.column(39) == b'B'
        && have_field(lines, operand_on(field).name))
}

fn have_field(lines: &[&Line], name: &[u8]) -> bool {
    for line in lines {
        if has_field(line, name) {
            return true;
        }
    }
    false
}

fn has_field(line: &Line, name: &[u8]) -> bool {
    for field in &line.fields {
        if is(operand_on(field).name, name) {
            return true;
        }
    }
    false
}

/// Rejects a line that tests overflow.
fn check_overflow(updated: &Updated, printer: &Printer, line: &Line) -> Done {
    for alternative in line.alternatives.iter() {
        if printer.is_tested(&alternative.condition) {
            let why = "two lines may change one record of %, and one asks for %";
            let words = [updated.name(), printer.overflow.word()];
            return Err(RuleStop::with(line.head.number, why, &words));
        }
    }
    Ok(())
}

/// The lines so far.
#[derive(Drop)]
struct Joined {
    /// The calculations that turn their indicators on.
    calculations: Cards,
    fields: Cards,
}

impl Joined {
    /// Appends a line, with its indicator.
    fn push(&mut self, editor: &Editor, line: &Line, flag: Indicator) -> Done {
        let mut conditions = List::new(editor.alloc());
        for alternative in line.alternatives.iter() {
            conditions.push(alternative.condition);
        }
        let number = line.head.number;
        let on = calculation(b"||SETON||||%", &[flag.word()], number);
        let off = calculation(b"||SETOF||||%", &[flag.word()], number);
        self.calculations.push(off);
        let conditions = conditions.checked()?;
        push_conditioned(&mut self.calculations, conditions, on)?;
        self.push_fields(line, flag);
        Ok(())
    }

    /// Appends a line's fields under its indicator.
    fn push_fields(&mut self, line: &Line, flag: Indicator) {
        for field in line.fields.iter() {
            let condition = Conjunction::on(flag).and_all(&Conjunction::at(&field.card, 23));
            let card = NewCard::copy(field).with(23, 31, condition.columns(0).text());
            self.fields.push(card);
        }
    }

    /// Returns the one line, derived from the card with a number.
    fn cards(&self, updated: &Updated, number: usize) -> Outcome<Cards> {
        let alloc = updated.deck.view.alloc;
        let mut conditions = List::new(alloc);
        for indicator in updated.types.indicators.as_slice() {
            conditions.push(Conjunction::on(*indicator));
        }
        let mut cards = List::new(alloc);
        push_conditions(&mut cards, updated.new_line(number), conditions.checked()?)?;
        updated.record.push_fields(&mut cards, number);
        cards.append(&self.fields);
        Ok(cards)
    }

    /// Replaces the lines by one, and reports that.
    fn put(&self, editor: &mut Editor, updated: &Updated, lines: &[&Line]) -> Done {
        let Some(first) = lines.first() else {
            return Ok(());
        };
        let with = updated.file.number;
        let cards = self.cards(updated, first.head.number)?;
        put_cards(editor, first.head.at, cards.checked()?, with)?;
        remove_lines(editor, lines, with);
        insert_at(editor, Place::DetailEnd, self.calculations.checked()?, with)?;
        let text = "% is read, and % gets its records as they are after the job; % lines are one";
        let lines = Word::of_number(lines.len());
        let sentence = Sentence::with(text, &[updated.name(), updated.new, lines]);
        editor.report(with, sentence);
        Ok(())
    }
}

/// Removes lines, as part of the change of the card `with`.
fn remove_lines(editor: &mut Editor, lines: &[&Line], with: usize) {
    for line in lines {
        line.remove(editor, with);
    }
}
