//! UDAY, UMONTH and UYEAR.

use rpg_fit_deck::{Editor, Seen, Sentence, View, Word};
use rpg_fit_terms::is_name_on;
use rpg_fit_words::{
    Cards, Columns, Done, Indicator, Line, List, Place, Printer, RuleStop, array_of, calculation,
    fresh_name, insert_at, is, is_card, is_name_used, lines,
};

/// The name of a part of the date that the old system provided as a field.
type DatePart = &'static [u8];

/// All parts, in the order of reports.
const PARTS: [DatePart; 3] = [b"UDAY", b"UMONTH", b"UYEAR"];

/// Rewrites parts of the date as fields that calculations fill from UDATE.
pub fn dates(editor: &mut Editor) -> Done {
    let view = editor.view()?;
    let parts = undefined_parts(&view);
    match parts.checked()? {
        [] => Ok(()),
        parts => fill(editor, &view, parts),
    }
}

/// Returns the parts of the date that a deck uses and no card defines.
fn undefined_parts(view: &View) -> List<DatePart> {
    let mut found = List::new(view.alloc);
    for part in &PARTS {
        if is_name_used(view, *part) && !is_defined(view, *part) {
            found.push(*part);
        }
    }
    found
}

/// Inserts the calculations that fill parts of the date.
fn fill(editor: &mut Editor, view: &View, parts: &[DatePart]) -> Done {
    check_lines(view, parts)?;
    let number = first_card(view, parts);
    let filling = Filling {
        parts,
        half: fresh_name(view, b"UDMD", number)?,
        number,
    };
    if has_total(view) {
        filling.put(editor, Place::TotalFront, Indicator::ALWAYS)?;
    }
    filling.put(editor, Place::DetailFront, Indicator::BLANK)?;
    editor.report(number, sentence(parts));
    Ok(())
}

/// Whether an array, a result or an input field defines a name.
fn is_defined(view: &View, name: &[u8]) -> bool {
    view.cards.iter().any(|seen| defines(seen, name)) || array_of(view, name).is_some()
}

/// Whether a card is a calculation that gives a name its length, or an input field.
fn defines(seen: &Seen, name: &[u8]) -> bool {
    is_card(seen, b'C')
        && !seen.card.is_blank(49, 51)
        && is(Columns::Result.value(&seen.card), name)
        || is_card(seen, b'I') && is(seen.card.value(53, 58), name)
}

fn is_part(parts: &[DatePart], name: &[u8]) -> bool {
    parts.iter().any(|part| is(*part, name))
}

fn first_card(view: &View, parts: &[DatePart]) -> usize {
    for seen in view.cards.iter() {
        if parts.iter().any(|part| is_name_on(&seen.card, *part)) {
            return seen.number;
        }
    }
    0
}

/// Rejects parts of the date on lines that may be written before any calculation.
fn check_lines(view: &View, parts: &[DatePart]) -> Done {
    let printer = Printer::of(view);
    let lines = lines(view)?;
    check_each(view, &printer, lines.as_slice(), parts)
}

fn check_each(view: &View, printer: &Printer, lines: &[Line], parts: &[DatePart]) -> Done {
    let is_late = printer.is_total_skipped_late(view, lines)?;
    for line in lines {
        check_line(line, parts, is_late && printer.has_overflow(line))?;
    }
    Ok(())
}

/// Rejects parts of the date on a line. `is_early`: overflow may write it before any total calculation.
fn check_line(line: &Line, parts: &[DatePart], is_early: bool) -> Done {
    for field in line.fields.iter() {
        let name = field.card.value(32, 37);
        if is_part(parts, name) && (is_early || line.is_field_put_first(field)) {
            let why = "% on a line that may be printed before any calculation";
            return Err(RuleStop::about(field.number, why, Word::of(name)));
        }
    }
    Ok(())
}

/// Whether a deck has total calculations or total lines.
fn has_total(view: &View) -> bool {
    view.cards.iter().any(|seen| is_card(seen, b'C') && seen.card.column(7) == b'L'
        || is_card(seen, b'O') && seen.card.column(15) == b'T')
}

/// Fills parts of the date, as part of the change of a card.
#[derive(Clone, Copy)]
struct Filling<'a> {
    parts: &'a [DatePart],
    /// A field for the month and the day.
    half: Word,
    number: usize,
}

impl Filling<'_> {
    /// Inserts the calculations at a place, at a level.
    fn put(&self, editor: &mut Editor, place: Place, level: Indicator) -> Done {
        let mut cards = List::new(editor.alloc());
        self.push(&mut cards, b"UMONTH", b"||MOVEL|UDATE|UMONTH|  20", level);
        self.push(&mut cards, b"UDAY", b"||MOVEL|UDATE|%|  40", level);
        self.push(&mut cards, b"UDAY", b"||MOVE|%|UDAY|  20", level);
        self.push(&mut cards, b"UYEAR", b"||MOVE|UDATE|UYEAR|  20", level);
        insert_at(editor, place, cards.checked()?, self.number)
    }

    /// Appends a calculation that fills a part of the date. Its word is a field for the month and the day.
    fn push(&self, cards: &mut Cards, part: &[u8], template: &[u8], level: Indicator) {
        if is_part(self.parts, part) {
            let filled = calculation(template, &[self.half], self.number);
            cards.push(filled.with(7, 8, level.word().text()));
        }
    }
}

/// Returns the sentence about the parts of the date that are fields now.
fn sentence(parts: &[DatePart]) -> Sentence {
    let (one, two, three) = (
        "% from UDATE, so --date is month, day, year",
        "%, % from UDATE, so --date is month, day, year",
        "%, %, % from UDATE, so --date is month, day, year",
    );
    match parts {
        [a, b, c] => Sentence::with(three, &[Word::of(*a), Word::of(*b), Word::of(*c)]),
        [a, b] => Sentence::with(two, &[Word::of(*a), Word::of(*b)]),
        [a, ..] => Sentence::about(one, Word::of(*a)),
        [] => Sentence::of(""),
    }
}
