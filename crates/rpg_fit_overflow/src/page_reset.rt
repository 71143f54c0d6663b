//! PAGE under conditions: it is always printed, and reset to 0 first if they hold.

use crate::overflow::{first_fetching, is_put_later};
use crate::page_field::{PageField, Resets, is_page, page_card};
use crate::page_steps::{Marks, reset};
use rpg_fit_deck::{Card, Editor, Sentence, View, Word};
use rpg_fit_words::{Conjunction, DeckLines, Done, Line, Printer, RuleStop, Time, is, is_card};

/// Lets calculations reset PAGE where it is printed under conditions.
pub fn pages(editor: &mut Editor) -> Done {
    let deck = DeckLines::of(editor)?;
    reset_all(editor, &deck.view, deck.lines.as_slice())
}

fn reset_all(editor: &mut Editor, view: &View, lines: &[Line]) -> Done {
    let printer = Printer::of(view);
    let rule = Deck {
        view,
        printer,
        lines,
        fetches: first_fetching(lines).is_some(),
        is_total_skipped: printer.is_total_skipped_late(view, lines)?,
    };
    let mut marks = Marks::of(view);
    for (place, line) in lines.iter().enumerate() {
        rule.reset_fields(editor, &mut marks, place, line)?;
    }
    Ok(())
}

/// A deck before any PAGE is reset.
#[derive(Clone, Copy)]
struct Deck<'a> {
    view: &'a View,
    printer: Printer,
    lines: &'a [Line],
    /// Whether a line fetches overflow output.
    fetches: bool,
    /// Whether overflow output may come before any total calculation.
    is_total_skipped: bool,
}

impl Deck<'_> {
    fn reset_fields(&self, editor: &mut Editor, marks: &mut Marks, at: usize, line: &Line) -> Done {
        let earlier = self.lines.get(..at).unwrap_or(&[]);
        for field in line.fields.iter() {
            let page = PageField {
                field,
                line,
                earlier,
            };
            if is_page(field) && !page.own().terms().is_empty() {
                let resets = page.resets(self.view.alloc, &self.printer);
                self.check(page, &resets)?;
                reset_page(editor, marks, page, &resets)?;
            }
        }
        Ok(())
    }

    /// Rejects a field for which PAGE can't be reset.
    fn check(&self, page: PageField, resets: &Resets) -> Done {
        self.check_field(page)?;
        let is_reset = !resets.normal.checked()?.is_empty();
        self.check_earlier(page, is_reset)?;
        if is_reset {
            self.check_fetched(page)?;
        }
        if resets.at_overflow.checked()?.is_empty() {
            return Ok(());
        }
        self.check_at_overflow(page)
    }

    /// Rejects PAGE in a line that EXCPT prints, twice in a line, on an I card, and if its line, other than at overflow, or its own
    /// conditions test overflow.
    fn check_field(&self, page: PageField) -> Done {
        if page.line.time == Time::Exception {
            return refused(page, "PAGE under conditions on a line of time E");
        }
        if pages_on(page.line) > 1 {
            return refused(page, "PAGE twice in a line");
        }
        let mut cards = self.view.cards.iter();
        if cards.any(|seen| is_card(seen, b'I') && is(seen.card.value(53, 58), b"PAGE")) {
            return refused(page, "PAGE under conditions, and on an I card");
        }
        if self.tests_normally(page.line) || self.printer.is_tested(&page.own()) {
            return refused(page, "overflow is tested beside PAGE under conditions");
        }
        Ok(())
    }

    /// Whether an alternative of a line, other than for overflow, tests overflow.
    fn tests_normally(&self, line: &Line) -> bool {
        line.alternatives.iter().any(|alternative| {
            let condition = &alternative.condition;
            !self.printer.is_overflow(line, condition) && self.printer.is_tested(condition)
        })
    }

    /// Rejects PAGE if an earlier line prints it at the same time: it would be reset before that line.
    fn check_earlier(&self, page: PageField, is_reset: bool) -> Done {
        for line in page.earlier {
            if let Some(card) = page_card(line) {
                if page.part().has(line.time) {
                    self.check_before(page, line, card, is_reset)?;
                }
            }
        }
        Ok(())
    }

    /// Rejects PAGE if a line of its time that also prints it may be printed after the first output, or at it like its own.
    fn check_before(&self, page: PageField, line: &Line, card: usize, is_reset: bool) -> Done {
        if is_reset && is_put_later(&self.printer, line) {
            let why = "a line before it (card %) prints PAGE at the same time";
            return refused_by(page, why, card);
        }
        if page.line.is_field_put_first(page.field) && line.is_put_first() {
            let why = "a line before it (card %) prints PAGE at the first output";
            return refused_by(page, why, card);
        }
        Ok(())
    }

    /// Rejects PAGE if overflow lines that also print it are fetched.
    fn check_fetched(&self, page: PageField) -> Done {
        for line in self.lines {
            let is_other = line.head.at != page.line.head.at && page_card(line).is_some();
            if self.fetches && is_other && self.printer.has_overflow(line) {
                let why =
                    "PAGE under conditions, and overflow lines that are fetched print PAGE too";
                return refused(page, why);
            }
        }
        Ok(())
    }

    /// Rejects PAGE at overflow if it may be printed between the end of total calculations and its line, or before there are any.
    fn check_at_overflow(&self, page: PageField) -> Done {
        if self.is_total_skipped {
            let why = "PAGE may be set back at overflow before any total calculations";
            return refused(page, why);
        }
        if self.fetches {
            let why = "PAGE may be set back at overflow, and a line fetches overflow";
            return refused(page, why);
        }
        for line in self.lines {
            if let Some(card) = page_card(line) {
                let is_before = line.head.number < page.line.head.number;
                if line.time == Time::Total || is_before && self.printer.has_overflow(line) {
                    let why = "a line (card %) may print PAGE before it at overflow";
                    return refused_by(page, why, card);
                }
            }
        }
        Ok(())
    }
}

/// Returns how many fields of a line print PAGE.
fn pages_on(line: &Line) -> usize {
    let mut pages: usize = 0;
    for field in &line.fields {
        pages = pages.saturating_add(usize::from(is_page(field)));
    }
    pages
}

/// Inserts calculations that reset PAGE, and blanks the conditions of its field.
fn reset_page(editor: &mut Editor, marks: &mut Marks, page: PageField, when: &Resets) -> Done {
    let field = page.field;
    if !when.normal.is_empty() {
        reset(editor, page.part(), when.normal.as_slice(), field.number)?;
    }
    if !when.at_overflow.is_empty() {
        let saving = marks.saving(field.number)?;
        saving.reset(editor, when.at_overflow.as_slice())?;
    }
    let remark = "PAGE is set back to 0 by calculations, before it is printed under %";
    let remark = Sentence::about(remark, spelled(&field.card));
    editor.rewrite(field, field.card.with(23, 31, &[]), remark);
    Ok(())
}

/// Returns the conditions of a field, trimmed of blanks.
fn spelled(field: &Card) -> Word {
    let conditions = Conjunction::at(field, 23).columns(0);
    Word::of(field.with(23, 31, conditions.text()).value(23, 31))
}

/// Rejects the deck for a field.
fn refused(page: PageField, why: &'static str) -> Done {
    Err(RuleStop::because(page.field.number, why))
}

/// Rejects the deck for a field, because of another card.
fn refused_by(page: PageField, why: &'static str, card: usize) -> Done {
    Err(RuleStop::about(page.field.number, why, Word::of_number(card)))
}
