//! W12: a printer without an overflow indicator.

ghost use Rattle.std.specs.Prelude.{◌≡◌, false};
ghost use Rattle.rpg_warnings_lines.specs.Printer as printer;

use crate::alternatives::{ConditionTest, line_names_first_page, line_passes};
use crate::warning::{Warning, WarningKind};
use rpg_cards::SpecCard;
use rpg_sheet_specs::{ColumnFault, Device, FileRole, FileSpec, LineTime, OutputRecord, Word};

/// The columns of an overflow indicator.
const OVERFLOW: ColumnFault = ColumnFault {
    column: 33,
    last: 34,
};

/// What a line may be for its printer.
#[derive(Clone, Copy)]
pub enum LineTest {
    /// A heading of the first page.
    Heads,
    /// It is written more than once a job, as far as its conditions tell.
    Repeats,
    /// The same, and it skips before.
    Skips,
}

fn is_heading(time: LineTime) -> bool
    ensures { result ≡ printer.is_heading time }
{
    matches!(time, LineTime::Heading | LineTime::Detail)
}

fn line_is(test: LineTest, line: &OutputRecord, after: &[SpecCard]) -> bool
    ensures { result ≡ printer.line_is test line.now after.now }
{
    match test {
        LineTest::Heads => is_heading(line.time) && line_names_first_page(line, after),
        LineTest::Repeats => line_passes(ConditionTest::Repeated, line, after),
        LineTest::Skips => {
            line_passes(ConditionTest::Repeated, line, after) && line.movement.skip_before.is_some()
        }
    }
}

/// Whether a line goes to a file, given whether the one before does.
fn goes_to(file: &Word<8>, line: &OutputRecord, before: bool) -> bool
    ensures { result ≡ printer.goes_to file.now line.now before }
{
    match &line.file {
        None => before,
        Some(name) => *name == *file,
    }
}

/// Whether one of a file's lines passes.
fn any_line(test: LineTest, file: &Word<8>, cards: &[SpecCard]) -> bool
    ensures { result ≡ printer.any_line test file.now false cards.now }
{
    let mut is_here = false;
    let mut rest = cards;
    while let Some((card, after)) = rest.split_first() {
        if let Some(line) = card.line() {
            is_here = goes_to(file, line, is_here);
            if is_here && line_is(test, line, after) {
                return true;
            }
        }
        rest = after;
    }
    false
}

/// Whether a file goes to the printer.
pub fn is_printer(file: &FileSpec) -> bool
    ensures { result ≡ printer.is_printer file.now }
{
    matches!(file.role, FileRole::Output) && matches!(file.device, Device::Printer)
}

/// Whether a file is a printer whose later pages would have no heading.
fn lacks_overflow(cards: &[SpecCard], file: &FileSpec) -> bool
    ensures { result ≡ printer.lacks_overflow cards.now file.now }
{
    is_printer(file)
        && file.overflow.is_none()
        && any_line(LineTest::Heads, &file.name, cards)
        && any_line(LineTest::Repeats, &file.name, cards)
        && !any_line(LineTest::Skips, &file.name, cards)
}

/// Returns the warning of a printer without an overflow indicator.
#[tactic(auto, unfolding(crate::specs::Printer::overflow_on))]
pub(crate) fn overflow_on(cards: &[SpecCard], card: &SpecCard) -> Option<Warning>
    ensures { result ≡ printer.overflow_on cards.now card.now }
{
    let file = card.file()?;
    if lacks_overflow(cards, file) {
        Some(Warning {
            card: card.number,
            columns: OVERFLOW,
            kind: WarningKind::NoOverflow,
        })
    } else {
        None
    }
}
