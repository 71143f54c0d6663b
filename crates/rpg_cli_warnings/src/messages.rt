//! The diagnostics for the warnings of a source.

use rpg_cli_diagnostics::{Diagnostic, Diagnostics, Draft, FileName, Level};
use rpg_cli_messages::{CardLines, marked, write_reported};
use rpg_cli_show_fields::Indicator;
use rpg_cli_text::{TextWriter, Topic};
use rpg_warnings_lines::{Warning, WarningKind};
use std::alloc::{AllocError, Global};

const PAGE_CONDITIONS: &str =
    "PAGE has conditions: they decide whether it is printed, and don't set it back to 1 (rpg2 fit rewrites it: A16)";

const SETS_HALT: &str =
    "SETON turns on {}: a halt indicator ends the job, and no operator can answer it (docs/OLD_PROGRAMS.md)";

const SHORTER: &str =
    "the result has {} digit{} before its point, and a factor has {}: high-order digits can be lost";

const BEFORE_RECORDS: &str =
    "this line is written before the first record too: no condition keeps it back";

const EACH_TOTAL: &str = "this total line is written at each total time: it has no condition";

const NOT_RESET: &str =
    "{} is added to and never set back: the next total includes this one (B in 39)";

const NOT_PRINTER: &str = "{} isn't PRINTER: this file is the disk file";

const LEFT_OUT: &str = "records of {} after the last match value of {} are left out";

const NEVER_READ: &str = "no record of {} is processed";

const NO_FORM: &str = "L in 39, and no L card: a page has 66 lines, and overflow is at line 60";

const UNMARKED_FORM: &str = "39 is blank, and there is an L card: its lines count";

const NO_OVERFLOW: &str =
    "the printer has no overflow indicator: the second page has no heading, and lines go on over the fold";

/// Writes the places that a field shares with another card's.
fn write_overlap(out: &mut TextWriter, first: usize, last: usize, card: u16) {
    let sentence = if first == last {
        "the field takes place {}"
    } else {
        "the field takes places {}-{}"
    };
    out.fill(sentence, &[first.into(), last.into()]);
    out.fill(" of the line, and overlaps that of card {}", &[card.into()]);
}

/// What a sentence without a name is filled with.
const NO_NAME: &[u8] = &[];

/// Returns the name in columns of a card, without its index: at most `most` characters from a column on.
fn name_at(line: &[u8], column: usize, most: usize) -> &[u8] {
    let rest = line.get(column.saturating_sub(1)..).unwrap_or(&[]);
    let columns = rest.get(..most).unwrap_or(rest);
    for (end, character) in columns.iter().enumerate() {
        if *character == b' ' || *character == b',' {
            return &columns[..end];
        }
    }
    columns
}

/// Writes what a warning without numbers says of a card.
fn write_of_card(out: &mut TextWriter, kind: WarningKind, line: &[u8]) {
    let (sentence, name) = match kind {
        WarningKind::PageConditions => (PAGE_CONDITIONS, NO_NAME),
        WarningKind::BeforeRecords => (BEFORE_RECORDS, NO_NAME),
        WarningKind::EachTotal => (EACH_TOTAL, NO_NAME),
        WarningKind::NotReset => (NOT_RESET, name_at(line, 32, 6)),
        WarningKind::Unused => ("{} is set, and nothing reads it", name_at(line, 43, 6)),
        WarningKind::NoOverflow => (NO_OVERFLOW, NO_NAME),
        WarningKind::NoForm => (NO_FORM, NO_NAME),
        WarningKind::UnmarkedForm => (UNMARKED_FORM, NO_NAME),
        _ => (NOT_PRINTER, name_at(line, 40, 7)),
    };
    out.fill(sentence, &[name.into()]);
}

/// Writes which records of another file are lost, by the cards of both files.
fn write_loss(out: &mut TextWriter, sentence: &str, source: &[u8], card: u16, line: &[u8]) {
    let other = name_at(CardLines::of(source).line_of(card), 7, 8);
    out.fill_two(sentence, other, name_at(line, 7, 8));
}

fn write_sentence(out: &mut TextWriter, kind: WarningKind, source: &[u8], line: &[u8]) {
    let (sentence, indicator) = match kind {
        WarningKind::NeverOn { indicator } => (
            "indicator {} is tested, and nothing turns it on",
            indicator,
        ),
        WarningKind::NeverTested { indicator } => (
            "indicator {} is turned on, and no card tests it",
            indicator,
        ),
        WarningKind::NoLevel { indicator } => (
            "{} is tested, and no field has control level {}",
            indicator,
        ),
        WarningKind::SetsHalt { indicator } => (SETS_HALT, indicator),
        WarningKind::Overlap { first, last, card } => {
            write_overlap(out, first, last, card);
            return;
        }
        WarningKind::LeftOut { card } => {
            write_loss(out, LEFT_OUT, source, card, line);
            return;
        }
        WarningKind::NeverRead { card } => {
            write_loss(out, NEVER_READ, source, card, line);
            return;
        }
        WarningKind::Shorter { result, factor } => {
            let of_digits = if result == 1 { "" } else { "s" };
            out.fill(SHORTER, &[result.into(), of_digits.into(), factor.into()]);
            return;
        }
        _ => {
            write_of_card(out, kind, line);
            return;
        }
    };
    let name = Indicator(indicator).name();
    out.fill(sentence, &[name.into(), name.into()]);
}

/// Returns the diagnostic for a warning, on the line of its card.
fn warned<'a>(
    alloc: Global,
    file: FileName<'a>,
    source: &[u8],
    line: &'a [u8],
    warning: Warning,
) -> Result<Diagnostic<'a>, AllocError> {
    let Warning {
        card,
        columns,
        kind,
    } = warning;
    let place = file.card(card, marked(Some(columns)), line);
    let topic = Topic::Warning(kind.code().number().saturating_add(1));
    let mut draft = Draft::new(alloc, Level::Warning, Some(place), Some(topic));
    write_sentence(&mut draft.message, kind, source, line);
    draft.finish()
}

/// Returns the note on how many warnings there are, and how many of them are shown.
fn counted(
    alloc: Global,
    file: FileName<'_>,
    count: usize,
    most: u16,
) -> Result<Diagnostic<'_>, AllocError> {
    let mut draft = Draft::note(alloc, file.whole());
    let of_warnings = if count == 1 { "" } else { "s" };
    draft.message.fill_two("{} warning{}", count, of_warnings);
    if count > usize::from(most) {
        write_reported(&mut draft.message, most);
    }
    draft.finish()
}

/// Returns how many bytes of a block are line feeds.
#[inline(always)]
fn line_feeds(block: &[u8; 64]) -> u8 {
    let mut count = 0u8;
    for byte in block {
        count = count.wrapping_add(u8::from(*byte == b'\n'));
    }
    count
}

/// Skips the blocks of a text that end more than a line before a card's line. Returns how many lines end in them, and the rest.
fn after_lines(text: &[u8], card: u16) -> (u16, &[u8]) {
    let mut skipped = 0u16;
    let mut rest = text;
    while let Some((block, more)) = rest.split_first_chunk::<64>() {
        let count = u16::from(line_feeds(block));
        if card.saturating_sub(skipped) <= count.saturating_add(1) {
            return (skipped, rest);
        }
        skipped += count;
        rest = more;
    }
    (skipped, rest)
}

/// Returns the diagnostics for the warnings of a source, which are in the order of their cards: at most `most` of them, each like a fault,
/// and how many there are. None if there are none.
pub fn warning_diagnostics<'a>(
    alloc: Global,
    file: FileName<'a>,
    source: &'a [u8],
    warnings: &[Warning],
    most: u16,
) -> Diagnostics<'a> {
    let mut out = Diagnostics::new(alloc);
    let (skipped, rest) = match warnings.first() {
        Some(warning) => after_lines(source, warning.card),
        None => (0, source),
    };
    let mut lines = CardLines::of(rest);
    for warning in warnings.iter().take(usize::from(most)) {
        let line = lines.line_of(warning.card.saturating_sub(skipped));
        out.push(warned(alloc, file, source, line, *warning));
    }
    if !warnings.is_empty() {
        out.push(counted(alloc, file, warnings.len(), most));
    }
    out
}
