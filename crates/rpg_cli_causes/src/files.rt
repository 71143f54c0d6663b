//! Files, and places in their records and lines: F7, F9 of lines, F16; and F18, the data of tables.

use crate::fields::noun;
use crate::near::{NameKind, write_near};
use crate::spot::{Spot, text_at};
use rpg_cards::FileUse;
use rpg_cli_text::{Piece, TextWriter, is_near, sentence_of};
use rpg_faults::{
    DataCause, EntryCause, EntryFault, FileCause, FileOnCard, FileUser, JoinCause, Need, PlaceCause,
};
use rpg_sheet::ColumnRange;

const fn use_name(serves_as: FileUse) -> &'static str {
    match serves_as {
        FileUse::Primary => "primary file",
        FileUse::Secondary => "secondary file",
        FileUse::Printer => "printer",
        FileUse::Disk => "disk file",
    }
}

const THIRD_INPUT: &str =
    "; a second input file has S in 16, and a third isn't supported (rpg2 fit reads several secondary files as one: A25)";

const MORE_PRINTERS: &str =
    "; more than one printer isn't supported (rpg2 fit --printer writes the deck of one: A23)";

const MORE_DISKS: &str =
    "; more than one disk file isn't supported (rpg2 fit makes one of several: A21)";

const SECOND_FORM: &str = "card {} is an L card already: only the printer has one";

const OVERFLOW_PAST: &str = "overflow line {}, and a page has {} lines";

/// Writes which rule rewrites the device of a file, if it is another name for a printer.
fn write_printer_rule(out: &mut TextWriter, device: &[u8]) {
    if device.starts_with(b"PRINT") {
        out.write_str(" (rpg2 fit rewrites it: A23)");
    }
}

/// Writes that a use has a second file, and what to do.
fn write_second(out: &mut TextWriter, spot: Spot<'_>, name: &[u8], first: &FileOnCard) {
    out.fill_two("{} would be a second {}: ", name, use_name(first.serves_as));
    out.fill_two("{} (card {}) is one", first.name.as_slice(), first.card);
    let first_device = spot.text_of_card(first.card, 40, 46);
    let own_device = text_at(spot.line, 40, 46);
    match first.serves_as {
        FileUse::Disk if is_near(first_device, b"PRINTER") => {
            out.fill_one(", since its device is {} and not PRINTER", first_device);
            write_printer_rule(out, first_device);
        }
        FileUse::Disk if is_near(own_device, b"PRINTER") => {
            out.fill_one("; {} isn't PRINTER", own_device);
            write_printer_rule(out, own_device);
        }
        FileUse::Primary | FileUse::Secondary => out.write_str(THIRD_INPUT),
        FileUse::Printer => out.write_str(MORE_PRINTERS),
        FileUse::Disk => out.write_str(MORE_DISKS),
    }
}

const LINE_LENGTH: &str = "a printed line of {} places: a line has 1 to 132 (docs/OLD_PROGRAMS.md)";

const RECORD_LENGTH: &str = "a record length of {}: a record has 1 to 9,999 columns";

/// Returns what names a file, and the use that the file doesn't have.
const fn user_names(user: FileUser) -> (&'static str, &'static str) {
    match user {
        FileUser::RecordType => ("record type", "output"),
        FileUser::Line => ("line", "input"),
        FileUser::Form => ("L card", "input or disk"),
    }
}

pub(crate) fn write_file(out: &mut TextWriter, spot: Spot<'_>, cause: &FileCause) {
    match cause {
        FileCause::Twice(file) => out.fill_two(
            "{} is on card {} already: each file has one F card",
            file.name.as_slice(),
            file.card,
        ),
        FileCause::Second { name, first } => write_second(out, spot, name.as_slice(), first),
        FileCause::Length { serves_as, length } => {
            let sentence = match serves_as {
                FileUse::Printer => LINE_LENGTH,
                _ => RECORD_LENGTH,
            };
            out.fill_one(sentence, *length);
        }
        FileCause::Unnamed(user) => {
            let (of_whom, _) = user_names(*user);
            out.fill_one("the first {} has to name its file in 7-14", of_whom);
        }
        FileCause::Unknown { name, .. } => {
            out.fill_one("no F card has {}", name.as_slice());
            write_near(out, spot, NameKind::File, name.as_slice());
        }
        FileCause::WrongUse { user, file } => {
            let (of_whom, other_use) = user_names(*user);
            out.fill_two("{} (card {}) ", file.name.as_slice(), file.card);
            out.fill_two("is an {} file, and has no {}", other_use, of_whom);
        }
        FileCause::SecondForm { card } => out.fill_one(SECOND_FORM, *card),
        FileCause::OverflowPast { line, lines } => out.fill_two(OVERFLOW_PAST, *line, *lines),
    }
}

/// F9 of a line: its file, which isn't a printer.
pub(crate) fn write_movement(out: &mut TextWriter, spot: Spot<'_>, file: &FileOnCard) {
    let device = spot.text_of_card(file.card, 40, 46);
    out.write_str("spaces and skips are for a printer, and ");
    out.fill_two("{} (card {}", file.name.as_slice(), file.card);
    if !device.is_empty() {
        out.fill_one(", device {}", device);
    }
    out.write_str(") is the disk file");
    write_printer_rule(out, device);
}

fn write_length(out: &mut TextWriter, kind: &'static str, file: &FileOnCard) {
    out.fill_two(", and {} of {} have ", kind, file.name.as_slice());
    out.fill_two("{} (card {})", file.record_length, file.card);
}

fn position(spot: Spot<'_>, at: ColumnRange) -> Piece<'_> {
    let first = usize::from(at.columns().column);
    text_at(spot.line, first, first.saturating_add(3)).into()
}

const NO_POSITION: &str = "position {}: columns of a record are counted from 1";

const TURNED_ROUND: &str = "the last column, {}, comes before the first, {}";

const SKIP_PAST: &str = "a skip to line {}, and a page has {} lines";

/// F16 of a card's own columns: what is outside the record, the line or the page.
pub(crate) fn write_outside(out: &mut TextWriter, spot: Spot<'_>, cause: &PlaceCause) {
    match cause {
        PlaceCause::NoPosition(at) => out.fill_one(NO_POSITION, position(spot, *at)),
        PlaceCause::PositionPast { at, file, .. } => {
            out.fill_one("position {}", position(spot, *at));
            write_length(out, "records", file);
        }
        PlaceCause::NoColumn(_) => out.write_str("columns of a record are counted from 1"),
        PlaceCause::TurnedRound { from, to } => out.fill_two(TURNED_ROUND, *to, *from),
        PlaceCause::PastRecord { from, to, file } => {
            out.fill_two("columns {}-{}", *from, *to);
            write_length(out, "records", file);
        }
        PlaceCause::NoEnd => out.write_str("places of a line are counted from 1"),
        PlaceCause::PastLine { end, file } => {
            out.fill_one("the end is place {}", *end);
            write_length(out, "lines", file);
        }
        PlaceCause::Wider { places, end } => write_width(out, spot, *places, *end),
        PlaceCause::SkipPast { line, lines, .. } => out.fill_two(SKIP_PAST, *line, *lines),
    }
}

const WIDER: &str =
    " has {} characters and ends at position {}, so it would begin before position 1";

fn write_width(out: &mut TextWriter, spot: Spot<'_>, width: usize, end: u16) {
    match spot.card.output_field() {
        Some(field) if field.operand.is_some() => out.write_shown(text_at(spot.line, 32, 37)),
        _ => out.write_str("the constant"),
    }
    out.fill_two(WIDER, width, end);
}

const LONG_LEVEL: &str =
    "the control fields of L{} have {} columns together in this type: a level has at most 256";

const LONG_MATCHES: &str =
    "the match fields have {} columns together in this type: a type has at most 256";

/// Writes a level whose joined length differs from that of an earlier type.
fn write_other_length(
    out: &mut TextWriter,
    letter: char,
    level: u8,
    lengths: (u32, u32),
    card: u16,
) {
    let (length, first) = (u64::from(lengths.0), u64::from(lengths.1));
    let columns = if length == 1 { "column" } else { "columns" };
    out.fill_two("{}{} has ", letter, level);
    out.fill_two("{} {} in this type, ", length, columns);
    out.fill_two("and {} in the one of card {}", first, card);
}

/// Writes a match field whose length differs from that of an earlier type, or that only one of the two has.
fn write_other_matches(out: &mut TextWriter, level: u8, lengths: (u32, u32), card: u16) {
    match lengths {
        (0, _) => out.fill_two(
            "this type has no M{}, and the one of card {} has it",
            level,
            card,
        ),
        (_, 0) => out.fill_two(
            "this type has M{}, and the one of card {} doesn't",
            level,
            card,
        ),
        _ => write_other_length(out, 'M', level, lengths, card),
    }
}

/// F16 of control fields and match fields: which level, and how many columns it has.
pub(crate) fn write_join(out: &mut TextWriter, cause: JoinCause) {
    match cause {
        JoinCause::LongLevel { level, columns } => {
            out.fill_two(LONG_LEVEL, level, u64::from(columns));
        }
        JoinCause::LongMatches { columns } => out.fill_one(LONG_MATCHES, u64::from(columns)),
        JoinCause::MatchedTwice { level, card } => out.fill_two(
            "M{} is on card {} of this type already",
            level,
            card,
        ),
        JoinCause::OtherLength {
            level,
            length,
            first,
            card,
        } => write_other_length(out, 'L', level, (length, first), card),
        JoinCause::OtherMatches {
            level,
            length,
            first,
            card,
        } => write_other_matches(out, level, (length, first), card),
    }
}

fn write_need(out: &mut TextWriter, need: Need) {
    let (entry, needs) = match need.entries {
        1 => ("entry", "needs"),
        _ => ("entries", "need"),
    };
    out.fill_three(": {} {}, {} a card, ", need.entries, entry, need.per_card);
    let card = noun(usize::from(need.cards), "card", "cards");
    out.fill_three("{} {} {} of data, and ", needs, need.cards, card);
}

const TOO_WIDE: &str = ": {} entries a card of {} columns take {}, and a card has 80";

const ENTRY: &str = ": entry {} of {}, on card {}, ";

fn write_entry(out: &mut TextWriter, spot: Spot<'_>, cause: &EntryCause) {
    let text = spot
        .data_of_card(cause.card, cause.column, usize::from(cause.length))
        .unwrap_or(&[]);
    let name = cause.name.as_slice();
    out.fill_three(ENTRY, cause.number, name, cause.card);
    let sentence = match cause.fault {
        EntryFault::NoNumber => "is \"{}\", which isn't a number",
        EntryFault::Lower => "is \"{}\", which is lower than entry {}",
    };
    out.fill_two(sentence, text, cause.number.saturating_sub(1));
}

const SPARE: &str = ": it is ** card {}, and {} {}";

/// F18: what is wrong with the data of a table.
pub(crate) fn write_data(out: &mut TextWriter, spot: Spot<'_>, cause: &DataCause) {
    out.write_str(sentence_of("F18"));
    match cause {
        DataCause::NoData => out.write_str(": a table has data, and 33-35 are blank"),
        DataCause::NoDeck => out.write_str(": no ** card is left for them"),
        DataCause::Missing(need) => {
            write_need(out, *need);
            out.write_str("no ** card is left for them");
        }
        DataCause::NonePerCard => out.write_str(": 33-35 have 0 entries a card"),
        DataCause::TooWide { per_card, width } => {
            let width = u64::from(*width);
            let columns = u64::from(*per_card).saturating_mul(width);
            out.fill_three(TOO_WIDE, *per_card, width, columns);
        }
        DataCause::OtherCards { need, there } => {
            write_need(out, *need);
            out.fill_two("{} {} there", *there, noun(*there, "is", "are"));
        }
        DataCause::Entry(entry) => write_entry(out, spot, entry),
        DataCause::Spare { deck, wanted } => {
            let of_cards = noun(*wanted, "E card needs data", "E cards need data");
            out.fill_three(SPARE, *deck, *wanted, of_cards);
        }
    }
}
