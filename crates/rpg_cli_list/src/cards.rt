//! The listing of a source: its cards, with faults below them, and what comes after them.

use crate::files::{write_files, write_tables};
use crate::lines::{write_lines, write_ruler};
use crate::records::{write_order, write_records};
use rpg_card_index::IndexedCards;
use rpg_cli_diagnostics::{Made, write_card as write_columns};
use rpg_cli_list_names::{Done, Indicators, Labels, Names, write_constants};
use rpg_cli_messages::{
    CardLines, KnownFaults, NearNames, SourceCards, Unread, count_unread, write_note,
};
use rpg_cli_text::TextWriter;
use rpg_faults::{CardFault, source_faults};
use rpg_sheet::MOST_CARDS;
use rpg_text::trimmed;
use std::alloc::{AllocError, Global};

/// The columns before the first one of a card.
const MARGIN: usize = 6;

fn write_card(out: &mut TextWriter, number: usize, line: &[u8]) {
    out.fill("{:>5}", &[number.into()]);
    let text = trimmed(line);
    if !text.is_empty() {
        out.write_char(' ');
        write_columns(out, text);
    }
    out.write_char('\n');
}

/// Writes the faults of a card, the first of these. Returns how many there are.
fn write_faults(
    alloc: Global,
    out: &mut TextWriter,
    number: usize,
    line: &[u8],
    source: SourceCards<'_>,
    faults: &[&CardFault],
) -> Result<usize, AllocError> {
    let mut count = 0usize;
    for fault in faults {
        if usize::from(fault.card) != number {
            break;
        }
        write_note(alloc, out, MARGIN, line, source, fault)?;
        count = count.saturating_add(1);
    }
    Ok(count)
}

/// Returns the lines of a source, up to the card that ends it, or to the first one over the limit.
pub(crate) fn lines_of(alloc: Global, source: &[u8]) -> Result<Vec<&[u8]>, AllocError> {
    let mut all = Vec::new(alloc);
    let mut lines = CardLines::of(source);
    for number in 1..=MOST_CARDS + 1 {
        if !lines.has_more() {
            break;
        }
        let line = lines.line_of(number);
        all.push(line)?;
        if matches!(line, [b'/', b'*'] | [b'/', b'*', b' ', ..]) {
            break;
        }
    }
    Ok(all)
}

/// Writes the cards below a ruler. Faults come card by card, those of the whole source first.
pub(crate) fn write_cards(
    alloc: Global,
    out: &mut TextWriter,
    lines: &[&[u8]],
    source: SourceCards<'_>,
    faults: &[&CardFault],
) -> Done {
    out.write_str("\n card ");
    write_ruler(out, 80);
    out.write_char('\n');
    let mut written = write_faults(alloc, out, 0, &[], source, faults)?;
    for (place, line) in lines.iter().enumerate() {
        let number = place.saturating_add(1);
        write_card(out, number, line);
        let rest = &faults[written.min(faults.len())..];
        let more = write_faults(alloc, out, number, line, source, rest)?;
        written = written.saturating_add(more);
    }
    Ok(())
}

fn counted(count: usize) -> &'static str {
    if count == 1 { "" } else { "s" }
}

/// Writes how many of the cards can't be read, which ones the tables cover, and whether other faults are looked for later.
fn write_unread(out: &mut TextWriter, cards: usize, unread: usize, others: usize, is_later: bool) {
    out.fill_two("{} card{} that can't be read", unread, counted(unread));
    if others > 0 {
        out.fill_two(", {} fault{}", others, counted(others));
    }
    let covered = match cards.saturating_sub(unread) {
        0 => "",
        1 => "the tables below cover the other card",
        _ => "the tables below cover the other cards",
    };
    let later = match (is_later, covered) {
        (false, _) => "",
        (true, "") => "other checks run once all cards can be read",
        (true, _) => "; other checks run once all cards can be read",
    };
    out.fill_two("\n{}{}\n", covered, later);
}

fn write_head(out: &mut TextWriter, path: &str, cards: usize, faults: &[&CardFault], left: Unread) {
    out.write_shown(path.as_bytes());
    out.fill_two(": {} card{}, ", cards, counted(cards));
    let unread = count_unread(faults);
    match (unread, faults.len().saturating_sub(unread)) {
        (0, 0) => out.write_str("no fault\n"),
        (0, count) => out.fill_two("{} fault{}\n", count, counted(count)),
        (_, others) => write_unread(out, cards, unread, others, !left.leaves_all()),
    }
}

fn write_fields(alloc: Global, out: &mut TextWriter, source: &IndexedCards) -> Done {
    let mut names = Names::of(alloc, source.as_slice())?;
    names.write(out, source)?;
    write_constants(alloc, out, source.as_slice(), names.count())
}

fn write_contents(
    alloc: Global,
    out: &mut TextWriter,
    source: &IndexedCards,
    has_all_tables: bool,
) -> Done {
    let cards = source.as_slice();
    write_files(alloc, out, cards)?;
    write_tables(out, cards, has_all_tables);
    write_records(out, source);
    write_order(alloc, out, source)?;
    write_fields(alloc, out, source)?;
    Labels::of(alloc, cards)?.write(out);
    Indicators::of(alloc, cards)?.write(out);
    write_lines(out, source);
    Ok(())
}

fn cards_text(alloc: Global, path: &str, text: &[u8], known: &KnownFaults<'_>) -> Made<String> {
    let lines = lines_of(alloc, text)?;
    let faults = known.faults(alloc)?;
    let source = IndexedCards::new(alloc, known.cards())?;
    let near = NearNames::of(alloc, known.cards(), &faults)?;
    let mut out = TextWriter::new(alloc);
    write_head(&mut out, path, lines.len(), &faults, known.unread);
    let cards = SourceCards::of(&source, &near, text);
    write_cards(alloc, &mut out, &lines, cards, &faults)?;
    write_contents(alloc, &mut out, &source, known.unread.leaves_tables())?;
    out.finish()
}

/// Returns the whole listing of a source, with or without faults: its cards, each with its faults; its files, tables, record types with
/// their fields; names, constants, labels and indicators with the cards that use them; and its lines as they are printed. For cards that
/// can't be read the listing has only the faults. `path` is the name of the source.
pub fn source_listing(alloc: Global, path: &str, source: &[u8]) -> Result<String, AllocError> {
    let Ok(judged) = source_faults(alloc, source) else {
        return Err(AllocError);
    };
    let known = KnownFaults::of(alloc, source, &judged)?;
    cards_text(alloc, path, source, &known)
}
