//! The diagnostics for a rejected source, and a fault below its card, as in a listing.

use crate::bytes::{is_object, write_byte_cause, write_long_line};
use crate::readable::{KnownFaults, Unread, count_unread};
use crate::unmarked::{
    DeckSlip, LaterCard, Slip, later_card, write_order, write_shorthand, write_unmarked,
};
use rpg_card_index::IndexedCards;
use rpg_cards::SpecCard;
use rpg_cli_causes::{CardLines, NearNames, Root, SourceCards, definer, root_of, write_cause};
use rpg_cli_columns::{
    before_comma, capitalised, character_at, pointed_at, text_in, write_bad_columns,
    write_form_type,
};
use rpg_cli_diagnostics::{
    Columns, Diagnostic, Diagnostics, Draft, FileName, Level, Made, write_times,
};
use rpg_cli_text::{TextWriter, Topic};
use rpg_faults::{CardFault, SourceCode, SourceFaults};
use rpg_sheet::{Card, ColumnFault, SheetCode};
use rpg_text::{has_only_characters, is_character, trimmed};
use std::alloc::Global;
use std::collections::HashMap;

/// Returns the diagnostics for the faults of a source, for at most `most` of them, and for one if the source is an object program; then the
/// number of faults.
pub fn source_diagnostics<'a>(
    alloc: Global,
    file: FileName<'a>,
    source: &'a [u8],
    judged: &SourceFaults,
    most: u16,
) -> Diagnostics<'a> {
    let faults = judged.faults.as_slice();
    let mut told = Told::of(alloc, file, source);
    match (DeckSlip::of(source, faults), faults) {
        (Some(slip), [first, ..]) if most > 0 => told.add_slip(slip, topic_of(first.code)),
        _ => {
            if told.add_known(judged, most).is_err() {
                told.out.lose();
            }
        }
    }
    let Told { out, .. } = told;
    out
}

/// Returns the diagnostic for a single fault of a source, at which a command stops. It looks as it does among others.
pub fn card_diagnostic<'a>(
    alloc: Global,
    file: FileName<'a>,
    source: &'a [u8],
    fault: &'a CardFault,
) -> Made<Diagnostic<'a>> {
    let cards = IndexedCards::new(alloc, &[])?;
    let near = NearNames::of(alloc, &[], &[])?;
    let known = SourceCards::of(&cards, &near, source);
    let line = CardLines::of(source).line_of(fault.card);
    let at = FaultAt {
        line,
        source: known,
        fault,
    };
    Told::of(alloc, file, source).fault(line, at).finish()
}

/// A fault, the line of its card, and the cards of its source.
#[derive(Clone, Copy)]
pub(crate) struct FaultAt<'a> {
    pub line: &'a [u8],
    pub source: SourceCards<'a>,
    pub fault: &'a CardFault,
}

/// A source whose faults are reported: its name and its text.
#[derive(Drop)]
struct Told<'a> {
    alloc: Global,
    file: FileName<'a>,
    source: &'a [u8],
    out: Diagnostics<'a>,
}

impl<'a> Told<'a> {
    fn of(alloc: Global, file: FileName<'a>, source: &'a [u8]) -> Self {
        Told {
            alloc,
            file,
            source,
            out: Diagnostics::new(alloc),
        }
    }

    /// Adds a slip that stands for the faults of all cards, and how many cards have it.
    fn add_slip(&mut self, slip: DeckSlip, topic: Topic) {
        let line = CardLines::of(self.source).line_of(slip.first);
        let first = slip.slip.column();
        let place = self
            .file
            .card(slip.first, Some(Columns { first, last: first }), line);
        let mut draft = Draft::new(self.alloc, Level::Error, Some(place), Some(topic));
        slip.write(&mut draft);
        self.out.push(draft.finish());
        if !matches!(slip.slip, Slip::Free) {
            let note = Draft::note(self.alloc, self.file.whole());
            let count = note.filled("{} cards can't be read", &[slip.cards.into()]);
            self.out.push(count);
        }
    }

    fn add_known(&mut self, judged: &SourceFaults, most: u16) -> Made<()> {
        let known = KnownFaults::of(self.alloc, self.source, judged)?;
        let faults = known.faults(self.alloc)?;
        let is_one = is_object(self.source);
        let most = if is_one { most.min(1) } else { most };
        let shown = faults.len().min(usize::from(most));
        self.add_listed(known.cards(), &faults[..shown])?;
        let mut draft = Draft::note(self.alloc, self.file.whole());
        write_count(&mut draft.message, &faults, known.unread, most);
        self.out.push(draft.finish());
        Ok(())
    }

    fn add_listed(&mut self, cards: &[SpecCard], listed: &[&CardFault]) -> Made<()> {
        let near = NearNames::of(self.alloc, cards, listed)?;
        let cards = IndexedCards::new(self.alloc, cards)?;
        self.add_faults(SourceCards::of(&cards, &near, self.source), listed)
    }

    /// Adds faults in the order of their cards, and notes the mistakes that caused them.
    fn add_faults(&mut self, source: SourceCards, faults: &[&CardFault]) -> Made<()> {
        let mut mistakes = HashMap::new(self.alloc);
        let mut lines = CardLines::of(self.source);
        for fault in faults {
            let line = lines.line_of(fault.card);
            let at = FaultAt {
                line,
                source,
                fault,
            };
            let Some(mistake) = mistake_of(at) else {
                let draft = self.fault(line, at);
                self.out.push(draft.finish());
                continue;
            };
            let first = mistakes.get(&mistake).copied();
            let draft = match first {
                Some(first) => {
                    let mut draft = self.begin(line, fault, false);
                    write_follower(&mut draft.message, mistake, first);
                    draft
                }
                None => self.mistaken(line, at, mistake),
            };
            self.out.push(draft.finish());
            if first.is_none() {
                mistakes.insert(mistake, fault.card)?;
            }
        }
        Ok(())
    }

    /// Begins a fault: its place, with the card and a mark under its columns, and its code.
    fn begin(&self, line: &'a [u8], fault: &CardFault, is_shown: bool) -> Draft<'a> {
        let columns = marked(columns_of(line, fault));
        let mut place = self.file.card(fault.card, columns, line);
        if !is_shown {
            place = place.without_picture();
        }
        let topic = topic_of(fault.code);
        Draft::new(self.alloc, Level::Error, Some(place), Some(topic))
    }

    fn fault(&self, line: &'a [u8], at: FaultAt<'_>) -> Draft<'a> {
        let mut draft = self.begin(line, at.fault, true);
        write_sentence(&mut draft, at);
        draft
    }

    /// Returns the first fault that a mistake causes, with the card of the mistake if it is another.
    fn mistaken(&self, line: &'a [u8], at: FaultAt<'_>, mistake: Mistake) -> Draft<'a> {
        let mut draft = self.fault(line, at);
        let Mistake::Root(Root::Text(card)) = mistake else {
            return draft;
        };
        let line = CardLines::of(self.source).line_of(card);
        if character_at(line, 6) == b'I' {
            let mut remark = draft.text();
            remark.write_str("a field without decimals is a text");
            let place = self.file.card(card, marked(Some(column(52))), line);
            draft.add(Some(place), remark);
        }
        draft
    }
}

pub fn topic_of(code: SourceCode) -> Topic {
    match code {
        SourceCode::Sheet(code) => Topic::Sheet(usize::from(code.number())),
        SourceCode::Fault(code) => Topic::Fault(usize::from(code.number())),
    }
}

pub fn marked(columns: Option<ColumnFault>) -> Option<Columns> {
    let ColumnFault { column, last } = columns?;
    Some(Columns {
        first: usize::from(column),
        last: usize::from(last),
    })
}

/// A mistake that can cause several faults.
#[derive(Clone, Copy, PartialEq, Eq, Hash)]
enum Mistake {
    /// A card that comes before those of earlier sheets.
    Later(LaterCard),
    /// A card that causes faults on other cards.
    Root(Root),
}

fn mistake_of(at: FaultAt<'_>) -> Option<Mistake> {
    match at.fault.code {
        SourceCode::Sheet(SheetCode::S4) => {
            Some(Mistake::Later(later_card(at.source.text, at.fault.card, at.line)?))
        }
        SourceCode::Sheet(_) => None,
        SourceCode::Fault(_) => Some(Mistake::Root(root_of(at.source, at.line, at.fault)?)),
    }
}

const LATER_SHEET: &str = "also follows from card {}, which is of a later sheet";

const TEXT: &str = "also follows from card {}, whose field is a text";

const LATER_TIME: &str = "also follows from card {}, which is of a later time";

/// Writes that a fault follows from a mistake that is already reported, at the fault of this card.
fn write_follower(out: &mut TextWriter, mistake: Mistake, first: u16) {
    let (sentence, card) = match mistake {
        Mistake::Later(later) => (LATER_SHEET, later.card),
        Mistake::Root(Root::Text(card)) => (TEXT, card),
        Mistake::Root(Root::Later(card)) => (LATER_TIME, card),
        Mistake::Root(Root::Unknown(name)) => {
            out.fill_two("no card defines {} (see card {})", trimmed(&name), first);
            return;
        }
    };
    out.fill_one(sentence, card);
}

pub(crate) fn columns_of(line: &[u8], fault: &CardFault) -> Option<ColumnFault> {
    match fault.code {
        SourceCode::Sheet(SheetCode::S1) => Some(column(81)),
        SourceCode::Sheet(SheetCode::S2) => Some(column(first_bad(line)?)),
        SourceCode::Sheet(SheetCode::S3 | SheetCode::S4) => Some(column(6)),
        SourceCode::Sheet(SheetCode::S5) => Some(pointed_at(line, fault.columns?)),
        SourceCode::Fault(_) => fault.columns,
        SourceCode::Sheet(SheetCode::S6) => None,
    }
}

fn column(number: u8) -> ColumnFault {
    ColumnFault {
        column: number,
        last: number,
    }
}

/// Returns the column of the first byte of a card that isn't a character.
fn first_bad(line: &[u8]) -> Option<u8> {
    let mut bytes = line.iter().take(80);
    let place = bytes.position(|byte| !is_character(*byte))?;
    u8::try_from(place.saturating_add(1)).ok()
}

const OBJECT: &str =
    "this is an object program: run it with rpg2 run, or look at it with rpg2 show";

/// Returns the diagnostic for an object program in place of a source, for a command that reads shorthand, or only some cards.
pub fn object_diagnostic(alloc: Global, file: FileName<'_>) -> Made<Diagnostic<'_>> {
    Draft::error(alloc, file.line(1)).filled(OBJECT, &[])
}

/// Writes what is wrong: the rule that is broken, and the numbers on the cards that break it. The first card of an object program is
/// always at fault, and stands for all of it.
pub(crate) fn write_sentence(draft: &mut Draft<'_>, at: FaultAt<'_>) {
    let (source, fault) = (at.source, at.fault);
    match fault.code {
        _ if fault.card == 1 && is_object(source.text) => draft.message.write_str(OBJECT),
        SourceCode::Sheet(code) => {
            write_unread(draft, at, code);
            if matches!(code, SheetCode::S3 | SheetCode::S4 | SheetCode::S5) {
                write_unmarked(&mut draft.message, source.text, fault.card);
            }
        }
        SourceCode::Fault(_) => {
            if !write_cause(&mut draft.message, source, at.line, fault) {
                draft.message.write_str(topic_of(fault.code).sentence());
            }
        }
    }
}

fn write_unread(draft: &mut Draft<'_>, at: FaultAt<'_>, code: SheetCode) {
    let (line, text, card) = (at.line, at.source.text, at.fault.card);
    match (code, at.fault.columns) {
        (SheetCode::S1, _) => write_long_line(&mut draft.message, line),
        (SheetCode::S2, _) => write_bad_byte(draft, line),
        (SheetCode::S3, _) => {
            write_form_type(draft, line);
            write_shorthand(&mut draft.message, text, card, line);
        }
        (SheetCode::S4, _) => write_order(&mut draft.message, later_card(text, card, line)),
        (SheetCode::S5, Some(columns)) => {
            write_bad_columns(draft, line, columns);
            add_capitals(draft, at, columns);
        }
        (SheetCode::S5, None) => {}
        (SheetCode::S6, _) => draft.message.write_str("a source has at most 2,000 cards"),
    }
}

fn card_of(line: &[u8; 80], number: u16) -> Option<SpecCard> {
    if !has_only_characters(line) {
        return None;
    }
    let card = Card::new(line);
    let spec = card.read(card.form_type()?).ok()?;
    Some(SpecCard { number, spec })
}

/// Adds which name is meant by one in small letters, if the card or another one defines it.
fn add_capitals(draft: &mut Draft<'_>, at: FaultAt<'_>, columns: ColumnFault) {
    let Some(capitals) = capitalised(at.line, columns) else {
        return;
    };
    let name = before_comma(text_in(&capitals, columns));
    let card = card_of(&capitals, at.fault.card);
    let own = card.is_some_and(|card| definer(&[card], name).is_some());
    if own || definer(at.source.cards.as_slice(), name).is_some() {
        let mut remark = draft.text();
        remark.fill_one("is {} meant?", name);
        draft.remark(remark);
    }
}

fn write_bad_byte(draft: &mut Draft<'_>, line: &[u8]) {
    if let Some(column) = first_bad(line) {
        write_byte_cause(draft, line, usize::from(column.saturating_sub(1)));
    }
}

/// Writes how many cards can't be read and how many faults there are, how many of them are shown, and which faults aren't known.
fn write_count(out: &mut TextWriter, faults: &[&CardFault], left: Unread, most: u16) {
    let unread = count_unread(faults);
    let others = faults.len().saturating_sub(unread);
    match (unread, others) {
        (0, _) => {}
        (1, 0) if most > 0 => out.write_str("this card can't be read"),
        (1, _) => out.write_str("1 card can't be read"),
        _ => out.fill_one("{} cards can't be read", unread),
    }
    if unread > 0 && others > 0 {
        out.write_str(", ");
    }
    match (unread, others) {
        (_, 1) => out.write_str("1 fault"),
        (0, _) | (_, 2..) => out.fill_one("{} faults", others),
        _ => {}
    }
    if faults.len() > usize::from(most) {
        write_reported(out, most);
    }
    if unread > 0 {
        left.write_left_out(out, unread == 1);
    }
}

/// Writes how many of the faults are listed.
pub fn write_reported(out: &mut TextWriter, most: u16) {
    let sentence = match most {
        0 => ", none shown",
        _ => ", {} of them shown",
    };
    out.fill(sentence, &[most.into()]);
}

/// Writes what is wrong, and what belongs to it, on one line.
fn write_fault(alloc: Global, out: &mut TextWriter, at: FaultAt<'_>) -> Made<()> {
    let mut draft = Draft::new(alloc, Level::Error, None, None);
    write_sentence(&mut draft, at);
    let told = draft.finish()?;
    out.write_str(told.message.as_str());
    for child in &told.children {
        out.fill_one("; {}", child.message.as_str());
    }
    out.write_char('\n');
    Ok(())
}

/// Writes a fault of a card, which begins after `margin` blanks: a mark under the columns that the fault points at, if its code says which,
/// and after the code what is wrong.
pub fn write_note(
    alloc: Global,
    out: &mut TextWriter,
    margin: usize,
    line: &[u8],
    source: SourceCards<'_>,
    fault: &CardFault,
) -> Made<()> {
    if let Some(ColumnFault { column, last }) = columns_of(line, fault) {
        let before = usize::from(column).saturating_sub(1);
        write_times(out, ' ', margin.saturating_add(before));
        write_times(out, '^', usize::from(last).saturating_sub(before));
        out.write_char('\n');
    }
    let code = fault.code.text();
    let blanks = margin.saturating_sub(code.len().saturating_add(1));
    write_times(out, ' ', blanks);
    out.fill_one("{} ", code);
    let at = FaultAt {
        line,
        source,
        fault,
    };
    write_fault(alloc, out, at)
}
