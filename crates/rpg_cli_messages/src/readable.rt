//! The faults that are known if some cards can't be read: those of the other cards that stay, whatever the unread ones say.

use rpg_cards::SpecCard;
use rpg_cli_causes::CardLines;
use rpg_cli_columns::character_at;
use rpg_cli_diagnostics::Made;
use rpg_cli_shorthand::begins_data;
use rpg_cli_text::TextWriter;
use rpg_faults::{
    CardFault, Cause, FileCause, IndicatorCause, Limit, LimitCause, PlaceCause, SourceCode,
    SourceFaults, source_faults,
};
use rpg_sheet::MOST_CARDS;
use std::alloc::{AllocError, Global};

const SHEETS: &[u8; 7] = b"HFELICO";

const DEPENDENT: &str = "; faults that depend on {} cards are looked for once {} be read";

/// What the cards that can't be read may be, if there are any.
#[derive(Clone, Copy)]
pub struct Unread {
    is_any: bool,
    /// For each sheet whether one of them may be of it.
    sheets: [bool; 7],
    begins_data: bool,
    is_data: bool,
}

impl Unread {
    const NONE: Unread = Unread {
        is_any: false,
        sheets: [false; 7],
        begins_data: false,
        is_data: false,
    };

    /// Notes a card that can't be read: it is of the sheet in column 6, or of any if there is none. A comment is of no sheet.
    fn note(&mut self, line: &[u8], is_data: bool) {
        self.is_any = true;
        self.begins_data |= begins_data(line);
        self.is_data |= is_data;
        if is_data || character_at(line, 7) == b'*' {
            return;
        }
        let form = character_at(line, 6);
        let is_of_any = !SHEETS.contains(&form);
        for (is_noted, sheet) in self.sheets.iter_mut().zip(SHEETS) {
            *is_noted |= is_of_any || form == *sheet;
        }
    }

    /// Whether one of them may be of one of these sheets.
    fn has_any(self, forms: &str) -> bool {
        let mut sheets = self.sheets.iter().zip(SHEETS);
        sheets.any(|(is_noted, sheet)| *is_noted && forms.as_bytes().contains(sheet))
    }

    /// Whether the others have all E cards and all that begin data, so that it is known which data are whose.
    pub fn leaves_tables(self) -> bool {
        !self.begins_data && !self.has_any("E")
    }

    /// Whether a fault stays, whatever these cards say.
    fn leaves(self, fault: &CardFault) -> bool {
        match (fault.code, &fault.cause) {
            (SourceCode::Sheet(_), _) => true,
            (_, None) => !self.is_any,
            (_, Some(Cause::Data(_))) => self.leaves_tables() && !self.is_data,
            (_, Some(cause)) => !self.has_any(sheets_of(cause)),
        }
    }

    /// Whether most faults of the others are known.
    pub fn leaves_all(self) -> bool {
        !self.begins_data && !self.is_data && !self.has_any("FELIC")
    }

    /// Writes which faults aren't known yet, if there may be some.
    pub(crate) fn write_left_out(self, out: &mut TextWriter, is_one: bool) {
        let mut count = 0usize;
        let mut last = "";
        for sheet in ["F", "E", "L", "I", "C"] {
            if self.has_any(sheet) {
                count = count.saturating_add(1);
                last = sheet;
            }
        }
        let they_can = if is_one { "it can" } else { "they can" };
        match (count, self.begins_data || self.is_data) {
            (0, false) => {}
            (1, false) => out.fill_two(DEPENDENT, last, they_can),
            _ => out.fill_one("; other checks run once {}", they_can),
        }
    }
}

/// Returns the sheets whose cards can undo a fault with this cause.
fn sheets_of(cause: &Cause) -> &'static str {
    match cause {
        Cause::RedefinedName(_) | Cause::Size(_) | Cause::Twice(_) => "",
        Cause::Limit(limit) => group_of(*limit),
        Cause::File(FileCause::Unnamed(_) | FileCause::WrongUse { .. }) => "FIO",
        Cause::File(FileCause::SecondForm { .. } | FileCause::OverflowPast { .. }) => "",
        Cause::File(_) => "F",
        Cause::Indicator(fault) if matches!(fault.cause, IndicatorCause::NoMatchFields) => "FI",
        Cause::Indicator(_) => "F",
        Cause::Column(_) => "FC",
        Cause::Field(_) => "FE",
        Cause::Movement(_) => "FO",
        Cause::UndefinedName(_) | Cause::Operand(_) | Cause::Index(_) | Cause::Editing(_) => "EIC",
        Cause::Nowhere(_) | Cause::Order(_) => "C",
        Cause::Apart(_) | Cause::Recursion(_) | Cause::Rounding(_) => "C",
        Cause::Stray(_) => "CIO",
        Cause::Outside(PlaceCause::PastLine { .. }) => "FIO",
        Cause::Outside(PlaceCause::Wider { .. }) => "FEIC",
        Cause::Outside(PlaceCause::SkipPast { .. }) => "FLO",
        Cause::Outside(_) | Cause::Join(_) => "FI",
        Cause::Data(_) => "E",
    }
}

/// Returns the sheet whose cards can begin another record type or line than the one that exceeds a limit.
fn group_of(cause: LimitCause) -> &'static str {
    match cause {
        LimitCause::Passed { limit, .. } => match limit {
            Limit::Codes | Limit::ControlFields | Limit::InputFields => "I",
            Limit::Alternatives | Limit::Conditions | Limit::OutputFields => "O",
            _ => "",
        },
        LimitCause::Entries(_) => "",
    }
}

/// Appends the lines of a source. A blank card stands for each that can't be read, or a `**` card if it begins data. Cards over the limit may
/// be of any sheet.
fn write_readable(out: &mut TextWriter, unread: &mut Unread, source: &[u8], faults: &[CardFault]) {
    let mut lines = CardLines::of(source);
    let mut rest = faults;
    let mut is_data = false;
    for number in 1..=MOST_CARDS {
        if !lines.has_more() {
            break;
        }
        let line = lines.line_of(number);
        match rest {
            [first, after @ ..] if first.card == number => {
                unread.note(line, is_data);
                rest = after;
                out.write_str(if begins_data(line) { "**" } else { "" });
            }
            _ => out.write_shown(line),
        }
        out.write_char('\n');
        is_data |= begins_data(line);
    }
    if !rest.is_empty() {
        unread.note(&[], is_data);
    }
}

/// The faults of a source that are known, if some of its cards can't be read.
#[derive(Drop)]
pub struct KnownFaults<'a> {
    judged: &'a SourceFaults,
    /// The cards that can be read and their faults, if others can't be.
    others: Option<SourceFaults>,
    pub unread: Unread,
}

impl<'a> KnownFaults<'a> {
    pub fn of(alloc: Global, source: &[u8], judged: &'a SourceFaults) -> Made<KnownFaults<'a>> {
        let mut unread = Unread::NONE;
        let others = match judged.faults.as_slice() {
            [first, ..] if is_unread(first) => {
                Some(readable(alloc, &mut unread, source, &judged.faults)?)
            }
            _ => None,
        };
        Ok(KnownFaults {
            judged,
            others,
            unread,
        })
    }

    pub fn cards(&self) -> &[SpecCard] {
        match &self.others {
            Some(others) => &others.cards,
            None => &self.judged.cards,
        }
    }

    /// Returns the faults of cards that can't be read, and those of others that stay, in the order of their cards.
    pub fn faults(&self, alloc: Global) -> Made<Vec<&CardFault>> {
        let mut faults = Vec::new(alloc);
        let mut first = self.judged.faults.as_slice();
        let mut second: &[CardFault] = match &self.others {
            Some(others) => &others.faults,
            None => &[],
        };
        for _ in 0..first.len().saturating_add(second.len()) {
            match next_of(&mut first, &mut second) {
                Some(fault) if self.unread.leaves(fault) => faults.push(fault)?,
                _ => {}
            }
        }
        Ok(faults)
    }
}

/// Judges the cards of a source that can be read. Notes what the others may be.
fn readable(
    alloc: Global,
    unread: &mut Unread,
    source: &[u8],
    faults: &[CardFault],
) -> Made<SourceFaults> {
    let mut text = TextWriter::new(alloc);
    write_readable(&mut text, unread, source, faults);
    match source_faults(alloc, text.finish()?.as_bytes()) {
        Ok(judged) => Ok(judged),
        Err(_) => Err(AllocError),
    }
}

/// Takes the next fault of two lists, by card.
fn next_of<'a>(first: &mut &'a [CardFault], second: &mut &'a [CardFault]) -> Option<&'a CardFault> {
    match (*first, *second) {
        ([one, after @ ..], [other, ..]) if one.card < other.card => {
            *first = after;
            Some(one)
        }
        (_, [other, after @ ..]) => {
            *second = after;
            Some(other)
        }
        ([one, after @ ..], []) => {
            *first = after;
            Some(one)
        }
        ([], []) => None,
    }
}

fn is_unread(fault: &CardFault) -> bool {
    matches!(fault.code, SourceCode::Sheet(_))
}

pub fn count_unread(faults: &[&CardFault]) -> usize {
    faults.iter().filter(|fault| is_unread(fault)).count()
}
