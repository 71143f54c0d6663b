//! Fields and columns: F3 to F6, F8, F9, F15 and F17. Lengths, operands of the wrong kind, indexes, how many there may be, indicators, columns
//! of calculations that are missing or not allowed, and editing that does not fit its number.

use crate::spot::Spot;
use rpg_cards::Content;
use rpg_cli_text::{TextWriter, indicator_name, sentence_of};
use rpg_faults::{
    ColumnCause, EditingCause, FieldCause, IndexCause, IndicatorCause, Limit, LimitCause, Mismatch,
    OperandCause, RoundingCause, SizeCause, TextField,
};
use rpg_program::form::{Class, FieldForm, Kind};
use rpg_sheet::{ColumnRange, Indicator, Word};

pub(crate) fn noun(count: usize, one: &'static str, more: &'static str) -> &'static str {
    if count == 1 { one } else { more }
}

fn write_card(out: &mut TextWriter, card: Option<u16>) {
    if let Some(card) = card {
        out.fill_one(" (card {})", card);
    }
}

/// Writes a field's form: `a number 6.2` has 6 digits, of which 2 are decimals.
pub(crate) fn write_form(out: &mut TextWriter, form: FieldForm) {
    match form.class {
        Class::Array => out.fill_one("an array of {}, each ", form.entries),
        Class::Table => out.fill_one("a table of {}, each ", form.entries),
        Class::Plain | Class::Constant | Class::Date => {}
    }
    let length = form.length;
    match form.kind {
        Kind::Text => {
            let characters = noun(usize::from(length), "character", "characters");
            out.fill_two("a text of {} {}", length, characters);
        }
        Kind::Number => out.fill_two("a number {}.{}", length, form.decimals),
    }
}

const LENGTH: &str = "a length of {}: a number has 1 to 15 digits, a text 1 to 256 characters";

const DIGITS: &str = "a length of {}: a number has 1 to 15 digits";

/// F3: the length, or the decimals.
pub(crate) fn write_size(out: &mut TextWriter, cause: SizeCause) {
    match cause {
        SizeCause::Length(length) => out.fill_one(LENGTH, u64::from(length)),
        SizeCause::Digits(length) => out.fill_one(DIGITS, u64::from(length)),
        SizeCause::Decimals { decimals, length } => write_decimals(out, decimals, length),
        SizeCause::NoLength => out.write_str("decimals (52) without a length (49-51)"),
    }
}

fn write_decimals(out: &mut TextWriter, decimals: u8, length: u32) {
    let of_decimals = noun(usize::from(decimals), "decimal", "decimals");
    let of_digits = if length == 1 { "digit" } else { "digits" };
    out.fill_two("{} {} of ", decimals, of_decimals);
    out.fill_two("{} {}: ", u64::from(length), of_digits);
    out.write_str("there are at most 9, and no more than digits");
}

/// Returns the sentence for a limit: how many there are with the card, and how many are allowed.
const fn limit_sentence(limit: Limit) -> &'static str {
    match limit {
        Limit::RecordTypes => "with this card there are {} record types: a source has at most 200",
        Limit::Codes => "with this card its record type has {} codes: it has at most 100",
        Limit::ControlFields =>
            "with this card its record type has {} control fields: it has at most 100",
        Limit::InputFields => "with this card its record type has {} fields: it has at most 500",
        Limit::Lines => "with this card there are {} lines: a source has at most 1,000",
        Limit::Alternatives => "with this card its line has {} alternatives: it has at most 50",
        Limit::Conditions =>
            "with this card an alternative of its line has {} conditions: it has at most 60",
        Limit::OutputFields => "with this card its line has {} fields: it has at most 200",
        Limit::Calculations =>
            "with this card there are {} calculation cards: a source has at most 1,000",
        Limit::Subroutines => "with this card there are {} subroutines: a source has at most 100",
        Limit::Names => "with this card there are {} names: a source has at most 4,000",
        Limit::NameBytes => "with this card names take {} bytes: they take at most 65,535",
        Limit::Bytes =>
            "with this card names and constants take {} bytes: they take at most 65,535",
        Limit::Fields =>
            "with this card there are {} names and constants: a source has at most 4,000",
    }
}

/// F6: which limit is exceeded, and by which count.
pub(crate) fn write_limit(out: &mut TextWriter, cause: LimitCause) {
    match cause {
        LimitCause::Entries(entries) => out.fill_one(
            "{} entries: a table or an array has 1 to 9,999",
            entries,
        ),
        LimitCause::Passed { limit, count } => out.fill_one(limit_sentence(limit), count),
    }
}

const NOT_OF_TYPE: &str =
    "{} can't be turned on by a record type: 01 to 99, L1 to L9, LR and H1 to H9 can";

const TEXT_FIELD: &str =
    "{} is a text, since column 52 is blank, and only its blanks are tested (69-70)";

fn name_of(indicator: &Indicator) -> &'static str {
    indicator_name(indicator.number()).unwrap_or("")
}

/// F8: which indicator isn't allowed, and which are.
pub(crate) fn write_bad_indicator(out: &mut TextWriter, cause: &IndicatorCause) {
    match cause {
        IndicatorCause::NotOfType(indicator) => {
            out.fill_one(NOT_OF_TYPE, name_of(indicator));
        }
        IndicatorCause::NeverSet(indicator) => out.fill_one(
            "{} can't be set: results and fields set all but L0, 1P and MR",
            name_of(indicator),
        ),
        IndicatorCause::TextField(name) => out.fill_one(TEXT_FIELD, name.as_slice()),
        IndicatorCause::FirstPage => out.write_str(
            "calculations can't test 1P: it is on only before the first record",
        ),
        IndicatorCause::NoMatchFields => {
            out.write_str("MR is tested, and no field has a match level (61-62)");
        }
    }
}

const fn range_name(at: ColumnRange) -> &'static str {
    match at {
        ColumnRange::FirstFactor => "factor 1 (18-27)",
        ColumnRange::Operation => "the operation (28-32)",
        ColumnRange::SecondFactor => "factor 2 (33-42)",
        ColumnRange::ResultName => "the result field (43-48)",
        ColumnRange::ResultPlus => "the resulting indicator of plus or high (54-55)",
        ColumnRange::ResultMinus => "the resulting indicator of minus or low (56-57)",
        ColumnRange::ResultZero => "the resulting indicator of zero or equal (58-59)",
        _ => "a column",
    }
}

/// Returns the sentence of a cause, and the name of the columns that it is about, if they have
/// one.
const fn sentence(cause: &ColumnCause) -> (&'static str, &'static str) {
    match cause {
        ColumnCause::NoOperation => ("a calculation needs an operation (28-32)", ""),
        ColumnCause::ConditionsNeeded => (
            "each card of a calculation with AN or OR cards needs conditions (9-17)",
            "",
        ),
        ColumnCause::Unconditioned => (
            "TAG, BEGSR and ENDSR can't have conditions: blank 9-17",
            "",
        ),
        ColumnCause::LengthAlone => ("a length (49-51) without a result field (43-48)", ""),
        ColumnCause::NoIndicators => ("{} has no resulting indicators: blank 54-59", ""),
        ColumnCause::IndicatorNeeded => ("{} needs a resulting indicator (54-59)", ""),
        ColumnCause::HighAndLow => (
            "{} searches for high (54-55) or low (56-57), not for both",
            "",
        ),
        ColumnCause::NotAllowed(at) => ("{} doesn't use {}: blank it", range_name(*at)),
        ColumnCause::Needed(at) => ("{} needs {}", range_name(*at)),
        ColumnCause::NotPlain(at) => ("{} needs a name without an index in {}", range_name(*at)),
        ColumnCause::LastCardAlone(at) => (LAST_CARD_ALONE, range_name(*at)),
    }
}

const LAST_CARD_ALONE: &str =
    "the calculation continues with AN or OR, and only its last card may have {}";

/// F9 of what LOKUP searches, or of an output field.
pub(crate) fn write_field(out: &mut TextWriter, spot: Spot<'_>, cause: &FieldCause) {
    match cause {
        FieldCause::Unordered { name, definer } => {
            out.fill_one("{} for high or low needs a sequence", spot.operation());
            if let (Some(name), Some(card)) = (name, *definer) {
                let name = name.as_slice();
                out.fill_two(": A in 45 or 57 for {} (card {})", name, card);
            }
        }
        FieldCause::CodeAlone => out.write_str("an edit code (38) without a field (32-37)"),
        FieldCause::BlankAfterAlone => out.write_str("blank after (39) without a field (32-37)"),
        FieldCause::NoField => {
            out.write_str("an output field needs a name (32-37) or a constant (45-70)");
        }
    }
}

/// F9 of a calculation: what is missing, or not allowed.
pub(crate) fn write_column(out: &mut TextWriter, spot: Spot<'_>, cause: &ColumnCause) {
    let (sentence, columns) = sentence(cause);
    if matches!(cause, ColumnCause::LastCardAlone(_)) {
        out.fill_one(sentence, columns);
    } else {
        out.fill_two(sentence, spot.operation(), columns);
    }
}

/// F15: why H or MVR isn't allowed.
pub(crate) fn write_rounding(out: &mut TextWriter, spot: Spot<'_>, cause: RoundingCause) {
    let sentence = match cause {
        RoundingCause::LastCardAlone => return out.fill_one(LAST_CARD_ALONE, "H"),
        RoundingCause::NoOperation => "H (53) without an operation (28-32)",
        RoundingCause::NotRounded => "{} isn't half adjusted: blank column 53",
        RoundingCause::SeveralCards => "MVR has no AN or OR cards",
        RoundingCause::NoDivision => "MVR follows a DIV without H on the card right before it",
    };
    out.fill_one(sentence, spot.operation());
}

const MOST_DIGITS: u16 = 15;

/// Writes how to make a text a number, if a card defines it and it isn't too long for one.
fn write_remedy(out: &mut TextWriter, spot: Spot<'_>, text: &TextField) {
    let Some(card) = text.definer else {
        return;
    };
    if text.length <= MOST_DIGITS {
        let remedy = if spot.is_extension(card) {
            "a digit in column 44 or 56"
        } else {
            "a digit in column 52"
        };
        out.fill_two(": {} of card {} makes it one", remedy, card);
    }
}

fn write_text(out: &mut TextWriter, name: &[u8], text: &TextField) {
    out.fill_one("{} is a text", name);
    write_card(out, text.definer);
}

/// F4: which operand is of the wrong kind, and which card makes it so.
pub(crate) fn write_operand(out: &mut TextWriter, spot: Spot<'_>, cause: &OperandCause) {
    let operation = spot.operation();
    match cause {
        OperandCause::WrongClass { at, wanted } => {
            let sentence = match wanted {
                Content::WholeArray => "{} isn't an array, and {} adds up the entries of one",
                Content::Searched => "{} is neither a table nor an array, and {} searches one",
                _ => "{} isn't a table, and what is found by {} becomes current in one",
            };
            out.fill_two(sentence, spot.text_in(*at), operation);
        }
        OperandCause::TextOperand { at, text } => {
            write_text(out, spot.text_in(*at), text);
            out.fill_one(", and {} takes numbers", operation);
            write_remedy(out, spot, text);
        }
        OperandCause::Unlike { first, second } => write_unlike(out, operation, *first, *second),
        OperandCause::Unwritable => {
            out.write_str("UDATE is the date, and no calculation can change it");
        }
        OperandCause::TooFew { found, searched } => {
            write_entries(out, spot.text_in(ColumnRange::ResultName), *found);
            out.fill_one(TOO_FEW, *searched);
        }
        OperandCause::EditedText(text) => write_edited(out, spot, text),
        OperandCause::BlankedDate(name) => out.fill_one(
            "{} is the date, and can't be blanked: take B out of column 39",
            name.as_slice(),
        ),
    }
}

fn write_unlike(out: &mut TextWriter, operation: &[u8], first: FieldForm, second: FieldForm) {
    out.write_str("factor 1 is ");
    write_form(out, first);
    out.write_str(" and factor 2 ");
    write_form(out, second);
    out.fill_one(": {} takes two numbers, or two texts", operation);
}

const TOO_FEW: &str = "what is searched has {}: the result needs as many";

fn write_edited(out: &mut TextWriter, spot: Spot<'_>, text: &TextField) {
    let name = match &text.name {
        Some(name) => name.as_slice(),
        None => &[],
    };
    write_text(out, name, text);
    out.write_str(", and numbers alone are edited");
    write_remedy(out, spot, text);
}

/// Writes what a field is that can't be an index.
fn write_no_index(out: &mut TextWriter, name: &Word<6>, form: FieldForm, definer: Option<u16>) {
    out.fill_one("{} is ", name.as_slice());
    match form.class {
        Class::Date => out.write_str("the date"),
        _ => write_form(out, form),
    }
    write_card(out, definer);
    out.write_str(", and an index is a plain number without decimals");
}

fn write_entries(out: &mut TextWriter, name: &[u8], entries: u16) {
    let counted = noun(usize::from(entries), "entry", "entries");
    out.fill_three("{} has {} {}, and ", name, entries, counted);
}

const NO_INDEX_GIVEN: &str =
    "is written with an index, as {},1: whole arrays stand in XFOOT and LOKUP only (rpg2 fit rewrites it: A13, A14)";

const TOO_SHORT: &str = "{} has no room for their number, which LOKUP puts there";

/// F5: what is wrong with the index of an entry.
pub(crate) fn write_index(out: &mut TextWriter, spot: Spot<'_>, cause: &IndexCause) {
    match cause {
        IndexCause::NoIndex {
            name,
            form,
            definer,
        } => write_no_index(out, name, *form, *definer),
        IndexCause::NoArray(name) => {
            out.fill_one("{} isn't an array, and takes no index", name.as_slice());
        }
        IndexCause::Whole(name) => out.fill_two(
            "{} takes the whole array {}, without an index",
            spot.operation(),
            name.as_slice(),
        ),
        IndexCause::Missing { name, entries } => {
            write_entries(out, name.as_slice(), *entries);
            out.fill_one(NO_INDEX_GIVEN, name.as_slice());
        }
        IndexCause::OutOfRange {
            name,
            entries,
            index,
        } => {
            write_entries(out, name.as_slice(), *entries);
            out.fill_one("{} is none of them", *index);
        }
        IndexCause::TooShort {
            name,
            entries,
            index,
        } => {
            write_entries(out, name.as_slice(), *entries);
            out.fill_one(TOO_SHORT, index.as_slice());
        }
    }
}

fn write_digits(out: &mut TextWriter, name: &[u8], length: u16, decimals: u8) {
    let digits = noun(usize::from(length), "digit", "digits");
    out.fill_three("{} has {} {}", name, length, digits);
    if decimals != 0 {
        out.fill_one(", {} of them decimals", decimals);
    }
}

/// F17: what the number has, and what its code or word allows.
pub(crate) fn write_editing(out: &mut TextWriter, cause: &EditingCause) {
    let name = cause.name.as_slice();
    out.write_str(sentence_of("F17"));
    match cause.mismatch {
        Mismatch::Fill => {}
        Mismatch::Text { length } => {
            let characters = noun(usize::from(length), "character", "characters");
            out.fill_three(": {} is a text of {} {}", name, length, characters);
        }
        Mismatch::Date { length, decimals } => {
            out.write_str(": code Y edits 6 digits without decimals, and ");
            write_digits(out, name, length, decimals);
        }
        Mismatch::Word { places: None, .. } => {
            out.write_str(": the word's $ is right before its stop (rpg2 fit rewrites it: A18)");
        }
        Mismatch::Word {
            places: Some(places),
            length,
            decimals,
        } => {
            let digits = noun(usize::from(places), "digit", "digits");
            out.fill_two(": the word has places for {} {}, and ", places, digits);
            write_digits(out, name, length, decimals);
            if u16::from(places) > length {
                out.write_str(" (rpg2 fit rewrites it: A17)");
            }
        }
    }
}
