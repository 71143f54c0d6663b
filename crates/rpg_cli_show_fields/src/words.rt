//! Names, indicators, conditions, values and forms of fields, edit codes, the times of lines, and the movements of the form, as cards and
//! listings have them.

use rpg_cli_text::{TextWriter, indicator_name};
use rpg_edit_marks::{EditCode, Fill};
use rpg_program::condition::{Condition, Conditions, has_conditions};
use rpg_program::form::{Class, FieldForm, Kind};
use rpg_program::line::{Spacing, Time};
use rpg_program::operation::Shows;
use rpg_program::value::Value;
use rpg_text::{shown, trimmed};

/// Returns a card's name as text. Its characters are letters, digits, `$`, `#` and
/// `@`.
pub fn name_text(name: &[u8]) -> &str {
    str::from_utf8(name).unwrap_or("")
}

/// An indicator, by its number from 1 to 129.
#[derive(Clone, Copy)]
pub struct Indicator(pub u8);

impl Indicator {
    pub fn name(self) -> &'static str {
        indicator_name(self.0).unwrap_or("MR")
    }
}

/// Writes a condition: the indicator, with N before it if it must be off.
pub fn write_condition(out: &mut TextWriter, condition: Condition) {
    out.write_str(if condition.is_negated { " N" } else { " " });
    out.write_str(Indicator(condition.indicator).name());
}

/// Writes conditions after a word, if there are any.
pub fn write_when(out: &mut TextWriter, word: &str, conditions: Conditions) {
    if has_conditions(conditions) {
        out.write_str(word);
    }
    for condition in [conditions.first, conditions.second, conditions.third] {
        if let Some(condition) = condition {
            write_condition(out, condition);
        }
    }
}

/// Writes a sentence with an indicator, if there is one.
pub fn write_named(out: &mut TextWriter, sentence: &str, indicator: Option<u8>) {
    if let Some(number) = indicator {
        out.fill_one(sentence, Indicator(number).name());
    }
}

/// Writes the indicators that are there, each in its own sentence.
pub fn write_shows(out: &mut TextWriter, sentences: [&str; 3], shows: Shows) {
    let [plus, minus, zero] = sentences;
    write_named(out, plus, shows.plus);
    write_named(out, minus, shows.minus);
    write_named(out, zero, shows.zero);
}

/// Writes the card of a row, if it is known.
pub fn write_card(out: &mut TextWriter, card: Option<u16>) {
    if let Some(card) = card {
        out.fill_one(" (card {})", card);
    }
}

/// Writes the edit code of a field, and the fill before its number.
pub fn write_code(out: &mut TextWriter, code: EditCode, fill: Fill) {
    let filled = match fill {
        Fill::Blank => "",
        Fill::Star => " filled with *",
        Fill::Dollar => " with $ before it",
    };
    let letter = char::from(code.character());
    out.fill_two(" by code {}{}", letter, filled);
}

pub fn time_word(time: Time) -> &'static str {
    match time {
        Time::Heading => "heading",
        Time::Detail => "detail",
        Time::Total => "total",
        Time::Exception => "exception",
    }
}

/// Writes how the form moves before and after a line.
pub fn write_spacing(out: &mut TextWriter, spacing: Spacing) {
    for (sentence, lines) in [
        (", skip to {} before", spacing.skip_before),
        (", space {} before", spacing.space_before),
        (", skip to {} after", spacing.skip_after),
        (", space {} after", spacing.space_after),
    ] {
        if lines > 0 {
            out.fill_one(sentence, lines);
        }
    }
}

/// Writes a text between apostrophes, with each apostrophe in it doubled, as on a card.
pub fn write_quoted(out: &mut TextWriter, text: &[u8]) {
    out.write_char('\'');
    for byte in text {
        if *byte == b'\'' {
            out.write_char('\'');
        }
        out.write_char(shown(*byte) as char);
    }
    out.write_char('\'');
}

/// Writes a number with its decimal point, and at least one digit before it.
fn write_number(out: &mut TextWriter, number: i64, decimals: u8) {
    let digits = number.unsigned_abs();
    let mut unit = 10u64.saturating_pow(u32::from(decimals)).max(1);
    let sentence = if number < 0 { "-{}" } else { "{}" };
    out.fill_one(sentence, digits / unit);
    if decimals > 0 {
        out.write_char('.');
    }
    for _ in 0..decimals {
        unit = (unit / 10).max(1);
        out.fill_one("{}", digits / unit % 10);
    }
}

pub fn is_empty(value: &Value) -> bool {
    match value {
        Value::Number(number) => *number == 0,
        Value::Text(text) => trimmed(text).is_empty(),
    }
}

/// Writes a value: a number with its decimals, a text between apostrophes.
pub fn write_value(out: &mut TextWriter, value: &Value, decimals: u8) {
    match value {
        Value::Number(number) => write_number(out, *number, decimals),
        Value::Text(text) => write_quoted(out, text),
    }
}

/// Writes the form of a field: its class, the digits and decimals of a number or the characters of a text, and the order of
/// entries.
pub fn write_form(out: &mut TextWriter, form: FieldForm) {
    let class = match form.class {
        Class::Plain => "",
        Class::Date => "date ",
        Class::Constant => "constant ",
        Class::Array => "array of {}: ",
        Class::Table => "table of {}: ",
    };
    let kind = match form.kind {
        Kind::Number => "number {}.{}",
        Kind::Text => "text {}",
    };
    out.fill_one(class, form.entries);
    out.fill_two(kind, form.length, form.decimals);
    if form.is_ascending {
        out.write_str(", ascending");
    }
}
