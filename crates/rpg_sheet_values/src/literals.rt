//! Literals: numbers and texts on the card, from the first column of their range.

ghost use Rattle.std.specs.Prelude.{◌≡◌, ◌≢◌, ℕ, ◌+◌, ◌-◌, ◌^◌, ◌≤◌, ◌<◌, ◌↔◌, List, [], ◌∷◌, None, length, not, option_map, position, IfNone, IfSome, IsTrue};
ghost use Rattle.std.specs.List.{list_all, before_first, after_first};
ghost use Rattle.std.specs.Str.Parse.{starts_with_minus, without_leading_sign};
ghost use Rattle.rpg_sheet_specs.specs.Values as values;
ghost use Rattle.rpg_text.specs.Texts.{is_character, trimmed};

use crate::entries::entry;
use crate::names::begins_with_letter;
use crate::numbers::number_after;
use rpg_sheet_specs::{Factor, Literal, NumericLiteral, TextLiteral, Word};
use rpg_text::trimmed;

/// Reads an entry or a literal. The first column shows which of them it can be.
pub fn factor_of(text: &[u8]) -> Option<Factor>
    requires short { length text.now ≤ 10 }
    requires characters { IsTrue (list_all is_character text.now) }
    ensures { result ≡ values.factor text.now }
{
    if begins_with_letter(text) {
        entry(text).map(Factor::Entry)
    } else {
        literal_of(text).map(Factor::Literal)
    }
}

fn literal_of(text: &[u8]) -> Option<Literal>
    requires short { length text.now ≤ 10 }
    requires characters { IsTrue (list_all is_character text.now) }
    ensures { result ≡ values.literal text.now }
{
    match numeric_literal(text) {
        Some(number) => Some(Literal::Number(number)),
        None => quoted(text).map(Literal::Text),
    }
}

/// Reads digits, with an optional sign and decimal point.
fn numeric_literal(text: &[u8]) -> Option<NumericLiteral>
    requires { length text.now ≤ 10 }
    ensures { result ≡ values.numeric_literal text.now }
{
    let text = trimmed(text);
    let (minus, unsigned) = without_sign(text);
    let (whole, following) = around_point(unsigned);
    numeral(minus, whole, following)
}

/// Strips a sign. Returns whether it is a minus sign, and the rest.
fn without_sign(text: &[u8]) -> (bool, &[u8])
    ensures minus { result.0 ≡ starts_with_minus text.now }
    ensures rest { result.1.now ≡ without_leading_sign text.now }
    ensures shorter { length result.1.now ≤ length text.now }
{
    match text {
        [b'-', rest @ ..] => (true, rest),
        [b'+', rest @ ..] => (false, rest),
        _ => (false, text),
    }
}

/// Splits a text at its first decimal point.
fn around_point(text: &[u8]) -> (&[u8], &[u8])
    ensures before { result.0.now ≡ before_first values.is_point text.now }
    ensures following { result.1.now ≡ after_first values.is_point text.now }
    ensures shorter { length result.0.now + length result.1.now ≤ length text.now }
    ensures point { length result.1.now ≤ length text.now - 1 }
{
    match point(text) {
        Some(point) => (&text[..point], &text[point + 1..]),
        None => (text, &[]),
    }
}

/// Returns the place of the first decimal point.
fn point(text: &[u8]) -> Option<usize>
    ensures place { result ≡ position values.is_point text.now }
    ensures within { IfSome result (λ point. point < length text.now) }
{
    text.iter().position(|c| *c == b'.')
}

/// Returns the number with these digits before and after its decimal point.
fn numeral(minus: bool, whole: &[u8], following: &[u8]) -> Option<NumericLiteral>
    requires short { length whole.now + length following.now ≤ 10 }
    requires point { length following.now ≤ 9 }
    ensures { result ≡ values.numeral minus whole.now following.now }
{
    let digits = whole.len() + following.len();
    if digits == 0 {
        return None;
    }
    let first = number_after(0, whole)?;
    let size = number_after(first, following)?;
    Some(NumericLiteral::new(with_sign(minus, size), digits as u8, following.len() as u8))
}

fn with_sign(minus: bool, size: u64) -> i64
    requires { size < 10 ^ 10 }
    ensures { result ≡ values.with_sign minus size }
{
    let size = size as i64;
    if minus { -size } else { size }
}

/// Reads a text in apostrophes, in which each apostrophe is doubled.
#[tactic(auto, unfolding(rpg_sheet_specs::specs::Values::quoted))]
pub fn quoted<const N: usize>(text: &[u8]) -> Option<TextLiteral<N>>
    requires short { length text.now ≤ N + 2 }
    requires characters { IsTrue (list_all is_character text.now) }
    ensures value { result ≡ values.quoted text.now }
    ensures written { (t : List ℕ) → (result ≡ Some t) ↔ ((trimmed text.now ≡ values.in_apostrophes t) × (t ≢ [])) }
{
    let text = trimmed(text);
    if !is_enclosed(text) {
        return None;
    }
    let word = text_within(&text[1..text.len() - 1])?;
    Some(TextLiteral::new(word))
}

/// Whether it begins and ends with an apostrophe, and has something between them.
fn is_enclosed(text: &[u8]) -> bool
    ensures { result ≡ values.is_enclosed text.now }
{
    matches!(text, [b'\'', _, .., b'\''])
}

/// Reads the text between apostrophes, which seldom has another.
fn text_within<const N: usize>(text: &[u8]) -> Option<Word<N>>
    requires { length text.now ≤ N }
    ensures { result ≡ values.undoubled text.now }
{
    if has_no_apostrophe(text) {
        Some(Word::new(text))
    } else {
        undoubled(text)
    }
}

fn has_no_apostrophe(text: &[u8]) -> bool
    ensures { result ≡ list_all (λ c. not (values.is_apostrophe c)) text.now }
{
    text.iter().all(|c| *c != b'\'')
}

/// Reads a text whose apostrophes are doubled; None if one is single.
fn undoubled<const N: usize>(text: &[u8]) -> Option<Word<N>>
    requires { length text.now ≤ N }
    ensures { result ≡ values.undoubled text.now }
{
    let mut word = Word::new(b"");
    let mut rest = text;
    while !rest.is_empty() {
        let (character, following) = first_undoubled(rest)?;
        word.push(character);
        rest = following;
    }
    Some(word)
}

/// Returns the first character and the rest; None if it is a single apostrophe.
fn first_undoubled(text: &[u8]) -> Option<(u8, &[u8])>
    requires { 0 < length text.now }
    ensures first { IfSome result (λ first. values.undoubled text.now ≡ option_map (λ t. first.0 ∷ t) (values.undoubled first.1.now)) }
    ensures shorter { IfSome result (λ first. length first.1.now < length text.now) }
    ensures alone { IfNone result (values.undoubled text.now ≡ None) }
{
    match text {
        [b'\'', b'\'', following @ ..] => Some((b'\'', following)),
        [b'\'', ..] | [] => None,
        [character, following @ ..] => Some((*character, following)),
    }
}
