//! The names on cards.

ghost use Rattle.std.specs.Prelude.{◌≡◌, nat_eq};
ghost use Rattle.std.specs.List.{starts_with};
ghost use Rattle.std.specs.Str.{bytes_eq};
ghost use Rattle.rpg_fit_terms.specs.Names.{card_has_operand, has_operand_in, is_date_part, is_name_in, is_name_used, is_prefix_in, is_prefix_used, is_reserved, operand_columns};

use crate::operand::Operand;
use rpg_fit_deck::{Card, View};

/// Columns of a card: the first and the last.
#[derive(Clone, Copy)]
pub(crate) struct Columns(pub usize, pub usize);

/// The columns of an E card's names.
const TABLE_NAMES: &[Columns] = &[Columns(27, 32), Columns(46, 51)];

/// The columns of an I card's name.
const INPUT_NAMES: &[Columns] = &[Columns(53, 58)];

/// The columns of a C card's names.
const CALCULATION_NAMES: &[Columns] = &[Columns(18, 27), Columns(33, 42), Columns(43, 48)];

/// The columns of an O card's name.
const OUTPUT_NAMES: &[Columns] = &[Columns(32, 37)];

/// Returns the columns of names on cards of a form.
pub(crate) fn name_columns(form: u8) -> &'static [Columns]
    ensures { result.now ≡ operand_columns form }
{
    match form {
        b'E' => TABLE_NAMES,
        b'I' => INPUT_NAMES,
        b'C' => CALCULATION_NAMES,
        b'O' => OUTPUT_NAMES,
        _ => &[],
    }
}

/// Whether a text is this word.
pub fn is(text: &[u8], word: &[u8]) -> bool
    ensures { result ≡ bytes_eq text.now word.now }
{
    text == word
}

/// Whether an operand has a name, as its name or its index.
fn is_name_in(operand: &[u8], name: &[u8]) -> bool
    ensures { result ≡ is_name_in name.now operand.now }
{
    let found = Operand::of(operand);
    is(found.name, name) || is(found.index, name)
}

fn has_name_in(card: &Card, places: &[Columns], name: &[u8]) -> bool
    ensures { result ≡ has_operand_in (is_name_in name.now) card.now places.now }
{
    places.iter().any(|columns| is_name_in(card.value(columns.0, columns.1), name))
}

/// Whether a card has a name.
pub fn is_name_on(card: &Card, name: &[u8]) -> bool
    ensures { result ≡ card_has_operand (is_name_in name.now) card.now }
{
    !card.is_comment() && has_name_in(card, name_columns(card.form()), name)
}

/// Whether any card has a name.
#[tactic(auto, unfolding(crate::specs::Names::is_name_used))]
pub fn is_name_used(view: &View, name: &[u8]) -> bool
    ensures { result ≡ is_name_used view.now name.now }
{
    view.cards.iter().any(|seen| is_name_on(&seen.card, name))
}

fn begins_with(text: &[u8], prefix: &[u8]) -> bool
    ensures { result ≡ starts_with nat_eq text.now prefix.now }
{
    text.starts_with(prefix)
}

/// Whether the name or the index of an operand begins with a prefix.
fn is_prefix_in(operand: &[u8], prefix: &[u8]) -> bool
    ensures { result ≡ is_prefix_in prefix.now operand.now }
{
    let found = Operand::of(operand);
    begins_with(found.name, prefix) || begins_with(found.index, prefix)
}

/// Whether one of these columns has a name that begins with a prefix.
fn has_prefix_in(card: &Card, places: &[Columns], prefix: &[u8]) -> bool
    ensures { result ≡ has_operand_in (is_prefix_in prefix.now) card.now places.now }
{
    places.iter().any(|columns| is_prefix_in(card.value(columns.0, columns.1), prefix))
}

/// Whether a card has a name that begins with a prefix.
fn is_prefix_on(card: &Card, prefix: &[u8]) -> bool
    ensures { result ≡ card_has_operand (is_prefix_in prefix.now) card.now }
{
    !card.is_comment() && has_prefix_in(card, name_columns(card.form()), prefix)
}

/// Whether any card has a name that begins with a prefix.
#[tactic(auto, unfolding(crate::specs::Names::is_prefix_used))]
pub(crate) fn is_prefix_used(view: &View, prefix: &[u8]) -> bool
    ensures { result ≡ is_prefix_used view.now prefix.now }
{
    view.cards
        .iter()
        .any(|seen| is_prefix_on(&seen.card, prefix))
}

/// Whether a name is a part of the date.
pub fn is_date_part(name: &[u8]) -> bool
    ensures { result ≡ is_date_part name.now }
{
    is(name, b"UDAY") || is(name, b"UMONTH") || is(name, b"UYEAR")
}

/// Whether a name is predefined.
#[tactic(auto, unfolding(crate::specs::Names::is_reserved))]
pub(crate) fn is_reserved(name: &[u8]) -> bool
    ensures { result ≡ is_reserved name.now }
{
    is(name, b"UDATE") || is(name, b"PAGE") || is_date_part(name)
}
