//! F17: edit codes and words that don't fit.

ghost use Rattle.std.specs.Prelude.{◌≡◌, is_some};
ghost use Rattle.rpg_cards.specs.Names.{form_in, form_of_name};
ghost use Rattle.rpg_faults_operands.specs.Mismatches as causes;
ghost use Rattle.rpg_program.specs.LineFaults.{fits_word};
ghost use Rattle.rpg_faults_operands.specs.Editing as rules;

use crate::editing::bad_editing;
use rpg_card_index::IndexedCards;
use rpg_cards::{Defined, SpecCard};
use rpg_edit_marks::EditCode;
use rpg_edit_widths::EditWord;
use rpg_program::form::{FieldForm, Kind};
use rpg_sheet_specs::{Entry, OutputField, Word};

/// Why a code or a word doesn't fit a field.
#[derive(Clone, Copy)]
pub enum Mismatch {
    /// The field is a text with this many characters.
    Text {
        length: u16,
    },
    /// The text beside a code isn't a fill that it allows.
    Fill,
    /// Code Y for anything but a number of 6 digits without decimals.
    Date {
        length: u16,
        decimals: u8,
    },
    /// A word with places for this many digits, or that fits no number, for a number of another
    /// length.
    Word {
        places: Option<u8>,
        length: u16,
        decimals: u8,
    },
}

/// A field whose code or word doesn't fit.
#[derive(Drop)]
pub struct EditingCause {
    pub name: Word<6>,
    pub mismatch: Mismatch,
}

/// F17: the field, and why its code or word doesn't fit.
pub fn editing_cause(source: &IndexedCards, card: &SpecCard) -> Option<EditingCause>
    ensures cause { result ≡ causes.editing_cause source.now card.now }
    ensures rule { is_some result ≡ rules.bad_editing source.now card.now }
{
    if !bad_editing(source, card) {
        return None;
    }
    let field = card.output_field()?;
    let entry = field.operand.as_ref()?;
    Some(EditingCause {
        name: Word::new(entry.name.as_slice()),
        mismatch: mismatch_of(source, entry, field),
    })
}

fn mismatch_of(source: &IndexedCards, entry: &Entry, field: &OutputField) -> Mismatch
    ensures { result ≡ causes.mismatch (form_in (form_of_name entry.now.name source.now)) field.now }
{
    match source.form_of_name(&entry.name) {
        Defined::Valid(form) => match form.kind {
            Kind::Text => Mismatch::Text {
                length: form.length,
            },
            Kind::Number => number_mismatch(form, field),
        },
        Defined::Missing | Defined::Bad => Mismatch::Fill,
    }
}

fn number_mismatch(form: FieldForm, field: &OutputField) -> Mismatch
    ensures { result ≡ causes.number_mismatch form field.now.code field.now.text }
{
    let FieldForm {
        length,
        decimals,
        ..
    } = form;
    match (field.code, &field.text) {
        (Some(EditCode::Y), _) if length != 6 || decimals != 0 => Mismatch::Date {
            length,
            decimals,
        },
        (Some(_), _) => Mismatch::Fill,
        (None, None) => Mismatch::Fill,
        (None, Some(word)) => Mismatch::Word {
            places: places_of(word.as_slice()),
            length,
            decimals,
        },
    }
}

fn fits(word: &[u8], digits: u8) -> bool
    ensures { result ≡ fits_word digits word.now }
{
    (!word.is_empty() && word.len() <= 24) && EditWord::fits(word, digits)
}

/// Returns how many digits a word has places for, or None if it fits no number.
#[tactic(auto, using(crate::proofs::Ranges::fitting_from))]
fn places_of(word: &[u8]) -> Option<u8>
    ensures { result ≡ causes.digits_that_fit word.now }
{
    for digits in 0..25 {
        if fits(word, digits) {
            return Some(digits);
        }
    }
    None
}
