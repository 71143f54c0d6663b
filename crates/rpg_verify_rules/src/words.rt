//! Edit words, which are the first values of text constants.

ghost use Rattle.std.specs.Prelude.{◌≡◌, ◌&&◌, length, true};
ghost use Rattle.rpg_edit_marks.specs.Word.{word_marks};
ghost use Rattle.rpg_program.specs.Forms as forms;
ghost use Rattle.rpg_program.specs.LineFaults.{fits_word};
ghost use Rattle.rpg_program.specs.Constants as constants;
ghost use Rattle.rpg_program.specs.Object.{seen};

use rpg_edit_widths::{EditWord, word_width};
use rpg_program::forms::{form_at, is_text_constant};
use rpg_program::rows::Rows;
use rpg_program::words::word_at;

/// Whether a word has 1 to 24 characters and fits a number of `digits` digits.
fn fits_word(word: &[u8], digits: u8) -> bool
    ensures { result ≡ fits_word digits word.now }
{
    (!word.is_empty() && word.len() <= 24) && EditWord::fits(word, digits)
}

/// Whether a field is a text constant that holds an edit word for a number of `digits` digits.
pub(crate) fn is_edit_word(rows: &Rows, field: u16, digits: u8) -> bool
    ensures { result ≡ (forms.is_text_constant (forms.form_at rows.now.fields.items field) && fits_word digits (constants.word_at (seen rows.now) field)) }
{
    is_text_constant(form_at(rows, field)) && fits_word(word_at(rows, field), digits)
}

/// The width of a number edited by the word of a text constant.
pub(crate) fn edit_word_width(rows: &Rows, field: u16) -> usize
    requires { forms.is_text_constant (forms.form_at rows.now.fields.items field) ≡ true }
    ensures { result ≡ length (word_marks (constants.word_at (seen rows.now) field)) }
{
    word_width(word_at(rows, field))
}
