//! The letter of a line's field: how it is edited, without the field of an edit word.

ghost use Rattle.std.specs.Prelude.{◌≡◌};
ghost use Rattle.rpg_object_format.specs.Format.{read_byte, read_two};
ghost use Rattle.rpg_object_format.specs.Numbers.{allowed};
ghost use Rattle.rpg_object_format.specs.Reading.{ReadsAs};
ghost use Rattle.rpg_object_rows.specs.Lines as rows;

use rpg_edit_marks::EditCode;
use rpg_object_format::fault::{Code, ReadFault};
use rpg_object_format::number::{byte_at, number_at};
use rpg_program::line::Editing;

/// Not edited, an edit code, or `W` for an edit word.
#[derive(Clone, Copy)]
pub enum Letter {
    Plain,
    Code(EditCode),
    Word,
}

fn letter_of(n: u8) -> Result<Letter, Code>
    ensures { result ≡ rows.letter_of n }
{
    match n {
        0 => Ok(Letter::Plain),
        b'W' => Ok(Letter::Word),
        _ => match EditCode::of(n) {
            None => Err(Code::NotAllowed),
            Some(code) => Ok(Letter::Code(code)),
        },
    }
}

pub fn letter_number(letter: Letter) -> u8
    ensures { result ≡ rows.letter_number letter }
{
    match letter {
        Letter::Plain => 0,
        Letter::Code(code) => code.character(),
        Letter::Word => b'W',
    }
}

#[tactic(auto, unfolding(rpg_object_format::specs::Format::read_byte))]
pub fn letter_at(bytes: &[u8]) -> Result<(Letter, &[u8]), ReadFault>
    ensures { ReadsAs (λ x. (x.0, x.1.now)) result (read_byte rows.letter_of bytes.now) }
{
    byte_at(bytes, letter_of)
}

fn word_field(letter: Letter, n: u16) -> Result<u16, Code>
    ensures { result ≡ allowed (rows.is_word_field letter) n }
{
    match letter {
        Letter::Word => Ok(n),
        Letter::Plain | Letter::Code(_) if n == 0 => Ok(n),
        _ => Err(Code::NotAllowed),
    }
}

/// Reads the field of an edit word, 0 if there is none.
#[tactic(auto, unfolding(rpg_object_format::specs::Format::read_two))]
pub fn word_field_at(bytes: &[u8], letter: Letter) -> Result<(u16, &[u8]), ReadFault>
    ensures { ReadsAs (λ x. (x.0, x.1.now)) result (read_two (allowed (rows.is_word_field letter)) bytes.now) }
{
    number_at(bytes, |n| word_field(letter, n))
}

/// Returns the editing of a field with this letter.
pub fn editing_of(letter: Letter, field: u16) -> Editing<u16>
    ensures { result ≡ rows.editing_by_letter letter field }
{
    match letter {
        Letter::Plain => Editing::Plain,
        Letter::Code(code) => Editing::Code(code),
        Letter::Word => Editing::Word(field),
    }
}

pub fn letter_in(editing: Editing<u16>) -> Letter
    ensures { result ≡ rows.letter_in editing }
{
    match editing {
        Editing::Plain => Letter::Plain,
        Editing::Code(code) => Letter::Code(code),
        Editing::Word(_) => Letter::Word,
    }
}

/// Returns the field of the edit word, 0 if there is none.
pub fn word_in(editing: Editing<u16>) -> u16
    ensures { result ≡ rows.word_in editing }
{
    match editing {
        Editing::Plain | Editing::Code(_) => 0,
        Editing::Word(field) => field,
    }
}
