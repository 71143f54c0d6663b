//! How a number is edited, and its width.

ghost use Rattle.std.specs.Prelude.{◌≡◌, ◌≤◌, length};
ghost use Rattle.rpg_edit_marks.specs.How.{width_of};
ghost use Rattle.rpg_edit_marks.specs.Word.{word_marks};

use crate::code::width_by;
use crate::word::EditWord;

/// How a number is edited: as its zoned text, by an edit code, or by an edit word.
pub type How = rpg_edit_marks::How<EditWord>;

/// Returns how many characters a number of `len` digits with `dec` decimals takes.
pub fn width(len: u8, dec: u8, how: &How) -> usize
    requires low { 1 ≤ len }
    requires high { len ≤ 15 }
    requires decimals { dec ≤ len }
    ensures { result ≡ width_of len dec how.now }
{
    match how {
        How::Plain => usize::from(len),
        How::Code { code, fill } => width_by(*code, *fill, len, dec),
        How::Word(word) => word.marks().len(),
    }
}

/// Returns how many characters a number takes with an edit word: as many as the word has. Creates
/// no marks.
#[tactic(auto, using(crate::proofs::Places::word_widths))]
pub fn word_width(word: &[u8]) -> usize
    ensures { result ≡ length (word_marks word.now) }
{
    word.len()
}
