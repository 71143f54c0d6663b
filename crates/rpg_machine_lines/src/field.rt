//! Fields of lines: how they are edited, their text in the line, PAGE, and blank after.
ghost use Rattle.std.specs.Prelude.{◌≡◌, ◌+◌, ◌≤◌, ◌<◌, ◌^◌, Some, length, unsigned_abs, replicate, true};
ghost use Rattle.rpg_edit_marks.specs.How.{edited, width_of};
ghost use Rattle.rpg_edit_marks.specs.Word.{word_marks};
ghost use Rattle.rpg_program.specs.Forms as forms;
ghost use Rattle.rpg_program.specs.LineFaults as faults;
ghost use Rattle.rpg_program.specs.Lines as lines;
ghost use Rattle.rpg_machine_lines.specs.Drafts.{counted_in, field_text_in, fields_replaced, how_in, with_word_at_end};
ghost use Rattle.rpg_machine_lines.specs.Entries.{AreFieldEntries, IsEditableForm, IsFieldEntry};
ghost use Rattle.rpg_machine_lines.specs.Right.{FitsEditing, IsRightField};
ghost use Rattle.rpg_program.specs.Constants as constants;
ghost use Rattle.rpg_program.specs.Object.{seen};
ghost use Rattle.rpg_store.specs.Contents.{IsEntryAt};
ghost use Rattle.rpg_memory.specs.Memory.{forms_in};

use crate::words::EditWords;
use rpg_edit::{write_coded, write_plain, write_worded};
use rpg_edit_widths::EditWord;
use rpg_memory::memory::Memory;
use rpg_memory::resolved::FixedEntry;
use rpg_program::form::{FieldForm, Kind};
use rpg_program::forms::{form_at, kind_of};
use rpg_program::line::{Editing, LineField, Source};
use rpg_program::rows::Rows;
use rpg_program::words::word_at;
use rpg_store::store::{Store, copy_text};

/// Returns the edit word for a number of this many digits.
#[tactic(auto, using(crate::proofs::Fields::fitting))]
fn edit_word(rows: &Rows, constant: u16, digits: u8) -> EditWord
    requires constant { forms.is_text_constant (forms.form_at (seen rows.now).fields constant) ≡ true }
    requires fits { faults.fits_word digits (constants.word_at (seen rows.now) constant) ≡ true }
    ensures { result ≡ constants.word_at (seen rows.now) constant }
{
    match EditWord::parse(word_at(rows, constant), digits) {
        Ok(word) => word,
        Err(_) => unreachable!(),
    }
}

/// Writes a number edited by a word at the end of a line. A word that isn't among the parsed ones is parsed here.
#[tactic(auto, using(crate::proofs::Fields::fitting))]
fn write_by_word(
    rows: &Rows,
    words: &EditWords,
    constant: u16,
    digits: u8,
    n: i64,
    line: &mut [u8],
) -> usize
    requires constant { forms.is_text_constant (forms.form_at (seen rows.now).fields constant) ≡ true }
    requires fits { faults.fits_word digits (constants.word_at (seen rows.now) constant) ≡ true }
    requires room { length (word_marks (constants.word_at (seen rows.now) constant)) ≤ length line.old }
    ensures start { result + length (word_marks (constants.word_at (seen rows.now) constant)) ≡ length line.old }
    ensures text { line.new ≡ with_word_at_end line.old n (constants.word_at (seen rows.now) constant) }
{
    match words.of(constant, word_at(rows, constant)) {
        Some(word) => write_worded(n, word, line),
        None => write_worded(n, &edit_word(rows, constant, digits), line),
    }
}

/// Writes a number over the line, edited as its field requires.
#[inline(always)]
fn lay_number(
    rows: &Rows,
    text: &mut [u8],
    field: &LineField<u16>,
    form: FieldForm,
    n: i64,
    words: &EditWords,
)
    requires numeric { IsEditableForm form }
    requires fits { unsigned_abs n < 10 ^ form.length }
    requires editing { FitsEditing (seen rows.now) form field.now.editing field.now.fill }
    requires width { width_of form.length form.decimals (how_in (seen rows.now) field.now) ≤ field.now.end }
    requires end { field.now.end ≤ length text.old }
    ensures text { text.new ≡ lines.laid_over text.old field.now.end (edited n form.length form.decimals (how_in (seen rows.now) field.now)) }
{
    let line = &mut text[..field.end as usize];
    let digits = form.length as u8;
    let _start = match field.editing {
        Editing::Plain => write_plain(n, digits, line),
        Editing::Code(code) => write_coded(n, digits, form.decimals, code, field.fill, line),
        Editing::Word(word) => write_by_word(rows, words, word, digits, n, line),
    };
}

/// Writes a text over the line, ending at this place.
#[tactic(auto, unfolding(rpg_program::specs::Lines::laid_over))]
fn lay_text(text: &mut [u8], end: u16, part: &[u8])
    requires width { length part.now ≤ end }
    requires end { end ≤ length text.old }
    ensures text { text.new ≡ lines.laid_over text.old end part.now }
{
    let start = end as usize - part.len();
    copy_text(&mut text[start..end as usize], part);
}

/// Writes the value of an entry over the line; `form` is that of its field.
#[inline(always)]
#[tactic(auto, using(crate::proofs::Operands::values))]
pub fn lay_value<S: Store + Drop>(
    memory: &Memory<'_, S>,
    text: &mut [u8],
    field: &LineField<u16>,
    form: Option<FieldForm>,
    entry: u16,
    words: &EditWords,
)
    requires right { IsRightField (forms_in memory.now) (constants.word_at memory.now.program) (length text.old) field.now }
    requires form { form ≡ forms_in memory.now field.now.operand.field }
    requires entry { IsFieldEntry memory.now.program.fields field.now.operand.field entry }
    ensures text { text.new ≡ lines.laid_over text.old field.now.end (field_text_in memory.now field.now entry) }
{
    memory.is_kept();
    let number = field.operand.field;
    let Some(form) = form else { unreachable!() };
    match form.kind {
        Kind::Number => {
            let n = memory.number(number, entry);
            lay_number(memory.rows(), text, field, form, n, words);
        }
        Kind::Text => lay_text(text, field.end, memory.text(number, entry)),
    }
}

/// Writes the value of a precomputed entry over the line.
#[inline(always)]
#[tactic(auto, using(crate::proofs::Operands::values))]
pub fn lay_fixed_value<S: Store + Drop>(
    memory: &Memory<'_, S>,
    text: &mut [u8],
    field: &LineField<u16>,
    fixed: &FixedEntry,
    words: &EditWords,
)
    requires right { IsRightField (forms_in memory.now) (constants.word_at memory.now.program) (length text.old) field.now }
    requires form { Some fixed.now.resolved.form ≡ forms_in memory.now field.now.operand.field }
    requires entry { IsFieldEntry memory.now.program.fields field.now.operand.field fixed.now.resolved.entry.position }
    requires place { IsEntryAt memory.now.program.fields fixed.now.place (field.now.operand.field, fixed.now.resolved.entry.position) }
    ensures text { text.new ≡ lines.laid_over text.old field.now.end (field_text_in memory.now field.now fixed.now.resolved.entry.position) }
{
    memory.is_kept();
    let (number, entry) = (field.operand.field, fixed.resolved.entry.position);
    let form = fixed.resolved.form;
    match form.kind {
        Kind::Number => {
            let n = memory.number_in(fixed.place, number, entry);
            lay_number(memory.rows(), text, field, form, n, words);
        }
        Kind::Text => lay_text(text, field.end, memory.text_in(fixed.place, number, entry)),
    }
}

/// Returns the number of the next page.
#[tactic(auto, unfolding(rpg_program::specs::Lines::next_page))]
fn next_page(n: i64) -> i64
    requires { unsigned_abs n < 10000 }
    ensures { result ≡ lines.next_page n }
{
    if n == 9999 { 0 } else { n + 1 }
}

/// Increments PAGE, before it is printed.
#[tactic(auto, using(crate::proofs::Keeping::pages))]
pub fn count_page<S: Store + Drop>(memory: &mut Memory<'_, S>, field: &LineField<u16>, entry: u16)
    requires source { faults.fits_source field.now.source (forms_in memory.old field.now.operand.field) ≡ true }
    requires entry { IsFieldEntry memory.old.program.fields field.now.operand.field entry }
    ensures { memory.new ≡ counted_in memory.old field.now entry }
{
    match field.source {
        Source::Value => {}
        Source::Page => {
            let n = memory.number(field.operand.field, entry);
            memory.set_number(field.operand.field, entry, next_page(n));
        }
    }
}

/// Blanks for a line of the printer, which has at most 132 characters, and for disk records that are no longer than these.
static BLANKS: [u8; 256] = [b' '; 256];

/// Fills a line with blanks. Up to 256 are copied, which costs less than `fill`.
pub fn fill_blanks(text: &mut [u8])
    ensures { text.new ≡ replicate (length text.old) 32 }
{
    let len = text.len();
    if len <= BLANKS.len() {
        text.copy_from_slice(&BLANKS[..len]);
    } else {
        text.fill(b' ');
    }
}

/// Sets a text entry to blanks.
#[tactic(auto, using(crate::proofs::Keeping::blanking))]
fn blank_text<S: Store + Drop>(memory: &mut Memory<'_, S>, entry: (u16, u16))
    requires entry { IsFieldEntry memory.old.program.fields entry.0 entry.1 }
    requires text { forms.kind_of (forms_in memory.old entry.0) ≡ Kind.Text }
    ensures { memory.new ≡ fields_replaced (lines.blanked_at (entry.0, entry.1) memory.old.world.data.fields) memory.old }
{
    memory.is_kept();
    let mut places = [0; 256];
    let text = &mut places[..memory.text(entry.0, entry.1).len()];
    fill_blanks(text);
    memory.set_text(entry.0, entry.1, text);
}

/// Sets an entry to zero or blanks.
#[tactic(auto, using(crate::proofs::Keeping::blanking))]
fn blank<S: Store + Drop>(memory: &mut Memory<'_, S>, entry: (u16, u16))
    requires { IsFieldEntry memory.old.program.fields entry.0 entry.1 }
    ensures { memory.new ≡ fields_replaced (lines.blanked_at (entry.0, entry.1) memory.old.world.data.fields) memory.old }
{
    memory.is_kept();
    match kind_of(form_at(memory.rows(), entry.0)) {
        Kind::Number => memory.set_number(entry.0, entry.1, 0),
        Kind::Text => blank_text(memory, entry),
    }
}

/// Sets the entries to zero or blanks, in order.
pub fn blank_all<S: Store + Drop>(memory: &mut Memory<'_, S>, entries: &[(u16, u16)])
    requires { AreFieldEntries memory.old.program.fields entries.now }
    ensures { memory.new ≡ fields_replaced (lines.blanked_all entries.now memory.old.world.data.fields) memory.old }
{
    'entries: for entry in entries {
        blank(memory, *entry);
    }
}
