//! Moves the columns of a record to fields. No field is checked here: the rules have checked them all.
ghost use Rattle.std.specs.Prelude.{◌≡◌, ◌+◌, ◌-◌, All, length, true, None};
ghost use Rattle.rpg_program.specs.Ends.{end_of};
ghost use Rattle.rpg_program.specs.Input as of;
ghost use Rattle.rpg_program.specs.Showing.{shown_if_any};
ghost use Rattle.rpg_program.specs.declared.form.Kind.TheVariants as kinds;
ghost use Rattle.rpg_machine_inputs.specs.FixedInputs.{AreFixedInputs, IsFixedInput};
ghost use Rattle.rpg_machine_inputs.specs.Inputs.{CanFill, HasColumns, filled_field, order_of_text};
ghost use Rattle.rpg_memory.specs.Doing.{DidData};
ghost use Rattle.rpg_program.specs.Kept.{IsCharacter};
ghost use Rattle.rpg_memory.specs.Memory.{data_put, forms_in, with_on};
ghost use Rattle.rpg_memory.specs.Silent.{names_none};

use crate::digits::read_number;
use crate::fixed_inputs::FixedInput;
use rpg_memory::memory::Memory;
use rpg_program::form::Kind;
use rpg_program::halt::Halt;
use rpg_program::input::InputField;
use rpg_program::operation::Shows;
use rpg_program::outcome::End;
use rpg_store::store::Store;
use rpg_text::is_blank;
use std::cmp::Ordering;

/// Returns the columns of a record that an input field reads.
#[inline(always)]
fn columns_of(text: &[u8], input: InputField<u16>, before: u16) -> &[u8]
    requires columns { HasColumns input (length text.now) }
    requires before { before ≡ input.from - 1 }
    ensures value { result.now ≡ of.record_part input text.now }
    ensures length { length result.now ≡ input.to + 1 - input.from }
{
    &text[usize::from(before)..usize::from(input.to)]
}

/// Compares a text with zero: only a blank text has an order.
#[inline(always)]
fn order_of_text(text: &[u8]) -> Option<Ordering>
    ensures { result ≡ order_of_text text.now }
{
    is_blank(text).then_some(Ordering::Equal)
}

/// Stores the number in these digits in a field, if they are a number.
#[inline(always)]
#[tactic(auto, using(crate::proofs::Filling::numbers, crate::proofs::Filling::silent), unfolding(rpg_program::specs::Showing::shown_if_any))]
fn fill_number<S: Store + Drop>(
    memory: &mut Memory<'_, S>,
    input: &InputField<u16>,
    fixed: FixedInput,
    digits: &[u8],
) -> End
    requires { CanFill memory.old.program.fields kinds.Number input.now fixed digits.now }
    ensures { DidData (filled_field kinds.Number input.now digits.now memory.old.world.data) memory.old (end_of result) memory.new }
{
    memory.is_kept();
    match read_number(digits) {
        Ok(n) => {
            memory.set_number_in(fixed.place, input.field, 1, n);
            if !fixed.is_silent {
                memory.show(input.shows, n.cmp(&0));
            }
            End::Continues
        }
        Err(_) => End::Halt(Halt::BadDigit),
    }
}

/// Shows whether a text is blank, if an indicator is named.
#[inline(always)]
#[tactic(auto, using(crate::proofs::Filling::silent))]
fn show_text<S: Store + Drop>(
    memory: &mut Memory<'_, S>,
    shows: Shows,
    is_silent: bool,
    text: &[u8],
)
    requires { is_silent ≡ names_none shows }
    ensures { memory.new ≡ data_put (with_on (shown_if_any shows (order_of_text text.now) memory.old.world.data.on) memory.old.world.data) memory.old }
{
    if !is_silent {
        memory.show_if_any(shows, order_of_text(text));
    }
}

/// Stores characters in a field. The indicators are set first, so that fewer values stay live over the call that copies them.
#[inline(always)]
fn fill_text<S: Store + Drop>(
    memory: &mut Memory<'_, S>,
    input: &InputField<u16>,
    fixed: FixedInput,
    text: &[u8],
) -> End
    requires fill { CanFill memory.old.program.fields kinds.Text input.now fixed text.now }
    requires characters { All IsCharacter text.now }
    ensures { DidData (filled_field kinds.Text input.now text.now memory.old.world.data) memory.old (end_of result) memory.new }
{
    show_text(memory, input.shows, fixed.is_silent, text);
    memory.set_text_in(fixed.place, input.field, 1, text);
    End::Continues
}

/// Fills one field, with what is precomputed for it.
#[inline(always)]
fn fill_one<S: Store + Drop>(
    memory: &mut Memory<'_, S>,
    text: &[u8],
    input: &InputField<u16>,
    fixed: FixedInput,
) -> End
    requires right { of.input_fault (forms_in memory.old) (length text.now) input.now ≡ None }
    requires characters { All IsCharacter text.now }
    requires fixed { IsFixedInput memory.old.program.fields input.now fixed }
    ensures { DidData (of.field_in (forms_in memory.old) text.now input.now memory.old.world.data) memory.old (end_of result) memory.new }
{
    memory.is_kept();
    let part = columns_of(text, *input, fixed.before);
    match fixed.kind {
        Kind::Number => fill_number(memory, input, fixed, part),
        Kind::Text => fill_text(memory, input, fixed, part),
    }
}

/// Fills the fields of a record, in order, until one halts.
#[inline(always)]
#[tactic(auto, unfolding(rpg_program::specs::Input::record_in))]
pub fn fill_all<S: Store + Drop>(
    memory: &mut Memory<'_, S>,
    text: &[u8],
    inputs: &[InputField<u16>],
    fixed: &[FixedInput],
) -> End
    requires right { All (λ f. of.input_fault (forms_in memory.old) (length text.now) f ≡ None) inputs.now }
    requires characters { All IsCharacter text.now }
    requires fixed { AreFixedInputs memory.old.program.fields inputs.now fixed.now }
    ensures { DidData (of.record_in (forms_in memory.old) text.now inputs.now memory.old.world.data) memory.old (end_of result) memory.new }
{
    let (mut left, mut found) = (inputs, fixed);
    'fields: while let Some((input, following)) = left.split_first() {
        match fill_one(memory, text, input, found[0]) {
            End::Continues => {}
            End::Halt(halt) => return End::Halt(halt),
        }
        left = following;
        found = &found[1..];
    }
    End::Continues
}
