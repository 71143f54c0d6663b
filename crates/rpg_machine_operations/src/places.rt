//! MOVE and MOVEL: places of factor 2 overwrite those of the result field.
ghost use Rattle.std.specs.Prelude.{◌≡◌, ℕ, ℤ, All, IfSome};
ghost use Rattle.rpg_decimal.specs.Source as sources;
ghost use Rattle.rpg_program.specs.Act as acts;
ghost use Rattle.rpg_program.specs.Ends.{end_of, Continues};
ghost use Rattle.rpg_program.specs.Forms.{length_of};
ghost use Rattle.rpg_program.specs.World.{number_at};
ghost use Rattle.rpg_program.specs.declared.form.Kind.TheVariants as kinds;
ghost use Rattle.rpg_program.specs.declared.operation.Action.TheVariants as actions;
ghost use Rattle.rpg_program.specs.declared.operation.Side.TheVariants as sides;
ghost use Rattle.rpg_memory.specs.Memory.{NamesLike, NamesNumber, NamesText, forms_in};
ghost use Rattle.rpg_machine_operations.specs.Words.{DidOperate, FitsResult, IsLikeOperand, kind_in, moved_in, number_moved, number_after_in, source_in};
ghost use Rattle.rpg_memory.specs.Doing.{DidData};
ghost use Rattle.rpg_program.specs.Kept.{IsCharacter};

use crate::resolving::entry_named;
use rpg_decimal::{Figure, Source, move_left, move_left_text, move_right, move_right_text};
use rpg_memory::memory::Memory;
use rpg_memory::resolved::Resolved;
use rpg_program::form::Kind;
use rpg_program::halt::Halt;
use rpg_program::operation::{Operand, Side};
use rpg_program::outcome::End;
use rpg_store::store::Store;

/// Returns the digits of a number field.
#[tactic(auto, using(rpg_memory::proofs::Values::numbers))]
fn figure_at<S: Store + Drop>(memory: &Memory<'_, S>, operand: Resolved) -> Figure
    requires { NamesNumber memory.now operand }
    ensures value { result.value ≡ number_at memory.now.world.data operand.entry.field operand.entry.position }
    ensures length { result.len ≡ length_of (forms_in memory.now operand.entry.field) }
{
    memory.is_kept();
    let value = memory.number(operand.entry.field, operand.entry.position);
    let len = operand.form.length as u8;
    Figure { value, len }
}

/// Returns what is moved: the value of a field.
#[tactic(auto, using(crate::proofs::Characters::written))]
fn source_at<'m, S: Store + Drop>(memory: &'m Memory<'_, S>, factor2: Resolved) -> Source<'m>
    requires { NamesLike memory.now factor2 factor2 }
    ensures text { sources.source_characters result ≡ source_in memory.now factor2 }
    ensures characters { All IsCharacter (sources.source_characters result) }
    ensures right { (len : ℕ) (old : ℤ) → sources.moved_right result len old ≡ number_after_in memory.now sides.Right factor2 len old }
    ensures left { (len : ℕ) (old : ℤ) → sources.moved_left result len old ≡ number_after_in memory.now sides.Left factor2 len old }
{
    match factor2.form.kind {
        Kind::Number => Source::Number(figure_at(memory, factor2)),
        Kind::Text => Source::Text(memory.text(factor2.entry.field, factor2.entry.position)),
    }
}

/// Returns a number overwritten by factor 2, if that is a number.
fn number_after<S: Store + Drop>(
    memory: &Memory<'_, S>,
    side: Side,
    factor2: Resolved,
    to: Resolved,
) -> Option<i64>
    requires factor2 { NamesLike memory.now factor2 factor2 }
    requires to { NamesNumber memory.now to }
    ensures value { result ≡ number_moved memory.now side factor2 to }
    ensures length { IfSome result (λ n. FitsResult memory.now to n) }
{
    let before = figure_at(memory, to);
    let source = source_at(memory, factor2);
    match side {
        Side::Right => move_right(source, before.value, before.len).ok(),
        Side::Left => move_left(source, before.value, before.len).ok(),
    }
}

/// Moves factor 2 to a number. If the result isn't a number, halt 4.
#[tactic(auto, unfolding(rpg_program::specs::Act::moved))]
fn move_to_number<S: Store + Drop>(
    memory: &mut Memory<'_, S>,
    side: Side,
    factor2: Resolved,
    to: Resolved,
) -> End
    requires factor2 { NamesLike memory.old factor2 factor2 }
    requires to { NamesNumber memory.old to }
    ensures { DidData (moved_in memory.old kinds.Number side factor2 to) memory.old (end_of result) memory.new }
{
    let Some(n) = number_after(memory, side, factor2, to) else {
        return End::Halt(Halt::BadDigit);
    };
    memory.set_number(to.entry.field, to.entry.position, n);
    End::Continues
}

fn put_over(side: Side, source: Source<'_>, text: &mut [u8])
    ensures { text.new ≡ acts.text_over side (sources.source_characters source.entry) text.old }
{
    match side {
        Side::Right => move_right_text(source, text),
        Side::Left => move_left_text(source, text),
    }
}

/// Moves factor 2 to a text.
#[tactic(auto, unfolding(rpg_program::specs::Act::moved))]
fn move_to_text<S: Store + Drop>(
    memory: &mut Memory<'_, S>,
    side: Side,
    factor2: Resolved,
    to: Resolved,
)
    requires factor2 { NamesLike memory.old factor2 factor2 }
    requires to { NamesText memory.old to }
    ensures { DidData (moved_in memory.old kinds.Text side factor2 to) memory.old Continues memory.new }
{
    memory.is_kept();
    let mut places = [0; 256];
    let old = memory.text(to.entry.field, to.entry.position);
    let text = &mut places[..old.len()];
    text.copy_from_slice(old);
    put_over(side, source_at(memory, factor2), text);
    memory.set_text(to.entry.field, to.entry.position, text);
}

/// Moves factor 2 to an entry.
fn move_to_entry<S: Store + Drop>(
    memory: &mut Memory<'_, S>,
    side: Side,
    factor2: Resolved,
    to: Resolved,
) -> End
    requires factor2 { NamesLike memory.old factor2 factor2 }
    requires to { NamesLike memory.old to to }
    ensures { DidData (moved_in memory.old (kind_in memory.old to) side factor2 to) memory.old (end_of result) memory.new }
{
    match to.form.kind {
        Kind::Number => move_to_number(memory, side, factor2, to),
        Kind::Text => {
            move_to_text(memory, side, factor2, to);
            End::Continues
        }
    }
}

/// MOVE and MOVEL. None if an index is out of range.
#[tactic(auto, unfolding(rpg_program::specs::Act::act, rpg_program::specs::Operate::has_entries, rpg_program::specs::Operate::operate, rpg_program::specs::Operate::resolved, rpg_program::specs::Rows::row_of))]
pub fn move_places<S: Store + Drop>(
    memory: &mut Memory<'_, S>,
    side: Side,
    factor2: &Operand<u16>,
    to: &Operand<u16>,
) -> Option<End>
    requires factor2 { IsLikeOperand memory.old factor2.now factor2.now }
    requires to { IsLikeOperand memory.old to.now to.now }
    ensures { DidOperate (actions.Move side factor2.now to.now) memory.old result memory.new }
{
    let factor2 = entry_named(memory, factor2)?;
    let to = entry_named(memory, to)?;
    Some(move_to_entry(memory, side, factor2, to))
}
