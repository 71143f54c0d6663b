//! Assembles a line: writes the fields whose conditions hold over blanks, in order.
ghost use Rattle.std.specs.Prelude.{◌≡◌, ◌≤◌, ◌+◌, length, drop, true, None, IfSome};
ghost use Rattle.rpg_program.specs.Ends.{Continues, end_of};
ghost use Rattle.rpg_program.specs.LineFaults as faults;
ghost use Rattle.rpg_program.specs.Lines as lines;
ghost use Rattle.rpg_program.specs.World.{three_hold};
ghost use Rattle.rpg_machine_lines.specs.Drafts.{assembled_in, drafted_in, with_field_in};
ghost use Rattle.rpg_machine_lines.specs.Entries.{AreFieldEntries, IsFieldEntry};
ghost use Rattle.rpg_machine_lines.specs.Plans.{IsFieldPlan, IsFixedField, AreFieldPlans, reach_of};
ghost use Rattle.rpg_machine_lines.specs.Putting.{CanBeRead, CanRemember, ChangesFields, ChangesValues, RemembersOne};
ghost use Rattle.rpg_program.specs.Constants.{word_at};
ghost use Rattle.rpg_memory.specs.Memory.{forms_in, position_in};

use crate::entries::Entries;
use crate::field::{count_page, lay_fixed_value, lay_value};
use crate::plan::FieldPlan;
use crate::words::EditWords;
use rpg_memory::condition::three_hold;
use rpg_memory::entry;
use rpg_memory::memory::Memory;
use rpg_memory::resolved::FixedEntry;
use rpg_program::form::FieldForm;
use rpg_program::forms::form_at;
use rpg_program::halt::Halt;
use rpg_program::line::LineField;
use rpg_program::operation::Operand;
use rpg_program::outcome::End;
use rpg_store::store::Store;

/// Returns the position that an operand names, if its index is in range; `form` is that of its field.
#[tactic(auto, using(crate::proofs::Operands::entries))]
fn position_of<S: Store + Drop>(
    memory: &Memory<'_, S>,
    form: Option<FieldForm>,
    operand: Operand<u16>,
) -> Option<u16>
    requires { CanBeRead memory.now form operand }
    ensures value { result ≡ position_in memory.now operand }
    ensures entry { IfSome result (λ e. IsFieldEntry memory.now.program.fields operand.field e) }
{
    memory.is_kept();
    let Some(form) = form else { unreachable!() };
    entry::position_of(memory, &operand, form)
}

/// Notes the entry of a field with blank after, to be blanked later.
#[tactic(auto, using(crate::proofs::Entering::entering))]
fn remember<S: Store + Drop>(
    memory: &Memory<'_, S>,
    to_blank: &mut Entries,
    field: &LineField<u16>,
    entry: u16,
)
    requires more { CanRemember memory.now.program.fields (length to_blank.old) to_blank.old }
    requires entry { IsFieldEntry memory.now.program.fields field.now.operand.field entry }
    ensures items { to_blank.new ≡ lines.remembered field.now.is_blanked (field.now.operand.field, entry) to_blank.old }
    ensures one { RemembersOne memory.now.program.fields (length to_blank.old) (length to_blank.new) to_blank.new }
{
    if field.is_blanked {
        to_blank.push((field.operand.field, entry));
    }
}

/// Assembles one field, if its conditions hold, after looking up its entry. Separate from the loop over fields, which seldom calls it.
#[inline(never)]
#[tactic(auto, using(crate::proofs::Fields::rightness), unfolding(rpg_program::specs::Lines::with_field))]
fn with_field<S: Store + Drop>(
    memory: &mut Memory<'_, S>,
    text: &mut [u8],
    to_blank: &mut Entries,
    field: &LineField<u16>,
    words: &EditWords,
) -> End
    requires right { faults.field_fault (forms_in memory.old) (word_at memory.old.program) (length text.old) field.now ≡ None }
    requires more { CanRemember memory.old.program.fields (length to_blank.old) to_blank.old }
    ensures drafted { drafted_in (end_of result) memory.new text.new to_blank.new ≡ with_field_in memory.old text.old to_blank.old field.now }
    ensures changes { ChangesFields memory.old memory.new (length to_blank.old) (length to_blank.new) to_blank.new }
{
    if !three_hold(memory.on(), field.conditions) {
        return End::Continues;
    }
    let operand = field.operand;
    let form = form_at(memory.rows(), operand.field);
    match position_of(memory, form, operand) {
        None => End::Halt(Halt::BadIndex),
        Some(position) => {
            count_page(memory, field, position);
            lay_value(memory, text, field, form, position, words);
            remember(memory, to_blank, field, position);
            End::Continues
        }
    }
}

/// Assembles one field that is printed, from the entry that its operand always names.
#[inline(always)]
fn with_fixed_field<S: Store + Drop>(
    memory: &Memory<'_, S>,
    text: &mut [u8],
    to_blank: &mut Entries,
    field: &LineField<u16>,
    fixed: &FixedEntry,
    words: &EditWords,
)
    requires right { faults.field_fault (forms_in memory.now) (word_at memory.now.program) (length text.old) field.now ≡ None }
    requires holds { three_hold memory.now.world.data.on field.now.conditions ≡ true }
    requires fixed { IsFixedField memory.now.program.fields field.now fixed.now }
    requires more { CanRemember memory.now.program.fields (length to_blank.old) to_blank.old }
    ensures drafted { drafted_in Continues memory.now text.new to_blank.new ≡ with_field_in memory.now text.old to_blank.old field.now }
    ensures one { RemembersOne memory.now.program.fields (length to_blank.old) (length to_blank.new) to_blank.new }
{
    memory.is_kept();
    lay_fixed_value(memory, text, field, fixed, words);
    remember(memory, to_blank, field, fixed.resolved.entry.position);
}

/// Assembles one field, if its conditions hold, as planned.
#[tactic(auto, using(crate::proofs::Planned::always_put), unfolding(rpg_program::specs::Lines::with_field))]
fn with_planned_field<S: Store + Drop>(
    memory: &mut Memory<'_, S>,
    text: &mut [u8],
    to_blank: &mut Entries,
    field: &LineField<u16>,
    found: &FieldPlan,
    words: &EditWords,
) -> End
    requires right { faults.field_fault (forms_in memory.old) (word_at memory.old.program) (length text.old) field.now ≡ None }
    requires planned { IsFieldPlan memory.old.program.fields field.now found.now }
    requires more { CanRemember memory.old.program.fields (length to_blank.old) to_blank.old }
    ensures drafted { drafted_in (end_of result) memory.new text.new to_blank.new ≡ with_field_in memory.old text.old to_blank.old field.now }
    ensures changes { ChangesFields memory.old memory.new (length to_blank.old) (length to_blank.new) to_blank.new }
{
    let fixed = match found {
        FieldPlan::Conditional(_) if !three_hold(memory.on(), field.conditions) => {
            return End::Continues;
        }
        FieldPlan::Always(fixed) | FieldPlan::Conditional(fixed) => fixed,
        FieldPlan::Sought => return with_field(memory, text, to_blank, field, words),
    };
    with_fixed_field(memory, text, to_blank, field, fixed, words);
    End::Continues
}

/// Assembles all fields, in order, until an index is bad.
pub fn assemble<S: Store + Drop>(
    memory: &mut Memory<'_, S>,
    text: &mut [u8],
    to_blank: &mut Entries,
    fields: &[LineField<u16>],
    plan: &[FieldPlan],
    words: &EditWords,
) -> End
    requires right { faults.AreRight (forms_in memory.old) (word_at memory.old.program) (length text.old) fields.now }
    requires room { length to_blank.old + length fields.now ≤ 200 }
    requires entries { AreFieldEntries memory.old.program.fields to_blank.old }
    requires planned { AreFieldPlans memory.old.program.fields fields.now plan.now }
    ensures drafted { drafted_in (end_of result) memory.new text.new to_blank.new ≡ assembled_in memory.old text.old to_blank.old fields.now }
    ensures changes { ChangesValues memory.old memory.new to_blank.new }
    ensures following { drop (reach_of fields.now) text.new ≡ drop (reach_of fields.now) text.old }
{
    let (mut left, mut found) = (fields, plan);
    'fields: while let Some((field, following)) = left.split_first() {
        match with_planned_field(memory, text, to_blank, field, &found[0], words) {
            End::Continues => {}
            End::Halt(halt) => return End::Halt(halt),
        }
        left = following;
        found = &found[1..];
    }
    End::Continues
}
