//! The entries that an accepted operation's operands name. None if an index is out of range.
ghost use Rattle.std.specs.Prelude.{◌≡◌, IfSome};
ghost use Rattle.std.specs.Option.{option_map};
ghost use Rattle.rpg_program.specs.declared.form.Kind.{Kind};
ghost use Rattle.rpg_memory.specs.Fields.{CanBeResolved, IsResolved, resolved_entry};
ghost use Rattle.rpg_memory.specs.Memory.{NamesNumber, entry_if_in_range};
ghost use Rattle.rpg_machine_operations.specs.Valid.{IsRightOperand, written_operand};
ghost use Rattle.rpg_machine_operations.specs.Words.{IsNumberOperand, entry_if_any, field_if_any, operand_field};

use rpg_memory::entry::resolve;
use rpg_memory::memory::Memory;
use rpg_memory::resolved::Resolved;
use rpg_program::operation::Operand;
use rpg_store::store::Store;

/// Returns the entry that an operand names, of any kind.
#[inline(always)]
#[tactic(auto, unfolding(rpg_program::specs::Entries::entry_of))]
pub fn entry_named<S: Store + Drop>(
    memory: &Memory<'_, S>,
    operand: &Operand<u16>,
) -> Option<Resolved>
    requires { CanBeResolved memory.now.program.fields operand.now }
    ensures entry { option_map resolved_entry result ≡ entry_if_in_range memory.now operand.now }
    ensures operand { IfSome result (λ r. written_operand r.entry ≡ operand.now) }
    ensures named { (k : Kind) → IsRightOperand memory.now.program.fields k operand.now → IfSome result (λ r. IsResolved memory.now.program.fields k r) }
{
    memory.is_kept();
    resolve(memory, operand)
}

/// Returns the number that an operand names.
#[inline(always)]
pub fn number_named<S: Store + Drop>(
    memory: &Memory<'_, S>,
    operand: &Operand<u16>,
) -> Option<Resolved>
    requires { IsNumberOperand memory.now operand.now }
    ensures entry { option_map resolved_entry result ≡ entry_if_in_range memory.now operand.now }
    ensures named { IfSome result (λ r. NamesNumber memory.now r) }
{
    entry_named(memory, operand)
}

/// Returns the table in LOKUP's result, if there is one, with its current entry.
#[tactic(auto, unfolding(rpg_program::specs::Entries::entry_of))]
pub fn table_named<S: Store + Drop>(
    memory: &Memory<'_, S>,
    operand: &Option<Operand<u16>>,
) -> Option<Option<Resolved>>
    requires { IfSome operand.now (λ o. CanBeResolved memory.now.program.fields o) }
    ensures entry { option_map (λ o. option_map resolved_entry o) result ≡ entry_if_any memory.now operand.now }
    ensures field { IfSome result (λ t. field_if_any t ≡ operand_field operand.now) }
{
    let Some(operand) = operand else {
        return Some(None);
    };
    let resolved = resolve(memory, operand)?;
    Some(Some(resolved))
}
