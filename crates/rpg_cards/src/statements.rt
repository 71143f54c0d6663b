//! What calculations do.

ghost use Rattle.std.specs.Prelude.{◌≡◌};
ghost use Rattle.rpg_cards.specs.Statements as statements;

use rpg_sheet_specs::{CalculationSpec, Operation};

/// Whether an operation compiles to an instruction, as all but TAG and BEGSR
/// do.
pub fn has_instruction(calculation: &CalculationSpec) -> bool
    ensures { result ≡ statements.has_instruction (statements.statement_of calculation.now) }
{
    match calculation.operation {
        None | Some(Operation::Label | Operation::BeginSubroutine) => false,
        Some(_) => true,
    }
}
