//! The instruction of a C card.

ghost use Rattle.std.specs.Prelude.{◌≡◌, IfSome};
ghost use Rattle.std.specs.Option.{option_to_list};
ghost use Rattle.rpg_cards.specs.Statements as statements;
ghost use Rattle.rpg_compile.specs.Coding.{statement_code};
ghost use Rattle.rpg_compile.specs.Marked.{IsMarked};

use crate::action::action_of;
use crate::numbers::NameNumbers;
use crate::part::wanted_name;
use rpg_compile_program::FieldTable;
use rpg_program::condition::Conditions;
use rpg_program::operation::Instruction;
use rpg_sheet_specs::{CalculationSpec, Operation};

/// What the names on the cards of a section refer to.
#[derive(Drop)]
pub(crate) struct Section<'a> {
    pub(crate) table: &'a FieldTable<'a>,
    pub(crate) labels: &'a NameNumbers,
    pub(crate) subroutines: &'a NameNumbers,
    /// The number of the subroutine, 0 in detail and total calculations.
    pub(crate) own: u16,
}

impl Section<'_> {
    /// Returns the instruction of a calculation, or None for TAG and BEGSR.
    #[tactic(auto, using(crate::proofs::Steps::acted), unfolding(rpg_compile_program::specs::Code::step_code))]
    pub(crate) fn instruction_of(&self, calculation: &CalculationSpec) -> Option<Instruction<u16>>
        ensures value { option_to_list result ≡ statement_code self.now (statements.statement_of calculation.now) }
        ensures kept { IfSome result IsMarked }
    {
        let own = self.own;
        match calculation.operation? {
            Operation::GoTo => Some(Instruction::Branch {
                is_taken_where: true,
                conditions: NO_CONDITIONS,
                target: self.labels.number_of(wanted_name(calculation)),
            }),
            Operation::Call => Some(Instruction::Call {
                subroutine: self.subroutines.number_of(wanted_name(calculation)),
            }),
            Operation::Label | Operation::BeginSubroutine => None,
            Operation::EndSubroutine => Some(Instruction::Return { subroutine: own }),
            Operation::Except => Some(Instruction::Except),
            operation => Some(Instruction::Act(action_of(self.table, calculation, operation)?)),
        }
    }
}

const NO_CONDITIONS: Conditions = Conditions {
    first: None,
    second: None,
    third: None,
};
