//! The names of labels and subroutines, and the sections that they are in.

ghost use Rattle.std.specs.Prelude.{◌≡◌, option_copied, option_and_then};
ghost use Rattle.rpg_cards.specs.Statements as statements;
ghost use Rattle.rpg_cards.specs.Keys as keys;
ghost use Rattle.rpg_cards.specs.Labels as labels;
ghost use Rattle.rpg_cards.specs.Sections as sections;

use rpg_sheet_specs::{CalculationSpec, ControlLevel, Factor, Operation, Word};

/// The section of a calculation.
#[derive(Clone, Copy)]
pub enum Section {
    Detail,
    Total,
    /// The subroutine with this number, counted from 0.
    Subroutine(u16),
    /// SR in columns 7 and 8, but not between a BEGSR and its ENDSR.
    Outside,
}

/// A name that a card defines or refers to.
#[derive(Drop)]
pub struct Named {
    pub name: Word<6>,
    /// Whether it names a subroutine, not a label.
    pub is_subroutine: bool,
}

/// A name with the section of the calculation that defines it.
#[derive(Drop)]
pub struct Label {
    pub named: Named,
    pub section: Section,
}

/// Whether a card has SR in columns 7 and 8.
pub fn is_subroutine(control_level: ControlLevel) -> bool
    ensures { result ≡ sections.is_subroutine control_level }
{
    match control_level {
        ControlLevel::Subroutine => true,
        ControlLevel::Detail | ControlLevel::Total(_) | ControlLevel::And | ControlLevel::Or =>
            false,
    }
}

/// Whether the operation is BEGSR.
pub fn begins_subroutine(calculation: &CalculationSpec) -> bool
    ensures { result ≡ labels.is_begsr (statements.statement_of calculation.now) }
{
    calculation.operation == Some(Operation::BeginSubroutine)
}

/// Whether the operation is ENDSR.
pub fn ends_subroutine(calculation: &CalculationSpec) -> bool
    ensures { result ≡ labels.is_endsr (statements.statement_of calculation.now) }
{
    calculation.operation == Some(Operation::EndSubroutine)
}

/// Returns the name of an entry without an index.
pub fn plain_name(factor: &Factor) -> Option<&Word<6>>
    ensures { option_copied result ≡ keys.plain_name factor.now }
{
    match factor {
        Factor::Literal(_) => None,
        Factor::Entry(entry) => match &entry.index {
            None => Some(&entry.name),
            Some(_) => None,
        },
    }
}

/// Returns the name that a TAG, ENDSR or BEGSR defines.
pub fn defined_name(calculation: &CalculationSpec) -> Option<Named>
    ensures { result ≡ labels.defined_name (statements.statement_of calculation.now) }
{
    match calculation.operation? {
        Operation::Label | Operation::EndSubroutine => name_in(&calculation.factor_1, false),
        Operation::BeginSubroutine => name_in(&calculation.factor_1, true),
        _ => None,
    }
}

/// Returns the name that a GOTO or EXSR refers to.
pub fn target_name(calculation: &CalculationSpec) -> Option<Named>
    ensures { result ≡ labels.target_name (statements.statement_of calculation.now) }
{
    match calculation.operation? {
        Operation::GoTo => name_in(&calculation.factor_2, false),
        Operation::Call => name_in(&calculation.factor_2, true),
        _ => None,
    }
}

fn name_in(factor: &Option<Factor>, is_subroutine: bool) -> Option<Named>
    ensures { result ≡ labels.named_by is_subroutine (option_and_then keys.plain_name factor.now) }
{
    let name = plain_name(factor.as_ref()?)?;
    Some(Named {
        name: Word::new(name.as_slice()),
        is_subroutine,
    })
}
