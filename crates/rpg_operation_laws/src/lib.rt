//! Laws of what operations, lines and labels do, in plain terms: sums over the entries of an array, positions, inequalities. They use none
//! of the words by which rpg_program and rpg_cards define it, so a wrong definition that compiler, machine and meaning share breaks a law.
//! The functions do nothing: they are called only for their contracts.
#![tactic(auto)]

ghost use Rattle.rpg_operation_laws.specs.Found.{OperandsNameEntries, SearchesFind};
ghost use Rattle.rpg_operation_laws.specs.Labels.{NamesAreSame};
ghost use Rattle.rpg_operation_laws.specs.Output.{ExceptionsAreDue, FieldsAreNoted, LinesBlankNoted, LinesMovePaper, LinesTurnOn};
ghost use Rattle.rpg_operation_laws.specs.Results.{OperationsCompute};

/// What operations on numbers leave in the result field, the indicators and the remainder (`compute`); what LOKUP finds, and where it
/// leaves it (`find`); which entry an operand names (`positions`).
#[tactic(auto, using(crate::proofs::Found::finds, crate::proofs::Found::names_entries))]
pub fn operations_do<K: Ord>()
    ensures compute { OperationsCompute K.cmp }
    ensures find { SearchesFind K.cmp }
    ensures positions { OperandsNameEntries K.cmp }
{}

/// Where lines are printed (`paper`), where the paper turns overflow on (`overflow`), and which lines EXCPT puts out (`exceptions`); which entries blank after notes (`noted`), and which are
/// blank after a line (`blanked`).
#[tactic(auto, using(crate::proofs::Lines::prints, crate::proofs::Lines::turns_on, crate::proofs::Lines::notes, crate::proofs::Lines::blanks_noted))]
pub fn lines_do<K: Ord>()
    ensures paper { LinesMovePaper K.cmp }
    ensures overflow { LinesTurnOn K.cmp }
    ensures exceptions { ExceptionsAreDue K.cmp }
    ensures noted { FieldsAreNoted K.cmp }
    ensures blanked { LinesBlankNoted K.cmp }
{}

/// Labels and subroutines are the same if their names are.
#[tactic(auto, using(crate::proofs::Labels::same_names))]
pub fn names_are_same()
    ensures { NamesAreSame }
{}
