//! Laws of the definitions. The function does nothing: it is called only for its contract.
ghost use Rattle.rpg_meaning.specs.Calculations.Meaning.{Source, State};
ghost use Rattle.rpg_meaning.specs.Operations.{Compares, Computes, Divides, TransfersControl, LooksUp, Moves, Sets};
ghost use Rattle.rpg_decimal_words.specs.Move.{number_moved_left, number_moved_right, overlay_left, overlay_right};
ghost use Rattle.rpg_sheet_specs.specs.declared.calculation.CalculationSpec.{CalculationSpec};
ghost use Rattle.rpg_sheet_specs.specs.declared.calculation.Operation.TheVariants as op;

/// What each operation does, given its card and the values of factor 1, factor 2 and the result field.
pub fn operations_do()
    ensures computes { (source : Source) (s : State) (k : CalculationSpec) → Computes source s k }
    ensures divides { (source : Source) (s : State) (k : CalculationSpec) → Divides source s k }
    ensures moves { (source : Source) (s : State) (k : CalculationSpec) → Moves source s k op.Move overlay_right number_moved_right }
    ensures moves_left { (source : Source) (s : State) (k : CalculationSpec) → Moves source s k op.MoveLeft overlay_left number_moved_left }
    ensures compares { (source : Source) (s : State) (k : CalculationSpec) → Compares source s k }
    ensures looks_up { (source : Source) (s : State) (k : CalculationSpec) → LooksUp source s k }
    ensures sets { (source : Source) (s : State) (k : CalculationSpec) → Sets source s k }
    ensures leads { (source : Source) (s : State) (k : CalculationSpec) → TransfersControl source s k }
{}
