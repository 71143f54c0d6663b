//! Laws of the definitions. The functions do nothing: they are called only for their contracts.
ghost use Rattle.rpg_program.specs.RenamingLaws.{InputsAgree, LinesAgree, OperationsAgree, RowsAgree, WorldsAgree};

/// Operations, lines, input fields and the rules' requirements on operands don't depend on names.
pub fn names_make_no_difference<K: Ord, L: Ord>()
    ensures operations { OperationsAgree K.cmp L.cmp }
    ensures lines { LinesAgree K.cmp L.cmp }
    ensures inputs { InputsAgree K.cmp L.cmp }
    ensures rows { RowsAgree K.cmp L.cmp }
{}

/// For any values of a program's fields there are values by name that agree with them.
pub fn numbers_have_names<K: Ord>()
    ensures { WorldsAgree K.cmp }
{}
