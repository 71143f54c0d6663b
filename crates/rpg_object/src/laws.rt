//! Laws about object programs. A function here does nothing: its contract is the law.

ghost use Rattle.std.specs.Prelude.{◌≡◌, Ok};
ghost use Rattle.rpg_program.specs.Kept.{IsProgram};
ghost use Rattle.rpg_program.specs.Object.{Object};
ghost use Rattle.rpg_object.specs.Program.{body, reading, spelling, FaultStays};

/// Appending bytes changes neither the offset nor the code of a fault, unless they may complete what is
/// cut short.
pub fn bytes_after_keep_a_fault(bytes: &[u8], more: &[u8])
    ensures { FaultStays bytes.now more.now }
{}

/// A program's encoding decodes to that program.
pub fn a_spelling_is_read_again()
    ensures { (p : Object) → IsProgram p → reading (spelling p) ≡ Ok p }
{}

/// Different programs have different encodings.
pub fn a_spelling_is_of_one_program()
    ensures { (p q : Object) → IsProgram p → IsProgram q → spelling p ≡ spelling q → p ≡ q }
{}

/// What the format accepts is a program, row by row in plain words, and the format accepts every program.
pub fn the_format_holds_programs()
    ensures kept { (p : Object) → body.Holds p → IsProgram p }
    ensures held { (p : Object) → IsProgram p → body.Holds p }
{}
