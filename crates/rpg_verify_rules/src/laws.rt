//! What the rules guarantee to whatever runs an accepted program.

ghost use Rattle.rpg_program.specs.Object.{Object};
ghost use Rattle.rpg_verify_rules.specs.Accepted.{IsAccepted};
ghost use Rattle.rpg_verify_rules.specs.Sound.{IsSound};

/// An accepted program has no invalid operand, line or input field, and control goes only where it may.
pub fn accepted_programs_are_sound()
    ensures { (p : Object) → IsAccepted p → IsSound p }
{}
