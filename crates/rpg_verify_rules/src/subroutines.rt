//! V23: the instructions of a subroutine, and those outside one.

ghost use Rattle.std.specs.Prelude.{◌≡◌};
ghost use Rattle.std.specs.List.{list_all, list_any};
ghost use Rattle.rpg_verify_rules.specs.PlaceRules as words;

use rpg_program::operation::Instruction;

/// Whether it is RET, which ends a subroutine.
pub fn is_return(instruction: Instruction<u16>) -> bool
    ensures { result ≡ words.is_return instruction }
{
    match instruction {
        Instruction::Return { .. } => true,
        Instruction::Act(_)
        | Instruction::Except
        | Instruction::Branch { .. }
        | Instruction::Call { .. } => false,
    }
}

/// Whether any instruction is RET, which only subroutines have.
pub fn has_return(code: &[Instruction<u16>]) -> bool
    ensures { result ≡ list_any words.is_return code.now }
{
    for instruction in code {
        if is_return(*instruction) {
            return true;
        }
    }
    false
}

fn is_own(number: usize, instruction: Instruction<u16>) -> bool
    ensures { result ≡ words.is_own number instruction }
{
    match instruction {
        Instruction::Return { subroutine } => usize::from(subroutine) == number,
        Instruction::Act(_)
        | Instruction::Except
        | Instruction::Branch { .. }
        | Instruction::Call { .. } => true,
    }
}

fn are_own(number: usize, code: &[Instruction<u16>]) -> bool
    ensures { result ≡ list_all (words.is_own number) code.now }
{
    for instruction in code {
        if !is_own(number, *instruction) {
            return false;
        }
    }
    true
}

fn ends_in_return(code: &[Instruction<u16>]) -> bool
    ensures { result ≡ words.ends_in_return code.now }
{
    match code.get(code.len().saturating_sub(1)) {
        None => false,
        Some(last) => is_return(*last),
    }
}

/// Whether a subroutine ends in its own RET and contains no other's.
pub fn is_body(number: usize, code: &[Instruction<u16>]) -> bool
    ensures { result ≡ words.is_body number code.now }
{
    are_own(number, code) && ends_in_return(code)
}
