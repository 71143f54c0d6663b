//! Decodes and verifies the bytes of an object program.

ghost use Rattle.std.specs.Prelude.{◌≡◌, nat_lt, IfErr, IfOk};
ghost use Rattle.rpg_program.specs.Object.{Object};
ghost use Rattle.rpg_verify_rules.specs.Accepted.{IsAccepted};
ghost use Rattle.rpg_engine.specs.declared.object.ObjectFault.TheVariants as objects;
ghost use Rattle.rpg_verify_rules.specs.declared.rule.BrokenRule.{BrokenRule};
ghost use Rattle.rpg_engine.specs.Objects.{HasObjectFault, IsAcceptedWith, IsRefused, SpellsProgram};

use rpg_object::{Code, DecodeFault, decode};
use rpg_program::Program;
use rpg_verify::{BrokenRule, Verified, VerifyFault, verify};
use std::alloc::Global;

/// Why bytes aren't those of an accepted program.
#[derive(Clone, Copy)]
pub enum ObjectFault {
    /// They encode no program: the offset of the first fault, counted from 0, and its code.
    NotAnObject { offset: usize, code: Code },
    /// The program breaks a rule: the lowest-numbered one that a row breaks, and its first such row, counted from 0 in the
    /// rule's table.
    Refused(BrokenRule),
    NoMemory,
}

impl From<DecodeFault> for ObjectFault {
    ghost use Rattle.rpg_engine.specs.Objects.{undecoded};

    ghost from_gives = { λ fault e. e ≡ undecoded fault };

    fn from(fault: DecodeFault) -> ObjectFault {
        match fault {
            DecodeFault::Object { offset, code } => ObjectFault::NotAnObject { offset, code },
            DecodeFault::NoMemory => ObjectFault::NoMemory,
        }
    }
}

impl From<VerifyFault> for ObjectFault {
    ghost use Rattle.rpg_engine.specs.Objects.{unverified};

    ghost from_gives = { λ fault e. e ≡ unverified fault };

    fn from(fault: VerifyFault) -> ObjectFault {
        match fault {
            VerifyFault::Refused { rule, row } => ObjectFault::Refused(BrokenRule { rule, row }),
            VerifyFault::NoMemory => ObjectFault::NoMemory,
        }
    }
}

/// Decodes a program, whether or not it obeys the rules.
pub fn decode_object(alloc: Global, bytes: &[u8]) -> Result<Program, ObjectFault>
    ensures spelled { IfOk result (λ p. SpellsProgram bytes.now p) }
    ensures only { IfOk result (λ p. (q : Object) → SpellsProgram bytes.now q → p ≡ q) }
    ensures refused { IfErr result (λ fault. HasObjectFault fault bytes.now) }
    ensures unjudged { IfErr result (λ fault. (broken : BrokenRule) → fault ≡ objects.Refused broken → ⊥) }
{
    Ok(decode(alloc, bytes)?)
}

/// Returns the program if it obeys all rules.
pub fn accept(alloc: Global, program: Program) -> Result<Verified, ObjectFault>
    ensures same { IfOk result (λ v. v ≡ program) }
    ensures accepted { IfOk result (λ v. IsAccepted v) }
    ensures refused { IfErr result (λ fault. IsRefused fault program) }
{
    match verify(alloc, program) {
        Ok(verified) => Ok(verified),
        Err((_program, fault)) => Err(fault.into()),
    }
}

/// Decodes the program, and returns it if it obeys all rules.
pub(crate) fn accepted_object(alloc: Global, bytes: &[u8]) -> Result<Verified, ObjectFault>
    ensures spelled { IfOk result (λ v. SpellsProgram bytes.now v) }
    ensures only { IfOk result (λ v. (p : Object) → SpellsProgram bytes.now p → v ≡ p) }
    ensures accepted { IfOk result (λ v. IsAccepted v) }
    ensures refused { IfErr result (λ fault. HasObjectFault fault bytes.now) }
{
    let program = decode_object(alloc, bytes)?;
    accept(alloc, program)
}

/// Decodes and verifies the program. Returns its bound: the most steps that one of its cycles can take.
pub fn verify_bytes(alloc: Global, bytes: &[u8]) -> Result<u64, ObjectFault>
    ensures accepted { IfOk result (λ bound. IsAcceptedWith bound bytes.now) }
    ensures refused { IfErr result (λ fault. HasObjectFault fault bytes.now) }
{
    let verified = accepted_object(alloc, bytes)?;
    Ok(verified.bound())
}

/// Whether the program reads a secondary file.
pub fn has_secondary_file(program: &Program) -> bool
    ensures { result ≡ nat_lt 0 program.now.secondary_length }
{
    program.rows().secondary_length > 0
}

/// Whether the program writes a disk file.
pub fn has_disk_file(program: &Program) -> bool
    ensures { result ≡ nat_lt 0 program.now.disk_length }
{
    program.rows().disk_length > 0
}
