//! Programs that may run.

ghost use Rattle.std.specs.Prelude.{◌≡◌, ◌<◌, ◌^◌, IfErr, IfOk};
ghost use Rattle.rpg_program.specs.Kept.{IsProgram};
ghost use Rattle.rpg_verify_rules.specs.Accepted.{IsAccepted};
ghost use Rattle.rpg_verify_rules.specs.Sound.{IsSound};
ghost use Rattle.rpg_verify.specs.Bound as words;
ghost use Rattle.rpg_verify.specs.Greatest.{AreCostsOf, AreGreatest};
ghost use Rattle.rpg_verify.specs.Verified.{IsRefusal};

use crate::bound::{Measured, measure};
use crate::least::first_broken;
use rpg_program::Program;
use rpg_verify_rules::Rule;
use std::alloc::Global;
use std::marker::Model;

/// A program that obeys all rules, with the costs of its places and its bound. Only `verify` makes one.
#[derive(Drop)]
pub struct Verified {
    program: Program,
    costs: Vec<u64>,
    bound: u64,
}

impl Model for Verified {
    ghost use Rattle.rpg_program.specs.Object.{Object};
    ghost use Rattle.rpg_verify.specs.Verified.{IsVerified};

    ghost Value = { Object };

    ghost view = { λ v. v.program };

    ghost invariant = { λ v. IsVerified v.program v.costs.items v.bound };
}

/// Why a program isn't verified.
#[derive(Clone, Copy)]
pub enum VerifyFault {
    /// The lowest-numbered rule that a row breaks, and the first such row, counted from 0 in the rule's table.
    Refused { rule: Rule, row: usize },
    /// Memory ran out for the costs of an accepted program.
    NoMemory,
}

/// Returns the program if it obeys all rules; otherwise gives it back unchanged, with the lowest-numbered rule
/// that it breaks.
pub fn verify(alloc: Global, program: Program) -> Result<Verified, (Program, VerifyFault)>
    ensures accepted { IfOk result (λ v. v ≡ program) }
    ensures unchanged { IfErr result (λ e. e.0 ≡ program) }
    ensures refused { IfErr result (λ e. IsRefusal program e.1) }
{
    if let Some(broken) = first_broken(program.rows()) {
        let fault = VerifyFault::Refused {
            rule: broken.rule,
            row: broken.row,
        };
        return Err((program, fault));
    }
    match measure(alloc, program.rows()) {
        Ok(Measured { costs, bound }) => Ok(Verified {
            program,
            costs,
            bound,
        }),
        Err(_) => Err((program, VerifyFault::NoMemory)),
    }
}

impl Verified {
    /// Returns the program, unchanged.
    pub fn program(&self) -> &Program
        ensures same { result.now ≡ self.now }
        ensures program { IsProgram self.now }
        ensures accepted { IsAccepted self.now }
    {
        &self.program
    }

    /// Returns the most steps that a cycle can take.
    pub fn bound(&self) -> u64
        ensures bound { result ≡ words.bound self.now }
        ensures few { result < 2 ^ 48 }
    {
        self.bound
    }

    /// Returns, for each place, the greatest sum of weights along a forward path from it.
    pub fn path_costs(&self) -> &[u64]
        ensures costs { result.now ≡ words.costs self.now }
        ensures greatest { AreCostsOf self.now result.now }
    {
        &self.costs
    }

    /// What follows from the rules: no operand, line or input field is wrong, and control goes only where it
    /// may.
    pub fn is_sound(&self)
        ensures { IsSound self.now }
    {
        let _ = &self.program;
    }

    /// What the costs are.
    pub fn has_greatest_costs(&self)
        ensures { AreGreatest self.now }
    {
        let _ = &self.program;
    }
}
