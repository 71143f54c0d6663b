//! Object programs.
ghost use Rattle.std.specs.Prelude.{◌≡◌};
ghost use Rattle.rpg_program.specs.Kept.{IsProgram};
ghost use Rattle.rpg_program.specs.Object.{seen};

use crate::rows::Rows;
use std::marker::Model;

/// An object program, which satisfies everything that the object format
/// requires of its rows.
#[derive(Drop)]
pub struct Program {
    rows: Rows,
}

impl Model for Program {
    ghost use Rattle.rpg_program.specs.Kept.{IsProgram};
    ghost use Rattle.rpg_program.specs.Object.{Object, seen};

    ghost Value = { Object };

    ghost view = { λ p. seen p.rows };

    ghost invariant = { λ p. IsProgram (seen p.rows) };
}

impl Program {
    /// Makes a program of these rows.
    pub fn build(rows: Rows) -> Program
        requires { IsProgram (seen rows) }
        ensures { result ≡ seen rows }
    {
        Program { rows }
    }

    /// Returns the rows of the program.
    pub fn rows(&self) -> &Rows
        ensures same { seen result.now ≡ self.now }
        ensures kept { IsProgram self.now }
    {
        &self.rows
    }
}
