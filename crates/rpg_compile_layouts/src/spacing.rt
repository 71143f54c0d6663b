//! How the form moves.

ghost use Rattle.std.specs.Prelude.{◌≡◌, unwrap_or};
ghost use Rattle.rpg_program.specs.Kept.{IsSpacingRow};
ghost use Rattle.rpg_compile_program.specs.Lines as lines;

use rpg_program::line::{File, Spacing};
use rpg_sheet_specs::{Movement, Within};

/// Returns the movements that are given; without any, the printer spaces one after.
pub(crate) fn spacing_of(file: File, movement: &Movement) -> Spacing
    ensures value { result ≡ lines.spacing_of file movement.now }
    ensures kept { IsSpacingRow result }
{
    Spacing {
        space_before: spaces(movement.space_before),
        space_after: spaces_after(file, movement),
        skip_before: line(movement.skip_before),
        skip_after: line(movement.skip_after),
    }
}

fn spaces_after(file: File, movement: &Movement) -> u8
    ensures { result ≡ lines.spaces_after file movement.now }
{
    match file {
        File::Printer if is_unmoved(movement) => 1,
        File::Printer | File::Disk => spaces(movement.space_after),
    }
}

fn is_unmoved(movement: &Movement) -> bool
    ensures { result ≡ lines.is_unmoved movement.now }
{
    movement.space_before.is_none()
        && movement.space_after.is_none()
        && movement.skip_before.is_none()
        && movement.skip_after.is_none()
}

fn spaces(number: Option<Within<0, 3>>) -> u8
    ensures { result ≡ unwrap_or number 0 }
{
    match number {
        Some(number) => number.number(),
        None => 0,
    }
}

/// Returns the line to skip to, 0 for none.
fn line(number: Option<Within<1, 112>>) -> u8
    ensures { result ≡ unwrap_or number 0 }
{
    match number {
        Some(number) => number.number(),
        None => 0,
    }
}
