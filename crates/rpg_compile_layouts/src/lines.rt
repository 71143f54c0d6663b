//! Lines, from the groups of O cards.

ghost use Rattle.std.specs.Prelude.{◌≡◌, All, map, IfOk};
ghost use Rattle.rpg_compile_layouts.specs.Rows.{row_after, rows_of};
ghost use Rattle.rpg_compile_layouts.specs.Within.{IsLineWithin};
ghost use Rattle.rpg_program.specs.Kept.{IsLineRow};
ghost use Rattle.rpg_program.specs.Object.{line_row};

use crate::alternatives::alternatives_of;
use crate::files::{own_or, put_on};
use crate::output_fields::fields_of;
use crate::spacing::spacing_of;
use rpg_cards::{SpecCard, time_of};
use rpg_compile_program::FieldTable;
use rpg_program::line::File;
use rpg_program::rows::Line;
use rpg_sheet_specs::OutputRecord;
use std::alloc::{AllocError, Global};

/// Returns a row for each group of O cards, with fields and constants by number.
#[tactic(auto, using(crate::proofs::LineFollowers::rows_other))]
pub fn lines_of(
    alloc: Global,
    table: &FieldTable,
    cards: &[SpecCard],
) -> Result<Vec<Line>, AllocError>
    requires { All IsLineWithin (rows_of table.now cards.now) }
    ensures lines { IfOk result (λ v. map line_row v.items ≡ rows_of table.now cards.now) }
    ensures rows { IfOk result (λ v. All IsLineRow (map line_row v.items)) }
{
    let mut lines = Vec::new(alloc);
    let nameless = None;
    let mut name = &nameless;
    let mut rest = cards;
    while let Some((card, following)) = rest.split_first() {
        if let Some(heading) = card.line() {
            name = own_or(&heading.file, name);
            let file = put_on(cards, name);
            lines.push(line_of(alloc, table, file, heading, following)?)?;
        }
        rest = following;
    }
    Ok(lines)
}

/// Returns the line that a record card begins, with the cards after it.
fn line_of(
    alloc: Global,
    table: &FieldTable,
    file: File,
    heading: &OutputRecord,
    following: &[SpecCard],
) -> Result<Line, AllocError>
    requires { IsLineWithin (row_after table.now file heading.now following.now) }
    ensures row { IfOk result (λ l. line_row l ≡ row_after table.now file heading.now following.now) }
    ensures kept { IfOk result (λ l. IsLineRow (line_row l)) }
{
    Ok(Line {
        file,
        time: time_of(heading.time),
        spacing: spacing_of(file, &heading.movement),
        alternatives: alternatives_of(alloc, heading.conditions, following)?,
        fields: fields_of(alloc, table, following)?,
    })
}
