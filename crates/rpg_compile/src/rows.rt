//! The instructions of all sections.

ghost use Rattle.std.specs.Prelude.{◌≡◌, ◌+◌, ◌<◌, ◌≤◌, All, length, map, IfOk};
ghost use Rattle.rpg_cards.specs.Calculations.{calculations};
ghost use Rattle.rpg_cards.specs.Plain.{ArePlain};
ghost use Rattle.rpg_cards.specs.Sections.{sections_of};
ghost use Rattle.rpg_compile_program.specs.Code as code_of;
ghost use Rattle.rpg_compile_program.specs.Whole as whole;
ghost use Rattle.rpg_compile.specs.Coding.{rows_at_levels, rows_of_section, rows_of_subroutines};
ghost use Rattle.rpg_compile.specs.Marked.{IsMarked, IsMarkedRow};
ghost use Rattle.rpg_compile.specs.Numbers.{body_sizes};
ghost use Rattle.rpg_compile.specs.Walk.{section_in, subroutines_in};
ghost use Rattle.rpg_program.specs.Object.{subroutine_row};
ghost use Rattle.rpg_compile_program.specs.Table.{key_number};

use crate::calls::levels_of;
use crate::code::Code;
use crate::group::up_to_calculations;
use crate::instruction::Section;
use crate::numbers::NameNumbers;
use crate::part::{Part, next_subroutine};
use crate::section::push_section;
use rpg_cards::SpecCard;
use rpg_compile_program::FieldTable;
use rpg_program::operation::Instruction;
use rpg_program::rows::Subroutine;
use std::alloc::{AllocError, Global};

/// The instructions of detail calculations, of total calculations and of each subroutine.
#[derive(Drop)]
pub struct SectionRows {
    pub detail: Vec<Instruction<u16>>,
    pub total: Vec<Instruction<u16>>,
    pub subroutines: Vec<Subroutine>,
}

/// Compiles the calculations of cards, whose names are numbered by the table.
pub fn section_rows(
    alloc: Global,
    table: &FieldTable,
    cards: &[SpecCard],
) -> Result<SectionRows, AllocError>
    requires few { length cards.now ≤ 2000 }
    requires plain { ArePlain (sections_of (calculations cards.now)) }
    ensures detail { IfOk result (λ r. r.detail.items ≡ whole.detail_code (key_number table.now) (sections_of (calculations cards.now))) }
    ensures total { IfOk result (λ r. r.total.items ≡ whole.total_code (key_number table.now) (sections_of (calculations cards.now))) }
    ensures subroutines { IfOk result (λ r. map subroutine_row r.subroutines.items ≡ rows_of_subroutines table.now cards.now) }
    ensures detail_kept { IfOk result (λ r. All IsMarked r.detail.items) }
    ensures total_kept { IfOk result (λ r. All IsMarked r.total.items) }
    ensures subroutines_kept { IfOk result (λ r. All IsMarkedRow (map subroutine_row r.subroutines.items)) }
{
    rows_from(alloc, table, up_to_calculations(cards))
}

/// Compiles the calculations of cards that end with them. The cards are read six times, and once more if there are
/// subroutines.
fn rows_from(
    alloc: Global,
    table: &FieldTable,
    cards: &[SpecCard],
) -> Result<SectionRows, AllocError>
    requires few { length cards.now ≤ 2000 }
    requires plain { ArePlain (sections_of (calculations cards.now)) }
    ensures detail { IfOk result (λ r. r.detail.items ≡ whole.detail_code (key_number table.now) (sections_of (calculations cards.now))) }
    ensures total { IfOk result (λ r. r.total.items ≡ whole.total_code (key_number table.now) (sections_of (calculations cards.now))) }
    ensures subroutines { IfOk result (λ r. map subroutine_row r.subroutines.items ≡ rows_of_subroutines table.now cards.now) }
    ensures detail_kept { IfOk result (λ r. All IsMarked r.detail.items) }
    ensures total_kept { IfOk result (λ r. All IsMarked r.total.items) }
    ensures subroutines_kept { IfOk result (λ r. All IsMarkedRow (map subroutine_row r.subroutines.items)) }
{
    let subroutines = NameNumbers::of_subroutines(alloc, cards)?;
    let levels = levels_of(alloc, &subroutines, cards)?;
    let mut writer = Writer {
        alloc,
        table,
        labels: NameNumbers::new(alloc),
        subroutines,
    };
    let (detail, end) = writer.section(0, Part::Detail, cards, 0)?;
    let (total, end) = writer.section(0, Part::Total, cards, end)?;
    let subroutines = writer.subroutines(&levels, cards, end)?;
    Ok(SectionRows {
        detail,
        total,
        subroutines,
    })
}

/// What is needed to compile a section.
#[derive(Drop)]
struct Writer<'a> {
    alloc: Global,
    table: &'a FieldTable<'a>,
    /// Those of the current section.
    labels: NameNumbers,
    subroutines: NameNumbers,
}

impl Writer<'_> {
    /// Compiles a section that begins at `first`, and returns the place after it. `own` is the number of the subroutine.
    fn section(
        &mut self,
        own: u16,
        part: Part,
        cards: &[SpecCard],
        first: u16,
    ) -> Result<(Vec<Instruction<u16>>, u16), AllocError>
        requires { first + code_of.sizes (section_in part cards.now) < 65536 }
        ensures code { IfOk result (λ r. r.0.items ≡ rows_of_section self.old.table.now self.old.subroutines own first part cards.now) }
        ensures kept { IfOk result (λ r. All IsMarked r.0.items) }
        ensures end { IfOk result (λ r. r.1 ≡ first + code_of.sizes (section_in part cards.now)) }
        ensures table { self.new.table ≡ self.old.table }
        ensures subroutines { self.new.subroutines ≡ self.old.subroutines }
    {
        let end = self.labels.note_section(part, cards, first)?;
        let section = Section {
            table: self.table,
            labels: &self.labels,
            subroutines: &self.subroutines,
            own,
        };
        let mut code = Code::with_capacity(self.alloc, (end - first) as usize)?;
        push_section(&mut code, &section, part, cards, first)?;
        Ok((code.into_vec(), end))
    }

    /// Compiles the subroutines, the first at this place.
    #[tactic(auto, using(crate::proofs::Written::no_rows))]
    fn subroutines(
        &mut self,
        levels: &[u16],
        cards: &[SpecCard],
        first: u16,
    ) -> Result<Vec<Subroutine>, AllocError>
        requires few { length levels.now ≤ 100 }
        requires levels { length levels.now ≡ length (subroutines_in cards.now) }
        requires places { first + body_sizes (subroutines_in cards.now) < 65536 }
        ensures rows { IfOk result (λ v. map subroutine_row v.items ≡ rows_at_levels self.old.table.now self.old.subroutines levels.now first cards.now) }
        ensures kept { IfOk result (λ v. All IsMarkedRow (map subroutine_row v.items)) }
    {
        let mut rows = Vec::new(self.alloc);
        if levels.is_empty() {
            return Ok(rows);
        }
        let mut own = 0;
        let mut place = first;
        let mut rest = cards;
        while let Some((_, following)) = next_subroutine(rest) {
            let (instructions, end) = self.section(own, Part::Body, following, place)?;
            let level = levels[own as usize];
            rows.push(Subroutine {
                level,
                instructions,
            })?;
            own += 1;
            place = end;
            rest = following;
        }
        Ok(rows)
    }
}
