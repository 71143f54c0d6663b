//! Sections with what is needed to check their instructions, and where control may go from them.

ghost use Rattle.std.specs.Prelude.{◌≡◌, nat_lt};
ghost use Rattle.rpg_program.specs.Spans.{IsSpan};
ghost use Rattle.rpg_program.specs.Object.{seen};
ghost use Rattle.rpg_program.specs.Sections as sections;
ghost use Rattle.rpg_program.specs.declared.section.Section.TheVariants as section_names;

use crate::rows::Rows;
use crate::section::Section;

/// A section with its level, its first place, and its end.
#[derive(Clone, Copy)]
pub struct Span {
    pub section: Section,
    pub level: u16,
    pub first: usize,
    pub end: usize,
}

fn has_end(section: Section) -> bool
    ensures { result ≡ sections.has_end section }
{
    match section {
        Section::Detail | Section::Total => true,
        Section::Subroutine(_) => false,
    }
}

/// Whether a place is in the section, or at the end of detail or total calculations.
#[tactic(auto, unfolding(crate::specs::Sections::is_place))]
pub fn is_place(rows: &Rows, span: Span, place: usize) -> bool
    requires { IsSpan (seen rows.now) span }
    ensures { result ≡ sections.is_place (seen rows.now) (record { section = span.section; number = place }) }
{
    let _rows = rows;
    span.first <= place && (place < span.end || (has_end(span.section) && place == span.end))
}

/// Returns the level of a subroutine, 0 if it doesn't exist.
fn level_of(rows: &Rows, subroutine: u16) -> u16
    ensures { result ≡ sections.level_of (seen rows.now) (section_names.Subroutine subroutine) }
{
    match rows.subroutines.get(usize::from(subroutine)) {
        None => 0,
        Some(subroutine) => subroutine.level,
    }
}

/// Whether a subroutine's level is above the section's.
pub fn is_higher(rows: &Rows, span: Span, subroutine: u16) -> bool
    requires { IsSpan (seen rows.now) span }
    ensures { result ≡ nat_lt (sections.level_of (seen rows.now) span.section) (sections.level_of (seen rows.now) (section_names.Subroutine subroutine)) }
{
    span.level < level_of(rows, subroutine)
}
