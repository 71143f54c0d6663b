//! The instruction at a place, and the first one that breaks a rule.

ghost use Rattle.std.specs.Prelude.{◌≡◌, ◌+◌, length, map, slice_get, IfSome};
ghost use Rattle.rpg_program.specs.Kept.{IsProgram};
ghost use Rattle.rpg_program.specs.Object.{seen, subroutine_row};
ghost use Rattle.rpg_program.specs.Spans.{IsSpan};
ghost use Rattle.rpg_verify.specs.Placed as words;
ghost use Rattle.rpg_verify_rules.specs.Least.{first_true};
ghost use Rattle.rpg_verify_rules.specs.Rules.{broken};
ghost use Rattle.rpg_verify_rules.specs.declared.rule.Rule.TheVariants as rule_names;

use rpg_program::operation::Instruction;
use rpg_program::rows::Rows;
use rpg_program::section::Section;
use rpg_program::spans::Span;
use rpg_verify_rules::PlaceRule;
use rpg_verify_rules::places::breaks;

/// An instruction with its section.
#[derive(Clone, Copy)]
pub struct Placed {
    pub span: Span,
    pub instruction: Instruction<u16>,
}

#[tactic(auto, using(crate::proofs::Walking::section_at))]
fn in_section(rows: &Rows, span: Span, code: &[Instruction<u16>], place: usize) -> Option<Placed>
    requires { IsSpan (seen rows.now) span }
    ensures placed { result ≡ slice_get (map (words.placed_in (seen rows.now) span.section) code.now) place }
    ensures span { IfSome result (λ x. IsSpan (seen rows.now) x.span) }
{
    let _rows = rows;
    Some(Placed {
        span,
        instruction: *code.get(place)?,
    })
}

fn in_subroutines(rows: &Rows, begin: usize, place: usize) -> Option<Placed>
    requires program { IsProgram (seen rows.now) }
    requires begin { begin ≡ length rows.now.detail.items + length rows.now.total.items }
    ensures placed { result ≡ slice_get (words.placed_in_subroutines (seen rows.now) 0 (map subroutine_row rows.now.subroutines.items)) place }
    ensures span { IfSome result (λ x. IsSpan (seen rows.now) x.span) }
{
    let mut first = begin;
    let mut rest = place;
    let mut number: u16 = 0;
    for subroutine in &rows.subroutines {
        let count = subroutine.instructions.len();
        let span = Span {
            section: Section::Subroutine(number),
            level: subroutine.level,
            first,
            end: first + count,
        };
        match in_section(rows, span, &subroutine.instructions, rest) {
            Some(placed) => return Some(placed),
            None => {}
        }
        rest = rest.saturating_sub(count);
        first += count;
        number += 1;
    }
    None
}

fn after_detail(rows: &Rows, place: usize) -> Option<Placed>
    requires { IsProgram (seen rows.now) }
    ensures placed { result ≡ slice_get (words.placed_after_detail (seen rows.now)) place }
    ensures span { IfSome result (λ x. IsSpan (seen rows.now) x.span) }
{
    let first = rows.detail.len();
    let total = rows.total.len();
    let span = Span {
        section: Section::Total,
        level: 0,
        first,
        end: first + total,
    };
    match in_section(rows, span, &rows.total, place) {
        Some(placed) => Some(placed),
        None => in_subroutines(rows, first + total, place.saturating_sub(total)),
    }
}

/// Returns the instruction at a place, counted through the whole program, with its section.
pub fn at_place(rows: &Rows, place: usize) -> Option<Placed>
    requires { IsProgram (seen rows.now) }
    ensures placed { result ≡ words.placed_instruction (seen rows.now) place }
    ensures span { IfSome result (λ x. IsSpan (seen rows.now) x.span) }
{
    let detail = rows.detail.len();
    let span = Span {
        section: Section::Detail,
        level: 0,
        first: 0,
        end: detail,
    };
    match in_section(rows, span, &rows.detail, place) {
        Some(placed) => Some(placed),
        None => after_detail(rows, place.saturating_sub(detail)),
    }
}

/// Returns the first place whose instruction breaks a rule.
pub(crate) fn first_place(rule: PlaceRule, rows: &Rows) -> Option<usize>
    requires { IsProgram (seen rows.now) }
    ensures { result ≡ first_true 0 (broken (seen rows.now) (rule_names.Place rule)) }
{
    let mut place = 0;
    while let Some(placed) = at_place(rows, place) {
        if breaks(rule, rows, placed.span, placed.instruction) {
            return Some(place);
        }
        place += 1;
    }
    None
}
