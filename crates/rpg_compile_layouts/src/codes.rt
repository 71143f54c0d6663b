//! The codes of record types.

ghost use Rattle.std.specs.Prelude.{◌≡◌, ◌++◌, All, IfOk, OnOk};
ghost use Rattle.std.specs.Option.{option_map, option_to_list};
ghost use Rattle.rpg_compile_layouts.specs.Parts.{codes_after};
ghost use Rattle.rpg_program.specs.Kept.{IsCodeRow};
ghost use Rattle.rpg_compile_program.specs.Types as types;

use rpg_cards::SpecCard;
use rpg_program::input::RecordCode;
use rpg_sheet_specs::{InputSpec, Three};
use std::alloc::{AllocError, Global};

/// Returns the codes of the type card, then those of its AND cards.
pub(crate) fn codes_of(
    alloc: Global,
    first: Three<Option<rpg_sheet_specs::RecordCode>>,
    following: &[SpecCard],
) -> Result<Vec<RecordCode>, AllocError>
    ensures codes { IfOk result (λ v. v.items ≡ types.codes_of first ++ codes_after following.now) }
    ensures kept { IfOk result (λ v. All IsCodeRow v.items) }
{
    let room = if first.first.is_some() { 6 } else { 0 };
    let mut codes = Vec::with_capacity(alloc, room)?;
    push_codes(&mut codes, first)?;
    push_further(&mut codes, following)?;
    Ok(codes)
}

/// Appends the codes of AND cards, up to the next type card.
#[tactic(auto, using(crate::proofs::Followers::next_input))]
fn push_further(codes: &mut Vec<RecordCode>, following: &[SpecCard]) -> Result<(), AllocError>
    requires { All IsCodeRow codes.old.items }
    ensures codes { OnOk result (codes.new.items ≡ codes.old.items ++ codes_after following.now) }
    ensures kept { OnOk result (All IsCodeRow codes.new.items) }
{
    for card in following {
        let further = match card.input() {
            Some(InputSpec::Type(_)) => return Ok(()),
            Some(InputSpec::And(further)) => further,
            Some(InputSpec::Field(_)) | None => continue,
        };
        push_codes(codes, *further)?;
    }
    Ok(())
}

/// Appends the codes that are there.
fn push_codes(
    codes: &mut Vec<RecordCode>,
    more: Three<Option<rpg_sheet_specs::RecordCode>>,
) -> Result<(), AllocError>
    requires { All IsCodeRow codes.old.items }
    ensures codes { OnOk result (codes.new.items ≡ codes.old.items ++ types.codes_of more) }
    ensures kept { OnOk result (All IsCodeRow codes.new.items) }
{
    push_code(codes, more.first)?;
    push_code(codes, more.second)?;
    push_code(codes, more.third)
}

fn push_code(
    codes: &mut Vec<RecordCode>,
    code: Option<rpg_sheet_specs::RecordCode>,
) -> Result<(), AllocError>
    requires { All IsCodeRow codes.old.items }
    ensures codes { OnOk result (codes.new.items ≡ codes.old.items ++ option_to_list (option_map types.record_code_of code)) }
    ensures kept { OnOk result (All IsCodeRow codes.new.items) }
{
    if let Some(code) = code {
        codes.push(code_of(code))?;
    }
    Ok(())
}

fn code_of(code: rpg_sheet_specs::RecordCode) -> RecordCode
    ensures value { result ≡ types.record_code_of code }
    ensures kept { IsCodeRow result }
{
    RecordCode {
        position: code.position,
        is_negated: code.negated,
        character: code.character.number(),
    }
}
