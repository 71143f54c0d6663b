//! All warnings of a source.

ghost use Rattle.std.specs.Prelude.{◌≡◌, IfOk, filter, not};
ghost use Rattle.std.specs.List.{list_all};
ghost use Rattle.std.specs.List.Sorted.{IsPermutation};
ghost use Rattle.std.specs.Str.Lines.{lines};
ghost use Rattle.rpg_cli_values.specs.Codes.{has};
ghost use Rattle.rpg_cli_warnings.specs.Warnings as warned;

use crate::devices::put_devices;
use crate::digits::put_shorter;
use crate::files::put_files;
use crate::halts::put_halts;
use crate::indicators::put_indicators;
use rpg_card_index::IndexedCards;
use rpg_cli_values::WarningCode::{
    W1, W2, W3, W4, W5, W6, W7, W8, W9, W10, W11, W12, W13, W14, W15,
};
use rpg_cli_values::{WarningCode, WarningCodes};
use rpg_warnings_lines::{Warning, put_line_warnings};
use std::alloc::{AllocError, Global};

/// The greatest number of an indicator.
const LAST_INDICATOR: u8 = 129;

/// All codes.
const CODES: [WarningCode; 15] = [
    W1, W2, W3, W4, W5, W6, W7, W8, W9, W10, W11, W12, W13, W14, W15,
];

/// Returns all warnings of a source without faults, given its text: by indicator, then by card those about lines and results, devices,
/// files, results that are too short, and halts.
pub fn source_warnings(
    alloc: Global,
    text: &[u8],
    source: &IndexedCards,
) -> Result<Vec<Warning>, AllocError>
    ensures { IfOk result (λ warnings. warnings.items ≡ warned.warnings_of (lines text.now) source.now) }
{
    let mut warnings = Vec::with_capacity(alloc, source.as_slice().len())?;
    put_indicators(&mut warnings, source.as_slice(), LAST_INDICATOR)?;
    put_line_warnings(alloc, &mut warnings, source)?;
    put_devices(&mut warnings, text, source.as_slice())?;
    put_files(&mut warnings, source.as_slice())?;
    put_shorter(&mut warnings, source)?;
    put_halts(&mut warnings, source.as_slice())?;
    Ok(warnings)
}

/// Whether a set has no code.
pub(crate) fn has_none(codes: WarningCodes) -> bool
    ensures { result ≡ list_all (λ code. not (has codes code)) CODES }
{
    CODES.iter().all(|code| !codes.has(*code))
}

/// Whether the code of a warning isn't allowed.
#[tactic(auto, unfolding(crate::specs::Warnings::is_wanted))]
fn is_wanted(warning: &Warning, allowed: WarningCodes) -> bool
    ensures { result ≡ warned.is_wanted allowed warning.now }
{
    !allowed.has(warning.kind.code())
}

/// The warnings whose codes aren't allowed. Mostly no code is allowed.
fn without(
    alloc: Global,
    warnings: Vec<Warning>,
    allowed: WarningCodes,
) -> Result<Vec<Warning>, AllocError>
    ensures { IfOk result (λ wanted. wanted.items ≡ filter (warned.is_wanted allowed) warnings.items) }
{
    if has_none(allowed) {
        return Ok(warnings);
    }
    let mut wanted = Vec::new(alloc);
    for warning in warnings.as_slice() {
        if is_wanted(warning, allowed) {
            wanted.push(*warning)?;
        }
    }
    Ok(wanted)
}

/// Returns the warnings of a source without faults, given its text, in the order of its cards, except those whose codes are allowed.
pub fn wanted_warnings(
    alloc: Global,
    text: &[u8],
    source: &IndexedCards,
    allowed: WarningCodes,
) -> Result<Vec<Warning>, AllocError>
    ensures { IfOk result (λ warnings. IsPermutation (warned.wanted_of allowed (lines text.now) source.now) warnings.items) }
{
    let warnings = source_warnings(alloc, text, source)?;
    let mut wanted = without(alloc, warnings, allowed)?;
    wanted.sort_by_key(|warning| warning.card)?;
    Ok(wanted)
}
