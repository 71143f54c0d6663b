//! The warnings of a source, and whether they reject it.

ghost use Rattle.std.specs.Prelude.{◌≡◌, IfErr, OnOk, find};
ghost use Rattle.rpg_cli_warnings.specs.Warned.{IsDenied, PassesWarnings, is_denied};

use crate::messages::warning_diagnostics;
use crate::warnings::{has_none, wanted_warnings};
use rpg_cli_answers::{Answer, Listener, tell_all};
use rpg_cli_diagnostics::FileName;
use rpg_cli_values::WarningCodes;
use rpg_cli_words::WarningArguments;
use rpg_faults::{FaultlessCards, SourceFault, faultless_cards};
use rpg_warnings_lines::Warning;
use std::alloc::Global;

/// Whether the code of a warning is denied.
#[tactic(auto, unfolding(crate::specs::Warned::is_denied))]
fn has_denied(denied: WarningCodes, warning: &Warning) -> bool
    ensures { result ≡ is_denied denied warning.now }
{
    denied.has(warning.kind.code())
}

/// Returns the first warning whose code is denied.
fn first_denied(denied: WarningCodes, warnings: &[Warning]) -> Option<Warning>
    ensures { result ≡ find (is_denied denied) warnings.now }
{
    for warning in warnings {
        if has_denied(denied, warning) {
            return Some(*warning);
        }
    }
    None
}

/// Rejects a source for the first of these warnings that the arguments deny. Mostly they deny no code.
fn judged(arguments: WarningArguments, warnings: &[Warning]) -> Result<(), Answer>
    ensures ok { OnOk result (PassesWarnings arguments.denied warnings.now) }
    ensures err { IfErr result (λ answer. IsDenied answer arguments.denied warnings.now) }
{
    if has_none(arguments.denied) {
        return Ok(());
    }
    match first_denied(arguments.denied, warnings) {
        None => Ok(()),
        Some(warning) => Err(Answer::Denied {
            card: warning.card,
            code: warning.kind.code(),
        }),
    }
}

/// Reports the warnings of a source without faults, given its text, and rejects it if it has one and the arguments deny it.
///
/// If memory runs out while looking for them, the source is rejected only if the arguments deny warnings.
pub fn judge_warnings<L: Listener>(
    alloc: Global,
    file: FileName<'_>,
    text: &[u8],
    source: FaultlessCards,
    arguments: WarningArguments,
    listener: &mut L,
) -> Result<(), Answer> {
    let (cards, index) = source.into_parts();
    match wanted_warnings(alloc, text, &index.over(&cards), arguments.allowed) {
        Ok(warnings) => {
            let told = warning_diagnostics(alloc, file, text, &warnings, arguments.most);
            tell_all(listener, &told);
            judged(arguments, &warnings)
        }
        Err(_) if !arguments.denied.is_empty() => Err(Answer::NoMemory),
        Err(_) => Ok(()),
    }
}

/// Rejects a source that has a warning, if the arguments deny it, and reports its warnings. Otherwise they aren't reported. A source with
/// a fault has none.
pub fn deny_warnings<L: Listener>(
    alloc: Global,
    file: FileName<'_>,
    source: &[u8],
    arguments: WarningArguments,
    listener: &mut L,
) -> Result<(), Answer> {
    if arguments.denied.is_empty() {
        return Ok(());
    }
    match faultless_cards(alloc, source) {
        Ok(faultless) => judge_warnings(alloc, file, source, faultless, arguments, listener),
        Err(SourceFault::NoMemory) => Err(Answer::NoMemory),
        Err(_) => Ok(()),
    }
}
