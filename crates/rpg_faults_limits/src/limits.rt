//! F6: limits that are exceeded.

ghost use Rattle.std.specs.Prelude.{◌≡◌, ◌∷◌, ◌++◌, ◌≤◌, is_some, length, option_and_then};
ghost use Rattle.rpg_cards.specs.Cards.{extension_on};
ghost use Rattle.rpg_cards.specs.Groups.{input_role, open_group, output_role};
ghost use Rattle.rpg_faults_limits.specs.Sheets.{AreSheets};
ghost use Rattle.rpg_faults_limits.specs.Causes as causes;
ghost use Rattle.rpg_faults_limits.specs.Limits as rules;
ghost use Rattle.rpg_faults_limits.specs.State.{AreCalculations, AreItemsOrKept, AreLimits, HasFewOnLine, HasFewOnType, IsOpenLine, IsOpenType};

use crate::calculations::Calculations;
use crate::items::Items;
use crate::lines::OpenLine;
use crate::measures::{Limit, LimitCause, counted, first_past};
use crate::sheets::Sheets;
use crate::state::Limits;
use crate::storage::{all_names, constants_in, names_in};
use crate::types::OpenType;
use rpg_card_index::IndexedCards;
use rpg_cards::SpecCard;

/// F6: which limit is exceeded with the card.
#[tactic(auto, using(crate::proofs::LimitRule::limit_rule))]
pub fn limit_cause(
    source: &IndexedCards,
    sheets: &Sheets,
    limits: &Limits,
    before: &[SpecCard],
    card: &SpecCard,
    after: &[SpecCard],
) -> Option<LimitCause>
    requires split { source.now ≡ before.now ++ card.now ∷ after.now }
    requires few { length source.now ≤ 2000 }
    requires sheets { AreSheets source.now before.now sheets.now }
    requires limits { AreLimits source.now before.now (card.now ∷ after.now) limits.now }
    ensures cause { result ≡ causes.limit_cause source.now before.now card.now after.now }
    ensures rule { is_some result ≡ rules.passes_limit source.now before.now card.now after.now }
{
    passed(source, sheets, limits, before, card, after)
}

#[tactic(auto, unfolding(crate::specs::Causes::limit_cause))]
fn passed(
    source: &IndexedCards,
    sheets: &Sheets,
    limits: &Limits,
    before: &[SpecCard],
    card: &SpecCard,
    after: &[SpecCard],
) -> Option<LimitCause>
    requires split { source.now ≡ before.now ++ card.now ∷ after.now }
    requires few { length source.now ≤ 2000 }
    requires sheets { AreSheets source.now before.now sheets.now }
    requires limits { AreLimits source.now before.now (card.now ∷ after.now) limits.now }
    ensures { result ≡ causes.limit_cause source.now before.now card.now after.now }
{
    let entries = of_entries(card);
    if entries.is_some() {
        return entries;
    }
    let types = on_types(source, sheets, limits.open_type, before, card);
    if types.is_some() {
        return types;
    }
    let lines = on_lines(source, sheets, limits.open_line, before, card);
    if lines.is_some() {
        return lines;
    }
    let calculations = on_calculations(limits.calculations, before, card, after);
    if calculations.is_some() {
        return calculations;
    }
    on_storage(source, limits.items, before, card, after)
}

/// Checks the number of entries.
fn of_entries(card: &SpecCard) -> Option<LimitCause>
    ensures { result ≡ option_and_then causes.of_entries (extension_on card.now.spec) }
{
    let entries = card.extension()?.entries;
    if 1 <= entries && entries <= 9999 {
        return None;
    }
    Some(LimitCause::Entries(entries))
}

/// Checks record types, and what is on the cards of one. Only an I card changes these.
fn on_types(
    source: &IndexedCards,
    sheets: &Sheets,
    open_type: OpenType,
    before: &[SpecCard],
    card: &SpecCard,
) -> Option<LimitCause>
    requires few_cards { length before.now ≤ 2000 }
    requires sheets { AreSheets source.now before.now sheets.now }
    requires open { IsOpenType (open_group input_role before.now) open_type }
    requires few { HasFewOnType (length before.now) open_type }
    ensures { result ≡ causes.on_types before.now card.now }
{
    let Some(_) = card.input() else {
        return None;
    };
    let number = sheets.types.number as u64;
    let number_with = sheets.with(source, before, card).types.number as u64;
    let mut with = open_type;
    with.pass(before, card);
    first_past(&[
        counted(Limit::RecordTypes, 200, number, number_with),
        counted(Limit::Codes, 100, open_type.codes, with.codes),
        counted(Limit::ControlFields, 100, open_type.levels, with.levels),
        counted(Limit::InputFields, 500, open_type.fields, with.fields),
    ])
}

/// Checks lines, and what is on the cards of one. Only an O card changes these.
fn on_lines(
    source: &IndexedCards,
    sheets: &Sheets,
    line: OpenLine,
    before: &[SpecCard],
    card: &SpecCard,
) -> Option<LimitCause>
    requires few_cards { length before.now ≤ 2000 }
    requires sheets { AreSheets source.now before.now sheets.now }
    requires open { IsOpenLine (open_group output_role before.now) line }
    requires few { HasFewOnLine (length before.now) line }
    ensures { result ≡ causes.on_lines before.now card.now }
{
    let Some(_) = card.output() else {
        return None;
    };
    let number = sheets.lines.number as u64;
    let number_with = sheets.with(source, before, card).lines.number as u64;
    let mut with = line;
    with.pass(before, card);
    first_past(&[
        counted(Limit::Lines, 1000, number, number_with),
        counted(
            Limit::Alternatives,
            50,
            line.alternatives,
            with.alternatives,
        ),
        counted(Limit::Conditions, 60, line.conditions, with.conditions),
        counted(Limit::OutputFields, 200, line.fields, with.fields),
    ])
}

/// Checks calculation cards and subroutines.
fn on_calculations(
    calculations: Calculations,
    before: &[SpecCard],
    card: &SpecCard,
    after: &[SpecCard],
) -> Option<LimitCause>
    requires few { length before.now ≤ 2000 }
    requires calculations { AreCalculations before.now (card.now ∷ after.now) calculations }
    ensures { result ≡ causes.on_calculations before.now card.now after.now }
{
    let with = calculations.with(before, card, after);
    let cards = counted(Limit::Calculations, 1000, calculations.cards, with.cards).cause();
    if cards.is_some() {
        return cards;
    }
    if calculations.subroutines == 100 && calculations.begins(before, card, after) {
        let limit = Limit::Subroutines;
        return Some(LimitCause::Passed { limit, count: 101 });
    }
    None
}

/// Checks names and constants, and their bytes. If those of the whole source are within the limits, no card exceeds one.
fn on_storage(
    source: &IndexedCards,
    items: Option<Items>,
    before: &[SpecCard],
    card: &SpecCard,
    after: &[SpecCard],
) -> Option<LimitCause>
    requires split { source.now ≡ before.now ++ card.now ∷ after.now }
    requires few { length source.now ≤ 2000 }
    requires items { AreItemsOrKept source.now before.now items }
    ensures { result ≡ causes.on_storage source.now before.now card.now }
{
    let Some(items) = items else {
        return None;
    };
    let front = source.up_to(before, card, after);
    let with = items.with(before, card);
    let all = all_names(source);
    let names = names_in(source, items.names, before);
    let names_with = names_in(source, with.names, front);
    let constants = constants_in(source, items.constants, before);
    let constants_with = constants_in(source, with.constants, front);
    let bytes = all.bytes + constants.bytes;
    let bytes_with = all.bytes + constants_with.bytes;
    let fields = all.number + constants.number;
    let fields_with = all.number + constants_with.number;
    first_past(&[
        counted(Limit::Names, 4000, names.number, names_with.number),
        counted(Limit::NameBytes, 65535, names.bytes, names_with.bytes),
        counted(Limit::Bytes, 65535, bytes, bytes_with),
        counted(Limit::Fields, 4000, fields, fields_with),
    ])
}
