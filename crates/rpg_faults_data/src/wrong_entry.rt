//! F18: the first wrong entry of a table.

ghost use Rattle.std.specs.Prelude.{◌≡◌, ◌≤◌, List, None, length, ℕ, IfSome, option_copied};
ghost use Rattle.std.specs.List.{last_or};
ghost use Rattle.rpg_faults_data.specs.Causes as causes;
ghost use Rattle.rpg_faults_data.specs.Data as rules;
ghost use Rattle.rpg_faults_data.specs.Entries.{HasNumberSize, texts_on_card};

use crate::layout::Layout;
use crate::number::number_in;
use rpg_cards::SpecCard;
use rpg_decimal::compare_text;
use rpg_sheet_specs::{DataSpec, TableSpec, Word};
use rpg_symbols::Name;

/// What is wrong with an entry.
#[derive(Clone, Copy)]
pub enum EntryFault {
    NoNumber,
    /// It is lower than the entry before it.
    Lower,
}

/// An entry that is wrong.
#[derive(Drop)]
pub struct EntryCause {
    /// The table or the array.
    pub name: Name,
    /// From 1.
    pub number: usize,
    /// The number of its data card.
    pub card: u16,
    /// Its first column there.
    pub column: usize,
    pub length: u16,
    pub fault: EntryFault,
}

/// Returns the first wrong one of `entries` entries of a table, on the cards of its deck.
pub(crate) fn first_wrong(
    table: &TableSpec,
    entries: usize,
    layout: Layout,
    deck: &[SpecCard],
) -> Option<EntryCause>
    requires few { entries ≤ 65535 }
    requires table { HasNumberSize table.now.decimals layout.length }
    ensures { result ≡ causes.first_wrong table.now 1 None (causes.on_deck layout entries deck.now) }
{
    let mut left = entries;
    let mut first = 1;
    let mut before = None;
    for card in deck {
        match card.data() {
            None => {}
            Some(DataSpec::Begin) => return None,
            Some(DataSpec::Card(data)) => {
                let text = data.as_slice();
                let count = left.min(layout.per_card);
                let found = wrong_on(table, first, before, count, layout, card.number, text);
                if found.is_some() {
                    return found;
                }
                before = last_entry(before, count, layout, text);
                first += count;
                left -= count;
            }
        }
    }
    None
}

/// Returns the first wrong one of `count` entries of a card; `first` is the number in the table of the first.
fn wrong_on(
    table: &TableSpec,
    first: usize,
    before: Option<&[u8]>,
    count: usize,
    layout: Layout,
    card: u16,
    text: &[u8],
) -> Option<EntryCause>
    requires text { length text.now ≡ 80 }
    requires first { first ≤ 65536 }
    requires count { count ≤ layout.per_card }
    requires few { count ≤ 65535 }
    requires table { HasNumberSize table.now.decimals layout.length }
    requires before { IfSome before (λ b. length b.now ≡ layout.length) }
    ensures { result ≡ causes.first_wrong table.now first (option_copied before.entry) (causes.entries_on_card layout (causes.data_card card text.now) count) }
{
    let mut before = before;
    for i in 0..count {
        let entry = layout.entry(text, i);
        if let Some(fault) = fault_of(table, before, entry) {
            let column = i * layout.width + layout.from + 1;
            return Some(cause_of(table, first + i, card, column, fault));
        }
        before = Some(entry);
    }
    None
}

fn cause_of(
    table: &TableSpec,
    number: usize,
    card: u16,
    column: usize,
    fault: EntryFault,
) -> EntryCause
    ensures { (text : List ℕ) → result ≡ causes.entry_cause table.now number (causes.placed_entry_at card column text) fault }
{
    EntryCause {
        name: Word::new(table.name.as_slice()),
        number,
        card,
        column,
        length: table.length,
        fault,
    }
}

/// Returns the last of `count` entries of a card, or the one before them if there are none.
fn last_entry<'a>(
    before: Option<&'a [u8]>,
    count: usize,
    layout: Layout,
    card: &'a [u8],
) -> Option<&'a [u8]>
    requires card { length card.now ≡ 80 }
    requires count { count ≤ layout.per_card }
    requires before { IfSome before (λ b. length b.now ≡ layout.length) }
    ensures last { option_copied result ≡ last_or (option_copied before.entry) (texts_on_card layout card.now count) }
    ensures length { IfSome result (λ b. length b.now ≡ layout.length) }
{
    if count == 0 {
        return before;
    }
    Some(layout.entry(card, count - 1))
}

/// Returns what is wrong with an entry, given the one before it.
fn fault_of(table: &TableSpec, before: Option<&[u8]>, entry: &[u8]) -> Option<EntryFault>
    requires entry { HasNumberSize table.now.decimals (length entry.now) }
    requires before { IfSome before (λ b. length b.now ≡ length entry.now) }
    ensures { result ≡ causes.entry_fault table.now (option_copied before.entry) entry.now }
{
    if is_bad(table.decimals, entry) {
        return Some(EntryFault::NoNumber);
    }
    match before {
        Some(before) if table.ascending && is_lower(table.decimals, entry, before) => {
            Some(EntryFault::Lower)
        }
        _ => None,
    }
}

/// Whether an entry should be a number but isn't.
fn is_bad(decimals: Option<u8>, entry: &[u8]) -> bool
    requires { HasNumberSize decimals (length entry.now) }
    ensures { result ≡ rules.is_bad decimals entry.now }
{
    decimals.is_some() && number_in(entry).is_none()
}

/// Whether an entry is lower than another: a text by the collating sequence, a number by its value.
fn is_lower(decimals: Option<u8>, entry: &[u8], other: &[u8]) -> bool
    requires entry { HasNumberSize decimals (length entry.now) }
    requires other { HasNumberSize decimals (length other.now) }
    ensures { result ≡ rules.is_lower decimals entry.now other.now }
{
    if decimals.is_none() {
        return compare_text(entry, other).is_lt();
    }
    match (number_in(entry), number_in(other)) {
        (Some(entry), Some(other)) => entry < other,
        _ => false,
    }
}
