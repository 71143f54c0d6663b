//! F18: what is wrong with the data of a table.

ghost use Rattle.std.specs.Prelude.{◌≡◌, ◌≤◌, ◌*◌, List, is_some, IsTrue};
ghost use Rattle.rpg_cards.specs.Names.{tables_on};
ghost use Rattle.rpg_cards.specs.declared.spec_card.SpecCard.{SpecCard};
ghost use Rattle.rpg_faults_data.specs.Causes as causes;
ghost use Rattle.rpg_faults_data.specs.Data as rules;
ghost use Rattle.rpg_faults_data.specs.Decks.{AreDecks};

use crate::data::{data_cards, data_columns, has_forms, has_table};
use crate::decks::Decks;
use crate::layout::Layout;
use crate::wrong_entry::{EntryCause, first_wrong};
use rpg_card_index::IndexedCards;
use rpg_cards::SpecCard;
use rpg_sheet_specs::{DataSpec, ExtensionSpec, Spec};

/// The cards of data that this many entries need.
#[derive(Clone, Copy)]
pub struct Need {
    pub entries: u16,
    pub per_card: u16,
    pub cards: u16,
}

/// What is wrong with the data of a table.
#[derive(Drop)]
pub enum DataCause {
    /// There is data, but the E card has no entries per card.
    NoData,
    /// No `**` card is left for the E card, which has 0 entries per card.
    NoDeck,
    /// No `**` card is left for the E card.
    Missing(Need),
    /// The E card has 0 entries per card.
    NonePerCard,
    /// The entries of a card, of this many columns each, don't fit on it.
    TooWide { per_card: u16, width: u32 },
    /// The number of cards differs from what is needed.
    OtherCards { need: Need, there: usize },
    /// An entry is wrong.
    Entry(EntryCause),
    /// The number of this `**` card, from 1, and how many E cards want data.
    Spare { deck: usize, wanted: usize },
}

/// F18: what is wrong with the data of an E card, or the `**` card of data that no E card expects.
pub fn data_cause(
    source: &IndexedCards,
    decks: &Decks,
    before: &[SpecCard],
    card: &SpecCard,
) -> Option<DataCause>
    requires { AreDecks source.now before.now decks.now }
    ensures cause { result ≡ causes.data_cause source.now before.now card.now }
    ensures rule { is_some result ≡ rules.breaks_data source.now before.now card.now }
{
    of_card(*decks, card)
}

fn of_card(decks: Decks, card: &SpecCard) -> Option<DataCause>
    ensures { (cards before : List SpecCard) → AreDecks cards before decks.entry → result ≡ causes.data_cause cards before card.now }
{
    match &card.spec {
        Spec::Extension(extension) => of_extension(decks, extension),
        Spec::Data(DataSpec::Begin) => of_begin(decks),
        _ => None,
    }
}

fn of_extension(decks: Decks, extension: &ExtensionSpec) -> Option<DataCause>
    ensures { (cards before : List SpecCard) → AreDecks cards before decks.entry → result ≡ causes.of_extension cards before extension.now extension.now.entries_per_card }
{
    match extension.entries_per_card {
        None => if has_table(extension) {
            Some(DataCause::NoData)
        } else {
            None
        },
        Some(per_card) => match decks.next() {
            None => Some(missing(extension, per_card)),
            Some(following) => of_after(extension, per_card, following),
        },
    }
}

fn missing(extension: &ExtensionSpec, per_card: u16) -> DataCause
    ensures { result ≡ causes.missing_deck extension.now per_card }
{
    if per_card == 0 {
        DataCause::NoDeck
    } else {
        DataCause::Missing(need_of(extension, per_card))
    }
}

fn need_of(extension: &ExtensionSpec, per_card: u16) -> Need
    requires { 1 ≤ per_card }
    ensures { result ≡ causes.need_of extension.now per_card }
{
    Need {
        entries: extension.entries,
        per_card,
        cards: extension.entries.div_ceil(per_card),
    }
}

fn of_after(extension: &ExtensionSpec, per_card: u16, following: &[SpecCard]) -> Option<DataCause>
    ensures { result ≡ causes.of_after extension.now per_card following.now }
{
    if has_forms(extension) {
        of_deck(extension, per_card, following)
    } else {
        None
    }
}

#[tactic(auto, using(crate::proofs::DataRule::length_deck))]
fn of_deck(extension: &ExtensionSpec, per_card: u16, following: &[SpecCard]) -> Option<DataCause>
    requires { IsTrue (rules.has_forms extension.now) }
    ensures { result ≡ causes.of_deck extension.now per_card (causes.deck_cards following.now) }
{
    if per_card == 0 {
        return Some(DataCause::NonePerCard);
    }
    let width = data_columns(extension);
    if per_card as u32 * width > 80 {
        return Some(DataCause::TooWide { per_card, width });
    }
    let there = data_cards(following);
    let need = need_of(extension, per_card);
    if there != need.cards as usize {
        return Some(DataCause::OtherCards { need, there });
    }
    let entry = of_tables(extension, per_card as usize, width as usize, following)?;
    Some(DataCause::Entry(entry))
}

/// Returns the first wrong entry of the card's tables.
fn of_tables(
    extension: &ExtensionSpec,
    per_card: usize,
    width: usize,
    deck: &[SpecCard],
) -> Option<EntryCause>
    requires forms { IsTrue (rules.has_forms extension.now) }
    requires width { width ≡ rules.data_columns extension.now }
    requires fits { per_card * width ≤ 80 }
    ensures { result ≡ causes.of_tables extension.now per_card (causes.deck_cards deck.now) 0 (tables_on extension.now) }
{
    let entries = extension.entries as usize;
    let layout = Layout {
        per_card,
        width,
        from: 0,
        length: extension.table.length as usize,
    };
    let found = first_wrong(&extension.table, entries, layout, deck);
    if found.is_some() {
        return found;
    }
    match &extension.alternating {
        None => None,
        Some(table) => {
            let layout = Layout {
                per_card,
                width,
                from: layout.length,
                length: table.length as usize,
            };
            first_wrong(table, entries, layout, deck)
        }
    }
}

/// Returns the cause for data that no E card expects.
fn of_begin(decks: Decks) -> Option<DataCause>
    ensures { (cards before : List SpecCard) → AreDecks cards before decks.entry → result ≡ causes.of_begin cards before }
{
    let wanted = decks.wanted;
    let begun = usize::from(decks.begun);
    if wanted <= begun {
        let deck = begun + 1;
        Some(DataCause::Spare { deck, wanted })
    } else {
        None
    }
}
