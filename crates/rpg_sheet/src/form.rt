//! The sheets of a source, and which of them a card belongs to: from any 80 bytes, or from a card.

ghost use Rattle.std.specs.Prelude.{◌≡◌};
ghost use Rattle.rpg_sheet_specs.specs.Cards as cards;
ghost use Rattle.rpg_text.specs.Texts.{all_blank};

use crate::card::Card;
use rpg_sheet_specs::FormType;

pub(crate) fn ends_source(card: &[u8; 80]) -> bool
    ensures { result ≡ cards.ends_source card.now }
{
    &card[..3] == b"/* ".as_slice()
}

pub(crate) fn begins_data(card: &[u8; 80]) -> bool
    ensures { result ≡ cards.begins_data card.now }
{
    &card[..3] == b"** ".as_slice()
}

fn is_skipped(card: &[u8; 80]) -> bool
    ensures { result ≡ cards.is_skipped card.now }
{
    is_empty(card) || &card[6..7] == b"*".as_slice()
}

/// Whether all columns are blank. Nearly every card has a form type in column 6, so that column is tested first.
#[inline(always)]
#[tactic(auto, using(std::proofs::lemmas::List::Folds::list_all_at))]
fn is_empty(card: &[u8; 80]) -> bool
    ensures { result ≡ all_blank card.now }
{
    if card[5] != b' ' {
        return false;
    }
    rpg_sheet_values::has_only_blanks(card)
}

fn is_sheet(card: &[u8; 80], data_begun: bool) -> bool
    ensures { result ≡ cards.is_sheet data_begun card.now }
{
    !(data_begun || begins_data(card) || ends_source(card) || is_skipped(card))
}

fn form_type(card: &[u8; 80]) -> Option<FormType>
    ensures { result ≡ cards.form_type card.now }
{
    rpg_sheet_values::form_type_of(&card[5..6])
}

pub(crate) fn sheet(card: &[u8; 80], data_begun: bool) -> Option<FormType>
    ensures { result ≡ cards.sheet_of data_begun card.now }
{
    if !is_sheet(card, data_begun) {
        return None;
    }
    form_type(card)
}

impl Card {
    /// Whether it is the last card of its source.
    pub fn ends_source(&self) -> bool
        ensures { result ≡ cards.ends_source self.now }
    {
        ends_source(self.as_array())
    }

    /// Whether it begins data.
    pub fn begins_data(&self) -> bool
        ensures { result ≡ cards.begins_data self.now }
    {
        begins_data(self.as_array())
    }

    /// Whether it is blank or a comment.
    pub fn is_skipped(&self) -> bool
        ensures { result ≡ cards.is_skipped self.now }
    {
        is_skipped(self.as_array())
    }

    /// Whether it must have a form type. `data_begun` says whether an earlier card begins data.
    pub fn is_sheet(&self, data_begun: bool) -> bool
        ensures { result ≡ cards.is_sheet data_begun self.now }
    {
        is_sheet(self.as_array(), data_begun)
    }

    pub fn form_type(&self) -> Option<FormType>
        ensures { result ≡ cards.form_type self.now }
    {
        form_type(self.as_array())
    }

    /// Returns the sheet of the card; None if it is data, is skipped, or ends the source.
    pub fn sheet(&self, data_begun: bool) -> Option<FormType>
        ensures { result ≡ cards.sheet_of data_begun self.now }
    {
        sheet(self.as_array(), data_begun)
    }
}
