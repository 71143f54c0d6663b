//! Reads the bytes of a source to the meaning of its cards.

ghost use Rattle.std.specs.Prelude.{◌≡◌, ℕ, ◌≤◌, ◌||◌, ◌∷◌, ◌++◌, List, [], None, Some, map, nat_lt, OnOk, IfOk, IfErr};
ghost use Rattle.std.specs.Option.{option_or};
ghost use Rattle.rpg_sheet.specs.Seen.{HasSeen, code_seen, sheet_code};
ghost use Rattle.rpg_sheet.specs.declared.sheet.SheetCode.TheVariants.{S6};
ghost use Rattle.rpg_sheet.specs.Sheet as sheets;
ghost use Rattle.rpg_sheet_specs.specs.Cards.{card_of};
ghost use Rattle.rpg_sheet_specs.specs.Specs.{spec_of, specs_of};

use crate::card::{Card, columns_of};
use crate::form::{begins_data, ends_source, sheet};
use crate::sheet::{CardFault, Cards, SheetCode, SheetFault, read, sheet_place};
use rpg_sheet_specs::Spec;
use rpg_text::{first_line, has_only_characters};
use std::alloc::Global;

/// The most cards of a source.
pub const MOST_CARDS: u16 = 2000;

/// The state after the earlier lines: their number, the place of the latest sheet, and whether data has begun.
#[derive(Clone, Copy)]
pub(crate) struct Earlier {
    pub count: u16,
    pub latest: u8,
    pub data_begun: bool,
}

/// The state before the first line.
pub(crate) const NO_LINES: Earlier = Earlier {
    count: 0,
    latest: 0,
    data_begun: false,
};

impl Earlier {
    /// Returns the state after a line with these columns.
    #[inline(always)]
    pub(crate) fn with(self, columns: &[u8; 80]) -> Self
        requires { self.count ≤ 2000 }
        ensures { (lines : List (List ℕ)) → (line : List ℕ) → columns.now ≡ card_of line → HasSeen self lines → HasSeen result (lines ++ line ∷ []) }
    {
        Earlier {
            count: self.count + 1,
            latest: latest_with(self.latest, columns),
            data_begun: self.data_begun | begins_data(columns),
        }
    }
}

/// Returns the place of the latest sheet after a card with these columns.
fn latest_with(latest: u8, columns: &[u8; 80]) -> u8
    ensures { (n : ℕ) → nat_lt n result ≡ (nat_lt n latest || sheets.comes_after n columns.now) }
{
    match sheet(columns, false) {
        Some(sheet) => latest.max(sheet_place(sheet)),
        None => latest,
    }
}

/// Reads the cards of a source, or returns the first card that has a fault, with its lowest code. Nothing is read after the card `/*`. If
/// memory ran out, `NoMemory` is returned instead of any later fault.
pub fn cards(alloc: Global, text: &[u8]) -> Result<Cards, SheetFault>
    ensures cards { IfOk result (λ cards. cards ≡ specs_of (map card_of (sheets.source text.now))) }
    ensures faultless { OnOk result (sheets.first_sheet_fault (sheets.source text.now) ≡ None) }
    ensures fault { IfErr result (λ fault. sheets.IsSheetRefusal fault text.now) }
{
    let mut specs = Vec::with_capacity(alloc, room_for(text))?;
    let mut earlier = NO_LINES;
    let mut rest = text;
    while !rest.is_empty() {
        let (line, more) = first_line(rest);
        let columns = columns_of(line);
        let mut spec = None;
        match checked(&mut spec, earlier, line, &columns) {
            Ok(()) => {
                specs.reserve(1)?;
                specs.push_reserved(spec);
            }
            Err(CardFault { code, columns }) => {
                return Err(SheetFault::At {
                    card: earlier.count + 1,
                    code,
                    columns,
                });
            }
        }
        if ends_source(&columns) {
            return Ok(Cards::new(specs));
        }
        earlier = earlier.with(&columns);
        rest = more;
    }
    Ok(Cards::new(specs))
}

/// Returns the initial capacity, enough for cards of 40 characters or more. A card takes 240 bytes there, so moving them is costly.
fn room_for(text: &[u8]) -> usize {
    (text.len() / 40).min(usize::from(MOST_CARDS))
}

/// Reads the line after `earlier`, with these columns, into `spec`, or returns its fault.
pub(crate) fn checked(
    spec: &mut Option<Spec>,
    earlier: Earlier,
    line: &[u8],
    columns: &[u8; 80],
) -> Result<(), CardFault>
    requires { columns.now ≡ card_of line.now }
    ensures spec { OnOk result (spec.new ≡ spec_of earlier.data_begun columns.now) }
    ensures valid { OnOk result (code_seen earlier.count earlier.latest earlier.data_begun line.now ≡ None) }
    ensures code { IfErr result (λ fault. code_seen earlier.count earlier.latest earlier.data_begun line.now ≡ Some fault.code) }
    ensures columns { IfErr result (λ fault. fault.columns ≡ sheets.sheet_fault_columns earlier.data_begun columns.now fault.code) }
{
    if line.len() > 80 {
        return Err(SheetCode::S1.into());
    }
    if !has_only_characters(columns) {
        return Err(SheetCode::S2.into());
    }
    let card = Card::of(columns);
    if earlier.count >= MOST_CARDS {
        return Err(past_last(&card, earlier.latest, earlier.data_begun));
    }
    read(spec, &card, earlier.latest, earlier.data_begun)
}

/// Returns the fault of card 2,001: that it is one too many, unless it can't be read.
fn past_last(card: &Card, latest: u8, data_begun: bool) -> CardFault
    ensures code { Some result.code ≡ option_or (sheet_code latest data_begun card.now) (Some S6) }
    ensures columns { result.columns ≡ sheets.sheet_fault_columns data_begun card.now result.code }
{
    let mut spec = None;
    match read(&mut spec, card, latest, data_begun) {
        Ok(()) => SheetCode::S6.into(),
        Err(fault) => fault,
    }
}
