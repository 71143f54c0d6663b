//! The sheets of a source, and what can be wrong with its cards.

ghost use Rattle.std.specs.Prelude.{◌≡◌, ◌≤◌, length, None, Some, vec_len, OnOk, IfErr};
ghost use Rattle.rpg_sheet_specs.specs.Cards as cards;
ghost use Rattle.rpg_sheet_specs.specs.Specs.{data_spec_of, spec_of};
ghost use Rattle.rpg_sheet_specs.specs.declared.spec.Spec.TheVariants as specs;
ghost use Rattle.std.specs.Option.{option_map};
ghost use Rattle.rpg_sheet.specs.Codes as codes;
ghost use Rattle.rpg_sheet.specs.Seen.{IsCardFault, sheet_code};
ghost use Rattle.rpg_sheet.specs.declared.sheet.SheetCode.TheVariants.{S5};
ghost use Rattle.rpg_sheet.specs.declared.sheet.SheetFault.TheVariants.{NoMemory};

use crate::Card;
use rpg_sheet_specs::{ColumnFault, DataCard, DataSpec, FormType, Spec};
use std::alloc::AllocError;
use std::marker::Model;

/// Returns a sheet's place in the order of the sheets.
pub fn sheet_place(sheet: FormType) -> u8
    ensures value { result ≡ cards.sheet_place sheet }
    ensures few { result ≤ 6 }
{
    match sheet {
        FormType::Header => 0,
        FormType::File => 1,
        FormType::Extension => 2,
        FormType::Form => 3,
        FormType::Input => 4,
        FormType::Calculation => 5,
        FormType::Output => 6,
    }
}

/// What is wrong with a card.
#[derive(Clone, Copy)]
pub enum SheetCode {
    /// The card has more than 80 characters.
    S1 = 1,
    /// It has a byte that isn't a character.
    S2 = 2,
    /// Its form type is unknown.
    S3 = 3,
    /// Its form type comes before that of an earlier card.
    S4 = 4,
    /// Some columns have a bad value.
    S5 = 5,
    /// It is card 2,001.
    S6 = 6,
}

impl SheetCode {
    pub fn number(self) -> u8
        ensures { result ≡ codes.sheet_code_number self }
    {
        self as u8
    }

    /// Returns the letter S and the number.
    pub const fn text(self) -> &'static str
        ensures value { result.now ≡ codes.sheet_code_text self }
        ensures len { length result.now ≤ 4 }
    {
        match self {
            SheetCode::S1 => "S1",
            SheetCode::S2 => "S2",
            SheetCode::S3 => "S3",
            SheetCode::S4 => "S4",
            SheetCode::S5 => "S5",
            SheetCode::S6 => "S6",
        }
    }
}

/// What is wrong with a card, with S5 also in which columns.
#[derive(Clone, Copy)]
pub(crate) struct CardFault {
    pub code: SheetCode,
    pub columns: Option<ColumnFault>,
}

impl From<SheetCode> for CardFault {
    ghost from_gives = { λ code fault. (fault.code ≡ code) × (fault.columns ≡ None) };

    fn from(code: SheetCode) -> Self {
        let columns = None;
        CardFault { code, columns }
    }
}

impl From<ColumnFault> for CardFault {
    ghost from_gives = { λ columns fault. (fault.code ≡ S5) × (fault.columns ≡ Some columns) };

    fn from(columns: ColumnFault) -> Self {
        let code = SheetCode::S5;
        let columns = Some(columns);
        CardFault { code, columns }
    }
}

/// Why a source has no cards.
#[derive(Clone, Copy)]
pub enum SheetFault {
    /// Cards are numbered from 1. The columns are those of the leftmost bad value, with S5 only.
    At {
        card: u16,
        code: SheetCode,
        columns: Option<ColumnFault>,
    },
    NoMemory,
}

impl From<AllocError> for SheetFault {
    ghost from_gives = { λ _ fault. fault ≡ NoMemory };

    fn from(_: AllocError) -> Self {
        SheetFault::NoMemory
    }
}

/// The meaning of each card of a source without faults: card n at place n - 1. A skipped card and the one that ends the source have none.
#[derive(Drop)]
pub struct Cards {
    specs: Vec<Option<Spec>>,
}

impl Model for Cards {
    ghost use Rattle.std.specs.Prelude.{List, Option, vec_len, ◌≤◌};
    ghost use Rattle.rpg_sheet_specs.specs.declared.spec.Spec.{Spec};

    ghost Value = { List (Option Spec) };

    ghost view = { λ c. c.specs.items };

    ghost invariant = { λ c. vec_len c.specs ≤ 2000 };
}

impl Cards {
    pub(crate) fn new(specs: Vec<Option<Spec>>) -> Self
        requires { vec_len specs ≤ 2000 }
        ensures { result ≡ specs.items }
    {
        Cards { specs }
    }

    pub fn into_vec(self) -> Vec<Option<Spec>>
        ensures value { result.items ≡ self }
        ensures few { vec_len result ≤ 2000 }
    {
        self.specs
    }
}

/// Reads a card that follows a sheet at place `latest`, and data if `data_begun`, into `spec`, or returns its fault.
pub(crate) fn read(
    spec: &mut Option<Spec>,
    card: &Card,
    latest: u8,
    data_begun: bool,
) -> Result<(), CardFault>
    ensures ok { OnOk result ((spec.new ≡ spec_of data_begun card.now) × (sheet_code latest data_begun card.now ≡ None)) }
    ensures err { IfErr result (IsCardFault latest data_begun card.now) }
{
    if !card.is_sheet(data_begun) {
        read_data(spec, card, data_begun);
        return Ok(());
    }
    let Some(sheet) = card.form_type() else {
        return Err(SheetCode::S3.into());
    };
    if sheet_place(sheet) < latest {
        return Err(SheetCode::S4.into());
    }
    Ok(card.read_to(spec, sheet)?)
}

/// Reads a card that belongs to no sheet into `spec`.
#[inline(never)]
fn read_data(spec: &mut Option<Spec>, card: &Card, data_begun: bool)
    ensures { spec.new ≡ option_map specs.Data (data_spec_of data_begun card.now) }
{
    *spec = data(card, data_begun).map(Spec::Data);
}

/// Returns the meaning of a card that belongs to no sheet.
fn data(card: &Card, data_begun: bool) -> Option<DataSpec>
    ensures { result ≡ data_spec_of data_begun card.now }
{
    if card.ends_source() {
        return None;
    }
    if card.begins_data() {
        return Some(DataSpec::Begin);
    }
    if !data_begun {
        return None;
    }
    Some(DataSpec::Card(DataCard::new(card.as_slice())))
}
