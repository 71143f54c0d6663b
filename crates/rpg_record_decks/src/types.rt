//! The record types of a file, from its I cards.

ghost use Rattle.std.specs.Prelude.{◌≡◌, ◌≤◌, ◌++◌, ◌∷◌, ℕ, List, IfErr, IfOk, Ok, OnOk, Some, codes, false, map, option_map};
ghost use Rattle.std.specs.Option.{option_to_list};
ghost use Rattle.rpg_sheet_specs.specs.Tables.{input_card};
ghost use Rattle.rpg_record_decks.specs.Files.{or_columns};
ghost use Rattle.rpg_record_decks.specs.Outcomes.{IsDeckFaultOf, at_card, onto};
ghost use Rattle.rpg_record_decks.specs.Reading.{GoOnAlike, all_types, type_now, type_read, types_done};
ghost use Rattle.rpg_record_decks.specs.Types.{cards_of_file, field_type, goes_on, number_form_on, input_spec_of, is_of_file, is_on_sheet, new_type, type_after, type_before, types_read_after, types_read, with_code, with_codes, with_columns_of, with_type_field, with_three};
ghost use Rattle.rpg_sheet_specs.specs.declared.input.InputSpec.TheVariants as inputs;
ghost use Rattle.rpg_record_decks.specs.declared.deck.DeckCard.{DeckCard};
ghost use Rattle.rpg_record_decks.specs.declared.fault.CardFault.TheVariants as card_faults;
ghost use Rattle.rpg_record_decks.specs.declared.fault.DeckFault.TheVariants as faults;

use crate::deck::DeckCard;
use crate::edits::{changed_card, columns, file_name};
use crate::fault::{CardFault, DeckFault, bad_columns};
use crate::fields::{FieldColumns, field_columns, number_field};
use rpg_records::{Code, NumberField, NumberForm};
use rpg_sheet::{Card, InputFieldSpec, InputSpec, RecordCode, Three};
use rpg_text::is_blank;
use std::alloc::{AllocError, Global};

// ---- I cards

/// Whether a card is of this sheet.
pub fn is_on_sheet(sheet: &[u8], card: &Card) -> bool
    ensures { result ≡ is_on_sheet sheet.now card.now }
{
    columns(card, 6, 6) == sheet
}

/// Whether an I or an O card is an AND or an OR card.
pub fn goes_on(card: &Card) -> bool
    ensures { result ≡ goes_on card.now }
{
    is_blank(columns(card, 7, 13))
        && (columns(card, 14, 16) == b"AND".as_slice() || columns(card, 14, 15) == b"OR".as_slice())
}

/// Whether an I or an O card belongs to the file with this name, given whether the previous card of its sheet does.
pub fn is_of_file(card: &Card, name: &[u8], before: bool) -> bool
    ensures { result ≡ is_of_file name.now before card.now }
{
    let file = file_name(card);
    if goes_on(card) || file.is_empty() {
        before
    } else {
        file == name
    }
}

/// Returns the format of a packed or binary field's bytes, which is in this column; None for characters.
pub fn form_of(column: u8, card: &Card) -> Option<NumberForm>
    requires counted { 1 ≤ column }
    requires within { column ≤ 80 }
    ensures { result ≡ number_form_on column card.now }
{
    let form = columns(card, column, column);
    if form == b"P".as_slice() {
        Some(NumberForm::Packed)
    } else if form == b"B".as_slice() {
        Some(NumberForm::Binary)
    } else {
        None
    }
}

/// Reads an I card, given its number.
fn read_input(number: u16, card: &Card) -> Result<InputSpec, DeckFault>
    ensures { result ≡ at_card number (or_columns (input_card.reading card.now)) }
{
    match card.i() {
        Err(fault) => Err(bad_columns(number, fault)),
        Ok(spec) => Ok(spec),
    }
}

/// Reads an I card, which may have P or B in column 43.
fn input_of(alloc: Global, card: &DeckCard) -> Result<InputSpec, DeckFault>
    ensures input { IfOk result (λ spec. at_card card.now.number (input_spec_of card.now.card) ≡ Ok spec) }
    ensures fault { IfErr result (IsDeckFaultOf (at_card card.now.number (input_spec_of card.now.card))) }
{
    if form_of(43, &card.card).is_some() {
        let plain = changed_card(alloc, &card.card, 43, b" ")?;
        return read_input(card.number, &plain);
    }
    read_input(card.number, &card.card)
}

// ---- a type

/// A record type, from the cards read so far.
#[derive(Drop)]
pub(crate) struct TypeCards {
    pub card: u16,
    pub codes: Vec<Code>,
    pub fields: Vec<FieldColumns>,
    pub numbers: Vec<NumberField>,
}

/// Begins a type at this card.
fn new_type(alloc: Global, card: u16) -> TypeCards
    ensures { type_read result ≡ new_type card }
{
    TypeCards {
        card,
        codes: Vec::new(alloc),
        fields: Vec::new(alloc),
        numbers: Vec::new(alloc),
    }
}

/// Adds a code, if there is one.
fn add_code(
    number: u16,
    length: u16,
    codes: &mut Vec<Code>,
    code: Option<RecordCode>,
) -> Result<(), DeckFault>
    ensures codes { OnOk result (with_code length codes.old.items code ≡ Ok codes.new.items) }
    ensures fault { IfErr result (IsDeckFaultOf (at_card number (with_code length codes.old.items code))) }
{
    let Some(code) = code else {
        return Ok(());
    };
    if code.position == 0 || code.position > length {
        return Err(DeckFault::at(number, CardFault::Outside));
    }
    codes.push(Code {
        place: usize::from(code.position - 1),
        is_negated: code.negated,
        character: code.character.number(),
    })?;
    Ok(())
}

/// Adds the codes of a card.
fn add_codes(
    number: u16,
    length: u16,
    codes: &mut Vec<Code>,
    three: &Three<Option<RecordCode>>,
) -> Result<(), DeckFault>
    ensures codes { OnOk result (with_three length codes.old.items three.now ≡ Ok codes.new.items) }
    ensures fault { IfErr result (IsDeckFaultOf (at_card number (with_three length codes.old.items three.now))) }
{
    add_code(number, length, codes, three.first)?;
    add_code(number, length, codes, three.second)?;
    add_code(number, length, codes, three.third)
}

/// Adds the codes of a card to a type.
fn with_codes(
    number: u16,
    length: u16,
    mut kind: TypeCards,
    three: &Three<Option<RecordCode>>,
) -> Result<TypeCards, DeckFault>
    ensures type_is { IfOk result (λ t. with_codes length (type_read kind) three.now ≡ Ok (type_read t)) }
    ensures fault { IfErr result (IsDeckFaultOf (at_card number (with_codes length (type_read kind) three.now))) }
{
    add_codes(number, length, &mut kind.codes, three)?;
    Ok(kind)
}

/// Adds the columns of a field to a type.
fn with_columns_of(
    number: u16,
    mut kind: TypeCards,
    field: FieldColumns,
) -> Result<TypeCards, DeckFault>
    ensures type_is { IfOk result (λ t. with_columns_of (type_read kind) field ≡ Ok (type_read t)) }
    ensures fault { IfErr result (IsDeckFaultOf (at_card number (with_columns_of (type_read kind) field))) }
{
    if field.mixes_with_any(kind.fields.as_slice()) {
        let card = kind.card;
        return Err(DeckFault::at(number, CardFault::Shared { card }));
    }
    kind.fields.push(field)?;
    Ok(kind)
}

/// Adds a packed or binary field to a type.
#[tactic(auto, using(crate::proofs::TypeLemmas::numbers_more))]
fn with_number(
    number: u16,
    kind: TypeCards,
    field: FieldColumns,
    form: NumberForm,
) -> Result<TypeCards, DeckFault>
    requires form { field.form ≡ Some form }
    requires counted { 1 ≤ field.first }
    requires ordered { field.first ≤ field.last }
    ensures type_is { IfOk result (λ t. with_type_field number (type_read kind) field ≡ Ok (type_read t)) }
    ensures fault { IfErr result (IsDeckFaultOf (at_card number (with_type_field number (type_read kind) field))) }
{
    let packed = match number_field(number, field, form) {
        Ok(packed) => packed,
        Err(fault) => return Err(DeckFault::at(number, fault)),
    };
    let mut more = with_columns_of(number, kind, field)?;
    more.numbers.push(packed)?;
    Ok(more)
}

/// Adds a field to a type.
fn with_field(number: u16, kind: TypeCards, field: FieldColumns) -> Result<TypeCards, DeckFault>
    requires counted { 1 ≤ field.first }
    requires ordered { field.first ≤ field.last }
    ensures type_is { IfOk result (λ t. with_type_field number (type_read kind) field ≡ Ok (type_read t)) }
    ensures fault { IfErr result (IsDeckFaultOf (at_card number (with_type_field number (type_read kind) field))) }
{
    match field.form {
        Some(form) => with_number(number, kind, field, form),
        None => with_columns_of(number, kind, field),
    }
}

// ---- all types

/// Returns the type that a field's card continues.
fn field_type(
    length: u16,
    now: Option<TypeCards>,
    card: &DeckCard,
    field: &InputFieldSpec,
) -> Result<TypeCards, DeckFault>
    ensures type_is { IfOk result (λ t. type_after length (option_map type_read now) card.now (inputs.Field field.now) ≡ Ok (type_read t)) }
    ensures fault { IfErr result (IsDeckFaultOf (at_card card.now.number (type_after length (option_map type_read now) card.now (inputs.Field field.now)))) }
{
    let columns = field_columns(form_of(43, &card.card), field);
    if !columns.is_inside(length) {
        return Err(DeckFault::at(card.number, CardFault::Outside));
    }
    match now {
        Some(kind) => with_field(card.number, kind, columns),
        None => Err(orphan(card.number, 7)),
    }
}

/// Returns the fault of a card that continues a type when there is none: its columns to 16 should begin one.
fn orphan(number: u16, first: u8) -> DeckFault
    ensures { result ≡ faults.Card number (card_faults.Columns first 16) }
{
    DeckFault::at(number, CardFault::Columns { first, last: 16 })
}

/// Returns the type that a card begins or continues.
fn type_after(
    alloc: Global,
    length: u16,
    now: Option<TypeCards>,
    card: &DeckCard,
    spec: &InputSpec,
) -> Result<TypeCards, DeckFault>
    ensures type_is { IfOk result (λ t. type_after length (option_map type_read now) card.now spec.now ≡ Ok (type_read t)) }
    ensures fault { IfErr result (IsDeckFaultOf (at_card card.now.number (type_after length (option_map type_read now) card.now spec.now))) }
{
    match spec {
        InputSpec::Type(kind) => {
            let begun = new_type(alloc, card.number);
            with_codes(card.number, length, begun, &kind.codes)
        }
        InputSpec::And(codes) => match now {
            Some(kind) => with_codes(card.number, length, kind, codes),
            None => Err(orphan(card.number, 14)),
        },
        InputSpec::Field(field) => field_type(length, now, card, field),
    }
}

/// The types of a file's cards, as far as they were read.
#[derive(Drop)]
pub(crate) struct Types {
    done: Vec<TypeCards>,
    /// The last one, which further cards continue.
    now: Option<TypeCards>,
}

impl Types {
    /// Completes the last type, if this card begins another one.
    #[tactic(auto, using(crate::proofs::TypeLemmas::types_more))]
    fn ended(self, spec: &InputSpec) -> Result<Self, AllocError>
        ensures done { IfOk result (λ types. types_done types ≡ types_done self ++ type_before (type_now self) spec.now) }
        ensures now { IfOk result (λ types. GoOnAlike spec.now (type_now types) (type_now self)) }
    {
        let InputSpec::Type(_) = spec else {
            return Ok(self);
        };
        let Types { mut done, now } = self;
        match now {
            Some(last) => {
                done.push(last)?;
                Ok(Types { done, now: None })
            }
            None => Ok(Types { done, now: None }),
        }
    }

    /// Takes one more card of the file.
    #[tactic(auto, using(crate::proofs::TypeLemmas::card_read, crate::proofs::TypeLemmas::card_refused, crate::proofs::TypeLemmas::type_refused))]
    fn with_card(self, alloc: Global, length: u16, card: &DeckCard) -> Result<Self, DeckFault>
        ensures types { IfOk result (λ types. (cs : List DeckCard) → all_types length types cs ≡ all_types length self (card.now ∷ cs)) }
        ensures fault { IfErr result (λ fault. (cs : List DeckCard) → IsDeckFaultOf (all_types length self (card.now ∷ cs)) fault) }
    {
        let spec = input_of(alloc, card)?;
        let Types { done, now } = self.ended(&spec)?;
        let now = type_after(alloc, length, now, card, &spec)?;
        Ok(Types {
            done,
            now: Some(now),
        })
    }

    /// Returns all types.
    #[tactic(auto, using(crate::proofs::TypeLemmas::types_more))]
    fn finish(self) -> Result<Vec<TypeCards>, AllocError>
        ensures { IfOk result (λ types. map type_read types.items ≡ types_done self ++ option_to_list (type_now self)) }
    {
        let Types { mut done, now } = self;
        match now {
            Some(last) => {
                done.push(last)?;
                Ok(done)
            }
            None => Ok(done),
        }
    }
}

/// Reads the types of the file with this name, whose records have `length` bytes.
#[tactic(auto, using(crate::proofs::TypeLemmas::cards_other, crate::proofs::TypeLemmas::cards_left_out, crate::proofs::TypeLemmas::cards_next))]
pub(crate) fn read_types(
    alloc: Global,
    length: u16,
    name: &[u8],
    cards: &[DeckCard],
) -> Result<Vec<TypeCards>, DeckFault>
    ensures types { IfOk result (λ types. types_read length (cards_of_file (codes "I") name.now false cards.now) ≡ Ok (map type_read types.items)) }
    ensures fault { IfErr result (IsDeckFaultOf (types_read length (cards_of_file (codes "I") name.now false cards.now))) }
{
    let mut types = Types {
        done: Vec::new(alloc),
        now: None,
    };
    let mut is_meant = false;
    for card in cards {
        if !is_on_sheet(b"I", &card.card) {
            continue;
        }
        is_meant = is_of_file(&card.card, name, is_meant);
        if is_meant {
            types = types.with_card(alloc, length, card)?;
        }
    }
    Ok(types.finish()?)
}
