//! The source of an object program, by row: the names of its fields, and the cards of its rows.

ghost use Rattle.std.specs.Prelude.{◌≤◌, length};

use rpg_card_index::IndexedCards;
use rpg_cards::{SpecCard, has_instruction, joins, level, test};
use rpg_sheet_specs::{CalculationSpec, InputSpec, OutputSpec, Spec, Word};
use std::alloc::{AllocError, Global};

/// A name, and the first card that defines it. Every program has UDATE and PAGE, which no card has to define.
#[derive(Drop)]
struct NamedField {
    name: Word<6>,
    card: Option<u16>,
}

/// The first card of a record type or a line, or the card of one of its fields.
#[derive(Clone, Copy)]
struct RowCard {
    row: usize,
    card: u16,
}

/// The names and cards of a source, by the rows of its object program. Rows and places are counted from 0, fields from 1.
#[derive(Drop)]
pub struct SourceRows {
    fields: Vec<NamedField>,
    types: Vec<RowCard>,
    lines: Vec<RowCard>,
    places: Vec<u16>,
    ran_out: bool,
}

/// Returns how many instructions a card becomes: one for the level indicator that its calculation waits for, one for its conditions, one
/// for its operation.
fn instruction_count(calculation: &CalculationSpec) -> usize {
    let level = usize::from(level(calculation.control_level).is_some());
    let test = usize::from(test(calculation).is_some());
    level + test + usize::from(has_instruction(calculation))
}

/// Notes the card of a new row, or of a field of the last one. Returns whether memory ran out.
fn note(cards: &mut Vec<RowCard>, card: u16, is_first: bool) -> bool {
    let row = match cards.last() {
        Some(last) => last.row.saturating_add(usize::from(is_first)),
        None => 0,
    };
    cards.push(RowCard { row, card }).is_err()
}

/// Returns the card of a row, for place 0, or of one of its fields.
fn card_at(cards: &[RowCard], row: usize, place: usize) -> Option<u16> {
    let mut before: usize = 0;
    for noted in cards {
        if noted.row == row {
            if before == place {
                return Some(noted.card);
            }
            before = before.saturating_add(1);
        }
    }
    None
}

impl SourceRows {
    /// Returns no names and cards, for a source that isn't known.
    pub fn none(alloc: Global) -> Self {
        SourceRows {
            fields: Vec::new(alloc),
            types: Vec::new(alloc),
            lines: Vec::new(alloc),
            places: Vec::new(alloc),
            ran_out: false,
        }
    }

    /// Returns the names and cards of a source without faults.
    pub fn of_cards(alloc: Global, cards: &[SpecCard]) -> Result<Self, AllocError> {
        let source = IndexedCards::new(alloc, cards)?;
        let mut rows = SourceRows::none(alloc);
        rows.note_cards(&source);
        if rows.ran_out {
            return Err(AllocError);
        }
        Ok(rows)
    }

    fn note_cards(&mut self, source: &IndexedCards) {
        let mut definitions = 0;
        let mut places = 0;
        self.note_name(b"UDATE", None);
        self.note_name(b"PAGE", None);
        for card in source.as_slice() {
            definitions = self.note_names(source, card, definitions);
            places = self.note_row(card, places);
        }
        self.places.truncate(places);
    }

    fn note_name(&mut self, name: &[u8], card: Option<u16>)
        requires { length name.now ≤ 6 }
    {
        let name = Word::new(name);
        self.ran_out |= self.fields.push(NamedField { name, card }).is_err();
    }

    /// Notes the names that a card is the first to define. Returns how many definitions there are up to it.
    fn note_names(&mut self, source: &IndexedCards, card: &SpecCard, before: usize) -> usize {
        let mut place = before;
        let definitions = card.definitions();
        for definition in definitions.as_slice() {
            if source.is_new_name(place, &definition.name) {
                self.note_name(definition.name.as_slice(), Some(card.number));
            }
            place = place.saturating_add(1);
        }
        place
    }

    /// Notes the row or the instructions of a card. `places` of them belong to earlier calculations.
    fn note_row(&mut self, card: &SpecCard, places: usize) -> usize {
        let number = card.number;
        let ran_out = match &card.spec {
            Spec::Input(InputSpec::Type(_)) => note(&mut self.types, number, true),
            Spec::Input(InputSpec::Field(_)) => note(&mut self.types, number, false),
            Spec::Output(OutputSpec::Record(_)) => note(&mut self.lines, number, true),
            Spec::Output(OutputSpec::Field(_)) => note(&mut self.lines, number, false),
            Spec::Calculation(calculation) => {
                return self.note_places(number, calculation, places);
            }
            _ => false,
        };
        self.ran_out |= ran_out;
        places
    }

    /// Notes the instructions of a card. If the operation of a calculation has no instruction, its indicator and conditions have none
    /// either.
    fn note_places(&mut self, card: u16, calculation: &CalculationSpec, places: usize) -> usize {
        if !joins(calculation) {
            self.places.truncate(places);
        }
        for _ in 0..instruction_count(calculation) {
            self.ran_out |= self.places.push(card).is_err();
        }
        if has_instruction(calculation) {
            self.places.len()
        } else {
            places
        }
    }

    fn field(&self, number: u16) -> Option<&NamedField> {
        self.fields.get(usize::from(number).checked_sub(1)?)
    }

    /// Returns the name of a field. Constants have none.
    pub fn field_name(&self, number: u16) -> Option<&[u8]> {
        Some(self.field(number)?.name.as_slice())
    }

    /// Returns the first card that defines a field. UDATE, PAGE and constants may have none.
    pub fn field_card(&self, number: u16) -> Option<u16> {
        self.field(number)?.card
    }

    pub fn type_card(&self, row: usize) -> Option<u16> {
        card_at(&self.types, row, 0)
    }

    pub fn input_card(&self, row: usize, input: usize) -> Option<u16> {
        card_at(&self.types, row, input.saturating_add(1))
    }

    pub fn line_card(&self, row: usize) -> Option<u16> {
        card_at(&self.lines, row, 0)
    }

    pub fn line_field_card(&self, row: usize, field: usize) -> Option<u16> {
        card_at(&self.lines, row, field.saturating_add(1))
    }

    /// Returns the card that an instruction comes from, given its place in the whole program.
    pub fn place_card(&self, place: usize) -> Option<u16> {
        self.places.get(place).copied()
    }
}
