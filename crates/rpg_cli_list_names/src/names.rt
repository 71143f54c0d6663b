//! The names of a source, with the cards that define, set and use them; labels and subroutines; constants and edit words.

use crate::mentions::{By, Done, Mentions};
use indexmap::{IndexMap, IndexSet};
use rpg_card_index::IndexedCards;
use rpg_cards::{
    Column, Constant, Content, Defined, Named, SpecCard, columns, defined_name, is_table,
    target_name,
};
use rpg_cli_show_fields::{name_text, write_form, write_quoted, write_value};
use rpg_cli_text::TextWriter;
use rpg_program::value::Value;
use rpg_sheet_specs::{
    CalculationSpec, Entry, EntryIndex, Factor, Operation, OutputField, OutputSpec, Spec, Word,
};
use std::alloc::{AllocError, Global};

const FORM: usize = 24;

/// The columns before the cards that use a name.
const USED: usize = 67;

const HEADING: &str =
    "\nNAMES\n  name    field  form                      defined on  set on      used on\n";

/// The names of fields, in the order of their numbers in an object program, and the cards that have each name.
#[derive(Drop)]
pub struct Names {
    alloc: Global,
    fields: IndexSet<Word<6>>,
    names: IndexMap<Word<6>, Mentions>,
}

/// Returns the field in a factor, if there is one. A label or a subroutine isn't a field.
fn entry_in(column: Column, factor: &Option<Factor>) -> Option<&Entry> {
    match (column, factor) {
        (Column::May(Content::Label | Content::Subroutine), _) => None,
        (Column::Must(Content::Label | Content::Subroutine), _) => None,
        (_, Some(Factor::Entry(entry))) => Some(entry),
        _ => None,
    }
}

/// Returns the columns of factor 1 and factor 2. On a card without an operation both are for fields.
fn factor_columns(operation: Option<Operation>) -> (Column, Column) {
    match operation {
        Some(operation) => {
            let columns = columns(operation);
            (columns.factor_1, columns.factor_2)
        }
        None => (Column::Blank, Column::Blank),
    }
}

/// Whether a field is the page number, which each printing increments.
fn is_page(entry: &Entry) -> bool {
    entry.name.as_slice() == b"PAGE".as_slice()
}

impl Names {
    pub fn of(alloc: Global, cards: &[SpecCard]) -> Result<Self, AllocError> {
        let mut names = Names {
            alloc,
            fields: IndexSet::new(alloc),
            names: IndexMap::new(alloc),
        };
        names.note_cards(cards)?;
        Ok(names)
    }

    fn note_cards(&mut self, cards: &[SpecCard]) -> Done {
        self.define(&Word::new(b"UDATE"))?;
        self.define(&Word::new(b"PAGE"))?;
        for card in cards {
            self.note_card(card)?;
        }
        Ok(())
    }

    /// Returns how many names are fields.
    pub fn count(&self) -> usize {
        self.fields.len()
    }

    fn mentions_of(&mut self, name: &Word<6>) -> Result<&mut Mentions, AllocError> {
        let alloc = self.alloc;
        let key = Word::new(name.as_slice());
        Ok(self.names.entry(key)?.or_insert(Mentions::new(alloc)))
    }

    fn note(&mut self, name: &Word<6>, card: u16, by: By) -> Done {
        self.mentions_of(name)?.note(by, card)
    }

    /// Gives a name the next number, unless it has a number.
    fn define(&mut self, name: &Word<6>) -> Done {
        self.mentions_of(name)?;
        self.fields.insert(Word::new(name.as_slice()))?;
        Ok(())
    }

    fn note_card(&mut self, card: &SpecCard) -> Done {
        let definitions = card.definitions();
        for definition in definitions.as_slice() {
            self.define(&definition.name)?;
            self.note(&definition.name, card.number, By::Giving)?;
        }
        match &card.spec {
            Spec::Calculation(calculation) => self.note_calculation(card.number, calculation),
            Spec::Output(OutputSpec::Field(field)) => self.note_output(card.number, field),
            _ => Ok(()),
        }
    }

    fn note_calculation(&mut self, card: u16, calculation: &CalculationSpec) -> Done {
        let (first, second) = factor_columns(calculation.operation);
        let searched = entry_in(second, &calculation.factor_2);
        self.note_entry(card, entry_in(first, &calculation.factor_1), By::Using)?;
        self.note_entry(card, searched, By::Using)?;
        if calculation.operation == Some(Operation::LookUp) {
            self.note_found(card, searched)?;
        }
        self.note_entry(card, calculation.result_field.as_ref(), By::Setting)
    }

    /// Notes what LOKUP sets when it finds an entry: the current entry of a table, and an index field.
    fn note_found(&mut self, card: u16, searched: Option<&Entry>) -> Done {
        let Some(searched) = searched else {
            return Ok(());
        };
        if is_table(&searched.name) {
            self.note(&searched.name, card, By::Setting)?;
        }
        self.note_index(card, searched, By::Setting)
    }

    fn note_entry(&mut self, card: u16, entry: Option<&Entry>, by: By) -> Done {
        let Some(entry) = entry else {
            return Ok(());
        };
        self.note(&entry.name, card, by)?;
        self.note_index(card, entry, By::Using)
    }

    fn note_index(&mut self, card: u16, entry: &Entry, by: By) -> Done {
        match &entry.index {
            Some(EntryIndex::Name(name)) => self.note(name, card, by),
            Some(EntryIndex::Literal(_)) | None => Ok(()),
        }
    }

    fn note_output(&mut self, card: u16, field: &OutputField) -> Done {
        self.note_entry(card, field.operand.as_ref(), By::Using)?;
        match &field.operand {
            Some(entry) if field.blank_after || is_page(entry) => {
                self.note(&entry.name, card, By::Setting)
            }
            _ => Ok(()),
        }
    }

    /// Writes a row for each name, in alphabetical order.
    pub fn write(&mut self, out: &mut TextWriter, source: &IndexedCards) -> Done {
        self.names
            .sort_by(|a, _, b, _| a.as_slice().cmp(b.as_slice()))?;
        out.write_str(HEADING);
        for (name, cards) in &self.names {
            out.fill("  {:<6}  ", &[name_text(name.as_slice()).into()]);
            match self.fields.get_index_of(name) {
                Some(place) => out.fill("#{:<4}  ", &[place.saturating_add(1).into()]),
                None => out.write_str("-      "),
            }
            write_defined(out, source.form_of_name(name));
            cards.write_column(out, By::Giving);
            cards.write_column(out, By::Setting);
            cards.write_lines(out, By::Using, USED);
            out.write_char('\n');
        }
        Ok(())
    }
}

fn write_defined(out: &mut TextWriter, defined: Defined) {
    let end = out.len().saturating_add(FORM);
    match defined {
        Defined::Missing => out.write_str("not defined"),
        Defined::Bad => out.write_str("past a limit"),
        Defined::Valid(form) => write_form(out, form),
    }
    out.pad_to(end);
    out.write_str("  ");
}

/// What the first card with a name makes it, the cards that define it, and those that go there.
#[derive(Drop)]
struct LabelUses {
    is_subroutine: bool,
    cards: Mentions,
}

/// Labels and subroutines by name, in the order of the cards that first have them.
#[derive(Drop)]
pub struct Labels {
    alloc: Global,
    labels: IndexMap<Word<6>, LabelUses>,
}

/// The columns before the cards that go to a label.
const WANTED: usize = 34;

const LABELS_HEADING: &str =
    "\nLABELS AND SUBROUTINES\n  name    is          given on    gone to from\n";

impl Labels {
    pub fn of(alloc: Global, cards: &[SpecCard]) -> Result<Self, AllocError> {
        let mut labels = Labels {
            alloc,
            labels: IndexMap::new(alloc),
        };
        for card in cards {
            if let Some(calculation) = card.calculation() {
                labels.note(defined_name(calculation), By::Giving, card.number)?;
                labels.note(target_name(calculation), By::Using, card.number)?;
            }
        }
        Ok(labels)
    }

    fn note(&mut self, named: Option<Named>, by: By, card: u16) -> Done {
        let Some(
            Named {
                name,
                is_subroutine,
            },
        ) = named
        else {
            return Ok(());
        };
        let alloc = self.alloc;
        let label = self.labels.entry(name)?.or_insert(LabelUses {
            is_subroutine,
            cards: Mentions::new(alloc),
        });
        label.cards.note(by, card)
    }

    pub fn write(&self, out: &mut TextWriter) {
        if !self.labels.is_empty() {
            out.write_str(LABELS_HEADING);
        }
        for (name, label) in &self.labels {
            let is = if label.is_subroutine {
                "subroutine"
            } else {
                "label"
            };
            let name = name_text(name.as_slice());
            out.fill("  {:<6}  {:<10}  ", &[name.into(), is.into()]);
            label.cards.write_column(out, By::Giving);
            label.cards.write_lines(out, By::Using, WANTED);
            out.write_char('\n');
        }
    }
}

const CONSTANT_FORM: usize = 19;

const VALUE: usize = 26;

/// The columns before the cards of a constant.
const CARDS: usize = 58;

const CONSTANTS_HEADING: &str =
    "\nCONSTANTS AND EDIT WORDS\n  field  form                 value                       used on\n";

type Constants = IndexMap<Constant, Mentions>;

fn note_constants(alloc: Global, constants: &mut Constants, card: &SpecCard) -> Done {
    let given = card.constants();
    for constant in given.as_slice() {
        let mentions = constants.entry(constant.copied())?;
        mentions
            .or_insert(Mentions::new(alloc))
            .note(By::Using, card.number)?;
    }
    Ok(())
}

/// Returns the constants without duplicates, in the order of the cards.
fn constants_of(alloc: Global, cards: &[SpecCard]) -> Result<Constants, AllocError> {
    let mut constants = IndexMap::new(alloc);
    for card in cards {
        note_constants(alloc, &mut constants, card)?;
    }
    Ok(constants)
}

fn write_constant(out: &mut TextWriter, field: usize, constant: &Constant) {
    out.fill("  #{:<4}  ", &[field.into()]);
    let end = out.len().saturating_add(CONSTANT_FORM);
    write_form(out, constant.form());
    out.pad_to(end);
    out.write_str("  ");
    let end = out.len().saturating_add(VALUE);
    match constant {
        Constant::Number(number) => {
            write_value(out, &Value::Number(number.value()), number.decimals());
        }
        Constant::Text(text) => write_quoted(out, text.as_slice()),
    }
    out.pad_to(end);
    out.write_str("  ");
}

/// Writes a row for each constant; `fields` fields come before them.
pub fn write_constants(
    alloc: Global,
    out: &mut TextWriter,
    cards: &[SpecCard],
    fields: usize,
) -> Done {
    let constants = constants_of(alloc, cards)?;
    let mut field = fields;
    for (constant, cards) in &constants {
        if field == fields {
            out.write_str(CONSTANTS_HEADING);
        }
        field = field.saturating_add(1);
        write_constant(out, field, constant);
        cards.write_lines(out, By::Using, CARDS);
        out.write_char('\n');
    }
    Ok(())
}
