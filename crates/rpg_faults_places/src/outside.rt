//! F16: columns outside the record, end positions outside the line, skips past the page, and fields that are too wide.

ghost use Rattle.std.specs.Prelude.{◌≡◌, List, Option, is_some, option_and_then};
ghost use Rattle.std.specs.Option.{option_map, option_or};
ghost use Rattle.rpg_cards.specs.Files.{file_by};
ghost use Rattle.rpg_cards.specs.Groups.{open_file, output_role};
ghost use Rattle.rpg_cards.specs.declared.spec_card.SpecCard.{SpecCard};
ghost use Rattle.rpg_faults_limits.specs.FileCauses.{file_of_line};
ghost use Rattle.rpg_faults_limits.specs.Sheets.{AreSheets};
ghost use Rattle.rpg_faults_places.specs.CardFiles as files_of;
ghost use Rattle.rpg_faults_places.specs.Outside as causes;
ghost use Rattle.rpg_faults_places.specs.Outside.{SameLength};
ghost use Rattle.rpg_faults_places.specs.Places as rules;
ghost use Rattle.rpg_sheet_specs.specs.declared.file.FileSpec.{FileSpec};

use rpg_card_index::IndexedCards;
use rpg_cards::{FileUse, SpecCard};
use rpg_faults_limits::{FileOnCard, Sheets, file_at, file_of_line, file_or};
use rpg_faults_operands::width;
use rpg_sheet_specs::{
    ColumnRange, InputFieldSpec, InputSpec, Movement, OutputField, OutputRecord, RecordCode, Three,
    Within,
};
use std::marker::Model;

/// What is outside a record, a line or a page.
#[derive(Drop)]
pub enum PlaceCause {
    /// A code's position 0.
    NoPosition(ColumnRange),
    /// A code's position past the records of that file.
    PositionPast {
        at: ColumnRange,
        position: u16,
        file: FileOnCard,
    },
    /// Column 0 as the first or the last of a field.
    NoColumn(ColumnRange),
    /// The last column of a field comes before its first.
    TurnedRound {
        from: u16,
        to: u16,
    },
    /// A field's columns past the records of that file.
    PastRecord {
        from: u16,
        to: u16,
        file: FileOnCard,
    },
    /// An end position of 0.
    NoEnd,
    /// An end position past the lines of that file.
    PastLine {
        end: u16,
        file: FileOnCard,
    },
    /// A field or a constant that is wider than its end position allows.
    Wider {
        places: usize,
        end: u16,
    },
    /// A skip past the lines of the page.
    SkipPast {
        at: ColumnRange,
        line: u8,
        lines: u8,
    },
}

impl PlaceCause {
    /// Returns the columns of a card that the cause is about.
    pub fn range(&self) -> ColumnRange
        ensures { result ≡ causes.place_range self.now }
    {
        match self {
            PlaceCause::NoPosition(at)
            | PlaceCause::PositionPast { at, .. }
            | PlaceCause::NoColumn(at)
            | PlaceCause::SkipPast { at, .. } => *at,
            PlaceCause::TurnedRound { .. } | PlaceCause::PastRecord { .. } => {
                ColumnRange::LastColumn
            }
            PlaceCause::NoEnd | PlaceCause::PastLine { .. } | PlaceCause::Wider { .. } => {
                ColumnRange::EndPosition
            }
        }
    }
}

/// F16 of a card's own columns: what is outside the record, the line or the page.
#[tactic(auto, unfolding(crate::specs::Outside::outside))]
pub fn outside_cause(
    source: &IndexedCards,
    sheets: &Sheets,
    before: &[SpecCard],
    card: &SpecCard,
) -> Option<PlaceCause>
    requires { AreSheets source.now before.now sheets.now }
    ensures cause { result ≡ causes.outside source.now before.now card.now }
    ensures rule { is_some result ≡ causes.is_outside source.now before.now card.now }
{
    if let Some(input) = card.input() {
        return of_input(&CardFile::of(source, sheets, card), input);
    }
    if let Some(field) = card.output_field() {
        return of_output(source, &CardFile::of(source, sheets, card), field);
    }
    of_line(source, sheets, before, card.line()?)
}

// ---- the file

/// The file of an I or O card, by the place of its F card.
#[derive(Drop)]
struct CardFile<'a> {
    source: &'a IndexedCards<'a>,
    place: Option<usize>,
}

impl<'a> Model for CardFile<'a> {
    ghost use Rattle.std.specs.Prelude.{Option};
    ghost use Rattle.rpg_faults_limits.specs.FileCauses.{placed_file};
    ghost use Rattle.rpg_faults_limits.specs.declared.files.FileOnCard.{FileOnCard};

    ghost Value = { Option FileOnCard };

    ghost view = { λ f. placed_file f.source.now f.place };
}

impl<'a> CardFile<'a> {
    fn of(source: &'a IndexedCards<'a>, sheets: &Sheets, card: &SpecCard) -> Self
        ensures { (before : List SpecCard) → AreSheets source.now before sheets.now → result ≡ files_of.card_file source.now before card.now }
    {
        let place = place_on(source, sheets, card);
        CardFile { source, place }
    }

    /// Returns the file with its F card.
    fn found(&self) -> Option<FileOnCard>
        ensures { result ≡ self.now }
    {
        file_at(self.source, self.place)
    }

    fn record_length(&self) -> Option<u16>
        ensures { result ≡ option_map (λ f. f.record_length) self.now }
    {
        let card = self.source.as_slice().get(self.place?)?;
        Some(card.file()?.record_length)
    }
}

fn place_on(source: &IndexedCards, sheets: &Sheets, card: &SpecCard) -> Option<usize>
    ensures { result ≡ files_of.place_on source.now sheets.now card.now }
{
    match card.input() {
        Some(InputSpec::Type(record_type)) => file_or(source, &record_type.file, sheets.types.file),
        Some(InputSpec::And(_) | InputSpec::Field(_)) => sheets.types.file,
        None => sheets.lines.file,
    }
}

/// Returns the file, if a column is past its records.
fn if_past(file: &CardFile, column: u16) -> Option<FileOnCard>
    ensures file { result ≡ causes.file_passed column file.now }
    ensures rule { (known : Option FileSpec) → SameLength file.now known → is_some result ≡ rules.is_past known column }
{
    if file.record_length()? < column {
        return file.found();
    }
    None
}

// ---- record types and input fields

fn of_input(file: &CardFile, input: &InputSpec) -> Option<PlaceCause>
    ensures cause { result ≡ causes.of_input file.now input.now }
    ensures rule { (known : Option FileSpec) → SameLength file.now known → is_some result ≡ rules.outside_on_input known input.now }
{
    match input {
        InputSpec::Type(record_type) => of_codes(file, &record_type.codes),
        InputSpec::And(codes) => of_codes(file, codes),
        InputSpec::Field(field) => of_field(file, field),
    }
}

fn of_codes(file: &CardFile, codes: &Three<Option<RecordCode>>) -> Option<PlaceCause>
    ensures cause { result ≡ causes.of_codes file.now codes.now }
    ensures rule { (known : Option FileSpec) → SameLength file.now known → is_some result ≡ rules.bad_codes known codes.now }
{
    let first = of_code(file, ColumnRange::FirstCode, codes.first);
    if first.is_some() {
        return first;
    }
    let second = of_code(file, ColumnRange::SecondCode, codes.second);
    if second.is_some() {
        return second;
    }
    of_code(file, ColumnRange::ThirdCode, codes.third)
}

fn of_code(file: &CardFile, at: ColumnRange, code: Option<RecordCode>) -> Option<PlaceCause>
    ensures cause { result ≡ option_and_then (causes.of_code file.now at) code }
    ensures rule { (known : Option FileSpec) → SameLength file.now known → is_some result ≡ rules.is_code_outside known code }
{
    let position = code?.position;
    if position == 0 {
        return Some(PlaceCause::NoPosition(at));
    }
    let file = if_past(file, position)?;
    Some(PlaceCause::PositionPast { at, position, file })
}

fn of_field(file: &CardFile, field: &InputFieldSpec) -> Option<PlaceCause>
    ensures cause { result ≡ causes.of_field file.now field.now }
    ensures rule { (known : Option FileSpec) → SameLength file.now known → is_some result ≡ rules.outside_record known field.now }
{
    let from = field.from;
    let to = field.to;
    if from == 0 {
        return Some(PlaceCause::NoColumn(ColumnRange::FirstColumn));
    }
    if to == 0 {
        return Some(PlaceCause::NoColumn(ColumnRange::LastColumn));
    }
    if to < from {
        return Some(PlaceCause::TurnedRound { from, to });
    }
    let file = if_past(file, to)?;
    Some(PlaceCause::PastRecord { from, to, file })
}

// ---- output fields

fn of_output(source: &IndexedCards, file: &CardFile, field: &OutputField) -> Option<PlaceCause>
    ensures cause { result ≡ causes.of_output source.now file.now field.now }
    ensures rule { (known : Option FileSpec) → SameLength file.now known → is_some result ≡ rules.outside_line source.now known field.now }
{
    let end = field.end;
    if end == 0 {
        return Some(PlaceCause::NoEnd);
    }
    if let Some(file) = if_past(file, end) {
        return Some(PlaceCause::PastLine { end, file });
    }
    let places = width(source, field)?;
    if usize::from(end) < places {
        return Some(PlaceCause::Wider { places, end });
    }
    None
}

// ---- lines

fn of_line(
    source: &IndexedCards,
    sheets: &Sheets,
    before: &[SpecCard],
    line: &OutputRecord,
) -> Option<PlaceCause>
    requires { AreSheets source.now before.now sheets.now }
    ensures cause { result ≡ causes.of_line source.now (file_of_line source.now before.now line.now.file) line.now.movement }
    ensures rule { is_some result ≡ rules.outside_page source.now (file_by (option_or line.now.file (open_file output_role before.now)) source.now) line.now.movement }
{
    let cause = of_movement(source.page().lines, &line.movement)?;
    let file = file_of_line(source, sheets, before, line)?;
    match file.serves_as {
        FileUse::Printer => Some(cause),
        FileUse::Primary | FileUse::Secondary | FileUse::Disk => None,
    }
}

fn of_movement(lines: u8, movement: &Movement) -> Option<PlaceCause>
    ensures cause { result ≡ causes.of_movement lines movement.now }
    ensures rule { is_some result ≡ rules.skips_past lines movement.now }
{
    let before = of_skip(lines, ColumnRange::SkipBefore, movement.skip_before);
    if before.is_some() {
        return before;
    }
    of_skip(lines, ColumnRange::SkipAfter, movement.skip_after)
}

fn of_skip(lines: u8, at: ColumnRange, skip: Option<Within<1, 112>>) -> Option<PlaceCause>
    ensures cause { result ≡ option_and_then (causes.of_skip lines at) skip }
    ensures rule { is_some result ≡ rules.is_skip_past lines skip }
{
    let line = skip?.number();
    if line <= lines {
        return None;
    }
    Some(PlaceCause::SkipPast { at, line, lines })
}
