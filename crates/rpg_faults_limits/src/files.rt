//! F7: files that are unknown, described twice or of the wrong use, and their forms. F9 of lines: spaces and skips for the disk file.

ghost use Rattle.std.specs.Prelude.{◌≡◌, ◌∷◌, ◌++◌, false, is_some, option_and_then, option_copied};
ghost use Rattle.std.specs.Option.{option_map, option_map_or, option_or};
ghost use Rattle.rpg_cards.specs.Cards.{output_record_on};
ghost use Rattle.rpg_cards.specs.Files as known;
ghost use Rattle.rpg_cards.specs.Groups.{open_file, output_role};
ghost use Rattle.rpg_card_index.specs.Index.{is_for};
ghost use Rattle.rpg_cards.specs.declared.files.FileUse.{FileUse};
ghost use Rattle.rpg_cards.specs.declared.files.FileUse.TheVariants.{Disk, Printer};
ghost use Rattle.rpg_faults_limits.specs.FileCauses as causes;
ghost use Rattle.rpg_faults_limits.specs.Files as rules;
ghost use Rattle.rpg_faults_limits.specs.Sheets.{AreSheets};

use crate::sheets::{Sheets, file_or};
use rpg_card_index::{FirstCards, IndexedCards};
use rpg_cards::{FileUse, SpecCard, use_of};
use rpg_sheet_specs::{ColumnRange, FileSpec, FormSpec, Movement, OutputRecord, Word};

/// A file with the number of its F card.
#[derive(Drop)]
pub struct FileOnCard {
    pub card: u16,
    pub name: Word<8>,
    pub serves_as: FileUse,
    pub record_length: u16,
}

/// What names a file.
#[derive(Clone, Copy, PartialEq, Eq)]
pub enum FileUser {
    RecordType,
    Line,
    /// An L card.
    Form,
}

/// What is wrong with a file.
#[derive(Drop)]
pub enum FileCause {
    /// This file already has the name.
    Twice(FileOnCard),
    /// The file with this name would be the second of its use.
    Second { name: Word<8>, first: FileOnCard },
    /// This record or line length isn't allowed.
    Length { serves_as: FileUse, length: u16 },
    /// The first of its kind doesn't name a file.
    Unnamed(FileUser),
    /// No F card has that name.
    Unknown { user: FileUser, name: Word<8> },
    /// The file has another use.
    WrongUse { user: FileUser, file: FileOnCard },
    /// There is an L card before.
    SecondForm { card: u16 },
    /// The overflow line of an L card is past the lines of its page.
    OverflowPast { line: u8, lines: u8 },
}

impl FileCause {
    /// Returns the columns that the cause is about: the name of a file, what makes it the second one of its use, the record length, or the
    /// overflow line.
    pub fn range(&self) -> ColumnRange
        ensures { result ≡ causes.file_range self.now }
    {
        match self {
            FileCause::Twice(_) => ColumnRange::FileName,
            FileCause::Second { first, .. } => use_range(first.serves_as),
            FileCause::Length { .. } => ColumnRange::RecordLength,
            FileCause::Unnamed(user)
            | FileCause::Unknown { user, .. }
            | FileCause::WrongUse { user, .. } => user_range(*user),
            FileCause::SecondForm { .. } => ColumnRange::FormFile,
            FileCause::OverflowPast { .. } => ColumnRange::OverflowLine,
        }
    }
}

fn use_range(serves_as: FileUse) -> ColumnRange
    ensures { result ≡ causes.use_range serves_as }
{
    match serves_as {
        FileUse::Primary | FileUse::Secondary => ColumnRange::FileType,
        FileUse::Printer | FileUse::Disk => ColumnRange::Device,
    }
}

fn user_range(user: FileUser) -> ColumnRange
    ensures { result ≡ causes.user_range user }
{
    match user {
        FileUser::RecordType => ColumnRange::TypeFile,
        FileUser::Line => ColumnRange::LineFile,
        FileUser::Form => ColumnRange::FormFile,
    }
}

/// F7, of the source as a whole: there is no primary file.
pub fn lacks_input(source: &IndexedCards) -> bool
    ensures { result ≡ rules.lacks_input source.now }
{
    source.file_for(FileUse::Primary).is_none()
}

/// F7: which file it is, and what is wrong with it.
pub fn file_cause(
    source: &IndexedCards,
    sheets: &Sheets,
    before: &[SpecCard],
    card: &SpecCard,
    after: &[SpecCard],
) -> Option<FileCause>
    requires split { source.now ≡ before.now ++ card.now ∷ after.now }
    requires sheets { AreSheets source.now before.now sheets.now }
    ensures cause { result ≡ causes.file_cause source.now before.now card.now }
    ensures rule { is_some result ≡ rules.breaks_files source.now before.now card.now }
{
    if let Some(file) = card.file() {
        return of_file(
            &FirstCards::before(source, before, card, after),
            before,
            file,
        );
    }
    if let Some(record_type) = card.record_type() {
        let is_following = sheets.types.is_open;
        return of_user(
            source,
            FileUser::RecordType,
            is_following,
            &record_type.file,
        );
    }
    if let Some(line) = card.line() {
        let is_following = sheets.lines.is_open;
        return of_user(source, FileUser::Line, is_following, &line.file);
    }
    of_form(source, before, card.form()?)
}

fn file_with(card: &SpecCard, file: &FileSpec) -> FileOnCard
    ensures { result ≡ causes.file_with card.now file.now }
{
    FileOnCard {
        card: card.number,
        name: Word::new(file.name.as_slice()),
        serves_as: use_of(file),
        record_length: file.record_length,
    }
}

/// Returns the file of the F card at a place.
pub fn file_at(source: &IndexedCards, place: Option<usize>) -> Option<FileOnCard>
    ensures { result ≡ causes.placed_file source.now place }
{
    let card = source.as_slice().get(place?)?;
    Some(file_with(card, card.file()?))
}

/// Returns the first file with this name.
fn file_of_name(name: &Word<8>, cards: &[SpecCard]) -> Option<FileOnCard>
    ensures file { result ≡ causes.file_of_name name.now cards.now }
    ensures known { is_some result ≡ is_some (known.file_named name.now cards.now) }
    ensures use_known { option_map (λ f. f.serves_as) result ≡ option_map known.file_use (known.file_named name.now cards.now) }
{
    for card in cards {
        match card.file() {
            Some(file) if *name == file.name => return Some(file_with(card, file)),
            _ => {}
        }
    }
    None
}

/// Returns the first file with this use.
fn file_of_use(serves_as: FileUse, cards: &[SpecCard]) -> Option<FileOnCard>
    ensures file { result ≡ causes.file_of_use serves_as cards.now }
    ensures known { is_some result ≡ is_some (known.file_for serves_as cards.now) }
{
    for card in cards {
        match card.file() {
            Some(file) if use_of(file) == serves_as => return Some(file_with(card, file)),
            _ => {}
        }
    }
    None
}

/// Returns the first file with this name before a card.
fn named_before(first: &FirstCards, before: &[SpecCard], name: &Word<8>) -> Option<FileOnCard>
    requires { first.now ≡ before.now }
    ensures file { result ≡ causes.file_of_name name.now before.now }
    ensures known { is_some result ≡ is_some (known.file_named name.now before.now) }
{
    first.file_named(name)?;
    file_of_name(name, before)
}

/// Returns the first file with this use before a card.
fn used_before(first: &FirstCards, before: &[SpecCard], serves_as: FileUse) -> Option<FileOnCard>
    requires { first.now ≡ before.now }
    ensures file { result ≡ causes.file_of_use serves_as before.now }
    ensures known { is_some result ≡ is_some (known.file_for serves_as before.now) }
{
    first.file_for(serves_as)?;
    file_of_use(serves_as, before)
}

/// Returns the first file of a source with this name.
fn file_named(source: &IndexedCards, name: &Word<8>) -> Option<FileOnCard>
    ensures file { result ≡ causes.file_of_name name.now source.now }
    ensures use_known { option_map (λ f. f.serves_as) result ≡ option_map known.file_use (known.file_named name.now source.now) }
{
    file_at(source, source.file_place(name))
}

fn of_file(first: &FirstCards, before: &[SpecCard], file: &FileSpec) -> Option<FileCause>
    requires { first.now ≡ before.now }
    ensures cause { result ≡ causes.of_file before.now file.now }
    ensures rule { is_some result ≡ rules.bad_file before.now file.now }
{
    if let Some(first) = named_before(first, before, &file.name) {
        return Some(FileCause::Twice(first));
    }
    if let Some(first) = used_before(first, before, use_of(file)) {
        let name = Word::new(file.name.as_slice());
        return Some(FileCause::Second { name, first });
    }
    of_length(use_of(file), file.record_length)
}

fn of_length(serves_as: FileUse, length: u16) -> Option<FileCause>
    ensures { result ≡ causes.of_length serves_as length }
{
    let longest = match serves_as {
        FileUse::Primary | FileUse::Secondary | FileUse::Disk => 9999,
        FileUse::Printer => 132,
    };
    if 1 <= length && length <= longest {
        return None;
    }
    Some(FileCause::Length { serves_as, length })
}

/// Whether a card of that kind may name a file of this use.
fn fits(user: FileUser, serves_as: FileUse) -> bool
    ensures { result ≡ causes.fits user serves_as }
{
    match user {
        FileUser::RecordType => matches!(serves_as, FileUse::Primary | FileUse::Secondary),
        FileUser::Line => matches!(serves_as, FileUse::Printer | FileUse::Disk),
        FileUser::Form => matches!(serves_as, FileUse::Printer),
    }
}

fn of_user(
    source: &IndexedCards,
    user: FileUser,
    is_following: bool,
    name: &Option<Word<8>>,
) -> Option<FileCause>
    ensures cause { result ≡ causes.of_user source.now user is_following name.now }
    ensures rule { is_some result ≡ rules.lacks_file source.now (causes.fits user) is_following name.now }
{
    match name {
        None if is_following => None,
        None => Some(FileCause::Unnamed(user)),
        Some(name) => of_named(source, user, name),
    }
}

fn of_named(source: &IndexedCards, user: FileUser, name: &Word<8>) -> Option<FileCause>
    ensures cause { result ≡ causes.of_named source.now user name.now }
    ensures rule { is_some result ≡ rules.lacks_named source.now (causes.fits user) name.now }
{
    match file_named(source, name) {
        None => Some(unknown(user, name)),
        Some(file) if fits(user, file.serves_as) => None,
        Some(file) => Some(FileCause::WrongUse { user, file }),
    }
}

fn of_form(source: &IndexedCards, before: &[SpecCard], form: &FormSpec) -> Option<FileCause>
    ensures cause { result ≡ causes.of_form source.now before.now form.now }
    ensures rule { is_some result ≡ rules.bad_form source.now before.now form.now }
{
    if let Some(cause) = of_named(source, FileUser::Form, &form.file) {
        return Some(cause);
    }
    if let Some(first) = first_form(before) {
        return Some(FileCause::SecondForm { card: first.number });
    }
    let (lines, line) = (form.lines.number(), form.overflow_line.number());
    if line <= lines {
        return None;
    }
    Some(FileCause::OverflowPast { line, lines })
}

/// Returns the first L card.
fn first_form(cards: &[SpecCard]) -> Option<&SpecCard>
    ensures { option_copied result ≡ rules.first_form cards.now }
{
    for card in cards {
        if card.form().is_some() {
            return Some(card);
        }
    }
    None
}

fn unknown(user: FileUser, name: &Word<8>) -> FileCause
    ensures { result ≡ causes.unknown user name.now }
{
    let name = Word::new(name.as_slice());
    FileCause::Unknown { user, name }
}

// ---- F9 of lines

/// F9 of a line: the disk file, for which it has spaces or skips.
pub fn moved_disk(
    source: &IndexedCards,
    sheets: &Sheets,
    before: &[SpecCard],
    card: &SpecCard,
) -> Option<FileOnCard>
    requires { AreSheets source.now before.now sheets.now }
    ensures cause { result ≡ option_and_then (causes.moved_disk source.now before.now) (output_record_on card.now.spec) }
    ensures rule { is_some result ≡ rules.moves_disk source.now before.now card.now }
{
    let line = card.line()?;
    if !moves(&line.movement) {
        return None;
    }
    let file = file_of_line(source, sheets, before, line)?;
    match file.serves_as {
        FileUse::Disk => Some(file),
        FileUse::Primary | FileUse::Secondary | FileUse::Printer => None,
    }
}

/// Returns the file of a line: the one that it names, or that of the previous line.
pub fn file_of_line(
    source: &IndexedCards,
    sheets: &Sheets,
    before: &[SpecCard],
    line: &OutputRecord,
) -> Option<FileOnCard>
    requires { AreSheets source.now before.now sheets.now }
    ensures file { result ≡ causes.file_of_line source.now before.now line.now.file }
    ensures disk { option_map_or (causes.serves Disk) result false ≡ option_map_or (is_for Disk) (known.file_by (option_or line.now.file (open_file output_role before.now)) source.now) false }
    ensures printer { option_map_or (causes.serves Printer) result false ≡ option_map_or (is_for Printer) (known.file_by (option_or line.now.file (open_file output_role before.now)) source.now) false }
{
    file_at(source, file_or(source, &line.file, sheets.lines.file))
}

/// Returns the columns of a line's first space or skip.
pub fn movement_range(card: &SpecCard) -> Option<ColumnRange>
    ensures { result ≡ causes.movement_range card.now }
{
    Some(first_movement(&card.line()?.movement))
}

fn first_movement(movement: &Movement) -> ColumnRange
    ensures { result ≡ causes.first_movement movement.now }
{
    if movement.space_before.is_some() {
        ColumnRange::SpaceBefore
    } else if movement.space_after.is_some() {
        ColumnRange::SpaceAfter
    } else if movement.skip_before.is_some() {
        ColumnRange::SkipBefore
    } else {
        ColumnRange::SkipAfter
    }
}

fn moves(movement: &Movement) -> bool
    ensures { result ≡ rules.moves movement.now }
{
    movement.space_before.is_some()
        || movement.space_after.is_some()
        || movement.skip_before.is_some()
        || movement.skip_after.is_some()
}
