//! The secondary files of an old deck, and the match fields of their record types.

use rpg_fit_cards::{comments, job_control};
use rpg_fit_deck::{Card, Editor, Refusal, Rule, Seen, View, Word};
use rpg_fit_files::secondary_files;
use rpg_fit_records::{or_types, zone_codes};
use rpg_fit_words::{Done, RecordType, RuleStop, file_name, record_length, record_types};
use std::alloc::{AllocError, AllocFailed, Global};

/// The first columns of a card's codes.
const CODES: [usize; 3] = [21, 28, 35];

/// The most files, one a letter.
const MOST_FILES: usize = 26;

/// A code of a record type.
#[derive(Clone, Copy)]
pub struct TypeCode {
    /// The column, from 1.
    pub column: usize,
    /// Whether the character may not stand there.
    pub is_not: bool,
    pub character: u8,
}

/// A match field of a record type.
#[derive(Clone, Copy)]
pub struct MatchField {
    pub first: usize,
    pub last: usize,
    pub is_number: bool,
}

/// A record type of a secondary file.
#[derive(Drop)]
pub struct MatchType {
    pub codes: Vec<TypeCode>,
    /// Its match fields, from M9 down to M1.
    pub fields: Vec<MatchField>,
}

/// A secondary file.
#[derive(Drop)]
pub struct SecondaryFile {
    pub name: Word,
    /// The most columns of a record.
    pub length: usize,
    pub types: Vec<MatchType>,
}

/// The secondary files of a deck, in the order of their cards.
#[derive(Drop)]
pub struct Secondaries {
    pub files: Vec<SecondaryFile>,
    /// Whether records are in descending order.
    pub is_descending: bool,
}

/// Why a deck has no files to merge.
#[derive(Clone, Copy)]
pub enum DeckStop {
    /// A rule rejects a card.
    Refused(Refusal),
    /// The length of a file isn't on its card.
    Length { card: usize },
    /// It has fewer than two secondary files, or more than 26.
    Count(usize),
    /// It has more cards than a deck may have, or memory ran out.
    NoMemory,
}

impl From<AllocError> for DeckStop {
    fn from(_: AllocError) -> Self {
        DeckStop::NoMemory
    }
}

impl<T: Drop> From<AllocFailed<T>> for DeckStop {
    fn from(_: AllocFailed<T>) -> Self {
        DeckStop::NoMemory
    }
}

/// Returns why a rule stopped.
fn stop_of(rule: Rule, stop: RuleStop) -> DeckStop {
    match stop {
        RuleStop::Refused(reason) => DeckStop::Refused(Refusal {
            card: reason.card,
            rule,
            why: reason.why,
        }),
        RuleStop::NoMemory | RuleStop::TooMany => DeckStop::NoMemory,
    }
}

/// Applies a rule to the deck.
fn apply(editor: &mut Editor, rule: Rule) -> Result<(), DeckStop> {
    editor.begin(rule);
    let outcome: Done = match rule {
        Rule::JobControl => job_control(editor),
        Rule::Comments => comments(editor),
        Rule::ZoneCodes => zone_codes(editor),
        _ => or_types(editor),
    };
    match outcome {
        Ok(()) => Ok(()),
        Err(stop) => Err(stop_of(rule, stop)),
    }
}

/// Returns the view of a deck whose types have characters as codes, and no alternatives.
fn plain_view(alloc: Global, source: &[u8]) -> Result<View, DeckStop> {
    let mut editor = Editor::new(alloc, source)?;
    for rule in [
        Rule::JobControl,
        Rule::Comments,
        Rule::ZoneCodes,
        Rule::OrTypes,
    ] {
        apply(&mut editor, rule)?;
    }
    if !editor.continues() {
        return Err(DeckStop::NoMemory);
    }
    Ok(editor.view()?)
}

/// Returns the secondary files of an old deck.
///
/// # Errors
///
/// A card is rejected, there aren't several such files, or memory runs out.
pub fn secondaries_of(alloc: Global, source: &[u8]) -> Result<Secondaries, DeckStop> {
    let view = plain_view(alloc, source)?;
    let cards = secondary_files(&view);
    let Ok(cards) = cards.checked() else {
        return Err(DeckStop::NoMemory);
    };
    if cards.len() < 2 || cards.len() > MOST_FILES {
        return Err(DeckStop::Count(cards.len()));
    }
    let Ok(types) = record_types(&view) else {
        return Err(DeckStop::NoMemory);
    };
    let mut files = Vec::new(alloc);
    let mut is_descending = false;
    for card in cards {
        files.push(file_of(alloc, card, types.as_slice())?)?;
        is_descending = is_descending || card.card.column(18) == b'D';
    }
    Ok(Secondaries {
        files,
        is_descending,
    })
}

fn file_of(alloc: Global, file: &Seen, types: &[RecordType]) -> Result<SecondaryFile, DeckStop> {
    let Some(length) = record_length(&file.card) else {
        return Err(DeckStop::Length { card: file.number });
    };
    let mut found = Vec::new(alloc);
    for kind in types {
        if kind.is_of(file_name(file)) {
            found.push(type_of(alloc, kind)?)?;
        }
    }
    Ok(SecondaryFile {
        name: Word::of(file_name(file)),
        length,
        types: found,
    })
}

fn type_of(alloc: Global, kind: &RecordType) -> Result<MatchType, AllocError> {
    let mut made = MatchType {
        codes: Vec::new(alloc),
        fields: Vec::new(alloc),
    };
    push_codes(&mut made.codes, &kind.head.card)?;
    for seen in kind.more.iter() {
        push_codes(&mut made.codes, &seen.card)?;
    }
    for level in 0..9u8 {
        push_level(&mut made.fields, kind, b'9' - level)?;
    }
    Ok(made)
}

/// Appends the codes of a card whose columns can be read.
fn push_codes(codes: &mut Vec<TypeCode>, card: &Card) -> Result<(), AllocError> {
    for first in CODES {
        if let Some(column) = card.number(first, first.saturating_add(3)) {
            codes.push(TypeCode {
                column,
                is_not: card.column(first.saturating_add(4)) == b'N',
                character: card.column(first.saturating_add(6)),
            })?;
        }
    }
    Ok(())
}

/// Appends the match fields of a level.
fn push_level(
    fields: &mut Vec<MatchField>,
    kind: &RecordType,
    level: u8,
) -> Result<(), AllocError> {
    for field in kind.fields.iter() {
        let card = &field.card;
        if card.column(61) == b'M' && card.column(62) == level {
            fields.push(MatchField {
                first: card.number(44, 47).unwrap_or(1),
                last: card.number(48, 51).unwrap_or(0),
                is_number: card.column(52) != b' ',
            })?;
        }
    }
    Ok(())
}
