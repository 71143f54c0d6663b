//! Converts a record to a line.

ghost use Rattle.std.specs.Prelude.{◌≡◌, ◌==◌, false, true, length, position, Err, IfErr, IfSome, Ok, OnOk, option_map};
ghost use Rattle.rpg_record_lines.specs.Lines.{IsOtherLine, unless_bad};
ghost use Rattle.rpg_record_lines.specs.Outcomes.{IsLineFaultOf};
ghost use Rattle.rpg_records.specs.Types.{is_card};
ghost use Rattle.rpg_records.specs.Translations.{is_low_blank, page_of};
ghost use Rattle.rpg_records.specs.declared.translation.Page.TheVariants as pages;

use crate::fault::{LineFault, RecordFault};
use crate::numbers::append_all_digits;
use rpg_records::{Layout, Page, RecordType, Translation, card_of, first_type, is_card};
use rpg_text::trimmed;

/// Returns the first column without a character.
fn missing_in(columns: &[u8]) -> Option<usize>
    ensures { result ≡ position (λ c. c == 0) columns.now }
{
    columns.iter().position(|character| *character == 0)
}

/// Rejects the first byte that isn't a character of its column: its character is 0 there.
#[tactic(auto, using(crate::proofs::LineLemmas::place_within))]
fn bad_character(bytes: &[u8], columns: &[u8]) -> Result<(), RecordFault>
    requires { length bytes.now ≡ length columns.now }
    ensures valid { OnOk result (unless_bad bytes.now columns.now (position (λ c. c == 0) columns.now) ≡ Ok columns.now) }
    ensures bad { IfErr result (λ fault. unless_bad bytes.now columns.now (position (λ c. c == 0) columns.now) ≡ Err fault) }
{
    match missing_in(columns) {
        Some(place) => Err(RecordFault::NoCharacter {
            column: place + 1,
            byte: bytes[place],
        }),
        None => Ok(()),
    }
}

/// Converts records of a layout to lines.
#[derive(Drop)]
pub struct Converter<'a> {
    layout: &'a Layout,
    records: Translation,
    /// The translation of lines, whose characters are unchanged.
    lines: Translation,
    ghost plain: { page_of lines ≡ pages.Ascii },
    ghost strict: { is_low_blank lines ≡ false },
}

impl<'a> Converter<'a> {
    ghost use Rattle.std.specs.Prelude.{IsTrue};
    ghost use Rattle.rpg_text.specs.Texts.{is_character};
    ghost use Rattle.rpg_records.specs.Columns.{page_byte};
    ghost use Rattle.rpg_record_lines.specs.Converters.{characters_by, is_low_blank_of, converter_length, line_by, page_of_records, type_again, record_type_of, converter_types, whole_line_by};

    /// With `low_blank`, a byte 0 of a record is a blank.
    pub fn new(layout: &'a Layout, page: Page, low_blank: bool) -> Self
        ensures types { converter_types result ≡ layout.now.types.items }
        ensures length { converter_length result ≡ layout.now.length }
        ensures page { page_of_records result ≡ page }
        ensures low_blank { is_low_blank_of result ≡ low_blank }
    {
        Converter {
            layout,
            records: Translation::new(page, low_blank),
            lines: Translation::new(Page::Ascii, false),
        }
    }

    /// Returns the length of a record.
    pub(crate) fn length(&self) -> usize
        ensures { result ≡ converter_length self.now }
    {
        usize::from(self.layout.length)
    }

    /// Returns the byte of a character in a record.
    pub fn byte_of(&self, character: u8) -> u8
        requires { IsTrue (is_character character) }
        ensures { result ≡ page_byte (page_of_records self.now) character }
    {
        self.records.byte_of(character)
    }

    /// Returns the type that a record belongs to.
    pub(crate) fn type_of_record(&self, bytes: &[u8]) -> Option<&RecordType>
        ensures value { option_map (λ kind. kind.now) result ≡ record_type_of self.now bytes.now }
        ensures length { IfSome result (λ kind. length kind.now.columns.items ≡ length bytes.now) }
    {
        first_type(&self.records, bytes, self.types())
    }

    /// Returns the type that a line belongs to, by its first columns.
    pub(crate) fn type_of_line(&self, columns: &[u8]) -> Option<&RecordType>
        ensures value { option_map (λ kind. kind.now) result ≡ type_again self.now columns.now }
        ensures length { IfSome result (λ kind. length kind.now.columns.items ≡ length columns.now) }
    {
        first_type(&self.lines, columns, self.types())
    }

    fn types(&self) -> &[RecordType]
        ensures { result.now ≡ converter_types self.now }
    {
        self.layout.types.as_slice()
    }

    /// Writes the characters of a record's columns.
    #[tactic(auto, using(crate::proofs::LineLemmas::all_characters))]
    fn write_columns(
        &self,
        kind: &RecordType,
        bytes: &[u8],
        line: &mut Vec<u8>,
    ) -> Result<(), LineFault>
        requires { length kind.now.columns.items ≡ length bytes.now }
        ensures characters { OnOk result (characters_by self.now kind.now bytes.now ≡ Ok line.new.items) }
        ensures fault { IfErr result (IsLineFaultOf (characters_by self.now kind.now bytes.now)) }
    {
        line.resize(bytes.len(), 0)?;
        let columns = kind.columns.as_slice();
        let are_all = self
            .records
            .write_image(columns, bytes, line.as_mut_slice());
        if are_all {
            return Ok(());
        }
        match bad_character(bytes, line.as_slice()) {
            Ok(()) => Ok(()),
            Err(fault) => Err(LineFault::Record(fault)),
        }
    }

    /// Checks that a record's characters give the same type again.
    fn check_type(&self, kind: &RecordType, columns: &[u8]) -> Result<(), RecordFault>
        ensures same { OnOk result (is_card kind.now.card (type_again self.now columns.now) ≡ true) }
        ensures other { IfErr result (IsOtherLine kind.now (type_again self.now columns.now)) }
    {
        let found = self.type_of_line(columns);
        if is_card(kind.card, found) {
            return Ok(());
        }
        Err(RecordFault::OtherLine {
            card: kind.card,
            other: card_of(found),
        })
    }

    /// Writes the line of a record of a type, including trailing blanks.
    fn write_whole_line(
        &self,
        kind: &RecordType,
        bytes: &[u8],
        line: &mut Vec<u8>,
    ) -> Result<(), LineFault>
        requires { length kind.now.columns.items ≡ length bytes.now }
        ensures line { OnOk result (whole_line_by self.now kind.now bytes.now ≡ Ok line.new.items) }
        ensures fault { IfErr result (IsLineFaultOf (whole_line_by self.now kind.now bytes.now)) }
    {
        self.write_columns(kind, bytes, line)?;
        if let Err(fault) = self.check_type(kind, line.as_slice()) {
            return Err(LineFault::Record(fault));
        }
        append_all_digits(kind.numbers.as_slice(), bytes, line)
    }

    /// Replaces a text by the line of a record, without a line feed.
    ///
    /// # Errors
    ///
    /// The record has no line, or memory ran out. The text is then unusable.
    pub fn write_line(&self, bytes: &[u8], line: &mut Vec<u8>) -> Result<(), LineFault>
        ensures line { OnOk result (line_by self.now bytes.now ≡ Ok line.new.items) }
        ensures fault { IfErr result (IsLineFaultOf (line_by self.now bytes.now)) }
    {
        let Some(kind) = self.type_of_record(bytes) else {
            return Err(LineFault::Record(RecordFault::NoType));
        };
        self.write_whole_line(kind, bytes, line)?;
        let length = trimmed(line.as_slice()).len();
        line.truncate(length);
        Ok(())
    }
}
