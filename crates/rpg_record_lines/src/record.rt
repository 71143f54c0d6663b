//! Converts a line to a record.

ghost use Rattle.std.specs.Prelude.{◌≡◌, ◌-◌, ◌≤◌, ◌++◌, length, replicate, Ok, Err, IfErr, OnOk};
ghost use Rattle.rpg_record_lines.specs.Outcomes.{IsLineFaultOf};
ghost use Rattle.rpg_record_lines.specs.Records.{bytes_of_characters};

use crate::fault::{LineFault, RecordFault};
use crate::line::Converter;
use crate::numbers::write_numbers;
use rpg_records::{RecordType, card_of, is_card};
use rpg_text::{is_character, trimmed};
use std::alloc::AllocError;

impl<'a> Converter<'a> {
    ghost use Rattle.rpg_record_lines.specs.Converters.{checked_by, page_of_records, record_by, typed_by};

    /// Writes the bytes of a line's first columns, blanks included.
    #[tactic(auto, using(crate::proofs::DigitLemmas::joined_empty, crate::proofs::DigitLemmas::joined_nothing, crate::proofs::RecordLemmas::bytes_next, crate::proofs::RecordLemmas::bytes_bad))]
    fn write_characters(&self, columns: &[u8], bytes: &mut [u8]) -> Result<(), RecordFault>
        requires { length columns.now ≡ length bytes.old }
        ensures bytes { OnOk result (bytes_of_characters (page_of_records self.now) 0 columns.now ≡ Ok bytes.new) }
        ensures fault { IfErr result (λ fault. bytes_of_characters (page_of_records self.now) 0 columns.now ≡ Err fault) }
    {
        for (place, character) in columns.iter().enumerate() {
            if !is_character(*character) {
                return Err(RecordFault::NoCharacter {
                    column: place + 1,
                    byte: *character,
                });
            }
            bytes[place] = self.byte_of(*character);
        }
        Ok(())
    }

    /// Checks that a record is of the type of its line.
    fn check_record(&self, kind: &RecordType, bytes: &[u8]) -> Result<(), RecordFault>
        ensures same { OnOk result (checked_by self.now kind.now bytes.now ≡ Ok bytes.now) }
        ensures other { IfErr result (λ fault. checked_by self.now kind.now bytes.now ≡ Err fault) }
    {
        let found = self.type_of_record(bytes);
        if is_card(kind.card, found) {
            return Ok(());
        }
        Err(RecordFault::OtherRecord {
            card: kind.card,
            other: card_of(found),
        })
    }

    /// Writes the record of a line of a type. The line has all columns of a record.
    fn write_typed_record(
        &self,
        kind: &RecordType,
        columns: &[u8],
        line: &[u8],
        bytes: &mut [u8],
    ) -> Result<(), RecordFault>
        requires { length columns.now ≡ length bytes.old }
        ensures bytes { OnOk result (typed_by self.now columns.now line.now kind.now ≡ Ok bytes.new) }
        ensures fault { IfErr result (λ fault. typed_by self.now columns.now line.now kind.now ≡ Err fault) }
    {
        self.write_characters(columns, bytes)?;
        write_numbers(kind.numbers.as_slice(), line, bytes)?;
        self.check_record(kind, bytes)
    }

    /// Replaces `bytes` by the record of a line, which is padded with blanks to the record's columns.
    ///
    /// # Errors
    ///
    /// The line has no record, or memory ran out. What was written is then unusable.
    pub fn write_record(&self, line: &mut Vec<u8>, bytes: &mut Vec<u8>) -> Result<(), LineFault>
        ensures bytes { OnOk result (record_by self.now line.old.items ≡ Ok bytes.new.items) }
        ensures fault { IfErr result (IsLineFaultOf (record_by self.now line.old.items)) }
    {
        let length = self.length();
        bytes.resize(length, 0)?;
        pad(line, length, b' ')?;
        let wide = line.as_slice();
        let columns = &wide[..length];
        let Some(kind) = self.type_of_line(columns) else {
            return Err(LineFault::Record(RecordFault::NoType));
        };
        match self.write_typed_record(kind, columns, trimmed(wide), bytes.as_mut_slice()) {
            Ok(()) => Ok(()),
            Err(fault) => Err(LineFault::Record(fault)),
        }
    }
}

/// Pads a text with a byte to `columns` bytes.
pub(crate) fn pad(text: &mut Vec<u8>, columns: usize, byte: u8) -> Result<(), AllocError>
    ensures padded { OnOk result (text.new.items ≡ text.old.items ++ replicate (columns - length text.old.items) byte) }
    ensures long { OnOk result (columns ≤ length text.new.items) }
{
    if text.len() < columns {
        text.resize(columns, byte)?;
    }
    Ok(())
}
