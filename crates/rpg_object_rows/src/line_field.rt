//! The fields of output lines, 16 bytes each.

ghost use Rattle.std.specs.Prelude.{◌≡◌, ℕ, ◌++◌};
ghost use Rattle.rpg_program.specs.declared.line.LineField as spec;
ghost use Rattle.rpg_object_format.specs.Format.{read_byte};
ghost use Rattle.rpg_object_format.specs.Reading.{ReadsAs};
ghost use Rattle.rpg_program.specs.Kept.{IsLineFieldRow};
ghost use Rattle.rpg_object_rows.specs.Lines as rows;

use crate::letter::{editing_of, letter_at, letter_in, letter_number, word_field_at, word_in};
use crate::table::Row;
use rpg_edit_marks::Fill;
use rpg_object_format::condition::{conditions_at, indicators_of, negations_of};
use rpg_object_format::fault::{Code, ReadFault};
use rpg_object_format::indicator::indicator_number;
use rpg_object_format::number::{any_number_at, byte_at, flag_at, flag_number, high, low};
use rpg_object_format::operand::{index_number, operand_at};
use rpg_program::line::{LineField, Source};
use std::alloc::{AllocError, Global};

fn source_of(n: u8) -> Result<Source, Code>
    ensures { result ≡ rows.source_by_number n }
{
    match n {
        1 => Ok(Source::Value),
        2 => Ok(Source::Page),
        _ => Err(Code::NotAllowed),
    }
}

fn source_number(source: Source) -> u8
    ensures { result ≡ rows.source_number source }
{
    match source {
        Source::Value => 1,
        Source::Page => 2,
    }
}

#[tactic(auto, unfolding(rpg_object_format::specs::Format::read_byte))]
fn source_at(bytes: &[u8]) -> Result<(Source, &[u8]), ReadFault>
    ensures { ReadsAs (λ x. (x.0, x.1.now)) result (read_byte rows.source_by_number bytes.now) }
{
    byte_at(bytes, source_of)
}

fn fill_of(n: u8) -> Result<Fill, Code>
    ensures { result ≡ rows.fill_by_number n }
{
    match n {
        0 => Ok(Fill::Blank),
        b'*' => Ok(Fill::Star),
        b'$' => Ok(Fill::Dollar),
        _ => Err(Code::NotAllowed),
    }
}

fn fill_number(fill: Fill) -> u8
    ensures { result ≡ rows.fill_number fill }
{
    match fill {
        Fill::Blank => 0,
        Fill::Star => b'*',
        Fill::Dollar => b'$',
    }
}

#[tactic(auto, unfolding(rpg_object_format::specs::Format::read_byte))]
fn fill_at(bytes: &[u8]) -> Result<(Fill, &[u8]), ReadFault>
    ensures { ReadsAs (λ x. (x.0, x.1.now)) result (read_byte rows.fill_by_number bytes.now) }
{
    byte_at(bytes, fill_of)
}

#[tactic(auto, unfolding(rpg_object_format::specs::Format::byte, rpg_object_format::specs::Format::two_bytes, rpg_object_format::specs::Format::pair, rpg_object_format::specs::Format::row, crate::specs::Lines::line_field_parts, crate::specs::Lines::line_field))]
fn line_field_at(bytes: &[u8]) -> Result<(LineField<u16>, &[u8]), ReadFault>
    ensures { ReadsAs (λ x. (x.0, x.1.now)) result (rows.line_field.reading bytes.now) }
{
    let (source, rest) = source_at(bytes)?;
    let (letter, rest) = letter_at(rest)?;
    let (fill, rest) = fill_at(rest)?;
    let (is_blanked, rest) = flag_at(rest)?;
    let (operand, rest) = operand_at(rest)?;
    let (word, rest) = word_field_at(rest, letter)?;
    let (end, rest) = any_number_at(rest)?;
    let (conditions, rest) = conditions_at(rest)?;
    Ok((
        LineField {
            source,
            operand,
            editing: editing_of(letter, word),
            fill,
            is_blanked,
            end,
            conditions,
        },
        rest,
    ))
}

impl Row for LineField<u16> {
    ghost Seen = { spec.LineField ℕ };

    ghost seen = { λ f. f };

    ghost Keeps = { IsLineFieldRow };

    ghost read = { rows.line_field.reading };

    ghost spell = { rows.line_field.spelling };

    fn read_row(_alloc: Global, bytes: &[u8]) -> Result<(Self, &[u8]), ReadFault> {
        line_field_at(bytes)
    }

    #[tactic(auto, unfolding(rpg_object_format::specs::Format::byte, rpg_object_format::specs::Format::two_bytes, rpg_object_format::specs::Format::pair, rpg_object_format::specs::Format::row, rpg_object_format::specs::Indicators::shows_format, rpg_object_format::specs::Indicators::conditions_format, rpg_object_format::specs::Operands::operand, crate::specs::Lines::line_field_parts, crate::specs::Lines::line_field))]
    fn put_row(&self, out: &mut Vec<u8>) -> Result<(), AllocError> {
        let index = index_number(self.operand.index);
        let word = word_in(self.editing);
        let shows = indicators_of(self.conditions);
        let row = [
            source_number(self.source),
            letter_number(letter_in(self.editing)),
            fill_number(self.fill),
            flag_number(self.is_blanked),
            high(self.operand.field),
            low(self.operand.field),
            high(index),
            low(index),
            high(word),
            low(word),
            high(self.end),
            low(self.end),
            indicator_number(shows.plus),
            indicator_number(shows.minus),
            indicator_number(shows.zero),
            negations_of(self.conditions),
        ];
        out.extend_from_slice(&row)?;
        Ok(())
    }
}
