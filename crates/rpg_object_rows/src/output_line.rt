//! Output lines, with their alternatives and fields.

ghost use Rattle.std.specs.Prelude.{◌≡◌, ℕ, List, ◌++◌, ◌≤◌, All, length, map, OnOk};
ghost use Rattle.rpg_program.specs.declared.condition.Condition as spec;
ghost use Rattle.rpg_object_format.specs.Format.{read_byte, read_two, table};
ghost use Rattle.rpg_object_format.specs.Numbers.{allowed, is_any_number};
ghost use Rattle.rpg_object_format.specs.Reading.{ReadsAs};
ghost use Rattle.rpg_program.specs.Kept.{IsAlternativeRow, IsLineRow};
ghost use Rattle.rpg_program.specs.Object.{LineRow, line_row};
ghost use Rattle.rpg_object_format.specs.Indicators.{alternative};
ghost use Rattle.rpg_object_rows.specs.Lines as rows;

use crate::table::{Row, put_rows, rows_at};
use rpg_object_format::fault::{Code, ReadFault};
use rpg_object_format::number::{byte_at, count_at, high, low, number_at, only_number_at};
use rpg_program::condition::Condition;
use rpg_program::line::{File, Spacing, Time};
use rpg_program::rows::Line;
use std::alloc::{AllocError, Global};

fn file_of(n: u8) -> Result<File, Code>
    ensures { result ≡ rows.file_by_number n }
{
    match n {
        1 => Ok(File::Printer),
        2 => Ok(File::Disk),
        _ => Err(Code::NotAllowed),
    }
}

fn file_number(file: File) -> u8
    ensures { result ≡ rows.file_number file }
{
    match file {
        File::Printer => 1,
        File::Disk => 2,
    }
}

#[tactic(auto, unfolding(rpg_object_format::specs::Format::read_byte))]
fn file_at(bytes: &[u8]) -> Result<(File, &[u8]), ReadFault>
    ensures { ReadsAs (λ x. (x.0, x.1.now)) result (read_byte rows.file_by_number bytes.now) }
{
    byte_at(bytes, file_of)
}

fn time_of(n: u8) -> Result<Time, Code>
    ensures { result ≡ rows.time_by_number n }
{
    match n {
        1 => Ok(Time::Heading),
        2 => Ok(Time::Detail),
        3 => Ok(Time::Total),
        4 => Ok(Time::Exception),
        _ => Err(Code::NotAllowed),
    }
}

fn time_number(time: Time) -> u8
    ensures { result ≡ rows.time_number time }
{
    match time {
        Time::Heading => 1,
        Time::Detail => 2,
        Time::Total => 3,
        Time::Exception => 4,
    }
}

#[tactic(auto, unfolding(rpg_object_format::specs::Format::read_byte))]
fn time_at(bytes: &[u8]) -> Result<(Time, &[u8]), ReadFault>
    ensures { ReadsAs (λ x. (x.0, x.1.now)) result (read_byte rows.time_by_number bytes.now) }
{
    byte_at(bytes, time_of)
}

/// Checks a count of alternatives: 1 to 50.
fn alternative_count(n: u16) -> Result<u16, Code>
    ensures { result ≡ rows.allowed_alternatives n }
{
    match n {
        0 => Err(Code::NotAllowed),
        1..=50 => Ok(n),
        _ => Err(Code::PastLimit),
    }
}

#[tactic(auto, unfolding(rpg_object_format::specs::Format::read_two))]
fn alternative_count_at(bytes: &[u8]) -> Result<(u16, &[u8]), ReadFault>
    ensures { ReadsAs (λ x. (x.0, x.1.now)) result (read_two rows.allowed_alternatives bytes.now) }
{
    number_at(bytes, alternative_count)
}

#[tactic(auto, unfolding(rpg_object_format::specs::Format::read_byte))]
fn any_byte_at(bytes: &[u8]) -> Result<(u8, &[u8]), ReadFault>
    ensures { ReadsAs (λ x. (x.0, x.1.now)) result (read_byte (allowed is_any_number) bytes.now) }
{
    byte_at(bytes, |n| Ok(n))
}

#[tactic(auto, unfolding(rpg_object_format::specs::Format::byte, rpg_object_format::specs::Format::pair, rpg_object_format::specs::Format::row, crate::specs::Lines::spacing))]
fn spacing_at(bytes: &[u8]) -> Result<(Spacing, &[u8]), ReadFault>
    ensures { ReadsAs (λ x. (x.0, x.1.now)) result (rows.spacing.reading bytes.now) }
{
    let (space_before, rest) = any_byte_at(bytes)?;
    let (space_after, rest) = any_byte_at(rest)?;
    let (skip_before, rest) = any_byte_at(rest)?;
    let (skip_after, rest) = any_byte_at(rest)?;
    Ok((
        Spacing {
            space_before,
            space_after,
            skip_before,
            skip_after,
        },
        rest,
    ))
}

// ---- alternatives

impl Row for Vec<Condition> {
    ghost Seen = { List spec.Condition };

    ghost seen = { λ a. a.items };

    ghost Keeps = { IsAlternativeRow };

    ghost read = { alternative.reading };

    ghost spell = { alternative.spelling };

    #[tactic(auto, unfolding(rpg_object_format::specs::Format::two_bytes, rpg_object_format::specs::Format::pair, rpg_object_format::specs::Format::row, rpg_object_format::specs::Format::times_with, rpg_object_format::specs::Indicators::alternative))]
    fn read_row(alloc: Global, bytes: &[u8]) -> Result<(Self, &[u8]), ReadFault> {
        let (count, rest) = count_at(bytes, 60)?;
        rows_at(alloc, count, rest)
    }

    #[tactic(auto, unfolding(rpg_object_format::specs::Format::two_bytes, rpg_object_format::specs::Format::pair, rpg_object_format::specs::Format::row, rpg_object_format::specs::Format::times_with, rpg_object_format::specs::Indicators::alternative))]
    fn put_row(&self, out: &mut Vec<u8>) -> Result<(), AllocError> {
        let count = self.len() as u16;
        out.extend_from_slice(&[high(count), low(count)])?;
        put_rows(self, out)
    }
}

// ---- lines

/// Reads a line. B5 if it has no alternative; B7 if it has more than 50, more than 60 conditions in one, or more than 200 fields.
#[tactic(auto, unfolding(rpg_object_format::specs::Format::byte, rpg_object_format::specs::Format::two_bytes, rpg_object_format::specs::Format::pair, rpg_object_format::specs::Format::row, rpg_object_format::specs::Format::times_with, crate::specs::Lines::line_parts, crate::specs::Lines::line))]
pub fn line_at(alloc: Global, bytes: &[u8]) -> Result<(Line, &[u8]), ReadFault>
    ensures { ReadsAs (λ x. (line_row x.0, x.1.now)) result (rows.line.reading bytes.now) }
{
    let (file, rest) = file_at(bytes)?;
    let (time, rest) = time_at(rest)?;
    let (spacing, rest) = spacing_at(rest)?;
    let (alternative_count, rest) = alternative_count_at(rest)?;
    let (field_count, rest) = count_at(rest, 200)?;
    let (_, rest) = only_number_at(rest, 0, Code::Unused)?;
    let (alternatives, rest) = rows_at(alloc, alternative_count, rest)?;
    let (fields, rest) = rows_at(alloc, field_count, rest)?;
    Ok((
        Line {
            file,
            time,
            spacing,
            alternatives,
            fields,
        },
        rest,
    ))
}

/// Writes the numbers of a line before its tables.
fn put_line_head(out: &mut Vec<u8>, line: &Line) -> Result<(), AllocError>
    requires { IsLineRow (line_row line.now) }
    ensures { OnOk result (out.new.items ≡ out.old.items ++ rows.line_head (line_row line.now)) }
{
    let alternative_count = line.alternatives.len() as u16;
    let field_count = line.fields.len() as u16;
    let row = [
        file_number(line.file),
        time_number(line.time),
        line.spacing.space_before,
        line.spacing.space_after,
        line.spacing.skip_before,
        line.spacing.skip_after,
        high(alternative_count),
        low(alternative_count),
        high(field_count),
        low(field_count),
        0,
        0,
    ];
    out.extend_from_slice(&row)?;
    Ok(())
}

/// Writes a line.
pub fn put_line(out: &mut Vec<u8>, line: &Line) -> Result<(), AllocError>
    requires { IsLineRow (line_row line.now) }
    ensures { OnOk result (out.new.items ≡ out.old.items ++ rows.line.spelling (line_row line.now)) }
{
    put_line_head(out, line)?;
    put_rows(&line.alternatives, out)?;
    put_rows(&line.fields, out)?;
    Ok(())
}

impl Row for Line {
    ghost Seen = { LineRow };

    ghost seen = { line_row };

    ghost Keeps = { IsLineRow };

    ghost read = { rows.line.reading };

    ghost spell = { rows.line.spelling };

    fn read_row(alloc: Global, bytes: &[u8]) -> Result<(Self, &[u8]), ReadFault> {
        line_at(alloc, bytes)
    }

    fn put_row(&self, out: &mut Vec<u8>) -> Result<(), AllocError> {
        put_line(out, self)
    }
}

/// Reads `count` lines. The caller checks the count.
#[tactic(auto, unfolding(rpg_object_format::specs::Format::times_with))]
pub fn lines_at(alloc: Global, count: u16, bytes: &[u8]) -> Result<(Vec<Line>, &[u8]), ReadFault>
    ensures { ReadsAs (λ x. (map line_row x.0.items, x.1.now)) result ((table count rows.line).reading bytes.now) }
{
    rows_at(alloc, count, bytes)
}

/// Writes lines.
#[tactic(auto, unfolding(rpg_object_format::specs::Format::times_with))]
pub fn put_lines(out: &mut Vec<u8>, lines: &[Line]) -> Result<(), AllocError>
    requires { All IsLineRow (map line_row lines.now) }
    ensures { OnOk result (out.new.items ≡ out.old.items ++ (table (length lines.now) rows.line).spelling (map line_row lines.now)) }
{
    put_rows(lines, out)
}
