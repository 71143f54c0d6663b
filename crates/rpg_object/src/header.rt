//! The header: the numbers of a program before its tables.

ghost use Rattle.std.specs.Prelude.{◌≡◌, ◌++◌, None, OnOk, Result, false};
ghost use Rattle.rpg_object_format.specs.declared.fault.Code.{Code};
ghost use Rattle.rpg_object_format.specs.Format.{read_two};
ghost use Rattle.rpg_object_format.specs.Numbers.{allowed, choice};
ghost use Rattle.rpg_object_format.specs.Reading.{ReadsAs};
ghost use Rattle.rpg_paper.specs.Paper.{standard_page};
ghost use Rattle.rpg_program.specs.Object.{has_page, has_secondary};
ghost use Rattle.rpg_text.specs.Texts.{is_between};
ghost use Rattle.rpg_object.specs.Header as spec;
ghost use Rattle.rpg_object.specs.Header.{overflow_of, version_of};

use rpg_object_format::fault::{Code, ReadFault};
use rpg_object_format::indicator::indicator_number;
use rpg_object_format::number::{
    count_at, number_at, number_between_at, only_number_at, put_numbers,
};
use rpg_paper::Page;
use rpg_program::input::InputFile;
use rpg_program::rows::Version;
use std::alloc::AllocError;

/// The most instructions of a program, in all its sections together.
pub const INSTRUCTIONS: u16 = 8_192;

/// The settings of a program of each version: its allowance, the lengths of its files, and its overflow indicator.
#[derive(Clone, Copy)]
pub struct Settings {
    pub allowance: u16,
    pub record_length: u16,
    pub printer_length: u16,
    pub disk_length: u16,
    pub overflow: Option<u8>,
}

/// How many rows each table has.
#[derive(Clone, Copy)]
pub struct Counts {
    pub fields: u16,
    pub types: u16,
    pub lines: u16,
    pub detail: u16,
    pub total: u16,
    pub subroutines: u16,
}

/// The header of an object program, 32 bytes including the name, and 38 in version 3.
#[derive(Clone, Copy)]
pub struct Header {
    pub version: Version,
    pub settings: Settings,
    pub counts: Counts,
    /// 0 if there is no secondary file.
    pub secondary_length: u16,
    pub page: Page,
    /// The file that ends the job alone.
    pub ends: Option<InputFile>,
}

fn version_of(n: u16) -> Result<Version, Code>
    ensures { result ≡ version_of n }
{
    match n {
        1 => Ok(Version::One),
        2 => Ok(Version::Two),
        3 => Ok(Version::Three),
        _ => Err(Code::Version),
    }
}

#[tactic(auto, unfolding(rpg_object_format::specs::Format::read_two))]
fn version_at(bytes: &[u8]) -> Result<(Version, &[u8]), ReadFault>
    ensures { ReadsAs (λ x. (x.0, x.1.now)) result (read_two version_of bytes.now) }
{
    number_at(bytes, version_of)
}

#[tactic(auto, unfolding(rpg_object_format::specs::Format::two_bytes, rpg_object_format::specs::Shapes::row_where))]
fn secondary_length_at(version: Version, bytes: &[u8]) -> Result<(u16, &[u8]), ReadFault>
    ensures { ReadsAs (λ x. (x.0, x.1.now)) result ((spec.secondary_length version).reading bytes.now) }
{
    if version.has_secondary() {
        return number_between_at(bytes, 0, 9_999);
    }
    let (_, rest) = only_number_at(bytes, 0, Code::Unused)?;
    Ok((0, rest))
}

// ---- the form and the ending file

fn line_between(first: u8, last: u8, n: u16) -> Result<u8, Code>
    ensures { result ≡ allowed (is_between first last) n }
{
    if u16::from(first) <= n && n <= u16::from(last) {
        Ok(n as u8)
    } else {
        Err(Code::NotAllowed)
    }
}

/// Reads the number of a line between two.
#[tactic(auto, unfolding(rpg_object_format::specs::Format::read_two))]
fn line_at(bytes: &[u8], first: u8, last: u8) -> Result<(u8, &[u8]), ReadFault>
    ensures { ReadsAs (λ x. (x.0, x.1.now)) result (read_two (allowed (is_between first last)) bytes.now) }
{
    number_at(bytes, |n| line_between(first, last, n))
}

#[tactic(auto, unfolding(rpg_object_format::specs::Format::two_bytes, rpg_object_format::specs::Format::pair, rpg_object_format::specs::Format::row, rpg_object_format::specs::Shapes::row_where, rpg_object_format::specs::Shapes::no_number, crate::specs::Header::page_numbers))]
fn page_at(version: Version, bytes: &[u8]) -> Result<(Page, &[u8]), ReadFault>
    ensures { ReadsAs (λ x. (x.0, x.1.now)) result ((spec.page_format version).reading bytes.now) }
{
    if !version.has_page() {
        return Ok((Page::standard(), bytes));
    }
    let (lines, rest) = line_at(bytes, 3, 112)?;
    let (overflow_line, rest) = line_at(rest, 1, lines)?;
    Ok((
        Page {
            lines,
            overflow_line,
        },
        rest,
    ))
}

fn ending_of(secondary_length: u16, n: u16) -> Result<Option<InputFile>, Code>
    ensures { result ≡ choice (spec.endings secondary_length) spec.ending_number n }
{
    match n {
        0 => Ok(None),
        1 if secondary_length != 0 => Ok(Some(InputFile::Primary)),
        2 if secondary_length != 0 => Ok(Some(InputFile::Secondary)),
        _ => Err(Code::NotAllowed),
    }
}

fn ending_number(ends: Option<InputFile>) -> u16
    ensures { result ≡ spec.ending_number ends }
{
    match ends {
        None => 0,
        Some(InputFile::Primary) => 1,
        Some(InputFile::Secondary) => 2,
    }
}

#[tactic(auto, unfolding(rpg_object_format::specs::Format::read_two, rpg_object_format::specs::Format::two_bytes, rpg_object_format::specs::Shapes::row_where, rpg_object_format::specs::Shapes::no_number))]
fn ends_at(
    version: Version,
    secondary_length: u16,
    bytes: &[u8],
) -> Result<(Option<InputFile>, &[u8]), ReadFault>
    ensures { ReadsAs (λ x. (x.0, x.1.now)) result ((spec.ends_format version secondary_length).reading bytes.now) }
{
    if version.has_page() {
        number_at(bytes, |n| ending_of(secondary_length, n))
    } else {
        Ok((None, bytes))
    }
}

/// Writes the page and the ending file, in a version that has them.
#[tactic(auto, unfolding(rpg_object_format::specs::Format::two_bytes, rpg_object_format::specs::Format::pair, rpg_object_format::specs::Format::row, rpg_object_format::specs::Shapes::row_where, rpg_object_format::specs::Shapes::no_number, crate::specs::Header::page_numbers))]
fn put_page(out: &mut Vec<u8>, header: Header) -> Result<(), AllocError>
    ensures { OnOk result (out.new.items ≡ out.old.items ++ spec.page_text header) }
{
    if !header.version.has_page() {
        return Ok(());
    }
    let numbers = [
        u16::from(header.page.lines),
        u16::from(header.page.overflow_line),
        ending_number(header.ends),
    ];
    put_numbers(out, &numbers)
}

// ---- settings and counts

fn overflow_of(n: u16) -> Result<Option<u8>, Code>
    ensures { result ≡ overflow_of n }
{
    match n {
        0 => Ok(None),
        112..=119 => Ok(Some(n as u8)),
        _ => Err(Code::NotAllowed),
    }
}

#[tactic(auto, unfolding(rpg_object_format::specs::Format::read_two))]
fn overflow_at(bytes: &[u8]) -> Result<(Option<u8>, &[u8]), ReadFault>
    ensures { ReadsAs (λ x. (x.0, x.1.now)) result (read_two overflow_of bytes.now) }
{
    number_at(bytes, overflow_of)
}

#[tactic(auto, unfolding(rpg_object_format::specs::Format::two_bytes, rpg_object_format::specs::Format::pair, rpg_object_format::specs::Format::row, crate::specs::Header::settings))]
fn settings_at(bytes: &[u8]) -> Result<(Settings, &[u8]), ReadFault>
    ensures { ReadsAs (λ x. (x.0, x.1.now)) result (spec.settings.reading bytes.now) }
{
    let (allowance, rest) = number_between_at(bytes, 1, 65_535)?;
    let (record_length, rest) = number_between_at(rest, 1, 9_999)?;
    let (printer_length, rest) = number_between_at(rest, 0, 132)?;
    let (disk_length, rest) = number_between_at(rest, 0, 9_999)?;
    let (overflow, rest) = overflow_at(rest)?;
    Ok((
        Settings {
            allowance,
            record_length,
            printer_length,
            disk_length,
            overflow,
        },
        rest,
    ))
}

#[tactic(auto, unfolding(rpg_object_format::specs::Format::two_bytes, rpg_object_format::specs::Format::pair, rpg_object_format::specs::Format::row, crate::specs::Header::counts))]
fn counts_at(bytes: &[u8]) -> Result<(Counts, &[u8]), ReadFault>
    ensures { ReadsAs (λ x. (x.0, x.1.now)) result (spec.counts.reading bytes.now) }
{
    let (fields, rest) = count_at(bytes, 4_000)?;
    let (types, rest) = count_at(rest, 200)?;
    let (lines, rest) = count_at(rest, 1_000)?;
    let (detail, rest) = count_at(rest, INSTRUCTIONS)?;
    let (total, rest) = count_at(rest, INSTRUCTIONS.saturating_sub(detail))?;
    let (subroutines, rest) = count_at(rest, 100)?;
    Ok((
        Counts {
            fields,
            types,
            lines,
            detail,
            total,
            subroutines,
        },
        rest,
    ))
}

/// Reads the header after the name.
#[tactic(auto, unfolding(rpg_object_format::specs::Format::two_bytes, rpg_object_format::specs::Format::pair, rpg_object_format::specs::Format::row, crate::specs::Header::header_format))]
pub fn header_at(bytes: &[u8]) -> Result<(Header, &[u8]), ReadFault>
    ensures { ReadsAs (λ x. (x.0, x.1.now)) result (spec.header_format.reading bytes.now) }
{
    let (version, rest) = version_at(bytes)?;
    let (settings, rest) = settings_at(rest)?;
    let (counts, rest) = counts_at(rest)?;
    let (secondary_length, rest) = secondary_length_at(version, rest)?;
    let (page, rest) = page_at(version, rest)?;
    let (ends, rest) = ends_at(version, secondary_length, rest)?;
    Ok((
        Header {
            version,
            settings,
            counts,
            secondary_length,
            page,
            ends,
        },
        rest,
    ))
}

/// Writes the header after the name.
pub fn put_header(out: &mut Vec<u8>, header: Header) -> Result<(), AllocError>
    requires { has_secondary header.version ≡ false → header.secondary_length ≡ 0 }
    ensures { OnOk result (out.new.items ≡ out.old.items ++ spec.header_format.spelling header) }
{
    let settings = header.settings;
    let counts = header.counts;
    let numbers = [
        header.version.number(),
        settings.allowance,
        settings.record_length,
        settings.printer_length,
        settings.disk_length,
        u16::from(indicator_number(settings.overflow)),
        counts.fields,
        counts.types,
        counts.lines,
        counts.detail,
        counts.total,
        counts.subroutines,
        header.secondary_length,
    ];
    put_numbers(out, &numbers)?;
    put_page(out, header)?;
    Ok(())
}
