//! Converts a record's packed and binary fields to digits, and digits to such fields.

ghost use Rattle.std.specs.Prelude.{◌≡◌, ◌++◌, ◌<◌, ◌≤◌, ℕ, List, length, not, position, None, Some, Ok, Err, IfErr, IfSome, OnErr, OnOk, drop, replicate, take, true};
ghost use Rattle.rpg_text.specs.Texts.{all_blank, is_blank};
ghost use Rattle.rpg_records.specs.Sizes.{field_digits, field_size};
ghost use Rattle.rpg_record_lines.specs.Numbers.{IsTaken, after_digits, bytes_of_digits, covered_by, digits_at, digits_in, digits_of_fields, field_text, filled, with_digits, with_number, with_numbers};
ghost use Rattle.rpg_record_lines.specs.Outcomes.{IsLineFaultOf, joined_texts};

use crate::fault::{FieldBytes, LineFault, NumberFault, RecordFault};
use rpg_records::{
    NumberField, NumberForm, binary_to_zoned, packed_to_zoned, zoned_to_binary, zoned_to_packed,
};
use rpg_text::is_blank;

/// Writes the digits of a field, given its bytes.
fn write_digits(field: &NumberField, bytes: &[u8], digits: &mut [u8]) -> Result<(), NumberFault>
    requires bytes { length bytes.now ≡ field_size field.now }
    requires digits { length digits.old ≡ field_digits field.now }
    ensures digits { OnOk result (digits_in field.now.form (field_digits field.now) bytes.now ≡ Ok digits.new) }
    ensures fault { IfErr result (λ fault. digits_in field.now.form (field_digits field.now) bytes.now ≡ Err fault) }
{
    match field.form {
        NumberForm::Packed => packed_to_zoned(bytes, digits),
        NumberForm::Binary => binary_to_zoned(bytes, digits),
    }
}

/// Appends the digits of a record's field to a line.
fn append_digits(field: &NumberField, bytes: &[u8], line: &mut Vec<u8>) -> Result<(), LineFault>
    ensures digits { OnOk result (joined_texts (Ok line.old.items) (field_text bytes.now field.now) ≡ Ok line.new.items) }
    ensures fault { IfErr result (IsLineFaultOf (field_text bytes.now field.now)) }
{
    let (start, end) = (usize::from(field.first - 1), usize::from(field.last));
    if end > bytes.len() {
        return Err(LineFault::Record(RecordFault::NoType));
    }
    let part = &bytes[start..end];
    let mut room = [0; 15];
    let digits = &mut room[..field.digit_count()];
    if let Err(fault) = write_digits(field, part, digits) {
        return Err(LineFault::Record(RecordFault::BadNumber {
            card: field.card,
            first: field.first,
            last: field.last,
            bytes: FieldBytes::new(part),
            fault,
        }));
    }
    line.extend_from_slice(digits)?;
    Ok(())
}

/// Appends the digits of all fields to a line.
#[tactic(auto, using(crate::proofs::DigitLemmas::joined_next, crate::proofs::DigitLemmas::joined_fault, crate::proofs::DigitLemmas::joined_nothing))]
pub(crate) fn append_all_digits(
    fields: &[NumberField],
    bytes: &[u8],
    line: &mut Vec<u8>,
) -> Result<(), LineFault>
    ensures digits { OnOk result (joined_texts (Ok line.old.items) (digits_of_fields bytes.now fields.now) ≡ Ok line.new.items) }
    ensures fault { IfErr result (IsLineFaultOf (joined_texts (Ok line.old.items) (digits_of_fields bytes.now fields.now))) }
{
    for field in fields {
        append_digits(field, bytes, line)?;
    }
    Ok(())
}

/// Writes the bytes of a field, given its digits.
fn write_bytes(field: &NumberField, digits: &[u8], bytes: &mut [u8]) -> Result<(), NumberFault>
    requires bytes { length bytes.old ≡ field_size field.now }
    requires digits { length digits.now ≡ field_digits field.now }
    ensures bytes { OnOk result (bytes_of_digits field.now.form (field_size field.now) digits.now ≡ Some bytes.new) }
    ensures none { OnErr result (bytes_of_digits field.now.form (field_size field.now) digits.now ≡ None) }
{
    match field.form {
        NumberForm::Packed => zoned_to_packed(digits, bytes),
        NumberForm::Binary => zoned_to_binary(digits, bytes),
    }
}

/// Writes a text, padded with blanks.
#[tactic(auto, using(crate::proofs::DigitLemmas::filled_front))]
fn fill(text: &[u8], room: &mut [u8])
    requires { room.old ≡ replicate (length room.old) 32 }
    ensures { room.new ≡ filled (length room.old) text.now }
{
    let n = text.len().min(room.len());
    room[..n].copy_from_slice(&text[..n]);
}

/// Returns a line from a place on.
#[tactic(auto, using(crate::proofs::DigitLemmas::beyond))]
fn from_place(line: &[u8], place: usize) -> &[u8]
    ensures { result.now ≡ drop place line.now }
{
    if place < line.len() {
        &line[place..]
    } else {
        &line[line.len()..]
    }
}

/// Checks that a line is blank in the columns of a field.
#[tactic(auto, using(crate::proofs::DigitLemmas::blank_room))]
fn check_covered(field: &NumberField, line: &[u8]) -> Result<(), RecordFault>
    ensures blank { OnOk result (all_blank (covered_by line.now field.now) ≡ true) }
    ensures taken { IfErr result (IsTaken line.now field.now) }
{
    let mut room = [b' '; 15];
    let covered = &mut room[..field.size()];
    fill(from_place(line, usize::from(field.first - 1)), covered);
    if is_blank(covered) {
        return Ok(());
    }
    Err(RecordFault::Taken {
        card: field.card,
        first: field.first,
        last: field.last,
        characters: FieldBytes::new(covered),
    })
}

/// Writes the bytes of a line's digits. The digits are at a place counted from 0; after the line's end they are blanks.
#[tactic(auto, using(crate::proofs::DigitLemmas::blank_room))]
fn write_digits_at(
    field: &NumberField,
    line: &[u8],
    place: usize,
    bytes: &mut [u8],
) -> Result<(), RecordFault>
    requires inside { field.now.last ≤ length bytes.old }
    ensures bytes { OnOk result (with_digits field.now place bytes.old (digits_at line.now place field.now) ≡ Ok bytes.new) }
    ensures fault { IfErr result (λ fault. with_digits field.now place bytes.old (digits_at line.now place field.now) ≡ Err fault) }
{
    let (start, end) = (usize::from(field.first - 1), usize::from(field.last));
    let mut room = [b' '; 15];
    let digits = &mut room[..field.digit_count()];
    fill(from_place(line, place), digits);
    if is_blank(digits) || write_bytes(field, digits, &mut bytes[start..end]).is_err() {
        return Err(RecordFault::BadDigits {
            card: field.card,
            first: place.saturating_add(1),
            last: place.saturating_add(field.digit_count()),
            digits: FieldBytes::new(digits),
        });
    }
    Ok(())
}

/// Writes the bytes of a field into a record, given its line.
fn write_number(
    field: &NumberField,
    line: &[u8],
    place: usize,
    bytes: &mut [u8],
) -> Result<(), RecordFault>
    ensures bytes { OnOk result (with_number line.now place bytes.old field.now ≡ Ok bytes.new) }
    ensures fault { IfErr result (λ fault. with_number line.now place bytes.old field.now ≡ Err fault) }
{
    if usize::from(field.last) > bytes.len() {
        return Err(RecordFault::NoType);
    }
    check_covered(field, line)?;
    write_digits_at(field, line, place, bytes)
}

/// Returns the place of the first character that isn't blank.
fn first_filled(text: &[u8]) -> Option<usize>
    ensures place { result ≡ position (λ c. not (is_blank c)) text.now }
    ensures within { IfSome result (λ place. place < length text.now) }
{
    text.iter().position(|byte| *byte != b' ')
}

/// Checks that a line has blanks alone from a place on.
fn check_rest(line: &[u8], place: usize) -> Result<(), RecordFault>
    ensures none { OnOk result ((r : List ℕ) → after_digits line.now place r ≡ Ok r) }
    ensures left { IfErr result (λ fault. (r : List ℕ) → after_digits line.now place r ≡ Err fault) }
{
    let rest = from_place(line, place);
    match first_filled(rest) {
        Some(k) => Err(RecordFault::NoPlace {
            column: place.saturating_add(k).saturating_add(1),
            byte: rest[k],
        }),
        None => Ok(()),
    }
}

/// Writes the bytes of all digits of a line into a record. The digits follow its columns, and nothing follows them.
pub(crate) fn write_numbers(
    fields: &[NumberField],
    line: &[u8],
    bytes: &mut [u8],
) -> Result<(), RecordFault>
    ensures bytes { OnOk result (with_numbers line.now fields.now (length bytes.old) bytes.old ≡ Ok bytes.new) }
    ensures fault { IfErr result (λ fault. with_numbers line.now fields.now (length bytes.old) bytes.old ≡ Err fault) }
{
    let mut place = bytes.len();
    for field in fields {
        write_number(field, line, place, bytes)?;
        place = place.saturating_add(field.digit_count());
    }
    check_rest(line, place)
}
