//! Converts packed and binary numbers to zoned text, which rpg2 reads, and back.

ghost use Rattle.std.specs.Prelude.{◌≡◌, ◌-◌, ◌*◌, ◌^◌, ◌≤◌, length, None, Some, IfErr, OnErr, OnOk};
ghost use Rattle.rpg_decimal_words.specs.Zoned.{number_in};
ghost use Rattle.rpg_records.specs.Binary.{binary_number};
ghost use Rattle.rpg_records.specs.Packed.{packed_in};
ghost use Rattle.rpg_records.specs.Unpacked.{binary_text, bytes_of_binary_text, bytes_of_packed_text, number_text, packed_fault, packed_text};

use crate::binary::{read_binary, write_binary};
use crate::packed::{read_packed, write_packed};
use rpg_decimal::{read_zoned, write_zoned};

/// Why a number can't be converted.
#[derive(Clone, Copy)]
pub enum NumberFault {
    /// The bytes aren't a packed number.
    NotPacked,
    /// The digits aren't a number.
    NotZoned,
    /// The number has more digits than there is room for.
    TooLarge,
}

/// The powers of ten, lowest first.
const POWERS_OF_TEN: [u64; 16] = [
    1,
    10,
    100,
    1_000,
    10_000,
    100_000,
    1_000_000,
    10_000_000,
    100_000_000,
    1_000_000_000,
    10_000_000_000,
    100_000_000_000,
    1_000_000_000_000,
    10_000_000_000_000,
    100_000_000_000_000,
    1_000_000_000_000_000,
];

/// Returns ten to a power.
pub fn power_of_ten(exponent: u8) -> u64
    requires { exponent ≤ 15 }
    ensures value { result ≡ 10 ^ exponent }
    ensures few { result ≤ 10 ^ 15 }
{
    POWERS_OF_TEN[usize::from(exponent)]
}

/// Writes a number, if it has no more digits than there is room for.
fn write_number(n: i64, digits: &mut [u8]) -> Result<(), NumberFault>
    requires low { 1 ≤ length digits.old }
    requires high { length digits.old ≤ 15 }
    ensures digits { OnOk result (number_text (length digits.old) n ≡ Some digits.new) }
    ensures number { OnOk result (number_in digits.new ≡ Some n) }
    ensures fault { OnErr result (number_text (length digits.old) n ≡ None) }
    ensures reason { IfErr result (λ fault. fault ≡ NumberFault.TooLarge) }
{
    if n.unsigned_abs() >= power_of_ten(digits.len() as u8) {
        return Err(NumberFault::TooLarge);
    }
    write_zoned(n, digits);
    Ok(())
}

/// Writes the digits of a packed number. There may be fewer than its bytes have.
pub fn packed_to_zoned(bytes: &[u8], digits: &mut [u8]) -> Result<(), NumberFault>
    requires low { 1 ≤ length bytes.now }
    requires high { length bytes.now ≤ 8 }
    requires some { 1 ≤ length digits.old }
    requires few { length digits.old ≤ 15 }
    ensures digits { OnOk result (packed_text (length digits.old) bytes.now ≡ Some digits.new) }
    ensures number { OnOk result (number_in digits.new ≡ packed_in bytes.now) }
    ensures fault { OnErr result (packed_text (length digits.old) bytes.now ≡ None) }
    ensures reason { IfErr result (λ fault. fault ≡ packed_fault bytes.now) }
{
    match read_packed(bytes) {
        Some(n) => write_number(n, digits),
        None => Err(NumberFault::NotPacked),
    }
}

/// Writes digits as a packed number. There may be fewer than its bytes have.
pub fn zoned_to_packed(digits: &[u8], bytes: &mut [u8]) -> Result<(), NumberFault>
    requires low { 1 ≤ length digits.now }
    requires high { length bytes.old ≤ 8 }
    requires room { length digits.now ≤ 2 * length bytes.old - 1 }
    ensures bytes { OnOk result (bytes_of_packed_text (length bytes.old) digits.now ≡ Some bytes.new) }
    ensures number { OnOk result (packed_in bytes.new ≡ number_in digits.now) }
    ensures fault { OnErr result (number_in digits.now ≡ None) }
{
    match read_zoned(digits) {
        Ok(n) => {
            write_packed(n, bytes);
            Ok(())
        }
        Err(_) => Err(NumberFault::NotZoned),
    }
}

/// Writes the digits of a binary number.
pub fn binary_to_zoned(bytes: &[u8], digits: &mut [u8]) -> Result<(), NumberFault>
    requires few { length bytes.now ≤ 4 }
    requires low { 1 ≤ length digits.old }
    requires high { length digits.old ≤ 9 }
    ensures digits { OnOk result (binary_text (length digits.old) bytes.now ≡ Some digits.new) }
    ensures number { OnOk result (number_in digits.new ≡ Some (binary_number bytes.now)) }
    ensures fault { OnErr result (binary_text (length digits.old) bytes.now ≡ None) }
    ensures reason { IfErr result (λ fault. fault ≡ NumberFault.TooLarge) }
{
    write_number(read_binary(bytes), digits)
}

/// Writes digits as a binary number.
pub fn zoned_to_binary(digits: &[u8], bytes: &mut [u8]) -> Result<(), NumberFault>
    requires few { length bytes.old ≤ 4 }
    requires low { 1 ≤ length digits.now }
    requires high { length digits.now ≤ 9 }
    requires room { 2 * 10 ^ length digits.now ≤ 256 ^ length bytes.old }
    ensures bytes { OnOk result (bytes_of_binary_text (length bytes.old) digits.now ≡ Some bytes.new) }
    ensures number { OnOk result (Some (binary_number bytes.new) ≡ number_in digits.now) }
    ensures fault { OnErr result (number_in digits.now ≡ None) }
{
    match read_zoned(digits) {
        Ok(n) => {
            write_binary(n, bytes);
            Ok(())
        }
        Err(_) => Err(NumberFault::NotZoned),
    }
}
