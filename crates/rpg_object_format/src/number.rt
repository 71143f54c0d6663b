//! Single numbers, of one byte or of two in big-endian order: how they are read and encoded.

ghost use Rattle.std.specs.Prelude.{◌≡◌, ℕ, ◌/◌, ◌%◌, ◌^◌, ◌<◌, ◌++◌, OnOk};
ghost use Rattle.rpg_text.specs.Texts.{is_between};
ghost use Rattle.rpg_object_format.specs.Format.{ends_early, fault_at, keep, read_byte, read_two, spelled_along};
ghost use Rattle.rpg_object_format.specs.Numbers.{allowed, is_any_number, flag_number, exactly, two, up_to, flag};
ghost use Rattle.rpg_object_format.specs.Reading.{ReadsAs, GivesByte, GivesTwo};

use crate::fault::{Code, Fault, ReadFault};
use std::alloc::AllocError;

/// Returns the fault of bytes that end inside a number.
pub fn ends_early() -> ReadFault
    ensures { result ≡ ReadFault.At ends_early }
{
    ReadFault::At(Fault {
        left: 0,
        code: Code::CutShort,
    })
}

/// Returns the fault of the number at the start of these bytes.
pub fn fault_at(bytes: &[u8], code: Code) -> ReadFault
    ensures { result ≡ ReadFault.At (fault_at bytes.now code) }
{
    ReadFault::At(Fault {
        left: bytes.len(),
        code,
    })
}

/// Reads a byte, and returns the value that the rule gives it.
pub fn byte_at<T, F: FnOnce(u8) -> Result<T, Code>>(
    bytes: &[u8],
    rule: F,
) -> Result<(T, &[u8]), ReadFault>
    requires { (n : ℕ) → n < 2 ^ 8 → F.pre rule n }
    ensures { GivesByte (λ b. b.now) (F.post rule) result bytes.now }
{
    match bytes {
        [] => Err(ends_early()),
        [n, rest @ ..] => match rule(*n) {
            Ok(x) => Ok((x, rest)),
            Err(code) => Err(ReadFault::At(Fault {
                left: bytes.len(),
                code,
            })),
        },
    }
}

/// Reads a two-byte number, and returns the value that the rule gives it.
pub fn number_at<T, F: FnOnce(u16) -> Result<T, Code>>(
    bytes: &[u8],
    rule: F,
) -> Result<(T, &[u8]), ReadFault>
    requires { (n : ℕ) → n < 2 ^ 16 → F.pre rule n }
    ensures { GivesTwo (λ b. b.now) (F.post rule) result bytes.now }
{
    match bytes {
        [] | [_] => Err(ends_early()),
        [high, low, rest @ ..] => match rule(256 * u16::from(*high) + u16::from(*low)) {
            Ok(x) => Ok((x, rest)),
            Err(code) => Err(ReadFault::At(Fault {
                left: bytes.len(),
                code,
            })),
        },
    }
}

fn between(low: u16, high: u16, n: u16) -> Result<u16, Code>
    ensures { result ≡ allowed (is_between low high) n }
{
    if low <= n && n <= high {
        Ok(n)
    } else {
        Err(Code::NotAllowed)
    }
}

fn byte_between(low: u8, high: u8, n: u8) -> Result<u8, Code>
    ensures { result ≡ allowed (is_between low high) n }
{
    if low <= n && n <= high {
        Ok(n)
    } else {
        Err(Code::NotAllowed)
    }
}

/// Checks that a count is within its limit.
fn up_to(limit: u16, n: u16) -> Result<u16, Code>
    ensures { result ≡ up_to limit n }
{
    if n <= limit {
        Ok(n)
    } else {
        Err(Code::PastLimit)
    }
}

fn only(k: u16, code: Code, n: u16) -> Result<(), Code>
    ensures { result ≡ exactly k code n }
{
    if n == k { Ok(()) } else { Err(code) }
}

fn flag(n: u8) -> Result<bool, Code>
    ensures { result ≡ flag n }
{
    match n {
        0 => Ok(false),
        1 => Ok(true),
        _ => Err(Code::NotAllowed),
    }
}

/// Reads a two-byte number within limits.
#[tactic(auto, unfolding(crate::specs::Format::read_two))]
pub fn number_between_at(bytes: &[u8], low: u16, high: u16) -> Result<(u16, &[u8]), ReadFault>
    ensures { ReadsAs (λ x. (x.0, x.1.now)) result (read_two (allowed (is_between low high)) bytes.now) }
{
    number_at(bytes, |n| between(low, high, n))
}

/// Reads any two-byte number.
#[tactic(auto, unfolding(crate::specs::Format::read_two))]
pub fn any_number_at(bytes: &[u8]) -> Result<(u16, &[u8]), ReadFault>
    ensures { ReadsAs (λ x. (x.0, x.1.now)) result (read_two (allowed is_any_number) bytes.now) }
{
    number_at(bytes, |n| Ok(n))
}

/// Reads a byte within limits.
#[tactic(auto, unfolding(crate::specs::Format::read_byte))]
pub fn byte_between_at(bytes: &[u8], low: u8, high: u8) -> Result<(u8, &[u8]), ReadFault>
    ensures { ReadsAs (λ x. (x.0, x.1.now)) result (read_byte (allowed (is_between low high)) bytes.now) }
{
    byte_at(bytes, |n| byte_between(low, high, n))
}

/// Reads a count of rows up to a limit.
#[tactic(auto, unfolding(crate::specs::Format::read_two))]
pub fn count_at(bytes: &[u8], limit: u16) -> Result<(u16, &[u8]), ReadFault>
    ensures { ReadsAs (λ x. (x.0, x.1.now)) result (read_two (up_to limit) bytes.now) }
{
    number_at(bytes, |n| up_to(limit, n))
}

/// Reads a flag, 0 or 1.
#[tactic(auto, unfolding(crate::specs::Format::read_byte))]
pub fn flag_at(bytes: &[u8]) -> Result<(bool, &[u8]), ReadFault>
    ensures { ReadsAs (λ x. (x.0, x.1.now)) result (read_byte flag bytes.now) }
{
    byte_at(bytes, |n| flag(n))
}

/// Reads a byte that must be `k`.
#[tactic(auto, unfolding(crate::specs::Format::read_byte))]
pub fn only_byte_at(bytes: &[u8], k: u8, code: Code) -> Result<((), &[u8]), ReadFault>
    ensures { ReadsAs (λ x. (x.0, x.1.now)) result (read_byte (exactly k code) bytes.now) }
{
    byte_at(bytes, |n| only(k as u16, code, n as u16))
}

/// Reads a two-byte number that must be `k`.
#[tactic(auto, unfolding(crate::specs::Format::read_two))]
pub fn only_number_at(bytes: &[u8], k: u16, code: Code) -> Result<((), &[u8]), ReadFault>
    ensures { ReadsAs (λ x. (x.0, x.1.now)) result (read_two (exactly k code) bytes.now) }
{
    number_at(bytes, |n| only(k, code, n))
}

/// The higher byte of a number.
pub fn high(n: u16) -> u8
    ensures { result ≡ n / 256 }
{
    (n / 256) as u8
}

/// The lower byte of a number.
pub fn low(n: u16) -> u8
    ensures { result ≡ n % 256 }
{
    (n % 256) as u8
}

/// Returns the byte of a flag.
pub fn flag_number(flag: bool) -> u8
    ensures { result ≡ flag_number flag }
{
    if flag { 1 } else { 0 }
}

/// Writes two-byte numbers.
pub fn put_numbers(out: &mut Vec<u8>, numbers: &[u16]) -> Result<(), AllocError>
    ensures { OnOk result (out.new.items ≡ out.old.items ++ spelled_along (λ s n. two n) keep tt numbers.now) }
{
    for number in numbers {
        out.extend_from_slice(&[high(*number), low(*number)])?;
    }
    Ok(())
}
