//! Packed numbers: two digits a byte, with the sign in the low half of the last byte.

ghost use Rattle.std.specs.Prelude.{◌≡◌, ◌+◌, ◌-◌, ◌*◌, ◌/◌, ◌%◌, ◌^◌, ◌<◌, ◌≤◌, unsigned_abs, pos, neg_ℤ, if◌then◌else◌, true, false, length, Some, IfSome, IfNone};
ghost use Rattle.std.specs.List.{list_all};
ghost use Rattle.rpg_decimal_words.specs.Place.{place_value};
ghost use Rattle.rpg_records.specs.Packed as packs;

/// Whether the low half of the last byte is a minus sign.
fn is_minus_sign(half: u8) -> bool
    ensures { result ≡ packs.is_minus_sign half }
{
    matches!(half, 11 | 13)
}

/// Returns the value of bytes with two digits each, if they have such.
fn value_of_pairs(bytes: &[u8]) -> Option<u64>
    requires { length bytes.now ≤ 7 }
    ensures value { IfSome result (λ size. (size ≡ place_value (packs.halves bytes.now)) × (list_all packs.is_figure (packs.halves bytes.now) ≡ true)) }
    ensures fits { IfSome result (λ size. size < 10 ^ (2 * length bytes.now)) }
    ensures none { IfNone result (list_all packs.is_figure (packs.halves bytes.now) ≡ false) }
{
    let mut size = 0u64;
    for byte in bytes {
        let (tens, ones) = (*byte / 16, *byte % 16);
        if tens > 9 || ones > 9 {
            return None;
        }
        size = size * 100 + u64::from(tens * 10 + ones);
    }
    Some(size)
}

/// Returns a value with this sign.
fn signed(is_minus: bool, size: u64) -> i64
    requires { size < 10 ^ 15 }
    ensures { result ≡ (if is_minus then neg_ℤ (pos size) else pos size) }
{
    if is_minus {
        -(size as i64)
    } else {
        size as i64
    }
}

/// Returns the number in packed bytes, if they are one.
pub fn read_packed(bytes: &[u8]) -> Option<i64>
    requires low { 1 ≤ length bytes.now }
    requires high { length bytes.now ≤ 8 }
    ensures number { result ≡ packs.packed_in bytes.now }
    ensures fits { IfSome result (λ n. unsigned_abs n < 10 ^ (2 * length bytes.now - 1)) }
{
    let end = bytes.len() - 1;
    let last = bytes[end];
    let (digit, sign) = (last / 16, last % 16);
    let Some(front) = value_of_pairs(&bytes[..end]) else {
        return None;
    };
    if digit > 9 || sign < 10 {
        return None;
    }
    Some(signed(is_minus_sign(sign), front * 10 + u64::from(digit)))
}

/// Returns the lowest two digits of a number in a byte.
fn pair_byte(n: u64) -> u8
    ensures { result ≡ packs.pair_byte n }
{
    (n / 10 % 10 * 16 + n % 10) as u8
}

/// Writes the lowest pairs of digits of a number, filling the bytes.
fn write_pairs(size: u64, bytes: &mut [u8])
    ensures { bytes.new ≡ packs.lowest_pairs (length bytes.old) size }
{
    let mut rest = size;
    let mut place = bytes.len();
    while place > 0 {
        place -= 1;
        bytes[place] = pair_byte(rest);
        rest /= 100;
    }
}

/// Writes the digits of a number, then its sign.
fn write_signed_digits(n: i64, bytes: &mut [u8])
    requires { 1 ≤ length bytes.old }
    ensures { bytes.new ≡ packs.packed_bytes (length bytes.old) n }
{
    let size = n.unsigned_abs();
    let end = bytes.len() - 1;
    write_pairs(size / 10, &mut bytes[..end]);
    let sign = if n < 0 { 13 } else { 15 };
    bytes[end] = (size % 10) as u8 * 16 + sign;
}

/// Writes a packed number, filling the bytes.
pub fn write_packed(n: i64, bytes: &mut [u8])
    requires low { 1 ≤ length bytes.old }
    requires fits { unsigned_abs n < 10 ^ (2 * length bytes.old - 1) }
    ensures bytes { bytes.new ≡ packs.packed_bytes (length bytes.old) n }
    ensures number { packs.packed_in bytes.new ≡ Some n }
{
    write_signed_digits(n, bytes);
}
