//! Binary numbers: two's complement, big-endian.

ghost use Rattle.std.specs.Prelude.{◌≡◌, ◌*◌, ◌^◌, ◌<◌, ◌≤◌, length, pos, unsigned_abs};
ghost use Rattle.rpg_records.specs.Binary as binary;

/// Returns the unsigned value of big-endian bytes.
fn byte_value(bytes: &[u8]) -> u64
    requires { length bytes.now ≤ 4 }
    ensures value { result ≡ binary.byte_value bytes.now }
    ensures fits { result < 256 ^ length bytes.now }
{
    let mut size = 0u64;
    for byte in bytes {
        size = size * 256 + u64::from(*byte);
    }
    size
}

/// Returns how many values this many bytes can have.
fn power_of_256(bytes: usize) -> u64
    requires { bytes ≤ 4 }
    ensures value { result ≡ 256 ^ bytes }
    ensures few { result ≤ 2 ^ 32 }
{
    match bytes {
        0 => 1,
        1 => 256,
        2 => 65_536,
        3 => 16_777_216,
        _ => 4_294_967_296,
    }
}

/// Returns the number in two's complement bytes, at most four.
pub fn read_binary(bytes: &[u8]) -> i64
    requires { length bytes.now ≤ 4 }
    ensures { result ≡ binary.binary_number bytes.now }
{
    let size = byte_value(bytes);
    let sizes = power_of_256(bytes.len());
    if size * 2 < sizes {
        size as i64
    } else {
        -((sizes - size) as i64)
    }
}

/// Writes the lowest bytes of an unsigned value, as many as there is room for.
fn write_lowest_bytes(size: u64, bytes: &mut [u8])
    ensures { bytes.new ≡ binary.lowest_bytes (length bytes.old) size }
{
    let mut rest = size;
    let mut place = bytes.len();
    while place > 0 {
        place -= 1;
        bytes[place] = (rest % 256) as u8;
        rest /= 256;
    }
}

/// Returns a number in two's complement, as an unsigned value.
fn twos_complement(n: i64, bytes: usize) -> u64
    requires few { bytes ≤ 4 }
    requires fits { 2 * unsigned_abs n < 256 ^ bytes }
    ensures { result ≡ binary.twos_complement bytes n }
{
    if n < 0 {
        power_of_256(bytes) - n.unsigned_abs()
    } else {
        n.unsigned_abs()
    }
}

/// Writes a number in two's complement, filling the bytes.
pub fn write_binary(n: i64, bytes: &mut [u8])
    requires high { length bytes.old ≤ 4 }
    requires fits { 2 * unsigned_abs n < 256 ^ length bytes.old }
    ensures bytes { bytes.new ≡ binary.binary_bytes (length bytes.old) n }
    ensures number { binary.binary_number bytes.new ≡ n }
{
    write_lowest_bytes(twos_complement(n, bytes.len()), bytes);
}
