//! Texts with numbers.

ghost use Rattle.std.specs.Prelude.{◌≡◌, ◌++◌, OnOk};
ghost use Rattle.rpg_pdf.specs.Texts.{filled, number_by};

use itoa::Buffer;
use std::alloc::AllocError;

/// What appends to a text returns: memory may run out.
pub(crate) type Put<T> = Result<T, AllocError>;

/// Appends a number in place of a mark.
fn put_number(out: &mut Vec<u8>, mark: u8, number: u64) -> Put<()>
    ensures { OnOk result (out.new.items ≡ out.old.items ++ number_by mark number) }
{
    let mut buffer = Buffer::new();
    if mark == b'$' {
        out.extend_from_slice(buffer.format(number / 100).as_bytes())?;
        let (tens, ones) = (number % 100 / 10, number % 10);
        return out.extend_from_slice(&[b'.', b'0' + tens as u8, b'0' + ones as u8]);
    }
    let digits = buffer.format(number).as_bytes();
    if mark == b'@' {
        out.resize(out.len() + 10usize.saturating_sub(digits.len()), b'0')?;
    }
    out.extend_from_slice(digits)
}

/// Appends a text with numbers in place of its marks: `#` is a number, `$` hundredths of a point as points, `@` a number of ten digits.
pub(crate) fn fill(out: &mut Vec<u8>, text: &[u8], numbers: &[u64]) -> Put<()>
    ensures { OnOk result (out.new.items ≡ out.old.items ++ filled text.now numbers.now) }
{
    let mut used = 0;
    for byte in text {
        if used < numbers.len() && matches!(*byte, b'#' | b'$' | b'@') {
            put_number(out, *byte, numbers[used])?;
            used += 1;
        } else {
            out.push(*byte)?;
        }
    }
    Ok(())
}
