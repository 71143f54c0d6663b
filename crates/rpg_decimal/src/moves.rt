//! MOVE and MOVEL: places of a source overwrite an old value, aligned right and left. What happens to the sign, and which characters may be
//! moved to a number, are rules of this profile.
ghost use Rattle.std.specs.Prelude.{◌≡◌, ◌+◌, ◌-◌, ◌<◌, ◌≤◌, ◌^◌, unsigned_abs, length, IfOk, IfErr};
ghost use Rattle.std.specs.Result.{result_ok};
ghost use Rattle.rpg_decimal_words.specs.Move.{overlay_right, overlay_left, number_moved_right, number_moved_left};
ghost use Rattle.rpg_decimal_words.specs.Place.{place_value};
ghost use Rattle.rpg_decimal_words.specs.Whole.{with_sign_of};
ghost use Rattle.rpg_decimal_words.specs.Zoned.{number_in, zoned_text, IsFirstBad};
ghost use Rattle.rpg_decimal.specs.Source.{digits_of, source_characters, moved_right, moved_left, IsFirstBadRight, IsFirstBadLeft};

use crate::num::Figure;
use crate::whole::power_of_ten;
use crate::zoned::{BadDigit, read_zoned, write_zoned};

/// What is moved: the digits of a number, or a text.
#[derive(Clone, Copy)]
pub enum Source<'a> {
    Number(Figure),
    Text(&'a [u8]),
}

/// Overwrites the end of a text with the end of another.
fn overlay_right(source: &[u8], target: &mut [u8])
    ensures { target.new ≡ overlay_right source.now target.old }
{
    let moved = source.len().min(target.len());
    let (from, to) = (source.len() - moved, target.len() - moved);
    target[to..].copy_from_slice(&source[from..]);
}

/// Overwrites the start of a text with the start of another.
fn overlay_left(source: &[u8], target: &mut [u8])
    ensures { target.new ≡ overlay_left source.now target.old }
{
    let moved = source.len().min(target.len());
    target[..moved].copy_from_slice(&source[..moved]);
}

/// MOVE to a text. A number moves as its zoned text.
pub fn move_right_text(source: Source<'_>, target: &mut [u8])
    ensures { target.new ≡ overlay_right (source_characters source.entry) target.old }
{
    match source {
        Source::Text(text) => overlay_right(text, target),
        Source::Number(figure) => {
            let mut places = [0; 15];
            let text = &mut places[..usize::from(figure.len)];
            write_zoned(figure.value, text);
            overlay_right(text, target);
        }
    }
}

/// MOVEL to a text.
pub fn move_left_text(source: Source<'_>, target: &mut [u8])
    ensures { target.new ≡ overlay_left (source_characters source.entry) target.old }
{
    match source {
        Source::Text(text) => overlay_left(text, target),
        Source::Number(figure) => {
            let mut places = [0; 15];
            let text = &mut places[..usize::from(figure.len)];
            write_zoned(figure.value, text);
            overlay_left(text, target);
        }
    }
}

/// MOVE of a text to a number: reads the old number's text, overwritten by the source.
fn move_right_of_text(text: &[u8], before: Figure) -> Result<i64, BadDigit>
    ensures value { result_ok result ≡ number_in (overlay_right text.now (zoned_text before.len before.value)) }
    ensures fits { IfOk result (λ n. unsigned_abs n < 10 ^ before.len) }
    ensures inside { IfErr result (λ e. length text.now ≤ e.spot + before.len) }
    ensures bad { IfErr result (λ e. IsFirstBad (overlay_right text.now (zoned_text before.len before.value)) (e.spot + before.len - length text.now)) }
{
    let mut buffer = [0; 15];
    let places = &mut buffer[..usize::from(before.len)];
    write_zoned(before.value, places);
    overlay_right(text, places);
    match read_zoned(places) {
        Ok(n) => Ok(n),
        Err(bad) => Err(BadDigit {
            spot: bad.spot + text.len() - usize::from(before.len),
        }),
    }
}

/// MOVEL of a text to a number.
fn move_left_of_text(text: &[u8], before: Figure) -> Result<i64, BadDigit>
    ensures value { result_ok result ≡ number_in (overlay_left text.now (zoned_text before.len before.value)) }
    ensures fits { IfOk result (λ n. unsigned_abs n < 10 ^ before.len) }
    ensures bad { IfErr result (λ e. IsFirstBad (overlay_left text.now (zoned_text before.len before.value)) e.spot) }
{
    let mut buffer = [0; 15];
    let places = &mut buffer[..usize::from(before.len)];
    write_zoned(before.value, places);
    overlay_left(text, places);
    read_zoned(places)
}

/// Returns the digits of a number without its sign.
fn size_of(figure: Figure) -> u64
    ensures value { result ≡ unsigned_abs figure.value }
    ensures bound { result < 10 ^ 15 }
{
    figure.value.unsigned_abs()
}

/// Returns the first digits of the old number, followed by the source's last ones.
fn digits_moved_right(source: Figure, before: Figure) -> u64
    ensures value { result ≡ place_value (overlay_right (digits_of source) (digits_of before)) }
    ensures bound { result < 10 ^ before.len }
    ensures small { result < 10 ^ 15 }
{
    let moved = power_of_ten(source.len.min(before.len));
    size_of(before) / moved * moved + size_of(source) % moved
}

/// Returns the source's first digits, followed by the last ones of the old number.
fn digits_moved_left(source: Figure, before: Figure) -> u64
    ensures value { result ≡ place_value (overlay_left (digits_of source) (digits_of before)) }
    ensures bound { result < 10 ^ before.len }
    ensures small { result < 10 ^ 15 }
{
    let moved = source.len.min(before.len);
    let taken = size_of(source) / power_of_ten(source.len - moved);
    let kept = power_of_ten(before.len - moved);
    taken * kept + size_of(before) % kept
}

/// Returns this magnitude with the sign of another number.
fn under_sign_of(n: i64, size: u64) -> i64
    requires { size < 10 ^ 15 }
    ensures value { result ≡ with_sign_of n size }
    ensures bound { unsigned_abs result ≡ size }
{
    if n < 0 { -(size as i64) } else { size as i64 }
}

/// MOVE of a number to a number. It always replaces the last digit, so the sign is the source's.
fn move_right_of_number(source: Figure, before: Figure) -> i64
    ensures value { result ≡ number_moved_right source.len source.value before.len before.value }
    ensures fits { unsigned_abs result < 10 ^ before.len }
{
    under_sign_of(source.value, digits_moved_right(source, before))
}

/// MOVEL of a number to a number. A source that is too short to reach the last digit keeps the sign.
fn move_left_of_number(source: Figure, before: Figure) -> i64
    ensures value { result ≡ number_moved_left source.len source.value before.len before.value }
    ensures fits { unsigned_abs result < 10 ^ before.len }
{
    let size = digits_moved_left(source, before);
    if source.len < before.len {
        under_sign_of(before.value, size)
    } else {
        under_sign_of(source.value, size)
    }
}

/// MOVE to a number of `len` digits. Ignores decimals. A bad digit is counted in the source.
pub fn move_right(source: Source<'_>, before: i64, len: u8) -> Result<i64, BadDigit>
    requires low { 1 ≤ len }
    requires high { len ≤ 15 }
    requires fits { unsigned_abs before < 10 ^ len }
    ensures value { result_ok result ≡ moved_right source.entry len before }
    ensures fits { IfOk result (λ n. unsigned_abs n < 10 ^ len) }
    ensures bad { IfErr result (λ e. IsFirstBadRight source.entry len before e.spot) }
{
    let before = Figure { value: before, len };
    match source {
        Source::Text(text) => move_right_of_text(text, before),
        Source::Number(figure) => Ok(move_right_of_number(figure, before)),
    }
}

/// MOVEL to a number of `len` digits. Ignores decimals. A bad digit is counted in the source.
pub fn move_left(source: Source<'_>, before: i64, len: u8) -> Result<i64, BadDigit>
    requires low { 1 ≤ len }
    requires high { len ≤ 15 }
    requires fits { unsigned_abs before < 10 ^ len }
    ensures value { result_ok result ≡ moved_left source.entry len before }
    ensures fits { IfOk result (λ n. unsigned_abs n < 10 ^ len) }
    ensures bad { IfErr result (λ e. IsFirstBadLeft source.entry len before e.spot) }
{
    let before = Figure { value: before, len };
    match source {
        Source::Text(text) => move_left_of_text(text, before),
        Source::Number(figure) => Ok(move_left_of_number(figure, before)),
    }
}
