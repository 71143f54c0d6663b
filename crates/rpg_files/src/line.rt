//! The start of the input: a record, a bad one, or neither yet.

ghost use Rattle.std.specs.Prelude.{◌≡◌, ◌+◌, ◌<◌, ◌≤◌, false, length, slice_index, take, true};
ghost use Rattle.std.specs.List.{list_all};
ghost use Rattle.rpg_text.specs.Texts.{is_character};
ghost use Rattle.rpg_files.specs.FirstLine.{IsFirstLine};

use rpg_text::{has_only_characters, is_character};

/// The start of the input.
#[derive(Clone, Copy)]
pub(crate) enum FirstLine {
    /// A record of `len` bytes, `line_len` with its line end.
    Record { len: usize, line_len: usize },
    /// A record that no program accepts.
    Bad,
    /// The line has no end yet: its first `scanned` bytes are characters, and only a carriage return may follow them.
    Incomplete { scanned: usize },
}

/// Counts the characters before the first byte that isn't one. After `limit` bytes, the most of a record, it tests them one by one.
fn characters(bytes: &[u8], limit: usize) -> usize
    ensures within { result ≤ length bytes.now }
    ensures all { list_all is_character (take result bytes.now) ≡ true }
    ensures other { result < length bytes.now → is_character (slice_index bytes.now result) ≡ false }
{
    let front = &bytes[..bytes.len().min(limit)];
    let mut at = characters_by_sixteen(front);
    while at < bytes.len() && is_character(bytes[at]) {
        at += 1;
    }
    at
}

/// Counts the characters before the first sixteen bytes that aren't all characters.
fn characters_by_sixteen(bytes: &[u8]) -> usize
    ensures within { result ≤ length bytes.now }
    ensures all { list_all is_character (take result bytes.now) ≡ true }
{
    let mut at = 0;
    while bytes.len() - at >= 16 && has_only_characters(&bytes[at..at + 16]) {
        at += 16;
    }
    at
}

/// Returns what the characters and the byte after them, which isn't one, are.
fn line_ended_at(bytes: &[u8], len: usize, limit: usize) -> FirstLine
    requires inside { len < length bytes.now }
    requires short { len ≤ limit }
    requires scanned { list_all is_character (take len bytes.now) ≡ true }
    requires other { is_character (slice_index bytes.now len) ≡ false }
    ensures { IsFirstLine limit bytes.now result }
{
    match bytes[len] {
        b'\n' => FirstLine::Record {
            len,
            line_len: len + 1,
        },
        b'\r' => match bytes.get(len + 1) {
            None => FirstLine::Incomplete { scanned: len },
            Some(b'\n') => FirstLine::Record {
                len,
                line_len: len + 2,
            },
            Some(_) => FirstLine::Bad,
        },
        _ => FirstLine::Bad,
    }
}

/// Returns what the bytes begin with. The first `scanned` are known to be characters.
#[inline(always)]
pub(crate) fn first_line(bytes: &[u8], scanned: usize, limit: usize) -> FirstLine
    requires inside { scanned ≤ length bytes.now }
    requires scanned { list_all is_character (take scanned bytes.now) ≡ true }
    ensures { IsFirstLine limit bytes.now result }
{
    let len = scanned + characters(&bytes[scanned..], limit);
    if len > limit {
        return FirstLine::Bad;
    }
    if len == bytes.len() {
        return FirstLine::Incomplete { scanned: len };
    }
    line_ended_at(bytes, len, limit)
}
