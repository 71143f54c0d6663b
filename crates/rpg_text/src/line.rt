//! Lines: a source's cards and an input's records.

ghost use Rattle.std.specs.Prelude.{◌≡◌, ◌+◌, ◌<◌, ◌≤◌, ◌∷◌, drop, length, position, IfSome};
ghost use Rattle.std.specs.List.{prefix_len};
ghost use Rattle.std.specs.Str.Lines.{lines, strip_carriage_return};
ghost use Rattle.rpg_text.specs.Lines.{is_line, is_line_feed, is_no_line_feed, LinesEndAtLineFeeds};

/// Splits a text after its first line. A line feed ends a line, and one carriage return before it is dropped.
pub fn first_line(text: &[u8]) -> (&[u8], &[u8])
    requires { 0 < length text.now }
    ensures cut { lines text.now ≡ result.0.now ∷ lines result.1.now }
    ensures shorter { length result.1.now < length text.now }
{
    match line_feed(text) {
        Some(end) => (without_return(&text[..end]), &text[end + 1..]),
        None => (text, &[]),
    }
}

/// Returns the place of the first line feed.
fn line_feed(text: &[u8]) -> Option<usize>
    ensures place { result ≡ position is_line_feed text.now }
    ensures within { IfSome result (λ end. end < length text.now) }
{
    let before = before_line_feed(text);
    match line_feed_one_by_one(&text[before..]) {
        Some(end) => Some(before + end),
        None => None,
    }
}

/// Like `line_feed`, byte by byte.
fn line_feed_one_by_one(text: &[u8]) -> Option<usize>
    ensures place { result ≡ position is_line_feed text.now }
    ensures within { IfSome result (λ end. end < length text.now) }
{
    text.iter().position(|b| *b == b'\n')
}

/// Returns how many bytes precede the first sixteen with a line feed.
fn before_line_feed(text: &[u8]) -> usize
    ensures within { result ≤ length text.now }
    ensures before { prefix_len is_no_line_feed text.now ≡ result + prefix_len is_no_line_feed (drop result text.now) }
{
    let mut at = 0;
    while text.len() - at >= 16 && has_no_line_feed(&text[at..at + 16]) {
        at += 16;
    }
    at
}

/// Whether no byte of a text is a line feed. No byte ends the loop early, so that many are tested at a time.
#[inline(always)]
fn has_no_line_feed(text: &[u8]) -> bool
    ensures { result ≡ is_line text.now }
{
    let mut has_none = true;
    for byte in text {
        has_none = (*byte != b'\n') & has_none;
    }
    has_none
}

/// Returns a line without one carriage return at its end.
fn without_return(line: &[u8]) -> &[u8]
    ensures { result.now ≡ strip_carriage_return line.now }
{
    match line {
        [front @ .., b'\r'] => front,
        _ => line,
    }
}

/// A law of the definition: lines end at line feeds. Does nothing.
pub fn lines_end_at_line_feeds()
    ensures { LinesEndAtLineFeeds }
{}
