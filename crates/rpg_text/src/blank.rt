//! Blanks.

ghost use Rattle.std.specs.Prelude.{◌≡◌, ◌+◌, ◌-◌, ◌≤◌, length, take};
ghost use Rattle.std.specs.List.{suffix_len};
ghost use Rattle.rpg_text.specs.Texts.{all_blank, is_blank, trimmed};

const EIGHT_BLANKS: &[u8] = b"        ";

/// Whether a text has only blanks.
pub fn is_blank(text: &[u8]) -> bool
    ensures { result ≡ all_blank text.now }
{
    text.iter().all(|c| *c == b' ')
}

/// Returns a text without its trailing blanks.
pub fn trimmed(text: &[u8]) -> &[u8]
    ensures { result.now ≡ trimmed text.now }
{
    let mut end = end_by_eight(text);
    while end > 0 && text[end - 1] == b' ' {
        end -= 1;
    }
    &text[..end]
}

/// Returns the end of a text after blanks are cut off eight at a time.
fn end_by_eight(text: &[u8]) -> usize
    ensures within { result ≤ length text.now }
    ensures following { suffix_len is_blank text.now ≡ length text.now - result + suffix_len is_blank (take result text.now) }
{
    let mut end = text.len();
    while end >= 8 && &text[end - 8..end] == EIGHT_BLANKS {
        end -= 8;
    }
    end
}
