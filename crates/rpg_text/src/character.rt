//! Characters.

ghost use Rattle.std.specs.Prelude.{◌≡◌};
ghost use Rattle.std.specs.List.{list_all};
ghost use Rattle.rpg_text.specs.Texts.{is_character, printable};

/// Whether a byte is a character: 0x20 to 0x7E.
#[inline(always)]
pub fn is_character(byte: u8) -> bool
    ensures { result ≡ is_character byte }
{
    b' ' <= byte && byte <= b'~'
}

/// Returns how a byte of foreign text is shown: a character unchanged, anything else as a question mark.
pub fn shown(byte: u8) -> u8
    ensures { result ≡ printable byte }
{
    if is_character(byte) { byte } else { b'?' }
}

/// Whether each byte of a text is a character. No byte ends the loop early, so that many are tested at a time.
#[inline(always)]
pub fn has_only_characters(text: &[u8]) -> bool
    ensures { result ≡ list_all is_character text.now }
{
    let mut are_all = true;
    for byte in text {
        are_all = is_character(*byte) & are_all;
    }
    are_all
}
