//! Code page 037.

ghost use Rattle.std.specs.Prelude.{◌≡◌, ◌<◌, IsTrue};
ghost use Rattle.rpg_records.specs.CodePage as codes;
ghost use Rattle.rpg_text.specs.Texts.{is_character};

/// The character of each byte, 0 for none.
static PAGE: [u8; 256] = [
    0, 0, 0, 0, 0, 0, 0, 0, 0, 0, 0, 0, 0, 0, 0, 0, 0, 0, 0, 0, 0, 0, 0, 0, 0, 0, 0, 0, 0, 0, 0, 0,
    0, 0, 0, 0, 0, 0, 0, 0, 0, 0, 0, 0, 0, 0, 0, 0, 0, 0, 0, 0, 0, 0, 0, 0, 0, 0, 0, 0, 0, 0, 0, 0,
    32, 0, 0, 0, 0, 0, 0, 0, 0, 0, 0, 46, 60, 40, 43, 124, 38, 0, 0, 0, 0, 0, 0, 0, 0, 0, 33, 36,
    42, 41, 59, 0, 45, 47, 0, 0, 0, 0, 0, 0, 0, 0, 0, 44, 37, 95, 62, 63, 0, 0, 0, 0, 0, 0, 0, 0,
    0, 96, 58, 35, 64, 39, 61, 34, 0, 97, 98, 99, 100, 101, 102, 103, 104, 105, 0, 0, 0, 0, 0, 0,
    0, 106, 107, 108, 109, 110, 111, 112, 113, 114, 0, 0, 0, 0, 0, 0, 0, 126, 115, 116, 117, 118,
    119, 120, 121, 122, 0, 0, 0, 0, 0, 0, 94, 0, 0, 0, 0, 0, 0, 0, 0, 0, 91, 93, 0, 0, 0, 0, 123,
    65, 66, 67, 68, 69, 70, 71, 72, 73, 0, 0, 0, 0, 0, 0, 125, 74, 75, 76, 77, 78, 79, 80, 81, 82,
    0, 0, 0, 0, 0, 0, 92, 0, 83, 84, 85, 86, 87, 88, 89, 90, 0, 0, 0, 0, 0, 0, 48, 49, 50, 51, 52,
    53, 54, 55, 56, 57, 0, 0, 0, 0, 0, 0,
];

/// The byte of each character, from the blank on.
static BYTES: [u8; 95] = [
    64, 90, 127, 123, 91, 108, 80, 125, 77, 93, 92, 78, 107, 96, 75, 97, 240, 241, 242, 243, 244,
    245, 246, 247, 248, 249, 122, 94, 76, 126, 110, 111, 124, 193, 194, 195, 196, 197, 198, 199,
    200, 201, 209, 210, 211, 212, 213, 214, 215, 216, 217, 226, 227, 228, 229, 230, 231, 232, 233,
    186, 224, 187, 176, 109, 121, 129, 130, 131, 132, 133, 134, 135, 136, 137, 145, 146, 147, 148,
    149, 150, 151, 152, 153, 162, 163, 164, 165, 166, 167, 168, 169, 192, 79, 208, 161,
];

/// Returns the character of a byte, 0 for none.
#[inline(always)]
pub fn character_of(byte: u8) -> u8
    ensures { result ≡ codes.character_of byte }
{
    PAGE[usize::from(byte)]
}

/// Returns the byte of a character.
#[inline(always)]
pub fn byte_of(character: u8) -> u8
    requires { IsTrue (is_character character) }
    ensures { result ≡ codes.byte_of character }
{
    BYTES[usize::from(character - b' ')]
}

/// Returns the last digit of a zoned number as a character, 0 for none: zones A and E are plus and B is minus, as C, F and D
/// are by the page.
pub fn last_place_of(byte: u8) -> u8
    ensures { result ≡ codes.last_place_of byte }
{
    let digit = byte % 16;
    match byte / 16 {
        10 | 14 if digit < 10 => b'0' + digit,
        11 if digit == 0 => b'}',
        11 if digit < 10 => b'I' + digit,
        _ => character_of(byte),
    }
}
