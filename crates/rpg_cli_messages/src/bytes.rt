//! The probable causes of bytes that aren't characters, and of lines that are too long.

use rpg_cli_diagnostics::Draft;
use rpg_cli_text::TextWriter;
use rpg_text::{is_blank, is_character};

const LOOKED_AT: usize = 80;

const EBCDIC: &str = "this looks like EBCDIC: docs/OLD_PROGRAMS.md converts it";

/// Returns what a text begins with, and how to fix it.
fn cause_of(text: &[u8]) -> Option<&'static str> {
    match text {
        [b'\t', ..] => Some("a tab: `expand` turns tabs into blanks"),
        [0x1a, ..] => Some("the end-of-file mark of DOS (1a): `tr -d '\\032'` takes it away"),
        [b'\r', ..] => Some(
            "a carriage return that no line feed follows: `tr '\\r' '\\n'` where lines end with it, `tr -d '\\r'` where it is alone",
        ),
        [0xef, 0xbb, 0xbf, ..] => {
            Some("a byte order mark (ef bb bf): `tail -c +4` takes it away")
        }
        [0xff, 0xfe, ..] => Some(
            "a byte order mark of UTF-16 (ff fe): `iconv -f UTF-16 -t ASCII` converts the file",
        ),
        [0xfe, 0xff, ..] => Some(
            "a byte order mark of UTF-16 (fe ff): `iconv -f UTF-16 -t ASCII` converts the file",
        ),
        [0xe2, 0x80, 0x98 | 0x99 | 0x9c | 0x9d, ..] => {
            Some("a typographic quotation mark: write '")
        }
        _ => None,
    }
}

/// Returns the bytes of a letter of UTF-8 that isn't ASCII, if a text begins with one.
fn letter_of(text: &[u8]) -> Option<&[u8]> {
    let count = match text {
        [0xc2..=0xdf, 0x80..=0xbf, ..] => 2,
        [0xe0..=0xef, 0x80..=0xbf, ..] => 3,
        [0xf0..=0xf4, 0x80..=0xbf, ..] => 4,
        _ => return None,
    };
    Some(text.get(..count).unwrap_or(text))
}

/// Whether a byte is a blank, a letter or a digit of EBCDIC.
fn is_ebcdic(byte: u8) -> bool {
    matches!(
        byte,
        0x40 | 0x81..=0x89 | 0x91..=0x99 | 0xa2..=0xa9 | 0xc1..=0xc9 | 0xd1..=0xd9 | 0xe2..=0xe9 | 0xf0..=0xf9
    )
}

/// Whether more than half of a line's first bytes are EBCDIC.
fn looks_like_ebcdic(line: &[u8]) -> bool {
    let begin = line.get(..LOOKED_AT).unwrap_or(line);
    begin.iter().filter(|byte| is_ebcdic(**byte)).count() > begin.len() / 2
}

fn is_text(line: &[u8]) -> bool {
    line.iter()
        .all(|byte| is_character(*byte) || *byte == b'\r')
}

/// What an object program begins with: its name, and the higher byte of its version.
const OBJECT_NAME: &[u8; 7] = b"RPGOBJ\0";

/// Whether a source is an object program, by its first bytes.
pub fn is_object(bytes: &[u8]) -> bool {
    bytes.starts_with(OBJECT_NAME)
}

const HEX: &[u8; 16] = b"0123456789abcdef";

const BAD_EBCDIC: &str = "byte {} isn't a character; {}";

/// How to write a file without such letters.
const IN_ASCII: &str =
    "LC_ALL=C.UTF-8 iconv -f UTF-8 -t ASCII//TRANSLIT {} > new.txt writes other characters for it";

const BAD_BYTE: &str = "byte {} isn't a character: characters run from blank to ~";

fn write_digits(out: &mut TextWriter, bytes: &[u8]) {
    for byte in bytes {
        out.write_char(' ');
        out.write_char(char::from(HEX[usize::from(byte / 16)]));
        out.write_char(char::from(HEX[usize::from(byte % 16)]));
    }
}

/// Writes that a letter of UTF-8 isn't ASCII, and adds the command that writes others in the file.
fn write_letter(draft: &mut Draft<'_>, letter: &[u8]) {
    draft.message.write_str("bytes");
    write_digits(&mut draft.message, letter);
    draft
        .message
        .write_str(" are a letter of UTF-8 that isn't ASCII");
    if let Some(path) = draft.path() {
        if path != "-" {
            let mut remark = draft.text();
            remark.fill_one(IN_ASCII, path.as_bytes());
            draft.remark(remark);
        }
    }
}

/// Writes the cause of a byte of a line that isn't a character, and how to fix it. Its place is counted from 0.
pub fn write_byte_cause(draft: &mut Draft<'_>, line: &[u8], place: usize) {
    let rest = line.get(place..).unwrap_or(&[]);
    let byte = rest.first().copied().unwrap_or(0);
    let sentence = if looks_like_ebcdic(line) {
        BAD_EBCDIC
    } else if byte == b'\r' && !is_text(line) {
        BAD_BYTE
    } else if let Some(cause) = cause_of(rest) {
        cause
    } else if let Some(letter) = letter_of(rest) {
        write_letter(draft, letter);
        return;
    } else {
        BAD_BYTE
    };
    let digits = [HEX[usize::from(byte / 16)], HEX[usize::from(byte % 16)]];
    draft
        .message
        .fill(sentence, &[digits.as_slice().into(), EBCDIC.into()]);
}

const TOO_LONG: &str = "the line has {} characters, and a card has 80";

const RETURNS: &str =
    "; it has carriage returns: if they end its lines, `tr '\\r' '\\n'` makes them line feeds";

const BLANK: &str = "; columns 81-{} are blank: `cut -c1-80` cuts them off";

const NUMBERED: &str =
    "; of a deck of 96 columns `cut -c1-80` keeps the cards (docs/OLD_PROGRAMS.md)";

/// Writes why a line of a source may have more than 80 characters.
pub(crate) fn write_long_line(out: &mut TextWriter, line: &[u8]) {
    let count = line.len();
    let rest = line.get(LOOKED_AT..).unwrap_or(&[]);
    out.fill(TOO_LONG, &[count.into()]);
    if looks_like_ebcdic(line) {
        out.fill("; {}", &[EBCDIC.into()]);
    } else if line.contains(&b'\r') && is_text(line) {
        out.write_str(RETURNS);
    } else if is_blank(rest) {
        out.fill(BLANK, &[count.into()]);
    } else if count == 96 {
        out.write_str(NUMBERED);
    }
}
