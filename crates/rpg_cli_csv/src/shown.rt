//! Cells and bytes as diagnostics show them.

ghost use Rattle.std.specs.Prelude.{◌≤◌, length};

use rpg_cli_text::TextWriter;
use rpg_text::is_character;

/// The most characters of a cell that a diagnostic shows.
const MOST_SHOWN: usize = 30;

/// A text of at most thirty characters.
#[derive(Drop)]
struct Shown<'a> {
    text: &'a mut TextWriter,
    left: usize,
    is_cut: bool,
}

/// Returns a hexadecimal digit.
fn hex_digit(digit: u32) -> char {
    match u8::try_from(digit) {
        Ok(digit) if digit < 10 => char::from(b'0' + digit),
        Ok(digit) if digit < 16 => char::from(b'A' - 10 + digit),
        _ => '?',
    }
}

/// Writes a number in hexadecimal digits, at least `least` of them.
pub(crate) fn write_hex(out: &mut TextWriter, number: u32, least: u32) {
    let mut shown = Shown {
        text: out,
        left: MOST_SHOWN,
        is_cut: false,
    };
    shown.put_hex(number, least);
}

impl Shown<'_> {
    fn put(&mut self, character: char) {
        if self.left == 0 {
            self.is_cut = true;
        } else {
            self.left -= 1;
            self.text.write_char(character);
        }
    }

    /// Puts a number in hexadecimal digits, at least `least` of them.
    fn put_hex(&mut self, number: u32, least: u32) {
        for place in 0..8u32 {
            let above = (7 - place) * 4;
            if place.saturating_add(least) >= 8 || number >> above != 0 {
                self.put(hex_digit(number >> above & 15));
            }
        }
    }

    /// Puts characters, and the number of one that isn't one of rpg2.
    fn put_text(&mut self, text: &str) {
        for character in text.chars() {
            let byte = u8::try_from(u32::from(character)).unwrap_or(0);
            if is_character(byte) {
                self.put(character);
            } else {
                self.put('\\');
                self.put('u');
                self.put('{');
                self.put_hex(u32::from(character), 1);
                self.put('}');
            }
        }
    }

    /// Puts a byte that is no part of a character.
    fn put_byte(&mut self, byte: u8) {
        self.put('\\');
        self.put('x');
        self.put_hex(u32::from(byte), 2);
    }

    /// Puts the characters before the first byte that is part of none, and that byte. Returns what follows.
    fn put_some<'a>(&mut self, bytes: &'a [u8]) -> &'a [u8]
        requires { 1 ≤ length bytes.now }
    {
        match str::from_utf8(bytes) {
            Ok(text) => {
                self.put_text(text);
                &[]
            }
            Err(error) => {
                let valid = error.valid_up_to().min(bytes.len() - 1);
                if let Ok(text) = str::from_utf8(&bytes[..valid]) {
                    self.put_text(text);
                }
                self.put_byte(bytes[valid]);
                &bytes[valid + 1..]
            }
        }
    }
}

/// Writes a cell in quotation marks, at most thirty characters of it.
pub(crate) fn write_cell(out: &mut TextWriter, cell: &[u8]) {
    out.write_char('"');
    let mut shown = Shown {
        text: out,
        left: MOST_SHOWN,
        is_cut: false,
    };
    let mut rest = cell;
    for _ in 0..cell.len() {
        if rest.is_empty() {
            break;
        }
        rest = shown.put_some(rest);
    }
    let is_cut = shown.is_cut;
    out.write_str(if is_cut { "..\"" } else { "\"" });
}
