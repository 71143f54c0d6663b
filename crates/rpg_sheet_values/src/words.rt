//! Words that each mean one of a few things.

ghost use Rattle.std.specs.Prelude.{◌≡◌, [], ◌∷◌, codes, if◌then◌else◌, Some};
ghost use Rattle.std.specs.Str.{bytes_eq};
ghost use Rattle.rpg_sheet_specs.specs.Cards as cards;
ghost use Rattle.rpg_sheet_specs.specs.Tables as tables;
ghost use Rattle.rpg_sheet_specs.specs.Values as values;
ghost use Rattle.rpg_sheet_specs.specs.declared.file.FileRole.TheVariants as roles;

use crate::indicators::indicator_within;
use rpg_sheet_specs::{ControlLevel, Device, FileRole, FormType, LineTime, Operation, Within};

/// Whether a text is this word.
pub fn is(text: &[u8], word: &[u8]) -> bool
    ensures { result ≡ bytes_eq text.now word.now }
{
    text == word
}

/// Reads a form type, in column 6 of a card.
pub fn form_type_of(text: &[u8]) -> Option<FormType>
    ensures { result ≡ cards.form_type_of text.now }
{
    match text {
        b"H" => Some(FormType::Header),
        b"F" => Some(FormType::File),
        b"E" => Some(FormType::Extension),
        b"L" => Some(FormType::Form),
        b"I" => Some(FormType::Input),
        b"C" => Some(FormType::Calculation),
        b"O" => Some(FormType::Output),
        _ => None,
    }
}

/// Reads I or O.
#[tactic(auto, unfolding(rpg_sheet_specs::specs::Tables::direction))]
pub fn direction(text: &[u8]) -> Option<()>
    ensures { result ≡ tables.direction text.now }
{
    match text {
        b"I" | b"O" => Some(()),
        _ => None,
    }
}

/// Returns the role with these letters, of an input or an output file.
pub fn role(is_read: bool, text: &[u8]) -> Option<FileRole>
    ensures { result ≡ values.one_of (if is_read then (codes "P", roles.Primary) ∷ (codes "S", roles.Secondary) ∷ [] else (codes " ", roles.Output) ∷ []) text.now }
{
    match (is_read, text) {
        (true, b"P") => Some(FileRole::Primary),
        (true, b"S") => Some(FileRole::Secondary),
        (false, b" ") => Some(FileRole::Output),
        _ => None,
    }
}

/// Reads a device. Any but the printer counts as the same.
#[tactic(auto, unfolding(rpg_sheet_specs::specs::Tables::device_named))]
pub fn device(text: &[u8]) -> Device
    ensures { Some result ≡ tables.device_named text.now }
{
    if is(text, b"PRINTER") {
        Device::Printer
    } else {
        Device::Disk
    }
}

/// Reads an operation.
#[tactic(auto, unfolding(rpg_sheet_specs::specs::Tables::operation))]
pub fn operation(text: &[u8]) -> Option<Operation>
    ensures { result ≡ tables.operation text.now }
{
    for operation in Operation::ALL {
        if is(text, operation.letters()) {
            return Some(operation);
        }
    }
    None
}

/// Reads when a calculation is done.
#[tactic(auto, unfolding(rpg_sheet_specs::specs::Tables::control_level_in))]
pub fn control_level(text: &[u8]) -> Option<ControlLevel>
    ensures { result ≡ tables.control_level_in text.now }
{
    if is(text, b"  ") {
        Some(ControlLevel::Detail)
    } else if is(text, b"SR") {
        Some(ControlLevel::Subroutine)
    } else if is(text, b"AN") {
        Some(ControlLevel::And)
    } else if is(text, b"OR") {
        Some(ControlLevel::Or)
    } else {
        indicator_within(text).map(ControlLevel::Total)
    }
}

/// Reads when a line is written.
#[tactic(auto, unfolding(rpg_sheet_specs::specs::Tables::line_time))]
pub fn line_time(text: &[u8]) -> Option<LineTime>
    ensures { result ≡ tables.line_time text.now }
{
    match text {
        b"H" => Some(LineTime::Heading),
        b"D" => Some(LineTime::Detail),
        b"T" => Some(LineTime::Total),
        b"E" => Some(LineTime::Exception),
        _ => None,
    }
}

/// Reads how many lines the form spaces.
#[tactic(auto, unfolding(rpg_sheet_specs::specs::Tables::space))]
pub fn space(text: &[u8]) -> Option<Within<0, 3>>
    ensures { result ≡ tables.space text.now }
{
    match text {
        [lines @ b'0'..=b'3'] => Some(Within::new(*lines - b'0')),
        _ => None,
    }
}

/// Reads the line that the form skips to.
#[tactic(auto, unfolding(rpg_sheet_specs::specs::Tables::skip))]
pub fn skip(text: &[u8]) -> Option<Within<1, 112>>
    ensures { result ≡ tables.skip text.now }
{
    match text {
        [first, second] => line_spelled(*first, *second),
        _ => None,
    }
}

/// Returns the line with these two characters.
fn line_spelled(first: u8, second: u8) -> Option<Within<1, 112>>
    ensures { result ≡ tables.line_spelled first second }
{
    match (first, second) {
        (b'0', b'0') => None,
        (b'0'..=b'9', b'0'..=b'9') => Some(Within::new(10 * (first - b'0') + (second - b'0'))),
        (b'A', b'0'..=b'9') => Some(Within::new(100 + (second - b'0'))),
        (b'B', b'0'..=b'2') => Some(Within::new(110 + (second - b'0'))),
        _ => None,
    }
}
