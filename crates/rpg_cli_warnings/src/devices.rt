//! W13: a device that looks like the printer and isn't.

ghost use Rattle.std.specs.Prelude.{◌≡◌, ◌++◌, OnOk};
ghost use Rattle.std.specs.List.{filter_map};
ghost use Rattle.std.specs.Str.Lines.{lines};
ghost use Rattle.rpg_cli_warnings.specs.Devices as devices;

use rpg_cards::SpecCard;
use rpg_sheet_specs::{ColumnFault, Device, FileRole, FileSpec};
use rpg_text::first_line;
use rpg_warnings_lines::{Warning, WarningKind, put_warning};
use std::alloc::AllocError;

/// The columns of a device.
const DEVICE: ColumnFault = ColumnFault {
    column: 40,
    last: 46,
};

/// Returns a line of a text, counted from 1; an empty one past the last.
fn line_of(text: &[u8], number: u16) -> &[u8]
    ensures { result.now ≡ devices.line_of number (lines text.now) }
{
    let mut left = number;
    let mut rest = text;
    while !rest.is_empty() {
        let (line, more) = first_line(rest);
        if left <= 1 {
            return line;
        }
        left -= 1;
        rest = more;
    }
    &[]
}

/// Whether columns 40 to 44 of a line are PRINT.
fn begins_with_print(line: &[u8]) -> bool
    ensures { result ≡ devices.begins_with_print line.now }
{
    match line.get(39..44) {
        None => false,
        Some(device) => device == b"PRINT".as_slice(),
    }
}

fn is_disk(file: &FileSpec) -> bool
    ensures { result ≡ devices.is_disk file.now }
{
    matches!(file.role, FileRole::Output) && matches!(file.device, Device::Disk)
}

/// Returns the warning of a device that looks like the printer, on a card of `text`.
#[tactic(auto, unfolding(crate::specs::Devices::device_on))]
fn device_on(text: &[u8], card: &SpecCard) -> Option<Warning>
    ensures { result ≡ devices.device_on (lines text.now) card.now }
{
    let file = card.file()?;
    if is_disk(file) && begins_with_print(line_of(text, card.number)) {
        Some(Warning {
            card: card.number,
            columns: DEVICE,
            kind: WarningKind::NotPrinter,
        })
    } else {
        None
    }
}

/// Appends the warnings of devices that look like the printer, in the order of their cards.
pub(crate) fn put_devices(
    warnings: &mut Vec<Warning>,
    text: &[u8],
    cards: &[SpecCard],
) -> Result<(), AllocError>
    ensures { OnOk result (warnings.new.items ≡ warnings.old.items ++ filter_map (devices.device_on (lines text.now)) cards.now) }
{
    for card in cards {
        put_warning(warnings, device_on(text, card))?;
    }
    Ok(())
}
