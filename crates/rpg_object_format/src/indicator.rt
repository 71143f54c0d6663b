//! Indicators, which may be absent.

ghost use Rattle.std.specs.Prelude.{◌≡◌};
ghost use Rattle.rpg_object_format.specs.Format.{read_byte};
ghost use Rattle.rpg_object_format.specs.Indicators.{indicator_by_number, indicator_number, shows_format};
ghost use Rattle.rpg_object_format.specs.Reading.{ReadsAs};

use crate::fault::{Code, ReadFault};
use crate::number::byte_at;
use rpg_program::operation::Shows;

fn indicator_of(n: u8) -> Result<Option<u8>, Code>
    ensures { result ≡ indicator_by_number n }
{
    match n {
        0 => Ok(None),
        1..=129 => Ok(Some(n)),
        _ => Err(Code::NotAllowed),
    }
}

/// Returns the number of an indicator, 0 for none.
pub fn indicator_number(indicator: Option<u8>) -> u8
    ensures { result ≡ indicator_number indicator }
{
    match indicator {
        None => 0,
        Some(n) => n,
    }
}

/// Reads an indicator, or 0 for none.
#[tactic(auto, unfolding(crate::specs::Format::read_byte))]
pub fn indicator_at(bytes: &[u8]) -> Result<(Option<u8>, &[u8]), ReadFault>
    ensures { ReadsAs (λ x. (x.0, x.1.now)) result (read_byte indicator_by_number bytes.now) }
{
    byte_at(bytes, indicator_of)
}

/// Reads three indicators.
#[tactic(auto, unfolding(crate::specs::Format::byte, crate::specs::Format::pair, crate::specs::Format::row, crate::specs::Indicators::shows_format))]
pub fn shows_at(bytes: &[u8]) -> Result<(Shows, &[u8]), ReadFault>
    ensures { ReadsAs (λ x. (x.0, x.1.now)) result (shows_format.reading bytes.now) }
{
    let (plus, rest) = indicator_at(bytes)?;
    let (minus, rest) = indicator_at(rest)?;
    let (zero, rest) = indicator_at(rest)?;
    Ok((Shows { plus, minus, zero }, rest))
}
