//! The number of marks for an edit code.

ghost use Rattle.std.specs.Prelude.{◌≡◌, ◌≤◌, length};
ghost use Rattle.rpg_edit_marks.specs.Code.{code_marks, decimal_marks, dollar_marks, ending_marks, whole_marks};

use rpg_edit_marks::{EditCode, Ending, Fill};

/// Returns how many marks a number has.
pub(crate) fn width_by(code: EditCode, fill: Fill, len: u8, dec: u8) -> usize
    requires high { len ≤ 15 }
    requires decimals { dec ≤ len }
    ensures { result ≡ length (code_marks code fill len dec) }
{
    match code {
        EditCode::Combination { commas, ending, .. } => {
            dollar_width(fill)
                + whole_width(commas, len - dec)
                + decimal_width(dec)
                + ending_width(ending)
        }
        EditCode::X | EditCode::Z => usize::from(len),
        EditCode::Y => DATE_WIDTH,
    }
}

/// Three pairs of digits with slashes between them.
const DATE_WIDTH: usize = 8;

fn dollar_width(fill: Fill) -> usize
    ensures value { result ≡ length (dollar_marks fill) }
    ensures few { result ≤ 1 }
{
    match fill {
        Fill::Blank | Fill::Star => 0,
        Fill::Dollar => 1,
    }
}

#[tactic(auto, using(crate::proofs::Codes::widths))]
fn whole_width(commas: bool, digits: u8) -> usize
    ensures value { result ≡ length (whole_marks commas digits) }
    ensures few { result ≤ 510 }
{
    let digits = usize::from(digits);
    if commas && digits > 0 {
        digits + (digits - 1) / 3
    } else {
        digits
    }
}

fn decimal_width(dec: u8) -> usize
    ensures value { result ≡ length (decimal_marks dec) }
    ensures few { result ≤ 256 }
{
    if dec > 0 { 1 + usize::from(dec) } else { 0 }
}

fn ending_width(ending: Ending) -> usize
    ensures value { result ≡ length (ending_marks ending) }
    ensures few { result ≤ 2 }
{
    match ending {
        Ending::Unsigned => 0,
        Ending::Credit => 2,
        Ending::Minus => 1,
    }
}
