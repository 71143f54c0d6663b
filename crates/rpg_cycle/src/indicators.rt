//! Indicators that the cycle itself reads and sets.
ghost use Rattle.std.specs.Prelude.{◌≡◌, ◌≤◌, All};
ghost use Rattle.std.specs.Option.{ForSome};
ghost use Rattle.rpg_cycle.specs.Indicators as spec;
ghost use Rattle.rpg_program.specs.Kept.{IsIndicator};

use rpg_machine::Machine;
use rpg_store::Store;

pub const LAST_RECORD: u8 = 110;

pub const FIRST_PAGE: u8 = 111;
/// MR.
pub const MATCHING_RECORD: u8 = 129;
/// L1 to L9.
pub const LEVELS: [u8; 9] = [101, 102, 103, 104, 105, 106, 107, 108, 109];
/// H1 to H9.
pub const HALT_INDICATORS: [u8; 9] = [120, 121, 122, 123, 124, 125, 126, 127, 128];

/// Whether a halt indicator is on.
pub(crate) fn is_halt_indicated<S: Store + Drop>(machine: &Machine<S>) -> bool
    ensures { result ≡ spec.any_on machine.now.config spec.halt_indicators }
{
    let mut is_due = false;
    for number in HALT_INDICATORS {
        is_due |= machine.indicator(number);
    }
    is_due
}

/// Turns indicators on or off, in order.
pub(crate) fn turn_all<S: Store + Drop>(machine: &mut Machine<S>, numbers: &[u8], on: bool)
    requires { All IsIndicator numbers.now }
    ensures { spec.Turns (spec.with_all numbers.now on) machine.old machine.new }
{
    for number in numbers {
        machine.set_indicator(*number, on);
    }
}

/// Turns off a record type's indicator, unless it is LR.
pub(crate) fn turn_type_off<S: Store + Drop>(machine: &mut Machine<S>, indicator: Option<u8>)
    requires { ForSome indicator IsIndicator }
    ensures { spec.Turns (spec.without_type indicator) machine.old machine.new }
{
    match indicator {
        Some(LAST_RECORD) | None => {}
        Some(number) => machine.set_indicator(number, false),
    }
}

/// Turns on a record type's indicator.
pub(crate) fn turn_type_on<S: Store + Drop>(machine: &mut Machine<S>, indicator: Option<u8>)
    requires { ForSome indicator IsIndicator }
    ensures { spec.Turns (spec.with_type indicator) machine.old machine.new }
{
    if let Some(number) = indicator {
        machine.set_indicator(number, true);
    }
}
