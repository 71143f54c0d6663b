//! The times of lines.

ghost use Rattle.std.specs.Prelude.{◌≡◌};
ghost use Rattle.rpg_cards.specs.Times as times;

use rpg_program::line::Time;
use rpg_sheet_specs::{ConditionSpec, LineTime, OutputSpec, Three};

/// Returns the time of a card's line.
pub fn time_of(time: LineTime) -> Time
    ensures { result ≡ times.time_of time }
{
    match time {
        LineTime::Heading => Time::Heading,
        LineTime::Detail => Time::Detail,
        LineTime::Total => Time::Total,
        LineTime::Exception => Time::Exception,
    }
}

/// Returns the conditions of a card: of a line, of an AND or OR card, or of a
/// field.
pub fn line_conditions_on(output: &OutputSpec) -> Three<Option<ConditionSpec>>
    ensures { result ≡ times.line_conditions_on output.now }
{
    match output {
        OutputSpec::Record(line) => line.conditions,
        OutputSpec::And(conditions) | OutputSpec::Or(conditions) => *conditions,
        OutputSpec::Field(field) => field.conditions,
    }
}
