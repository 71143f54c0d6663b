//! The weights of the lines of each output.
ghost use Rattle.std.specs.Prelude.{◌≡◌, ◌≤◌};
ghost use Rattle.rpg_program.specs.Weights as words;
ghost use Rattle.rpg_machine_lines.specs.Weighed.{weighed};
ghost use Rattle.rpg_program.specs.Kept.{IsProgram};
ghost use Rattle.rpg_program.specs.Object.{lines_of, seen};

use rpg_program::line::Time;
use rpg_program::rows::Rows;

/// The output whose lines are counted.
#[derive(Clone, Copy)]
enum Weighed {
    Detail,
    Total,
    Overflow,
    Exception,
}

fn is_weighed(output: Weighed, time: Time) -> bool
    ensures { result ≡ weighed output time }
{
    match output {
        Weighed::Detail => matches!(time, Time::Heading | Time::Detail),
        Weighed::Total => matches!(time, Time::Total),
        Weighed::Overflow => matches!(time, Time::Heading | Time::Detail | Time::Total),
        Weighed::Exception => matches!(time, Time::Exception),
    }
}

/// Returns the weight of the lines of an output. Linear in the lines.
fn lines_weight(rows: &Rows, output: Weighed) -> u64
    requires { IsProgram (seen rows.now) }
    ensures value { result ≡ words.lines_weight (weighed output) (lines_of (seen rows.now)) }
    ensures few { result ≤ 201000 }
{
    let mut weight = 0;
    for line in &rows.lines {
        let own = line.weight_where(is_weighed(output, line.time));
        weight += own;
    }
    weight
}

/// Returns the weight of H and D lines. Linear in the lines.
pub fn detail_weight(rows: &Rows) -> u32
    requires { IsProgram (seen rows.now) }
    ensures value { result ≡ words.detail_weight (lines_of (seen rows.now)) }
    ensures few { result ≤ 201000 }
{
    lines_weight(rows, Weighed::Detail) as u32
}

/// Returns the weight of T lines. Linear in the lines.
pub fn total_weight(rows: &Rows) -> u32
    requires { IsProgram (seen rows.now) }
    ensures value { result ≡ words.total_weight (lines_of (seen rows.now)) }
    ensures few { result ≤ 201000 }
{
    lines_weight(rows, Weighed::Total) as u32
}

/// Returns the weight of H, D and T lines. Linear in the lines.
pub fn overflow_weight(rows: &Rows) -> u32
    requires { IsProgram (seen rows.now) }
    ensures value { result ≡ words.overflow_weight (lines_of (seen rows.now)) }
    ensures few { result ≤ 201000 }
{
    lines_weight(rows, Weighed::Overflow) as u32
}

/// Returns the weight of E lines. Linear in the lines.
pub fn exceptions_weight(rows: &Rows) -> u32
    requires { IsProgram (seen rows.now) }
    ensures value { result ≡ words.exceptions_weight (lines_of (seen rows.now)) }
    ensures few { result ≤ 201000 }
{
    lines_weight(rows, Weighed::Exception) as u32
}
