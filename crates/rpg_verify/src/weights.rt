//! The weights of instructions, lines and record types.

ghost use Rattle.std.specs.Prelude.{◌≡◌, ◌≤◌, map};
ghost use Rattle.rpg_program.specs.Forms.{form_at};
ghost use Rattle.rpg_program.specs.Weights as words;
ghost use Rattle.rpg_program.specs.Kept.{IsProgram};
ghost use Rattle.rpg_program.specs.Object.{lines_of, seen, type_row};
ghost use Rattle.rpg_verify.specs.Weighing as weighing;

use rpg_program::columns::columns_of;
use rpg_program::forms;
use rpg_program::line::Time;
use rpg_program::operation::{Instruction, Operand};
use rpg_program::row::{Shape, Use};
use rpg_program::rows::{RecordType, Rows};

fn goes_through(shape: Shape) -> bool
    ensures { result ≡ words.goes_through shape }
{
    match shape {
        Shape::Whole | Shape::Searched => true,
        Shape::One | Shape::Table => false,
    }
}

/// The weight of an operand: its entries, if the operation goes through them.
fn use_weight(rows: &Rows, used: Option<Use<Operand<u16>>>) -> u64
    ensures value { result ≡ words.use_weight (form_at rows.now.fields.items) used }
    ensures few { result ≤ 65535 }
{
    let Some(used) = used else {
        return 0;
    };
    if goes_through(used.shape) {
        u64::from(forms::entries_of(forms::form_at(rows, used.operand.field)))
    } else {
        0
    }
}

/// The weight of EXCPT besides its own step.
fn exceptions_of(exceptions: u64, instruction: Instruction<u16>) -> u64
    ensures value { result ≡ words.exceptions_of exceptions instruction }
    ensures few { result ≤ exceptions }
{
    match instruction {
        Instruction::Except => exceptions,
        Instruction::Act(_) => 0,
        Instruction::Branch { .. } => 0,
        Instruction::Call { .. } => 0,
        Instruction::Return { .. } => 0,
    }
}

/// The weight of an instruction, given the weight of all exception lines.
#[tactic(auto, unfolding(rpg_program::specs::Weights::instruction_weight, rpg_program::specs::Weights::row_weight))]
pub(crate) fn weight_of(rows: &Rows, exceptions: u64, instruction: Instruction<u16>) -> u64
    requires { exceptions ≤ 201000 }
    ensures value { result ≡ words.instruction_weight (form_at rows.now.fields.items) exceptions instruction }
    ensures few { result ≤ 266536 }
{
    1 + use_weight(rows, columns_of(rows, instruction).factor2)
        + exceptions_of(exceptions, instruction)
}

// ---- lines

/// The weights of the lines: of all exception lines, and of all others.
#[derive(Clone, Copy)]
pub(crate) struct LineWeights {
    pub exceptions: u64,
    pub others: u64,
}

fn is_exception(time: Time) -> bool
    ensures { result ≡ words.is_exception time }
{
    match time {
        Time::Exception => true,
        Time::Heading | Time::Detail | Time::Total => false,
    }
}

pub(crate) fn line_weights(rows: &Rows) -> LineWeights
    requires { IsProgram (seen rows.now) }
    ensures exceptions { result.exceptions ≡ words.exceptions_weight (lines_of (seen rows.now)) }
    ensures others { result.others ≡ words.overflow_weight (lines_of (seen rows.now)) }
    ensures few_exceptions { result.exceptions ≤ 201000 }
    ensures few_others { result.others ≤ 201000 }
{
    let mut exceptions = 0;
    let mut others = 0;
    for line in &rows.lines {
        let is_meant = is_exception(line.time);
        let own = line.weight_where(is_meant);
        let other = line.weight_where(!is_meant);
        exceptions += own;
        others += other;
    }
    LineWeights { exceptions, others }
}

/// The weight of all H, D and T lines, doubled if there is an overflow indicator.
pub(crate) fn output_weight(rows: &Rows, lines: LineWeights) -> u64
    requires lines { lines.others ≡ words.overflow_weight (lines_of (seen rows.now)) }
    requires few { lines.others ≤ 201000 }
    ensures { result ≡ weighing.all_outputs_weight (seen rows.now) }
{
    match rows.overflow.indicator {
        None => lines.others,
        Some(_) => lines.others + lines.others,
    }
}

// ---- record types

/// Codes, control fields, input fields and match fields weigh one each.
fn type_weight(record_type: &RecordType) -> u64
    requires { words.type_weight (type_row record_type.now) ≤ 141800 }
    ensures { result ≡ words.type_weight (type_row record_type.now) }
{
    let columns = record_type.codes.len() + record_type.levels.len() + record_type.inputs.len();
    (columns + record_type.matches.len()) as u64
}

pub(crate) fn types_weight(rows: &Rows) -> u64
    requires { IsProgram (seen rows.now) }
    ensures { result ≡ words.types_weight (map type_row rows.now.types.items) }
{
    let mut sum = 0;
    for record_type in &rows.types {
        sum += type_weight(record_type);
    }
    sum
}
