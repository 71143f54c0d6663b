//! The table of operations: their numbers, and the columns that each uses.

ghost use Rattle.std.specs.Prelude.{◌≡◌};
ghost use Rattle.rpg_object_format.specs.Instructions as rows;

use crate::fault::Code;
use rpg_program::operation::{Operand, Shows};

/// What an instruction does, without its operands.
#[derive(Clone, Copy)]
pub enum Opcode {
    Add,
    Subtract,
    Multiply,
    Divide,
    ZeroAdd,
    ZeroSubtract,
    TakeRemainder,
    Compare,
    MoveRight,
    MoveLeft,
    SetOn,
    SetOff,
    Jump,
    Skip,
    Call,
    Return,
    Except,
    CrossFoot,
    LookUp,
}

/// Which numbers of its row an operation uses.
#[derive(Clone, Copy)]
pub struct Columns {
    pub half: bool,
    pub factor1: bool,
    pub factor2: bool,
    pub result: bool,
    pub indicators: bool,
    pub target: bool,
    pub negations: bool,
}

/// The numbers of an instruction: 0, or its equivalent, for each that the operation doesn't
/// use.
#[derive(Clone, Copy)]
pub struct Numbers {
    pub operation: Opcode,
    pub half: bool,
    pub factor1: Operand<u16>,
    pub factor2: Operand<u16>,
    pub result: Operand<u16>,
    pub shows: Shows,
    pub target: u16,
    /// The N bits of three conditions.
    pub negations: u8,
}

const NOTHING: Columns = Columns {
    half: false,
    factor1: false,
    factor2: false,
    result: false,
    indicators: false,
    target: false,
    negations: false,
};

const ARITHMETIC: Columns = Columns {
    half: true,
    factor1: true,
    factor2: true,
    result: true,
    indicators: true,
    ..NOTHING
};

const ASSIGNMENT: Columns = Columns {
    half: true,
    factor2: true,
    result: true,
    indicators: true,
    ..NOTHING
};

const REMAINDER: Columns = Columns {
    result: true,
    indicators: true,
    ..NOTHING
};

const COMPARISON: Columns = Columns {
    factor1: true,
    factor2: true,
    indicators: true,
    ..NOTHING
};

const SEARCH: Columns = Columns {
    factor1: true,
    factor2: true,
    result: true,
    indicators: true,
    ..NOTHING
};

const MOVE: Columns = Columns {
    factor2: true,
    result: true,
    ..NOTHING
};

const SETTING: Columns = Columns {
    indicators: true,
    ..NOTHING
};

const BRANCH: Columns = Columns {
    indicators: true,
    target: true,
    negations: true,
    ..NOTHING
};

const CALL: Columns = Columns {
    target: true,
    ..NOTHING
};

pub fn operation_of(n: u8) -> Result<Opcode, Code>
    ensures { result ≡ rows.operation_of n }
{
    match n {
        1 => Ok(Opcode::Add),
        2 => Ok(Opcode::Subtract),
        3 => Ok(Opcode::Multiply),
        4 => Ok(Opcode::Divide),
        5 => Ok(Opcode::ZeroAdd),
        6 => Ok(Opcode::ZeroSubtract),
        7 => Ok(Opcode::TakeRemainder),
        8 => Ok(Opcode::Compare),
        9 => Ok(Opcode::MoveRight),
        10 => Ok(Opcode::MoveLeft),
        11 => Ok(Opcode::SetOn),
        12 => Ok(Opcode::SetOff),
        13 => Ok(Opcode::Jump),
        14 => Ok(Opcode::Skip),
        15 => Ok(Opcode::Call),
        16 => Ok(Opcode::Return),
        17 => Ok(Opcode::Except),
        18 => Ok(Opcode::CrossFoot),
        19 => Ok(Opcode::LookUp),
        _ => Err(Code::NotAllowed),
    }
}

pub fn operation_number(operation: Opcode) -> u8
    ensures { result ≡ rows.operation_number operation }
{
    match operation {
        Opcode::Add => 1,
        Opcode::Subtract => 2,
        Opcode::Multiply => 3,
        Opcode::Divide => 4,
        Opcode::ZeroAdd => 5,
        Opcode::ZeroSubtract => 6,
        Opcode::TakeRemainder => 7,
        Opcode::Compare => 8,
        Opcode::MoveRight => 9,
        Opcode::MoveLeft => 10,
        Opcode::SetOn => 11,
        Opcode::SetOff => 12,
        Opcode::Jump => 13,
        Opcode::Skip => 14,
        Opcode::Call => 15,
        Opcode::Return => 16,
        Opcode::Except => 17,
        Opcode::CrossFoot => 18,
        Opcode::LookUp => 19,
    }
}

/// Returns the row of an operation in the table.
pub fn columns_of(operation: Opcode) -> Columns
    ensures { result ≡ rows.used_columns operation }
{
    match operation {
        Opcode::Add | Opcode::Subtract | Opcode::Multiply | Opcode::Divide => { ARITHMETIC }
        Opcode::ZeroAdd | Opcode::ZeroSubtract | Opcode::CrossFoot => ASSIGNMENT,
        Opcode::TakeRemainder => REMAINDER,
        Opcode::Compare => COMPARISON,
        Opcode::LookUp => SEARCH,
        Opcode::MoveRight | Opcode::MoveLeft => MOVE,
        Opcode::SetOn | Opcode::SetOff => SETTING,
        Opcode::Jump | Opcode::Skip => BRANCH,
        Opcode::Call | Opcode::Return => CALL,
        Opcode::Except => NOTHING,
    }
}
