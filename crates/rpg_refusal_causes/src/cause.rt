//! Describes what in a row breaks a rule.

use rpg_program::condition::Conditions;
use rpg_program::input::{ControlField, InputField};
use rpg_program::line::{LineField, Spacing};
use rpg_program::operation::Operand;
use rpg_program::row::{Marks, Use};
use rpg_verify_rules::BrokenRule;

/// A column of an instruction.
#[derive(Clone, Copy)]
pub enum Column {
    Factor1,
    Factor2,
    Result,
}

/// What in a row breaks a rule. Rows, and a row's parts of one kind, are counted from 0.
#[derive(Clone, Copy)]
pub enum RefusalCause {
    /// V1: the overflow indicator of a program without a printer.
    Overflow {
        indicator: u8,
    },
    /// V2: the line's file, which the program doesn't have.
    NoFile,
    /// V3: the first code with a position outside the record, which has this length.
    Code {
        at: usize,
        position: u16,
        columns: u16,
    },
    /// V4: the indicator that the type turns on.
    TurnedOn {
        indicator: u8,
    },
    /// V5: the first control field that isn't within the record.
    Control {
        at: usize,
        field: ControlField,
        columns: u16,
    },
    /// V26: the first match field that isn't within the record.
    Match {
        at: usize,
        field: ControlField,
        columns: u16,
    },
    /// V26: the first match field whose level an earlier one has.
    Twice {
        at: usize,
        level: u8,
    },
    /// V5: the joined length of the first level whose control fields have more than 256 columns together.
    LongLevel {
        level: u8,
        columns: u128,
    },
    /// V5: the joined length of the first level that differs from the first type with that level.
    OtherLevel {
        level: u8,
        columns: u128,
        first: u128,
    },
    /// V26: the length of all match fields, more than 256 columns.
    LongMatches {
        columns: u128,
    },
    /// V26: the joined length of the first level that differs from the first type with match fields.
    OtherMatches {
        level: u8,
        columns: u128,
        first: u128,
    },
    /// V6: the first input field that isn't within the record, or not as long as its field.
    Input {
        at: usize,
        input: InputField<u16>,
        columns: u16,
    },
    /// V7: the first input field with an indicator that isn't allowed.
    Shown {
        at: usize,
        input: InputField<u16>,
    },
    /// V25: the secondary file, which the program doesn't have.
    NoSecondary,
    /// V8: the line's spaces and skips.
    Movements {
        spacing: Spacing,
    },
    /// V9: the first alternative that tests an indicator that isn't allowed.
    Alternative {
        at: usize,
    },
    /// V10 to V15: the line's first field that breaks the rule.
    Field {
        at: usize,
        field: LineField<u16>,
    },
    /// V16 to V18: the first operand that breaks the rule; V20: the one that isn't a table.
    Operand {
        column: Column,
        used: Use<Operand<u16>>,
    },
    /// V19: the conditions of a branch.
    Tested {
        conditions: Conditions,
    },
    /// V19: the indicators of an operation.
    Marked {
        marks: Marks,
    },
    /// V19: factor 2, which is searched for the next entry but isn't in ascending sequence.
    Unordered {
        marks: Marks,
        used: Use<Operand<u16>>,
    },
    /// V20: factor 2, whose index can't hold the number of its entries.
    Index {
        used: Use<Operand<u16>>,
        entries: u16,
    },
    /// V20: the result, a table with fewer entries than factor 2.
    Short {
        used: Use<Operand<u16>>,
        entries: u16,
    },
    /// V21: the target of the branch, with the first place of its section and its end.
    Target {
        target: u16,
        first: usize,
        end: usize,
    },
    /// V22: the subroutine that is called, with its level if it exists.
    Called {
        subroutine: u16,
        level: Option<u16>,
    },
    /// V23: the first RET in detail or total calculations, by its place.
    StrayReturn {
        place: usize,
    },
    /// V23: the subroutine's first RET of another subroutine.
    ForeignReturn {
        at: usize,
        subroutine: u16,
    },
    /// V23: the subroutine's last instruction, which isn't RET.
    Unended,
    /// V24: the subroutine's level.
    Level {
        level: u16,
    },
}

/// The lowest-numbered rule that a program breaks, its first row that breaks it, and what in that row does.
#[derive(Clone, Copy)]
pub struct Refusal {
    pub broken: BrokenRule,
    pub cause: RefusalCause,
}
