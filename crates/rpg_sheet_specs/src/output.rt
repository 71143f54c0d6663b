//! The output sheet (O).

use crate::entry::Entry;
use crate::indicator::{ConditionSpec, Three};
use crate::literal::TextLiteral;
use crate::within::Within;
use crate::word::Word;
use rpg_edit_marks::EditCode;

/// When a line is written.
#[derive(Clone, Copy)]
pub enum LineTime {
    Heading,
    Detail,
    Total,
    /// At EXCPT.
    Exception,
}

/// How the form moves before and after a line.
#[derive(Clone, Copy)]
pub struct Movement {
    /// Lines to space.
    pub space_before: Option<Within<0, 3>>,
    pub space_after: Option<Within<0, 3>>,
    /// Lines to skip to.
    pub skip_before: Option<Within<1, 112>>,
    pub skip_after: Option<Within<1, 112>>,
}

/// A line.
#[derive(Drop)]
pub struct OutputRecord {
    /// None for the file of the previous line.
    pub file: Option<Word<8>>,
    pub time: LineTime,
    pub movement: Movement,
    pub conditions: Three<Option<ConditionSpec>>,
}

/// A field of the line above it.
#[derive(Drop)]
pub struct OutputField {
    pub conditions: Three<Option<ConditionSpec>>,
    pub operand: Option<Entry>,
    pub code: Option<EditCode>,
    pub blank_after: bool,
    /// The field's last column in the line, from 1.
    pub end: u16,
    /// A constant if no field is named; with a code, the fill; otherwise an edit word.
    pub text: Option<TextLiteral<24>>,
}

/// An O card.
#[derive(Drop)]
pub enum OutputSpec {
    Record(OutputRecord),
    /// Further conditions of the line above it, which must also hold.
    And(Three<Option<ConditionSpec>>),
    /// Alternative conditions of the line above it.
    Or(Three<Option<ConditionSpec>>),
    Field(OutputField),
}
