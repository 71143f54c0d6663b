//! Output lines.

use crate::condition::Conditions;
use crate::operation::Operand;
use rpg_edit_marks::{EditCode, Fill};
use std::alloc::AllocError;

/// Where a line goes.
#[derive(Clone, Copy)]
pub enum File {
    Printer,
    Disk,
}

/// When a line is written.
#[derive(Clone, Copy)]
pub enum Time {
    Heading,
    Detail,
    Total,
    Exception,
}

/// A pass through the lines: at detail time, at total time, the two of overflow output, and that of EXCPT.
#[derive(Clone, Copy)]
pub enum Pass {
    Detail,
    Total,
    OverflowTotal,
    OverflowDetail,
    Exception,
}

/// What a field of a line prints: a value unchanged, or PAGE, which is incremented first.
#[derive(Clone, Copy)]
pub enum Source {
    Value,
    Page,
}

/// How a field is edited: not at all, by a code, or by the edit word in a constant.
#[derive(Copy)]
pub enum Editing<K> {
    Plain,
    Code(EditCode),
    Word(K),
}

/// A field of a line, the place in the line (from 1) where its text ends, and the conditions that must all hold for it.
#[derive(Copy)]
pub struct LineField<K> {
    pub source: Source,
    pub operand: Operand<K>,
    pub editing: Editing<K>,
    /// Blank unless the field has an edit code.
    pub fill: Fill,
    /// Blank after: the entry becomes zero or blank after the line is written.
    pub is_blanked: bool,
    pub end: u16,
    pub conditions: Conditions,
}

/// The form's movements before and after a line: spaces of 0 to 3 lines, skips to a line from 1 to 66, 0 for none.
#[derive(Clone, Copy)]
pub struct Spacing {
    pub space_before: u8,
    pub space_after: u8,
    pub skip_before: u8,
    pub skip_after: u8,
}

impl<K: Copy> Clone for Editing<K> {
    fn clone(&self) -> Result<Self, AllocError> {
        Ok(*self)
    }
}

impl<K: Copy> Clone for LineField<K> {
    fn clone(&self) -> Result<Self, AllocError> {
        Ok(*self)
    }
}
