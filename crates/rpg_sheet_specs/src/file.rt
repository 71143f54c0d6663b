//! The file description sheet (F).

use crate::within::Within;
use crate::word::Word;

/// What a file is for the job.
#[derive(Clone, Copy, PartialEq, Eq)]
pub enum FileRole {
    /// Records are read from it.
    Primary,
    /// Records are read from it along with those of the primary file.
    Secondary,
    /// Lines or records are written to it.
    Output,
}

/// The device of a file. Any device but the printer counts as the same.
#[derive(Clone, Copy, PartialEq, Eq)]
pub enum Device {
    Printer,
    Disk,
}

/// An F card.
#[derive(Drop)]
pub struct FileSpec {
    pub name: Word<8>,
    pub role: FileRole,
    /// E: the job ends at the end of this file.
    pub ends_job: bool,
    pub ascending: bool,
    pub record_length: u16,
    /// The indicator of a full page, OA to OG (112 to 118) or OV (119).
    pub overflow: Option<Within<112, 119>>,
    /// L: an L card describes the pages of its form.
    pub has_form: bool,
    pub device: Device,
}
