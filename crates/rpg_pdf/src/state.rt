//! Settings, sheets, what was made of a print so far, and why a print isn't put on sheets.

ghost use Rattle.std.specs.Prelude.{◌≤◌, length};

use rpg_files::Counted;

/// A form of paper.
#[derive(Clone, Copy)]
pub enum PaperForm {
    A4,
    Letter,
    /// 14 by 11 inches, lying across.
    Fanfold,
}

/// How pages are put on sheets.
#[derive(Clone, Copy)]
pub struct Settings {
    pub(crate) form: PaperForm,
    pub(crate) length: u32,
    pub(crate) columns: u32,
    pub(crate) has_bars: bool,
    ghost some_lines: { 1 ≤ length },
    ghost few_lines: { length ≤ 112 },
    ghost some_columns: { 20 ≤ columns },
    ghost few_columns: { columns ≤ 198 },
}

/// A sheet of paper, and where lines and columns are on it.
#[derive(Clone, Copy)]
pub(crate) struct Sheet {
    pub settings: Settings,
    pub width: u32,
    pub height: u32,
    pub font: u32,
    pub lead: u32,
    pub left: u32,
    pub top: u32,
}

/// What was made of a PDF so far.
#[derive(Drop)]
pub(crate) struct Made {
    /// What is written next.
    pub out: Vec<u8>,
    /// The table's entries of the objects after the catalog.
    pub entries: Vec<u8>,
    /// The contents of a sheet.
    pub contents: Vec<u8>,
    /// How many bytes were written.
    pub at: u64,
    ghost few_bytes: { at ≤ 9999999999 },
}

/// Puts a print on sheets, from a reader to a writer.
#[derive(Drop)]
pub struct Press<R, W> {
    pub reader: Counted<R>,
    pub writer: Counted<W>,
    pub(crate) sheet: Sheet,
    /// The bytes of the page that was begun.
    pub(crate) page: Vec<u8>,
    pub(crate) made: Made,
    /// How many pages were made.
    pub(crate) number: u32,
    /// Whether memory ran out.
    pub(crate) is_short: bool,
    ghost short_page: { length page.items ≤ 1048576 },
    ghost few_pages: { number ≤ 99999 },
}

/// Why a page doesn't fit its sheet. Lines and columns are counted from 1.
#[derive(Clone, Copy)]
pub enum PageFault {
    /// It has more than 1,048,576 bytes.
    Bytes,
    /// It has more lines than a sheet.
    Lines { count: usize },
    /// A line has more columns than a sheet.
    Columns { line: u32, count: usize },
    /// A byte is no character.
    Character { line: u32, column: usize, byte: u8 },
}

/// Why a print isn't put on sheets.
#[derive(Clone, Copy)]
pub enum PaperFault {
    /// A page doesn't fit. Pages are numbered from 1.
    Page { number: u32, fault: PageFault },
    /// There are more than 99,999 pages.
    Pages,
    /// The PDF would have more than 9,999,999,999 bytes, which its table has no room for.
    Size,
    /// The reader failed.
    Read,
    /// The writer failed.
    Write,
    NoMemory,
}
