//! The line counter sheet (L).

use crate::within::Within;
use crate::word::Word;

/// An L card: the pages of a file's form.
#[derive(Drop)]
pub struct FormSpec {
    pub file: Word<8>,
    /// The lines of a page.
    pub lines: Within<3, 112>,
    /// The line from which the page is full.
    pub overflow_line: Within<1, 112>,
}
