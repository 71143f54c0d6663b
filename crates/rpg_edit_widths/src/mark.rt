//! Lists of marks.

use arrayvec::ArrayVec;
use rpg_edit_marks::Mark;

/// The most marks for a number of 15 digits, and the most characters of an edit word.
pub(crate) const MOST_MARKS: usize = 24;

/// The marks of an edited number, from the left.
pub(crate) type Marks = ArrayVec<Mark, MOST_MARKS>;
