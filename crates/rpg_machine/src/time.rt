//! The output times of a cycle.

/// When the machine writes lines by itself: heading and detail lines at the beginning of a cycle, total lines at total time, and
/// all of these when the page is full.
#[derive(Clone, Copy)]
pub enum OutputTime {
    Detail,
    Total,
    Overflow,
}
