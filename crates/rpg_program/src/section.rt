//! Sections of calculations, and places in them.

/// A section of calculations. Subroutines are numbered from 0.
#[derive(Clone, Copy)]
pub enum Section {
    Detail,
    Total,
    Subroutine(u16),
}

/// A place in a section. Places are numbered through the whole program.
#[derive(Clone, Copy)]
pub struct Place {
    pub section: Section,
    pub number: u16,
}
