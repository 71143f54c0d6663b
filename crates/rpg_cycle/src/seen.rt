//! What is known about records before a cycle takes them.

/// Which of the next records are known to have only characters, 0x20 to 0x7E, so that their bytes aren't tested again.
#[derive(Clone, Copy)]
pub struct Seen {
    pub primary: bool,
    pub secondary: bool,
}

pub(crate) const NOTHING_SEEN: Seen = Seen {
    primary: false,
    secondary: false,
};
