//! The bytes of the output.

/// Bytes of the printer and of the disk, in the order of lines and records.
#[derive(Drop)]
pub struct Output {
    pub print: Vec<u8>,
    pub disk: Vec<u8>,
}
