//! A row of the file: what to call, and with which arguments.

use std::alloc::{AllocError, Global};

/// A row, by its columns; tests/README.md describes them for each task.
#[derive(Clone, Copy)]
pub struct Row<'a> {
    pub task: &'a str,
    pub name: &'a str,
    pub date: &'a str,
    /// Bytes in hex, or those of each record after a comma.
    pub input: &'a str,
    pub secondary: &'a str,
    pub devices: &'a str,
}

/// Returns a column of a line, empty if the line has fewer.
fn column(line: &str, place: usize) -> &str {
    line.split('\t').nth(place).unwrap_or("")
}

/// Splits a line into its columns.
pub fn row_of(line: &str) -> Row<'_> {
    Row {
        task: column(line, 0),
        name: column(line, 1),
        date: column(line, 2),
        input: column(line, 3),
        secondary: column(line, 4),
        devices: column(line, 5),
    }
}

fn digit(byte: u8) -> u8 {
    match byte {
        b'0'..=b'9' => byte - b'0',
        b'a'..=b'f' => byte - b'a' + 10,
        _ => 0,
    }
}

/// Decodes bytes from hex.
pub fn bytes_of(alloc: Global, hex: &str) -> Result<Vec<u8>, AllocError> {
    let mut bytes = Vec::new(alloc);
    for pair in hex.as_bytes().chunks(2) {
        if let [high, low] = pair {
            bytes.push(digit(*high).wrapping_mul(16) | digit(*low))?;
        }
    }
    Ok(bytes)
}

/// Decodes the bytes of each record, which a comma precedes.
pub fn records_of(alloc: Global, column: &str) -> Result<Vec<Vec<u8>>, AllocError> {
    let mut records = Vec::new(alloc);
    for hex in column.split(',').skip(1) {
        records.push(bytes_of(alloc, hex)?)?;
    }
    Ok(records)
}
