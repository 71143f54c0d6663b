//! The lines that begin data and end a source.

/// Whether a line is the card `/*`, which ends a source.
pub(crate) fn ends_source(line: &[u8]) -> bool {
    matches!(line, b"/*" | [b'/', b'*', b' ', ..])
}

/// Whether a line is a card `**`, after which data begin.
pub(crate) fn begins_data(line: &[u8]) -> bool {
    matches!(line, b"**" | [b'*', b'*', b' ', ..])
}
