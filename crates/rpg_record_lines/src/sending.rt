//! Writes all bytes of a text to a writer.

ghost use Rattle.std.specs.Prelude.{◌≡◌, ◌<◌, ◌≤◌, length, IfOk, OnErr, OnOk};
ghost use Rattle.std.specs.Io.KnownBytes.{Appends, WriteAppends};
ghost use Rattle.rpg_files.specs.Sending.{AppendsPrefix};

use rpg_files::most_tries;
use std::io::{ErrorKind, Write};

/// The writer failed.
#[derive(Clone, Copy)]
pub(crate) struct WriteFault;

/// Writes bytes. Returns how many, at least one if there are any: a write of 0 bytes is a fault.
fn write_some<W: Write>(writer: &mut W, bytes: &[u8]) -> Result<usize, WriteFault>
    ensures within { IfOk result (λ n. n ≤ length bytes.now) }
    ensures some { IfOk result (λ n. 0 < length bytes.now → 0 < n) }
    ensures bytes { WriteAppends (W.contents writer.old) (W.contents writer.new) result bytes.now }
{
    for _ in 0..most_tries() {
        match writer.write(bytes) {
            Ok(0) if !bytes.is_empty() => break,
            Ok(n) => return Ok(n),
            Err(error) => {
                if error.kind() != ErrorKind::Interrupted {
                    break;
                }
            }
        }
    }
    Err(WriteFault)
}

/// Writes all bytes, or some of them if it fails.
pub(crate) fn send<W: Write>(writer: &mut W, bytes: &[u8]) -> Result<(), WriteFault>
    ensures all { OnOk result (Appends (W.contents writer.old) (W.contents writer.new) bytes.now) }
    ensures part { OnErr result (AppendsPrefix (W.contents writer.old) (W.contents writer.new) bytes.now) }
{
    let mut sent = 0;
    while sent < bytes.len() {
        let (_gone, rest) = bytes.split_at(sent);
        match write_some(writer, rest) {
            Ok(n) => sent += n,
            Err(fault) => return Err(fault),
        }
    }
    Ok(())
}
