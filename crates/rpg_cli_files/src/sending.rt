//! Writes a line to a writer.

ghost use Rattle.std.specs.Prelude.{◌<◌, ◌≤◌, length, IfErr, IfOk, OnErr, OnOk};
ghost use Rattle.std.specs.Io.KnownBytes.{Appends, WriteAppends};
ghost use Rattle.rpg_files.specs.Sending.{AppendsFirst, AppendsPrefix};
ghost use Rattle.rpg_text.specs.Lines.{with_line_feed};

use crate::files::Reason;
use rpg_files::most_tries;
use std::io::{ErrorKind, Write};

/// A writer failed after it wrote this many bytes.
#[derive(Clone, Copy)]
struct Unsent {
    sent: usize,
    reason: Reason,
}

/// Writes bytes of `buf`. Returns how many, at least one unless `buf` is empty: a write of 0 bytes is a fault.
fn write_some<W: Write>(writer: &mut W, buf: &[u8]) -> Result<usize, Reason>
    ensures within { IfOk result (λ n. n ≤ length buf.now) }
    ensures some { IfOk result (λ n. 0 < length buf.now → 0 < n) }
    ensures bytes { WriteAppends (W.contents writer.old) (W.contents writer.new) result buf.now }
{
    for _ in 0..most_tries() {
        match writer.write(buf) {
            Ok(0) if !buf.is_empty() => break,
            Ok(n) => return Ok(n),
            Err(error) => {
                if error.kind() != ErrorKind::Interrupted {
                    return Err(Reason::of(error.kind()));
                }
            }
        }
    }
    Err(Reason::Other)
}

/// Writes all bytes, or as many as the writer accepts.
fn send<W: Write>(writer: &mut W, bytes: &[u8]) -> Result<(), Unsent>
    ensures ok { OnOk result (Appends (W.contents writer.old) (W.contents writer.new) bytes.now) }
    ensures err { IfErr result (λ e. AppendsFirst (W.contents writer.old) (W.contents writer.new) e.sent bytes.now) }
{
    let mut sent = 0;
    while sent < bytes.len() {
        let (_gone, rest) = bytes.split_at(sent);
        match write_some(writer, rest) {
            Ok(n) => sent += n,
            Err(reason) => return Err(Unsent { sent, reason }),
        }
    }
    Ok(())
}

/// Writes all bytes. The error is why they couldn't be written completely.
pub(crate) fn send_bytes<W: Write>(writer: &mut W, bytes: &[u8]) -> Result<(), Reason>
    ensures ok { OnOk result (Appends (W.contents writer.old) (W.contents writer.new) bytes.now) }
    ensures err { OnErr result (AppendsPrefix (W.contents writer.old) (W.contents writer.new) bytes.now) }
{
    match send(writer, bytes) {
        Ok(()) => Ok(()),
        Err(unsent) => Err(unsent.reason),
    }
}

/// Writes a text. The error is why it couldn't be written completely.
pub fn send_text<W: Write>(writer: &mut W, text: &str) -> Result<(), Reason>
    ensures ok { OnOk result (Appends (W.contents writer.old) (W.contents writer.new) text.now) }
    ensures err { OnErr result (AppendsPrefix (W.contents writer.old) (W.contents writer.new) text.now) }
{
    send_bytes(writer, text.as_bytes())
}

/// Writes a line and its line feed. The error is why they couldn't be written completely.
pub fn send_line<W: Write>(writer: &mut W, text: &[u8]) -> Result<(), Reason>
    ensures ok { OnOk result (Appends (W.contents writer.old) (W.contents writer.new) (with_line_feed text.now)) }
    ensures err { OnErr result (AppendsPrefix (W.contents writer.old) (W.contents writer.new) (with_line_feed text.now)) }
{
    if let Err(unsent) = send(writer, text) {
        return Err(unsent.reason);
    }
    if let Err(unsent) = send(writer, b"\n") {
        return Err(unsent.reason);
    }
    match writer.flush() {
        Ok(()) => Ok(()),
        Err(error) => Err(Reason::of(error.kind())),
    }
}
