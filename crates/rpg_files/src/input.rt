//! Reads until the next record is certain.

ghost use Rattle.std.specs.Prelude.{◌≡◌, ◌+◌, ◌-◌, ◌^◌, ◌<◌, ◌≤◌, ◌⊎◌, false, length, IsOk, OnOk, IfErr, IfOk, true};
ghost use Rattle.rpg_text.specs.Lines.{is_line};
ghost use Rattle.rpg_files.specs.Counting.{faults_after, faults_of};
ghost use Rattle.rpg_files.specs.Reads.{ReadsInto};
ghost use Rattle.rpg_files.specs.FirstLine.{IsIncomplete};
ghost use Rattle.rpg_files.specs.NextLine.{HasMore, IsNextLine};
ghost use Rattle.rpg_files.specs.Buffers.{capacity_of, left_in};

use crate::buffer::Buffer;
use crate::counting::{Counted, DeviceFault};
use crate::line::{FirstLine, first_line};
use std::io::Read;

/// The next record of the input, if any.
#[derive(Clone, Copy)]
pub(crate) enum NextLine {
    /// A record of `len` bytes, `line_len` with its line end.
    Record { len: usize, line_len: usize },
    /// A record that no program accepts.
    Bad,
    End,
}

/// Reads more bytes, or detects the end of the input.
fn read_more<R: Read>(
    reader: &mut Counted<R>,
    buffer: &mut Buffer,
    is_ended: &mut bool,
) -> Result<(), DeviceFault>
    requires faults { faults_of reader.old < 2 ^ 64 - 1 }
    requires room { length (left_in buffer.old) < capacity_of buffer.old }
    requires open { is_ended.old ≡ false }
    ensures read { ReadsInto R.remaining reader.old reader.new buffer.old buffer.new is_ended.old is_ended.new }
    ensures same { IfErr result (λ _. left_in buffer.new ≡ left_in buffer.old) }
    ensures more { OnOk result (is_ended.new ≡ false → length (left_in buffer.old) < length (left_in buffer.new)) }
    ensures capacity { capacity_of buffer.new ≡ capacity_of buffer.old }
    ensures faults { faults_of reader.new ≡ faults_after (faults_of reader.old) result }
{
    let n = buffer.fill(reader)?;
    if n == 0 {
        *is_ended = true;
    }
    Ok(())
}

/// Whether there are unconsumed bytes, reading more if there are none.
pub(crate) fn has_more<R: Read>(
    reader: &mut Counted<R>,
    buffer: &mut Buffer,
    is_ended: &mut bool,
) -> Result<bool, DeviceFault>
    requires faults { faults_of reader.old < 2 ^ 64 - 1 }
    requires room { 0 < capacity_of buffer.old }
    ensures read { ReadsInto R.remaining reader.old reader.new buffer.old buffer.new is_ended.old is_ended.new }
    ensures ok { IfOk result (λ more. HasMore more (left_in buffer.new) is_ended.new) }
    ensures waits { IfErr result (λ _. is_line (left_in buffer.new) ≡ true) }
    ensures capacity { capacity_of buffer.new ≡ capacity_of buffer.old }
    ensures faults { faults_of reader.new ≡ faults_after (faults_of reader.old) result }
{
    if buffer.len() == 0 && !*is_ended {
        read_more(reader, buffer, is_ended)?;
    }
    Ok(buffer.len() != 0)
}

/// Returns the last record: the bytes before the end of the input that have no line end.
fn last_line(bytes: &[u8], scanned: usize, limit: usize) -> NextLine
    requires { IsIncomplete limit bytes.now scanned }
    ensures { IsNextLine limit bytes.now true result }
{
    let len = bytes.len();
    if len == 0 {
        NextLine::End
    } else if scanned == len {
        NextLine::Record { len, line_len: len }
    } else {
        NextLine::Bad
    }
}

/// Reads until the next record is certain.
pub(crate) fn read_line<R: Read>(
    reader: &mut Counted<R>,
    buffer: &mut Buffer,
    is_ended: &mut bool,
    limit: usize,
) -> Result<NextLine, DeviceFault>
    requires faults { faults_of reader.old < 2 ^ 64 - 1 }
    requires room { limit + 1 < capacity_of buffer.old }
    ensures read { ReadsInto R.remaining reader.old reader.new buffer.old buffer.new is_ended.old is_ended.new }
    ensures ok { IfOk result (λ line. IsNextLine limit (left_in buffer.new) is_ended.new line) }
    ensures waits { IfErr result (λ _. is_line (left_in buffer.new) ≡ true) }
    ensures sure { (is_ended.old ≡ true) ⊎ (limit + 2 ≤ length (left_in buffer.old)) → IsOk result }
    ensures capacity { capacity_of buffer.new ≡ capacity_of buffer.old }
    ensures faults { faults_of reader.new ≡ faults_after (faults_of reader.old) result }
{
    let mut scanned = 0;
    'reading: loop {
        match first_line(buffer.bytes(), scanned, limit) {
            FirstLine::Record { len, line_len } => return Ok(NextLine::Record { len, line_len }),
            FirstLine::Bad => return Ok(NextLine::Bad),
            FirstLine::Incomplete { scanned: known } => scanned = known,
        }
        if *is_ended {
            return Ok(last_line(buffer.bytes(), scanned, limit));
        }
        read_more(reader, buffer, is_ended)?;
    }
}
