//! The bytes that were read but not yet consumed.

ghost use Rattle.std.specs.Prelude.{◌≡◌, ◌+◌, ◌-◌, ◌^◌, ◌<◌, ◌≤◌, drop, length, take, vec_len, IfErr, IfOk};
ghost use Rattle.std.specs.Io.KnownBytes.{ReadConsumes};
ghost use Rattle.rpg_files.specs.Counting.{faults_after, device_of, faults_of};

use crate::counting::{Counted, DeviceFault};
use std::alloc::{AllocError, Global};
use std::io::Read;

/// The bytes `buf[start..end]`.
#[derive(Drop)]
pub(crate) struct Buffer {
    buf: Vec<u8>,
    start: usize,
    end: usize,
    ghost ordered: { start ≤ end },
    ghost in_bounds: { end ≤ vec_len buf },
}

impl Buffer {
    ghost use Rattle.std.specs.Prelude.{[], ◌↔◌};
    ghost use Rattle.rpg_files.specs.Reads.{Fills};
    ghost use Rattle.rpg_files.specs.Buffers.{capacity_of, left_in};

    /// An empty buffer with this capacity.
    pub fn with_capacity(alloc: Global, capacity: usize) -> Result<Buffer, AllocError>
        ensures bytes { IfOk result (λ w. left_in w ≡ []) }
        ensures capacity { IfOk result (λ w. capacity_of w ≡ capacity) }
    {
        Ok(Buffer {
            buf: vec![in alloc; 0; capacity]?,
            start: 0,
            end: 0,
        })
    }

    pub fn bytes(&self) -> &[u8]
        ensures { result.now ≡ left_in self.now }
    {
        let all = self.buf.as_slice();
        &all[self.start..self.end]
    }

    /// Returns the number of unconsumed bytes.
    pub fn len(&self) -> usize
        ensures { result ≡ length (left_in self.now) }
    {
        self.end - self.start
    }

    pub fn consume(&mut self, n: usize)
        requires { n ≤ length (left_in self.old) }
        ensures bytes { left_in self.new ≡ drop n (left_in self.old) }
        ensures capacity { capacity_of self.new ≡ capacity_of self.old }
    {
        self.start += n;
    }

    /// Moves the bytes to the start of the buffer, and reads more after them. Returns how many, 0 at the end of the input.
    pub fn fill<R: Read>(&mut self, reader: &mut Counted<R>) -> Result<usize, DeviceFault>
        requires faults { faults_of reader.old < 2 ^ 64 - 1 }
        requires room { length (left_in self.old) < capacity_of self.old }
        ensures bytes { Fills (R.remaining (device_of reader.old)) (R.remaining (device_of reader.new)) (left_in self.old) (left_in self.new) result }
        ensures same { IfErr result (λ _. left_in self.new ≡ left_in self.old) }
        ensures capacity { capacity_of self.new ≡ capacity_of self.old }
        ensures faults { faults_of reader.new ≡ faults_after (faults_of reader.old) result }
    {
        let (start, len) = (self.start, self.len());
        self.start = 0;
        self.end = len;
        let n = refill(reader, self.buf.as_mut_slice(), start, len)?;
        self.end += n;
        Ok(n)
    }
}

/// Moves `len` bytes from `start` to the front, and reads more after them.
fn refill<R: Read>(
    reader: &mut Counted<R>,
    buf: &mut [u8],
    start: usize,
    len: usize,
) -> Result<usize, DeviceFault>
    requires faults { faults_of reader.old < 2 ^ 64 - 1 }
    requires inside { start + len ≤ length buf.old }
    requires room { len < length buf.old }
    ensures moved { take len buf.new ≡ take len (drop start buf.old) }
    ensures within { IfOk result (λ n. len + n ≤ length buf.new) }
    ensures bytes { ReadConsumes (R.remaining (device_of reader.old)) (R.remaining (device_of reader.new)) result (drop len buf.new) }
    ensures faults { faults_of reader.new ≡ faults_after (faults_of reader.old) result }
{
    move_to_front(buf, start, len);
    read_after(reader, buf, len)
}

/// Moves `len` bytes from `start` to the front.
fn move_to_front(buf: &mut [u8], start: usize, len: usize)
    requires { start + len ≤ length buf.old }
    ensures { take len buf.new ≡ take len (drop start buf.old) }
{
    if start == 0 {
        return;
    }
    for i in 0..len {
        buf[i] = buf[start + i];
    }
}

/// Reads bytes after the first `len`.
fn read_after<R: Read>(
    reader: &mut Counted<R>,
    buf: &mut [u8],
    len: usize,
) -> Result<usize, DeviceFault>
    requires faults { faults_of reader.old < 2 ^ 64 - 1 }
    requires room { len < length buf.old }
    ensures kept { take len buf.new ≡ take len buf.old }
    ensures within { IfOk result (λ n. len + n ≤ length buf.new) }
    ensures bytes { ReadConsumes (R.remaining (device_of reader.old)) (R.remaining (device_of reader.new)) result (drop len buf.new) }
    ensures faults { faults_of reader.new ≡ faults_after (faults_of reader.old) result }
{
    let (_kept, room) = buf.split_at_mut(len);
    reader.read(room)
}
