//! A buffered reader.

ghost use Rattle.std.specs.Prelude.{◌≡◌, ◌==◌, ◌^◌, ◌<◌, ◌≤◌, ◌++◌, length, position, take, true, false, vec_len, IfOk, OnOk};
ghost use Rattle.std.specs.Io.BufRead.{take_through};
ghost use Rattle.std.specs.Io.KnownBytes.{ReadConsumes};
ghost use Rattle.std.specs.List.{list_any};

use rpg_files::most_tries;
use std::alloc::{AllocError, Global};
use std::io::{ErrorKind, Read};

/// The room for each read, in bytes.
const READ_ROOM: usize = 65_536;

/// Why no more bytes can be read.
#[derive(Clone, Copy)]
pub(crate) enum InputFault {
    Device,
    NoMemory,
}

impl From<AllocError> for InputFault {
    fn from(_: AllocError) -> Self {
        InputFault::NoMemory
    }
}

/// A reader, with the bytes `buf[start..end]`, which were read but not yet consumed.
#[derive(Drop)]
pub(crate) struct Input<R> {
    reader: R,
    buf: Vec<u8>,
    start: usize,
    end: usize,
    /// How many bytes were consumed.
    given: u64,
    ghost ordered: { start ≤ end },
    ghost in_bounds: { end ≤ vec_len buf },
    ghost room: { 0 < vec_len buf },
    ghost in_range: { given < 2 ^ 64 },
}

/// Reads into `room`. Returns how many bytes, 0 at the end of the input or if there is no room.
fn read_some<R: Read>(reader: &mut R, room: &mut [u8]) -> Result<usize, InputFault>
    ensures within { IfOk result (λ n. n ≤ length room.new) }
    ensures bytes { ReadConsumes (R.remaining reader.old) (R.remaining reader.new) result room.new }
{
    for _ in 0..most_tries() {
        match reader.read(room) {
            Ok(n) => return Ok(n),
            Err(error) => {
                if error.kind() != ErrorKind::Interrupted {
                    break;
                }
            }
        }
    }
    Err(InputFault::Device)
}

/// Returns the first bytes, at most `most`.
fn front(bytes: &[u8], most: usize) -> &[u8]
    ensures { result.now ≡ take most bytes.now }
{
    &bytes[..most.min(bytes.len())]
}

/// The first line of some bytes, with its line feed if that is there.
#[derive(Clone, Copy)]
struct FirstLine<'a> {
    bytes: &'a [u8],
    is_ended: bool,
}

/// Returns the place of the first line feed.
fn line_feed_in(bytes: &[u8]) -> Option<usize>
    ensures { result ≡ position (λ b. b == 10) bytes.now }
{
    bytes.iter().position(|byte| *byte == b'\n')
}

#[tactic(auto, using(crate::proofs::InputLemmas::through_first, crate::proofs::InputLemmas::through_all, crate::proofs::InputLemmas::some_line_feed, crate::proofs::InputLemmas::no_line_feed, crate::proofs::InputLemmas::place_within))]
fn first_line(bytes: &[u8]) -> FirstLine<'_>
    ensures bytes { result.bytes.now ≡ take_through 10 bytes.now }
    ensures ended { result.is_ended ≡ list_any (λ b. b == 10) bytes.now }
{
    match line_feed_in(bytes) {
        Some(place) => FirstLine {
            bytes: &bytes[..place + 1],
            is_ended: true,
        },
        None => FirstLine {
            bytes,
            is_ended: false,
        },
    }
}

impl<R: Read> Input<R> {
    ghost use Rattle.std.specs.Io.KnownBytes.{IsAtEnd, Keeps};
    ghost use Rattle.rpg_record_lines.specs.Inputs.{GivesBytes, GivesFirst, given_of, not_given, remaining_in};

    #[tactic(auto, using(crate::proofs::InputLemmas::nothing_before))]
    pub fn new(alloc: Global, reader: R) -> Result<Self, AllocError>
    where
        R: Drop,
        ensures remaining { IfOk result (λ input. remaining_in R.remaining input ≡ R.remaining reader) }
        ensures given { IfOk result (λ input. given_of input ≡ 0) }
    {
        let buf = vec![in alloc; 0; READ_ROOM]?;
        Ok(Input {
            reader,
            buf,
            start: 0,
            end: 0,
            given: 0,
        })
    }

    /// Returns how many bytes were consumed.
    pub fn given(&self) -> u64
        ensures { result ≡ given_of self.now }
    {
        self.given
    }

    fn bytes(&self) -> &[u8]
        ensures { result.now ≡ not_given self.now }
    {
        let all = self.buf.as_slice();
        &all[self.start..self.end]
    }

    /// Reads if the buffer is empty. Returns whether it has bytes now; it has none at the end of the input.
    #[tactic(auto, using(crate::proofs::InputLemmas::filled, crate::proofs::InputLemmas::filled_end, crate::proofs::InputLemmas::unchanged))]
    fn fill(&mut self) -> Result<bool, InputFault>
        ensures kept { OnOk result (Keeps (remaining_in R.remaining self.old) (remaining_in R.remaining self.new)) }
        ensures given { given_of self.new ≡ given_of self.old }
        ensures some { IfOk result (λ are_any. are_any ≡ true → 0 < length (not_given self.new)) }
        ensures end { IfOk result (λ are_any. are_any ≡ false → IsAtEnd (remaining_in R.remaining self.new)) }
    {
        if self.start < self.end {
            return Ok(true);
        }
        let n = read_some(&mut self.reader, self.buf.as_mut_slice())?;
        self.start = 0;
        self.end = n;
        Ok(n > 0)
    }

    /// Consumes the first bytes.
    #[tactic(auto, using(crate::proofs::InputLemmas::given_bytes))]
    fn consume(&mut self, n: usize)
        requires { n ≤ length (not_given self.old) }
        ensures { GivesBytes R.remaining self.old self.new (take n (not_given self.old)) }
    {
        self.start += n;
        self.given = self.given.saturating_add(n as u64);
    }

    /// Appends buffered bytes, at most `most`.
    #[tactic(auto, using(crate::proofs::InputLemmas::piece_front))]
    fn append(&mut self, most: usize, bytes: &mut Vec<u8>) -> Result<(), InputFault>
        ensures appended { OnOk result (bytes.new.items ≡ bytes.old.items ++ take most (not_given self.old)) }
        ensures bytes { OnOk result (GivesBytes R.remaining self.old self.new (take most (not_given self.old))) }
    {
        let piece = front(self.bytes(), most);
        bytes.extend_from_slice(piece)?;
        let n = piece.len();
        self.consume(n);
        Ok(())
    }

    /// Appends buffered bytes, at most `most`, up to a line feed. Returns whether that was found.
    #[tactic(auto, using(crate::proofs::InputLemmas::line_front, crate::proofs::InputLemmas::line_shorter))]
    fn append_line(&mut self, most: usize, line: &mut Vec<u8>) -> Result<bool, InputFault>
        ensures appended { OnOk result (line.new.items ≡ line.old.items ++ take_through 10 (take most (not_given self.old))) }
        ensures bytes { OnOk result (GivesBytes R.remaining self.old self.new (take_through 10 (take most (not_given self.old)))) }
        ensures ended { IfOk result (λ is_ended. is_ended ≡ list_any (λ b. b == 10) (take most (not_given self.old))) }
    {
        let first = first_line(front(self.bytes(), most));
        line.extend_from_slice(first.bytes)?;
        let (n, is_ended) = (first.bytes.len(), first.is_ended);
        self.consume(n);
        Ok(is_ended)
    }

    /// Reads `n` bytes, or up to the end of the input, which replace the bytes there.
    #[tactic(auto, using(crate::proofs::InputLemmas::read_start, crate::proofs::InputLemmas::given_start, crate::proofs::InputLemmas::read_more, crate::proofs::InputLemmas::given_more, crate::proofs::InputLemmas::front_full, crate::proofs::InputLemmas::front_ended))]
    pub fn read_up_to(&mut self, n: usize, bytes: &mut Vec<u8>) -> Result<(), InputFault>
        ensures front { OnOk result (GivesFirst (take n) R.remaining self.old self.new bytes.new.items) }
        ensures within { OnOk result (vec_len bytes.new ≤ n) }
    {
        bytes.clear();
        while bytes.len() < n {
            if !self.fill()? {
                return Ok(());
            }
            self.append(n - bytes.len(), bytes)?;
        }
        Ok(())
    }

    /// Reads up to a line feed, to `n` bytes, or to the end of the input, which replaces the bytes there.
    #[tactic(auto, using(crate::proofs::InputLemmas::line_start, crate::proofs::InputLemmas::given_start, crate::proofs::InputLemmas::line_more, crate::proofs::InputLemmas::given_more, crate::proofs::InputLemmas::line_found, crate::proofs::InputLemmas::line_ended, crate::proofs::InputLemmas::so_far_full, crate::proofs::InputLemmas::so_far_start, crate::proofs::InputLemmas::line_within, crate::proofs::InputLemmas::line_grows))]
    pub fn read_line(&mut self, n: usize, line: &mut Vec<u8>) -> Result<(), InputFault>
        ensures front { OnOk result (GivesFirst (λ input. take_through 10 (take n input)) R.remaining self.old self.new line.new.items) }
        ensures within { OnOk result (vec_len line.new ≤ n) }
    {
        line.clear();
        while line.len() < n {
            if !self.fill()? {
                return Ok(());
            }
            if self.append_line(n - line.len(), line)? {
                return Ok(());
            }
        }
        Ok(())
    }
}
