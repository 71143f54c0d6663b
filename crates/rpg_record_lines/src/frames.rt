//! The records of an input, one after another.

ghost use Rattle.std.specs.Prelude.{◌≡◌, ◌<◌, ℕ, List, length, IfErr, IfOk};
ghost use Rattle.std.specs.Io.BufRead.{ends_with_byte, strip_last};
ghost use Rattle.rpg_record_lines.specs.Cuts.{Refused, after_word, described_cut, unterminated};
ghost use Rattle.rpg_record_lines.specs.declared.frames.Framing.TheVariants as framings;

use crate::fault::RecordFault;
use crate::input::{Input, InputFault};
use std::alloc::{AllocError, Global};
use std::io::Read;

/// How records are delimited in a file.
#[derive(Clone, Copy, PartialEq, Eq)]
pub enum Framing {
    /// All of one length, with nothing between them.
    EndToEnd,
    /// Each follows a record descriptor word: four bytes, the first two of which are their common length.
    Descriptors,
    /// One a line.
    Lines,
}

/// What comes next in an input.
#[derive(Clone, Copy)]
pub(crate) enum Next {
    Record,
    End,
}

/// Why there are no more records.
#[derive(Clone, Copy)]
pub(crate) enum FrameFault {
    Record(RecordFault),
    Input(InputFault),
}

impl From<InputFault> for FrameFault {
    ghost use Rattle.std.specs.Prelude.{◌≡◌};
    ghost use Rattle.rpg_record_lines.specs.declared.frames.FrameFault.TheVariants.{Input};

    ghost from_gives = { λ x e. e ≡ Input x };

    fn from(fault: InputFault) -> Self {
        FrameFault::Input(fault)
    }
}

/// The records of a reader.
#[derive(Drop)]
pub(crate) struct Frames<R> {
    input: Input<R>,
    framing: Framing,
    /// The most bytes of a record.
    most: usize,
}

/// Returns the length of the record after a descriptor word.
#[tactic(auto, using(crate::proofs::FrameLemmas::four_bytes))]
fn described_length(word: &[u8], most: usize) -> Result<usize, RecordFault>
    requires { length word.now ≡ 4 }
    ensures described { IfOk result (λ n. (rest : List ℕ) → described_cut most word.now rest ≡ after_word n rest) }
    ensures few { IfOk result (λ n. n < 65536) }
    ensures fault { IfErr result (λ fault. (rest : List ℕ) → described_cut most word.now rest ≡ Refused fault) }
{
    let whole = usize::from(word[0]) * 256 + usize::from(word[1]);
    if whole < 4 || word[2] != 0 || word[3] != 0 {
        return Err(RecordFault::NoDescriptor {
            bytes: [word[0], word[1], word[2], word[3]],
        });
    }
    let length = whole - 4;
    if length > most {
        return Err(RecordFault::TooLong { bytes: length });
    }
    Ok(length)
}

/// Removes the last byte if it is this one. Returns whether it was.
fn cut_last(bytes: &mut Vec<u8>, byte: u8) -> bool
    ensures bytes { bytes.new.items ≡ strip_last byte bytes.old.items }
    ensures was { result ≡ ends_with_byte byte bytes.old.items }
{
    let len = bytes.len();
    if len == 0 || bytes[len - 1] != byte {
        return false;
    }
    bytes.truncate(len - 1);
    true
}

/// Removes the line feed at the end of a line, and a carriage return before it.
fn cut_line_end(line: &mut Vec<u8>)
    ensures { line.new.items ≡ unterminated line.old.items }
{
    if cut_last(line, b'\n') {
        cut_last(line, b'\r');
    }
}

impl<R: Read + Drop> Frames<R> {
    ghost use Rattle.rpg_record_lines.specs.Inputs.{ReadsFramed, framing_of, most_of, offset_of, remaining_of};

    pub fn new(alloc: Global, reader: R, framing: Framing, most: usize) -> Result<Self, AllocError>
        ensures framing { IfOk result (λ frames. framing_of frames ≡ framing) }
        ensures most { IfOk result (λ frames. most_of frames ≡ most) }
        ensures remaining { IfOk result (λ frames. remaining_of R.remaining frames ≡ R.remaining reader) }
        ensures position { IfOk result (λ frames. offset_of frames ≡ 0) }
    {
        Ok(Frames {
            input: Input::new(alloc, reader)?,
            framing,
            most,
        })
    }

    /// Returns where the next record begins in the input.
    pub fn position(&self) -> u64
        ensures { result ≡ offset_of self.now }
    {
        self.input.given()
    }

    /// Reads the next record, which replaces the bytes in `room`. Near the end it may have fewer bytes than the cards say.
    pub fn next(&mut self, room: &mut Vec<u8>) -> Result<Next, FrameFault>
        ensures framing { framing_of self.new ≡ framing_of self.old }
        ensures most { most_of self.new ≡ most_of self.old }
        ensures next { ReadsFramed (framing_of self.old) R.remaining self.old self.new room.new.items result }
    {
        match self.framing {
            Framing::EndToEnd => self.next_of_length(room),
            Framing::Descriptors => self.next_described(room),
            Framing::Lines => self.next_line(room),
        }
    }

    /// Reads a record of the fixed length.
    #[tactic(auto, using(crate::proofs::FrameLemmas::of_length_whole, crate::proofs::FrameLemmas::of_length_end, crate::proofs::FrameLemmas::of_length_cut))]
    fn next_of_length(&mut self, room: &mut Vec<u8>) -> Result<Next, FrameFault>
        ensures framing { framing_of self.new ≡ framing_of self.old }
        ensures most { most_of self.new ≡ most_of self.old }
        ensures next { ReadsFramed framings.EndToEnd R.remaining self.old self.new room.new.items result }
    {
        self.input.read_up_to(self.most, room)?;
        let bytes = room.len();
        if bytes == self.most {
            Ok(Next::Record)
        } else if bytes == 0 {
            Ok(Next::End)
        } else {
            Err(FrameFault::Record(RecordFault::Cut { bytes }))
        }
    }

    /// Reads a record that follows its descriptor word.
    #[tactic(auto, using(crate::proofs::FrameLemmas::word_end, crate::proofs::FrameLemmas::word_cut, crate::proofs::FrameLemmas::word_refused, crate::proofs::FrameLemmas::described_cut_off, crate::proofs::FrameLemmas::described_read))]
    fn next_described(&mut self, room: &mut Vec<u8>) -> Result<Next, FrameFault>
        ensures framing { framing_of self.new ≡ framing_of self.old }
        ensures most { most_of self.new ≡ most_of self.old }
        ensures next { ReadsFramed framings.Descriptors R.remaining self.old self.new room.new.items result }
    {
        self.input.read_up_to(4, room)?;
        let bytes = room.len();
        if bytes == 0 {
            return Ok(Next::End);
        }
        if bytes < 4 {
            return Err(FrameFault::Record(RecordFault::Cut { bytes }));
        }
        let length = match described_length(room.as_slice(), self.most) {
            Ok(length) => length,
            Err(fault) => return Err(FrameFault::Record(fault)),
        };
        self.input.read_up_to(length, room)?;
        let bytes = room.len();
        if bytes < length {
            return Err(FrameFault::Record(RecordFault::Cut { bytes: bytes + 4 }));
        }
        Ok(Next::Record)
    }

    /// Reads a line, without its line feed and a carriage return before it.
    #[tactic(auto, using(crate::proofs::FrameLemmas::line_end, crate::proofs::FrameLemmas::line_long, crate::proofs::FrameLemmas::line_read))]
    fn next_line(&mut self, room: &mut Vec<u8>) -> Result<Next, FrameFault>
        ensures framing { framing_of self.new ≡ framing_of self.old }
        ensures most { most_of self.new ≡ most_of self.old }
        ensures next { ReadsFramed framings.Lines R.remaining self.old self.new room.new.items result }
    {
        self.input.read_line(self.most.saturating_add(2), room)?;
        if room.is_empty() {
            return Ok(Next::End);
        }
        cut_line_end(room);
        if room.len() > self.most {
            return Err(FrameFault::Record(RecordFault::LongLine { most: self.most }));
        }
        Ok(Next::Record)
    }
}
