//! Files: the waiting record of each, which of two goes first, and which comes after the end.
ghost use Rattle.std.specs.Prelude.{◌≡◌, ◌<◌, ◌||◌, Some, true, false, not, length};
ghost use Rattle.rpg_cycle_records.specs.Earlier.{match_value};
ghost use Rattle.rpg_cycle_records.specs.Fitting.{IsFilledAs};
ghost use Rattle.rpg_cycle_records.specs.Holding.{input_state_of, record_as, takes_from};
ghost use Rattle.rpg_cycle_records.specs.Keeping.{seen_value};
ghost use Rattle.rpg_cycle_records.specs.Matching as values;
ghost use Rattle.rpg_cycle_records.specs.Waiting as spec;

use crate::matching::{LONGEST_VALUE, MatchValue};
use crate::program::{input_length, match_fields, rows_of};
use rpg_program::input::InputFile;
use rpg_verify::Verified;
use std::alloc::{AllocError, Global};

/// What a job keeps of a file. Its buffers are allocated at the start, so that a cycle allocates nothing.
#[derive(Drop)]
pub struct KeptFile {
    /// The row of the waiting record's type, counted from 0, if a record waits.
    pub waiting: Option<usize>,
    /// Whether the end of the file was read.
    pub is_over: bool,
    /// The record that was read last, padded to its length.
    pub record: Vec<u8>,
    /// The match value of that record.
    pub value: MatchValue,
}

impl KeptFile {
    ghost use Rattle.std.specs.Prelude.{None, IfOk, OnOk};

    /// A file of which nothing was read yet. Allocates room for a record and for a match value.
    pub fn new(alloc: Global, program: &Verified, file: InputFile) -> Result<KeptFile, AllocError>
        ensures nothing { IfOk result (λ k. k.waiting ≡ None) }
        ensures open { IfOk result (λ k. k.is_over ≡ false) }
    {
        Ok(KeptFile {
            waiting: None,
            is_over: false,
            record: Vec::with_capacity(alloc, input_length(program, file))?,
            value: MatchValue::none(alloc, LONGEST_VALUE)?,
        })
    }

    /// Whether the file reads a record: it exists, isn't at its end, and no record of it waits.
    pub fn takes_in(&self, program: &Verified, file: InputFile) -> bool
        ensures { result ≡ takes_from program.now file (input_state_of self.now) }
    {
        input_length(program, file) != 0 && !self.is_over && self.waiting.is_none()
    }

    /// Takes the match value of the record, which is of type `row`, counted from 0. The record waits, unless its value is lower than the
    /// file's last one; returns whether it does. Allocates only if the value's buffer is too small; after an error the value is unusable.
    #[inline(always)]
    pub fn wait(
        &mut self,
        program: &Verified,
        row: usize,
        last: &MatchValue,
    ) -> Result<bool, AllocError>
        requires there { row < length program.now.types }
        requires filled { IsFilledAs program.now row self.old.record.items }
        ensures waits { IfOk result (λ b. b ≡ not (values.exceeds (seen_value last.now) (match_value program.now (record_as row self.old)))) }
        ensures now { IfOk result (λ b. b ≡ true → self.new.waiting ≡ Some row) }
        ensures value { IfOk result (λ b. seen_value self.new.value ≡ match_value program.now (record_as row self.old)) }
        ensures held { IfOk result (λ b. self.new.record.items ≡ self.old.record.items) }
        ensures over { IfOk result (λ b. self.new.is_over ≡ self.old.is_over) }
    {
        self.value.take(match_fields(program, row), &self.record)?;
        if last.exceeds(&self.value) {
            return Ok(false);
        }
        self.waiting = Some(row);
        Ok(true)
    }
}

/// Returns the file whose record goes first, by the match values of two waiting records.
pub(crate) fn first_of(primary: &MatchValue, secondary: &MatchValue) -> InputFile
    ensures { result ≡ spec.first_of (seen_value primary.now) (seen_value secondary.now) }
{
    if primary.is_there && (!secondary.is_there || primary.exceeds(secondary)) {
        InputFile::Secondary
    } else {
        InputFile::Primary
    }
}

/// Whether a record with this match value follows, by the last one of the other file, which has ended.
fn follows(ended: InputFile, last: &MatchValue, value: &MatchValue) -> bool
    ensures { result ≡ spec.follows ended (seen_value last.now) (seen_value value.now) }
{
    if value.is_there {
        value.agrees(last)
    } else {
        ended == InputFile::Secondary || last.is_there
    }
}

/// Whether a record with this match value comes after the end of the job: the other file, which has ended, ends the job alone, and the
/// record doesn't follow.
pub(crate) fn is_after_end(
    program: &Verified,
    ended: InputFile,
    last: &MatchValue,
    value: &MatchValue,
) -> bool
    ensures { result ≡ spec.is_after_end program.now.ends ended (seen_value last.now) (seen_value value.now) }
{
    match rows_of(program).ends {
        None => false,
        Some(ending) => ending == ended && !follows(ended, last, value),
    }
}
