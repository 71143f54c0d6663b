//! What a job keeps from cycle to cycle.
ghost use Rattle.std.specs.Prelude.{◌≡◌, ◌<◌, IfOk, None, length, replicate, slice_get};
ghost use Rattle.rpg_cycle_records.specs.Earlier.{file_of};
ghost use Rattle.std.specs.Option.{ForSome};
ghost use Rattle.rpg_cycle_records.specs.Holding.{AreFilesKept, HoldsRecord, inputs_of, kept_at, matches_file, last_record_in, record_of_type};
ghost use Rattle.rpg_cycle_records.specs.Keeping.{left_of, noted, nothing_left, seen_levels};
ghost use Rattle.rpg_cycle_records.specs.Waiting as spec;
ghost use Rattle.rpg_cycle_records.specs.Waiting.{unread};
ghost use Rattle.rpg_program.specs.declared.input.InputFile.TheVariants.{Primary, Secondary};

use crate::files::{KeptFile, first_of, is_after_end};
use crate::levels::LastBytes;
use crate::matching::{LastValues, MatchValue};
use crate::program::{control_fields, file_of};
use rpg_program::input::InputFile;
use rpg_verify::Verified;
use std::alloc::{AllocError, Global};

/// The most bytes that the control fields of a level have together.
const LONGEST_LEVEL: usize = 256;

/// What is left of earlier records, and the files. Its buffers are allocated at the start, so that a cycle allocates nothing.
#[derive(Drop)]
pub struct Kept {
    /// Whether a cycle selected a record.
    pub has_any: bool,
    /// Whether a record with control fields was selected.
    pub has_control: bool,
    /// Of each level, L1 first.
    pub levels: Vec<LastBytes>,
    pub values: LastValues,
    pub primary: KeptFile,
    pub secondary: KeptFile,
}

impl Kept {
    /// Nothing is kept yet, and no file was read. Allocates all buffers: 256 bytes for each of nine levels, and two match values and a
    /// record for each file.
    pub fn new(alloc: Global, program: &Verified) -> Result<Kept, AllocError>
        ensures left { IfOk result (λ k. left_of k ≡ nothing_left) }
        ensures inputs { IfOk result (λ k. inputs_of k ≡ unread) }
        ensures kept { IfOk result (λ k. AreFilesKept program.now k) }
    {
        Ok(Kept {
            has_any: false,
            has_control: false,
            levels: no_levels(alloc)?,
            values: LastValues::none(alloc)?,
            primary: KeptFile::new(alloc, program, InputFile::Primary)?,
            secondary: KeptFile::new(alloc, program, InputFile::Secondary)?,
        })
    }

    /// Returns the record that was read last from the file of a type, counted from 0. It is padded to its length.
    pub fn text(&self, program: &Verified, row: usize) -> &[u8]
        requires { row < length program.now.types }
        ensures { result.now ≡ last_record_in self.now (file_of (slice_get program.now.types row)) }
    {
        match file_of(program, row) {
            InputFile::Primary => &self.primary.record,
            InputFile::Secondary => &self.secondary.record,
        }
    }

    /// Returns the file whose record is selected, if one waits and doesn't come after the end.
    #[tactic(auto, using(crate::proofs::Choosing::both_wait, crate::proofs::Choosing::one_waits))]
    pub fn chosen(&self, program: &Verified) -> Option<InputFile>
        requires { AreFilesKept program.now self.now }
        ensures { result ≡ spec.chosen program.now (left_of self.now) (spec.waiting_in (inputs_of self.now) Primary) (spec.waiting_in (inputs_of self.now) Secondary) }
    {
        let (primary, secondary) = (&self.primary, &self.secondary);
        let last = &self.values;
        match (primary.waiting, secondary.waiting) {
            (None, None) => None,
            (Some(_), None) => {
                let ended = InputFile::Secondary;
                let is_left_out = is_after_end(program, ended, &last.secondary, &primary.value);
                (!is_left_out).then_some(InputFile::Primary)
            }
            (None, Some(_)) => {
                let ended = InputFile::Primary;
                let is_left_out = is_after_end(program, ended, &last.primary, &secondary.value);
                (!is_left_out).then_some(InputFile::Secondary)
            }
            (Some(_), Some(_)) => Some(first_of(&primary.value, &secondary.value)),
        }
    }

    /// Whether a record selected from a file has a match: its match value is that of the record that waits in the other file, or of the
    /// last one selected from there.
    #[inline(always)]
    pub fn finds_match(&self, program: &Verified, row: usize) -> bool
        requires held { HoldsRecord program.now (file_of (slice_get program.now.types row)) (kept_at self.now (file_of (slice_get program.now.types row))) row }
        requires kept { AreFilesKept program.now self.now }
        ensures { result ≡ spec.finds_match program.now (left_of self.now) (inputs_of self.now) (record_of_type program.now self.now row) }
    {
        match file_of(program, row) {
            InputFile::Primary => {
                is_matched(&self.primary.value, &self.secondary, &self.values.secondary)
            }
            InputFile::Secondary => {
                is_matched(&self.secondary.value, &self.primary, &self.values.primary)
            }
        }
    }

    /// Notes the row of the selected record's type, counted from 0, if a record was selected.
    pub fn note(&mut self, program: &Verified, selected: Option<usize>)
        requires { ForSome selected (λ t. t < length program.now.types) }
        ensures left { left_of self.new ≡ noted program.now selected (left_of self.old) }
        ensures inputs { inputs_of self.new ≡ inputs_of self.old }
        ensures kept { AreFilesKept program.now self.old → AreFilesKept program.now self.new }
    {
        if let Some(row) = selected {
            self.has_any = true;
            self.has_control = self.has_control || !control_fields(program, row).is_empty();
        }
    }
}

/// Whether a value is that of the record that waits in a file, or the file's last one.
#[inline(never)]
fn is_met(value: &MatchValue, other: &KeptFile, last: &MatchValue) -> bool
    ensures { result ≡ matches_file value.now other.now last.now }
{
    (other.waiting.is_some() && value.agrees(&other.value)) || value.agrees(last)
}

/// Like `is_met`, for a value that may be missing.
#[inline(always)]
fn is_matched(value: &MatchValue, other: &KeptFile, last: &MatchValue) -> bool
    ensures { result ≡ matches_file value.now other.now last.now }
{
    value.is_there && is_met(value, other, last)
}

/// Nine levels that no record has had yet.
fn no_levels(alloc: Global) -> Result<Vec<LastBytes>, AllocError>
    ensures { IfOk result (λ v. seen_levels v.items ≡ replicate 9 None) }
{
    let mut levels = Vec::with_capacity(alloc, 9)?;
    for i in 0..9usize {
        let _ = i;
        levels.push(LastBytes {
            is_known: false,
            bytes: Vec::with_capacity(alloc, LONGEST_LEVEL)?,
        })?;
    }
    Ok(levels)
}
