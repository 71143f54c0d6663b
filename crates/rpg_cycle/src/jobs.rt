//! Jobs: a program running over its records.
ghost use Rattle.std.specs.Prelude.{◌≡◌};
ghost use Rattle.rpg_cycle.specs.Stages.{stage_of, stage_after};

use crate::cycle::run_cycle;
use crate::date::{Date, put_date};
use crate::ends::{CycleEnd, JobEnd, PhaseStop, Progress, StartFault};
use crate::indicators::{LAST_RECORD, is_halt_indicated};
use crate::program::is_end;
use crate::seen::{NOTHING_SEEN, Seen};
use rpg_cycle_records::Kept;
use rpg_machine::{Machine, Output};
use rpg_memory::first_values_fit;
use rpg_memory::memory::Memory;
use rpg_program::input::InputFile;
use rpg_program::section::Place;
use rpg_store::{FlatStore, Store};
use rpg_verify::Verified;
use std::alloc::{AllocError, Global};
use std::marker::Model;

/// A running program: one cycle for each record.
#[derive(Drop)]
pub struct Job<'a, S: Store + Drop> {
    program: &'a Verified,
    machine: Machine<'a, S>,
    kept: Kept,
    progress: Progress,
}

impl<'a, S: Store + Drop> Model for Job<'a, S> {
    ghost use Rattle.std.specs.Coded.{codes};
    ghost use Rattle.rpg_cycle.specs.Codes.{inputs_code, left_code, stage_code};
    ghost use Rattle.rpg_cycle.specs.Job.{AtWork, IsAtWork};
    ghost use Rattle.rpg_cycle_records.specs.Holding.{inputs_of};
    ghost use Rattle.rpg_cycle_records.specs.Keeping.{left_of};
    ghost use Rattle.rpg_machine.specs.Codes.{config_code};
    ghost use Rattle.rpg_cycle.specs.Stages.{stage_of};

    ghost Value = { AtWork };

    ghost coded = { Prim.hlevel (codes, config_code, inputs_code, left_code, stage_code) };

    ghost view = { λ j. record {
      program = j.program.now;
      config = j.machine.config;
      last = j.machine.last;
      output = j.machine.output;
      left = left_of j.kept;
      inputs = inputs_of j.kept;
      stage = stage_of j.progress;
    } };

    ghost invariant = { λ j. IsAtWork j.program.now j.machine (stage_of j.progress) j.kept };
}

/// Which files a cycle reads a record from.
#[derive(Clone, Copy)]
pub struct Need {
    pub primary: bool,
    pub secondary: bool,
}

/// Returns what a cycle leads to, by the job's stage.
fn answer_from(progress: Progress) -> CycleEnd
    ensures { stage_after result ≡ stage_of progress }
{
    match progress {
        Progress::Going => CycleEnd::Continues,
        Progress::Ended(JobEnd::EndOfJob) => CycleEnd::EndOfJob,
        Progress::Ended(JobEnd::Halt(halt)) => CycleEnd::Halt(halt),
        Progress::Failed => CycleEnd::Failed,
    }
}

impl<'a> Job<'a, FlatStore> {
    ghost use Rattle.std.specs.Prelude.{◌↔◌, None, IfOk, IsErrOf};
    ghost use Rattle.rpg_cycle.specs.Job.{Starts, first_fields};
    ghost use Rattle.rpg_cycle.specs.Starting.{date_in};

    /// Starts a job on a date of six digits, with the first values of the program's fields.
    pub fn start(
        alloc: Global,
        program: &'a Verified,
        date: &[u8],
    ) -> Result<Job<'a, FlatStore>, StartFault>
        ensures start { IfOk result (λ j. Starts program.now date.now (first_fields program.now) j) }
        ensures date { IsErrOf result StartFault.BadDate ↔ (date_in date.now ≡ None) }
    {
        let Some(date) = Date::read(date) else {
            return Err(StartFault::BadDate);
        };
        first_values_fit(program.program());
        let store = FlatStore::new(alloc, program.program())?;
        let memory = Memory::new(program.program(), store);
        Ok(Job::start_on(alloc, program, date, memory)?)
    }
}

impl<'a, S: Store + Drop> Job<'a, S> {
    ghost use Rattle.std.specs.Prelude.{◌&&◌, true, ◌↔◌, None, IfOk, IsErrOf};
    ghost use Rattle.rpg_cycle.specs.Cycled.{AreSeen};
    ghost use Rattle.rpg_cycle.specs.Doing.{next_text};
    ghost use Rattle.rpg_program.specs.declared.input.InputFile.TheVariants as files;
    ghost use Rattle.rpg_cycle.specs.Job as of;
    ghost use Rattle.rpg_cycle.specs.Phases.{takes_records};
    ghost use Rattle.rpg_cycle.specs.Stages.{Failed, is_going, stage_after};
    ghost use Rattle.rpg_cycle.specs.Starting.{date_in};
    ghost use Rattle.rpg_cycle_records.specs.Holding.{inputs_of};
    ghost use Rattle.rpg_cycle_records.specs.Keeping.{left_of};
    ghost use Rattle.rpg_machine.specs.Run.{running_place};
    ghost use Rattle.rpg_memory.specs.Memory.{first_working};

    /// Starts a job on a date of six digits, with the values of a memory that no cycle has changed yet.
    pub fn start_in(
        alloc: Global,
        program: &'a Verified,
        date: &[u8],
        memory: Memory<'a, S>,
    ) -> Result<Job<'a, S>, StartFault>
        requires first { memory ≡ first_working program.now memory.world.data.fields }
        ensures start { IfOk result (λ j. of.Starts program.now date.now memory.entry.world.data.fields j) }
        ensures date { IsErrOf result StartFault.BadDate ↔ (date_in date.now ≡ None) }
    {
        let Some(date) = Date::read(date) else {
            return Err(StartFault::BadDate);
        };
        Ok(Job::start_on(alloc, program, date, memory)?)
    }

    /// Starts a job on a date.
    fn start_on(
        alloc: Global,
        program: &'a Verified,
        date: Date,
        mut memory: Memory<'a, S>,
    ) -> Result<Job<'a, S>, AllocError>
        requires first { memory ≡ first_working program.now memory.world.data.fields }
        ensures { IfOk result (λ j. j ≡ of.job_started program.now date.value memory.entry.world.data.fields) }
    {
        let kept = Kept::new(alloc, program)?;
        put_date(&mut memory, date.value);
        let machine = Machine::new(alloc, program, memory)?;
        Ok(Job {
            program,
            machine,
            kept,
            progress: Progress::Going,
        })
    }

    /// Returns which files the next cycle reads a record from.
    pub fn needs(&self) -> Need
        ensures primary { result.primary ≡ of.job_needs_record self.now files.Primary }
        ensures secondary { result.secondary ≡ of.job_needs_record self.now files.Secondary }
    {
        let takes = self.takes_records();
        let (first, second) = (&self.kept.primary, &self.kept.secondary);
        Need {
            primary: takes && first.takes_in(self.program, InputFile::Primary),
            secondary: takes && second.takes_in(self.program, InputFile::Secondary),
        }
    }

    /// Whether the job continues, with LR and H1 to H9 all off.
    fn takes_records(&self) -> bool
        ensures { result ≡ is_going self.now.stage && takes_records self.now.config }
    {
        match self.progress {
            Progress::Going => {
                !self.machine.indicator(LAST_RECORD) && !is_halt_indicated(&self.machine)
            }
            Progress::Ended(_) | Progress::Failed => false,
        }
    }

    /// Does one cycle, with the next record of each file, or `None` at its end. Ignores a record that isn't needed. After an `Err` the job
    /// has failed: it returns `Failed` from then on.
    pub fn cycle(
        &mut self,
        primary: Option<&[u8]>,
        secondary: Option<&[u8]>,
    ) -> Result<CycleEnd, AllocError>
        ensures { of.AnswersCycle stage_after self.old (next_text primary.entry) (next_text secondary.entry) result self.new }
    {
        self.cycle_with_seen(primary, secondary, NOTHING_SEEN)
    }

    /// Like `cycle`, but doesn't test the bytes of records that are known to have only characters.
    #[tactic(auto, using(rpg_program::proofs::Fronts::grows_not))]
    pub fn cycle_with_seen(
        &mut self,
        primary: Option<&[u8]>,
        secondary: Option<&[u8]>,
        seen: Seen,
    ) -> Result<CycleEnd, AllocError>
        requires { AreSeen seen primary secondary }
        ensures { of.AnswersCycle stage_after self.old (next_text primary.entry) (next_text secondary.entry) result self.new }
    {
        match self.progress {
            Progress::Going => {
                let progress = self.cycle_on(primary, secondary, seen)?;
                Ok(answer_from(progress))
            }
            Progress::Ended(end) => Ok(answer_from(Progress::Ended(end))),
            Progress::Failed => Ok(CycleEnd::Failed),
        }
    }

    /// Does a cycle of a job that continues. The job counts as failed until the cycle is complete.
    pub(crate) fn cycle_on(
        &mut self,
        primary: Option<&[u8]>,
        secondary: Option<&[u8]>,
        seen: Seen,
    ) -> Result<Progress, AllocError>
        requires seen { AreSeen seen primary secondary }
        requires going { is_going self.old.stage ≡ true }
        ensures cycled { of.AnswersCycle stage_of self.old (next_text primary.entry) (next_text secondary.entry) result self.new }
        ensures ran { IfOk result (λ g. stage_of g ≡ Failed → ⊥) }
    {
        self.progress = Progress::Failed;
        let (machine, kept) = (&mut self.machine, &mut self.kept);
        match run_cycle(machine, kept, primary, secondary, seen) {
            Ok(selected) => {
                self.kept.note(self.program, selected);
                self.progress = Progress::Going;
                Ok(Progress::Going)
            }
            Err(PhaseStop::Ends(end)) => {
                self.machine.finish()?;
                self.progress = Progress::Ended(end);
                Ok(Progress::Ended(end))
            }
            Err(PhaseStop::NoMemory) => Err(AllocError),
        }
    }

    /// Returns the steps of the last cycle.
    pub fn steps(&self) -> u64
        ensures { result ≡ self.now.config.steps }
    {
        self.machine.steps()
    }

    /// Returns the place of the running instruction, or of the one that halted. None if no instruction runs.
    pub fn running_place(&self) -> Option<Place>
        ensures { result ≡ running_place self.now.program self.now.config }
    {
        let place = self.machine.place();
        if is_end(self.program, place) {
            None
        } else {
            Some(place)
        }
    }

    /// Returns the values of the program's fields, and its indicators.
    pub fn memory(&self) -> &Memory<'a, S>
        ensures { result.now.world ≡ self.now.config.world }
    {
        self.machine.memory()
    }

    /// Returns what the job keeps of earlier records, and the record that waits in each file.
    pub fn kept(&self) -> &Kept
        ensures left { left_of result.now ≡ self.now.left }
        ensures inputs { inputs_of result.now ≡ self.now.inputs }
    {
        &self.kept
    }

    /// Takes the output since the last call.
    pub fn take_output(&mut self) -> Output
        ensures print { result.print.items ≡ self.old.output.print }
        ensures disk { result.disk.items ≡ self.old.output.disk }
        ensures rest { self.new ≡ of.job_taken self.old }
    {
        self.machine.take_output()
    }
    /// Returns the output since it was last taken or cleared.
    pub fn output(&self) -> &Output
        ensures print { result.now.print.items ≡ self.now.output.print }
        ensures disk { result.now.disk.items ≡ self.now.output.disk }
    {
        self.machine.pending_output()
    }

    /// Clears the output and keeps its capacity, so that the next cycle allocates nothing for it.
    pub fn clear_output(&mut self)
        ensures { self.new ≡ of.job_taken self.old }
    {
        self.machine.clear_output();
    }
}
