//! Looks at a job between its cycles, and reports what it did.

use crate::counts::Counts;
use crate::told::{JobNames, Told};
use crate::tracing::{Cycle, Records, Reported};
use rpg_cli_diagnostics::Level;
use rpg_cli_files::{Listener, tell_all};
use rpg_cli_words::LookArguments;
use rpg_cycle_records::Kept;
use rpg_engine::{Job, JobEnd, Watcher};
use rpg_program::input::InputFile;
use rpg_store::Store;
use std::alloc::{AllocError, Global};

/// Reports cycles of a job one by one, and at its end the counts over all of them, as the arguments ask. What memory runs out for is lost.
#[derive(Drop)]
pub struct Looking<'a, 'l, L> {
    alloc: Global,
    names: JobNames<'a>,
    words: LookArguments,
    listener: &'l mut L,
    cycles: u64,
    records: Records,
    /// Whether the cycle of the record that the arguments name was reported.
    is_found: bool,
    reported: Option<Reported>,
    counts: Option<Counts>,
    halted: Option<HaltedFile>,
}

#[derive(Drop)]
pub struct HaltedFile {
    pub file: InputFile,
    /// The match value of the record that was last selected from it.
    pub value: Vec<u8>,
}

impl HaltedFile {
    /// Returns the file, by what is kept of both: it has a record, and none that waits.
    fn of(alloc: Global, kept: &Kept) -> HaltedFile {
        let is_primary = kept.primary.waiting.is_none() && !kept.primary.is_over;
        let (file, last) = if is_primary {
            (InputFile::Primary, &kept.values.primary)
        } else {
            (InputFile::Secondary, &kept.values.secondary)
        };
        HaltedFile {
            file,
            value: Vec::from_slice(alloc, &last.bytes).unwrap_or(Vec::new(alloc)),
        }
    }
}

impl<'a, 'l, L: Listener> Looking<'a, 'l, L> {
    pub fn new(
        alloc: Global,
        words: LookArguments,
        names: JobNames<'a>,
        listener: &'l mut L,
    ) -> Self {
        Looking {
            alloc,
            names,
            words,
            listener,
            cycles: 0,
            records: Records::UNREAD,
            is_found: false,
            reported: None,
            counts: None,
            halted: None,
        }
    }

    fn asks_for(&self, number: u64) -> bool {
        match self.words.traced {
            Some(cycles) => cycles.first <= number && number <= cycles.last,
            None => false,
        }
    }

    /// Whether a cycle had the record that the arguments ask for. One that halts may have had it.
    fn has_asked_record(&self, cycle: Cycle) -> bool {
        match (self.words.record, cycle.record, cycle.ended) {
            (Some(number), Some(record), _) => record.number == number,
            (Some(_), None, Some(JobEnd::Halt(_))) => !self.is_found,
            _ => false,
        }
    }

    /// Reports a cycle, if the arguments ask for it, and keeps the job if they may ask for the next one.
    fn report<S: Store + Drop>(&mut self, job: &Job<'_, S>, cycle: Cycle) {
        let is_found = self.has_asked_record(cycle);
        let is_asked = is_found || self.asks_for(cycle.number);
        let is_next = self.words.record.is_some() || self.asks_for(cycle.number.saturating_add(1));
        self.is_found = self.is_found || is_found;
        let Some(reported) = &mut self.reported else {
            return;
        };
        if is_asked {
            let mut told = Told::new(self.alloc, self.names, self.listener);
            reported.report(&mut told, job, cycle);
        }
        if is_next {
            reported.keep(job);
        }
    }

    /// Reports the counts after the job, and the control fields that went down. Returns the number of the first record at which one did.
    pub fn finish(&mut self) -> Option<u64> {
        let Some(counts) = &self.counts else {
            return None;
        };
        let level = if self.words.is_sorted {
            Level::Error
        } else {
            Level::Warning
        };
        let falls = counts.levels.falls(self.alloc, level, &self.names);
        tell_all(self.listener, &falls);
        if self.words.watches {
            counts.report(&mut Told::new(self.alloc, self.names, self.listener));
        }
        Some(counts.levels.fallen()?.number)
    }

    /// Returns the file whose record the job had when it halted, if it did.
    pub fn into_halted(self) -> Option<HaltedFile> {
        let Looking { halted, .. } = self;
        halted
    }
}

/// Returns what was made, or loses it if memory ran out.
fn made<T: Drop, L: Listener>(listener: &mut L, made: Result<T, AllocError>) -> Option<T> {
    match made {
        Ok(value) => Some(value),
        Err(_) => {
            listener.lose();
            None
        }
    }
}

impl<L: Listener> Watcher for Looking<'_, '_, L> {
    ghost has_begun = { λ _. Unit {0} };

    fn looks(&self) -> bool {
        self.words.looks()
    }

    fn begin<S: Store + Drop>(&mut self, job: &Job<'_, S>) {
        if self.words.traces() {
            self.reported = made(self.listener, Reported::begin(self.alloc, job));
        }
        if self.words.compares() {
            self.counts = made(self.listener, Counts::begin(self.alloc, job));
        }
    }

    fn look<S: Store + Drop>(&mut self, job: &Job<'_, S>, ended: Option<JobEnd>) {
        if let Some(JobEnd::Halt(_)) = ended {
            self.halted = Some(HaltedFile::of(self.alloc, job.kept()));
        }
        if !self.words.looks() {
            return;
        }
        self.cycles = self.cycles.saturating_add(1);
        let on = job.memory().on();
        let record = self
            .records
            .go_on(self.names.program, job.kept(), on, ended);
        let cycle = Cycle {
            number: self.cycles,
            record,
            ended,
        };
        self.report(job, cycle);
        if let Some(counts) = &mut self.counts {
            counts.go_on(job, cycle);
        }
    }
}
