//! Counts over all cycles of a job; the lines that are due at detail output, by the indicators that are on before it; and control fields that
//! descend.

use crate::told::{JobNames, Told, lines_in, records_in};
use crate::tracing::{Cycle, Selected};
use rpg_cli_diagnostics::{Diagnostic, Diagnostics, Draft, Level as Severity};
use rpg_cli_files::Listener;
use rpg_cycle_records::LastBytes;
use rpg_engine::{Job, JobEnd};
use rpg_memory::condition::all_hold;
use rpg_memory::indicators::Indicators;
use rpg_program::condition::Condition;
use rpg_program::line::{File, Time};
use rpg_program::rows::{Line, Rows};
use rpg_store::Store;
use std::alloc::{AllocError, Global};

/// The counts of a job, and its control levels after the last cycle.
#[derive(Drop)]
pub(crate) struct Counts {
    pub levels: Levels,
    /// How many records of each type were selected.
    types: Vec<u64>,
    /// The number of printed lines that have text.
    printed: u64,
    /// The number of records of the disk file.
    stored: u64,
    /// The lines of detail output so far.
    details: Due,
    /// The lines of the next cycle's detail output.
    due: Due,
}

fn report_count<L: Listener>(told: &mut Told<'_, '_, L>, what: &str, count: u64) {
    told.out.fill_two("watch: {}: {}", what, count);
    told.end_line();
}

impl Counts {
    pub fn begin<S: Store + Drop>(alloc: Global, job: &Job<'_, S>) -> Result<Counts, AllocError> {
        let memory = job.memory();
        let mut types = Vec::new(alloc);
        for _ in 0..memory.rows().types.len() {
            types.push(0u64)?;
        }
        Ok(Counts {
            levels: Levels::new(alloc)?,
            types,
            printed: 0,
            stored: 0,
            details: Due::NOTHING,
            due: Due::of(memory.rows(), memory.on()),
        })
    }

    fn count_type(&mut self, row: Option<usize>) {
        if let Some(row) = row {
            if let Some(count) = self.types.get_mut(row) {
                *count = count.saturating_add(1);
            }
        }
    }

    /// Counts what the last cycle of the job did. How many lines of detail output a cycle that halted wrote isn't known.
    pub fn go_on<S: Store + Drop>(&mut self, job: &Job<'_, S>, cycle: Cycle) {
        let output = job.output();
        self.printed = self.printed.saturating_add(lines_in(&output.print));
        self.stored = self.stored.saturating_add(records_in(&output.disk));
        if let Some(JobEnd::Halt(_)) = cycle.ended {
            return;
        }
        self.details.add(self.due);
        self.due = Due::of(job.memory().rows(), job.memory().on());
        if let Some(record) = cycle.record {
            self.count_type(record.row);
            self.levels.go_on(&job.kept().levels, record);
        }
    }

    fn report_types<L: Listener>(&self, told: &mut Told<'_, '_, L>) {
        let names = told.names;
        for (row, count) in self.types.iter().enumerate() {
            told.out.write_str("watch: records of ");
            names.write_type(&mut told.out, row);
            told.out.fill_one(": {}", *count);
            told.end_line();
        }
    }

    pub fn report<L: Listener>(&self, told: &mut Told<'_, '_, L>) {
        let rows = told.names.program.program().rows();
        self.report_types(told);
        report_count(told, "heading lines at detail output", self.details.heading);
        report_count(told, "detail lines at detail output", self.details.detail);
        report_count(told, "printed lines with text", self.printed);
        if rows.file_length(File::Disk) > 0 {
            report_count(told, "disk records", self.stored);
        }
        told.pass_on();
    }
}

/// How many heading lines and detail lines are due.
#[derive(Clone, Copy)]
pub(crate) struct Due {
    pub heading: u64,
    pub detail: u64,
}

impl Due {
    pub const NOTHING: Due = Due {
        heading: 0,
        detail: 0,
    };

    pub fn of(rows: &Rows, on: &Indicators) -> Due {
        let mut due = Due::NOTHING;
        for line in &rows.lines {
            if is_due(rows.overflow.indicator, line, on) {
                due.count(line.time);
            }
        }
        due
    }

    fn count(&mut self, time: Time) {
        match time {
            Time::Heading => self.heading = self.heading.saturating_add(1),
            Time::Detail => self.detail = self.detail.saturating_add(1),
            Time::Total | Time::Exception => {}
        }
    }

    pub fn add(&mut self, other: Due) {
        self.heading = self.heading.saturating_add(other.heading);
        self.detail = self.detail.saturating_add(other.detail);
    }
}

/// Whether conditions require the overflow indicator to be on. A line with such conditions is written at overflow.
fn tests_overflow(overflow: Option<u8>, conditions: &[Condition]) -> bool {
    for condition in conditions {
        if overflow == Some(condition.indicator) && !condition.is_negated {
            return true;
        }
    }
    false
}

fn is_due(overflow: Option<u8>, line: &Line, on: &Indicators) -> bool {
    for conditions in &line.alternatives {
        if !tests_overflow(overflow, conditions) && all_hold(on, conditions) {
            return true;
        }
    }
    false
}

/// The most bytes that the control fields of a level have together.
const LONGEST_LEVEL: usize = 256;

const WENT_DOWN: &str = "control field L{} goes down: \"{}\" after \"{}\"";

/// Where a control level first went down.
#[derive(Drop)]
struct Fall {
    record: Option<Selected>,
    before: Vec<u8>,
    after: Vec<u8>,
}

/// A control level after the last cycle, and how often it went down.
#[derive(Drop)]
struct Level {
    last: LastBytes,
    first: Fall,
    falls: u64,
}

fn keep(place: &mut Vec<u8>, bytes: &[u8]) {
    place.clear();
    let _ = place.extend_from_slice(bytes);
}

impl Level {
    fn new(alloc: Global) -> Result<Level, AllocError> {
        Ok(Level {
            last: LastBytes {
                is_known: false,
                bytes: Vec::with_capacity(alloc, LONGEST_LEVEL)?,
            },
            first: Fall {
                record: None,
                before: Vec::with_capacity(alloc, LONGEST_LEVEL)?,
                after: Vec::with_capacity(alloc, LONGEST_LEVEL)?,
            },
            falls: 0,
        })
    }

    /// Counts a record at which the level goes down. Returns whether it does.
    fn compare(&mut self, now: &LastBytes, record: Selected) -> bool {
        if !self.last.is_known || self.last.bytes.as_slice() <= now.bytes.as_slice() {
            return false;
        }
        if self.falls == 0 {
            self.first.record = Some(record);
            keep(&mut self.first.before, &self.last.bytes);
            keep(&mut self.first.after, &now.bytes);
        }
        self.falls = self.falls.saturating_add(1);
        true
    }

    fn renew(&mut self, now: &LastBytes) {
        self.last.is_known = now.is_known;
        keep(&mut self.last.bytes, &now.bytes);
    }

    /// Returns the diagnostic for a level with this number that went down at a record.
    fn fall<'f>(&self, mut draft: Draft<'f>, number: usize) -> Result<Diagnostic<'f>, AllocError> {
        let (after, before) = (self.first.after.as_slice(), self.first.before.as_slice());
        draft.message.fill_three(WENT_DOWN, number, after, before);
        if self.falls > 1 {
            draft.message.fill_one(" ({} more)", self.falls - 1);
        }
        draft.finish()
    }
}

/// L1 to L9 after the last cycle.
#[derive(Drop)]
pub(crate) struct Levels {
    levels: Vec<Level>,
    fallen: Option<Selected>,
}

impl Levels {
    pub fn new(alloc: Global) -> Result<Levels, AllocError> {
        let mut levels = Vec::new(alloc);
        for _ in 0..9u8 {
            levels.push(Level::new(alloc)?)?;
        }
        Ok(Levels {
            levels,
            fallen: None,
        })
    }

    pub fn fallen(&self) -> Option<Selected> {
        self.fallen
    }

    /// Returns the place of the highest level that a cycle changed.
    fn highest_changed(&self, now: &[LastBytes]) -> Option<usize> {
        let mut highest = None;
        for (place, (level, new)) in self.levels.iter().zip(now).enumerate() {
            let last = &level.last;
            if last.is_known != new.is_known || last.bytes.as_slice() != new.bytes.as_slice() {
                highest = Some(place);
            }
        }
        highest
    }

    fn renew(&mut self, now: &[LastBytes]) {
        for (level, last) in self.levels.iter_mut().zip(now) {
            level.renew(last);
        }
    }

    /// Takes the levels after a cycle that selected a record. A level goes down if it changes to lower bytes and no higher level
    /// changes.
    pub fn go_on(&mut self, now: &[LastBytes], record: Selected) {
        let Some(place) = self.highest_changed(now) else {
            return;
        };
        if let (Some(last), Some(level)) = (now.get(place), self.levels.get_mut(place)) {
            if level.compare(last, record) && self.fallen.is_none() {
                self.fallen = Some(record);
            }
        }
        self.renew(now);
    }

    /// Returns a diagnostic for each level that went down, the highest last.
    pub fn falls<'a>(
        &self,
        alloc: Global,
        severity: Severity,
        names: &JobNames<'a>,
    ) -> Diagnostics<'a> {
        let mut out = Diagnostics::new(alloc);
        for (place, level) in self.levels.iter().enumerate() {
            if let Some(record) = level.first.record {
                let draft = Draft::new(alloc, severity, Some(names.place(record)), None);
                out.push(level.fall(draft, place.saturating_add(1)));
            }
        }
        out
    }
}
