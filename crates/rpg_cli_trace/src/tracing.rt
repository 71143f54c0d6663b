//! A text about what a cycle did: the record that it selected, found from its files before and after, and which indicators it turned on or
//! off.

use crate::changes::Values;
use crate::told::Told;
use rpg_cli_files::Listener;
use rpg_cli_text::{TextWriter, indicator_name};
use rpg_cycle_records::{Kept, KeptFile, identify, input_length};
use rpg_engine::{Job, JobEnd};
use rpg_memory::indicators::Indicators;
use rpg_program::input::InputFile;
use rpg_store::Store;
use rpg_verify::Verified;
use std::alloc::{AllocError, Global};

const LAST_RECORD: u8 = 110;

/// A record that a cycle selected: its number in its file, from 1, and the row of its type.
#[derive(Clone, Copy)]
pub(crate) struct Selected {
    pub file: InputFile,
    pub number: u64,
    pub row: Option<usize>,
}

/// A file between two cycles.
#[derive(Clone, Copy)]
struct FileState {
    waits: bool,
    taken: u64,
}

impl FileState {
    const UNREAD: FileState = FileState {
        waits: false,
        taken: 0,
    };

    /// Takes the file after a cycle. Returns whether the cycle selected the file's record: one waited or was read, and none waits now.
    fn go_on(&mut self, is_there: bool, file: &KeptFile) -> bool {
        let takes_in = is_there && !self.waits && !file.is_over;
        if takes_in {
            self.taken = self.taken.saturating_add(1);
        }
        let had = self.waits || takes_in;
        self.waits = file.waiting.is_some();
        had && !self.waits
    }
}

#[derive(Clone, Copy)]
pub(crate) struct Records {
    primary: FileState,
    secondary: FileState,
    /// Whether LR is on: then the next cycle reads no record.
    is_last: bool,
}

/// Returns the row of a record's type, counted from 0.
fn row_of(program: &Verified, file: InputFile, text: &[u8]) -> Option<usize> {
    if text.len() != input_length(program, file) {
        return None;
    }
    identify(program, file, text).row
}

impl Records {
    pub const UNREAD: Records = Records {
        primary: FileState::UNREAD,
        secondary: FileState::UNREAD,
        is_last: false,
    };

    /// Takes the files after a cycle. Returns the record that it selected, which isn't known if the cycle halted.
    pub fn go_on(
        &mut self,
        program: &Verified,
        kept: &Kept,
        on: &Indicators,
        ended: Option<JobEnd>,
    ) -> Option<Selected> {
        let took_none = self.is_last || matches!(ended, Some(JobEnd::Halt(_)));
        self.is_last = on.is_on(LAST_RECORD);
        if took_none {
            return None;
        }
        let has_two = input_length(program, InputFile::Secondary) != 0;
        let from_primary = self.primary.go_on(true, &kept.primary);
        let from_secondary = self.secondary.go_on(has_two, &kept.secondary);
        let (file, number, record) = if from_primary {
            (InputFile::Primary, self.primary.taken, &kept.primary.record)
        } else if from_secondary {
            (
                InputFile::Secondary,
                self.secondary.taken,
                &kept.secondary.record,
            )
        } else {
            return None;
        };
        let row = row_of(program, file, record);
        Some(Selected { file, number, row })
    }
}

/// A cycle: its number, from 1, the record that it selected, and how it ended the job, if it did.
#[derive(Clone, Copy)]
pub(crate) struct Cycle {
    pub number: u64,
    pub record: Option<Selected>,
    pub ended: Option<JobEnd>,
}

impl Cycle {
    /// Reports which record the cycle selected, or why there is none.
    fn report_head<L: Listener>(self, told: &mut Told<'_, '_, L>) {
        let (out, names) = (&mut told.out, told.names);
        out.fill_one("cycle {}", self.number);
        match (self.record, self.ended) {
            (_, Some(JobEnd::Halt(halt))) => out.fill_one(": halt {}", halt.number()),
            (Some(Selected { row: Some(row), .. }), _) => {
                out.write_str(": ");
                names.write_type(out, row);
            }
            (Some(_), _) => {}
            (None, _) => out.write_str(": no record"),
        }
        let record = match self.record {
            Some(record) => Some(names.place(record)),
            None => None,
        };
        told.end_line_of(record);
    }
}

/// The job before the cycle that is reported next.
#[derive(Drop)]
pub(crate) struct Reported {
    lights: Lights,
    values: Values,
}

impl Reported {
    pub fn begin<S: Store + Drop>(alloc: Global, job: &Job<'_, S>) -> Result<Reported, AllocError> {
        let memory = job.memory();
        Ok(Reported {
            lights: Lights::of(alloc, memory.on())?,
            values: Values::of(alloc, memory)?,
        })
    }

    /// Reports the indicators that turned on, or off, if any did.
    fn report_turned<L: Listener>(&self, told: &mut Told<'_, '_, L>, on: &Indicators, to_on: bool) {
        if self.lights.write_turned(&mut told.out, on, to_on) {
            told.end_line();
        } else {
            told.out.clear();
        }
    }

    pub fn report<S: Store + Drop, L: Listener>(
        &self,
        told: &mut Told<'_, '_, L>,
        job: &Job<'_, S>,
        cycle: Cycle,
    ) {
        let (memory, output, number) = (job.memory(), job.output(), cycle.number);
        told.cycle = number;
        cycle.report_head(told);
        told.out.fill_one("cycle {}: on", number);
        self.report_turned(told, memory.on(), true);
        told.out.fill_one("cycle {}: off", number);
        self.report_turned(told, memory.on(), false);
        told.report_lines("cycle {}: prints \"", &output.print);
        told.report_lines("cycle {}: writes \"", &output.disk);
        told.report_fields(memory, &self.values);
        told.pass_on();
    }

    pub fn keep<S: Store + Drop>(&mut self, job: &Job<'_, S>) {
        let memory = job.memory();
        self.lights.keep(memory.on());
        self.values.keep(memory);
    }
}

/// One more than the greatest number of an indicator; numbers start at 1.
const NUMBERS_END: u8 = 130;

/// Which indicators were on after the last cycle, by number.
#[derive(Drop)]
pub(crate) struct Lights {
    on: Vec<bool>,
}

impl Lights {
    pub fn of(alloc: Global, on: &Indicators) -> Result<Lights, AllocError> {
        let mut lights = Vec::new(alloc);
        for number in 0..NUMBERS_END {
            lights.push(on.is_on(number))?;
        }
        Ok(Lights { on: lights })
    }

    /// Writes a blank and the name of each indicator that turned on, or off. Returns whether one did.
    pub fn write_turned(&self, out: &mut TextWriter, now: &Indicators, to_on: bool) -> bool {
        let mut is_any = false;
        for number in 1..NUMBERS_END {
            let was_on = self.on.get(usize::from(number)) == Some(&true);
            if now.is_on(number) == to_on && was_on != to_on {
                out.write_char(' ');
                out.write_str(indicator_name(number).unwrap_or(""));
                is_any = true;
            }
        }
        is_any
    }

    pub fn keep(&mut self, now: &Indicators) {
        let mut number = 0u8;
        for light in self.on.iter_mut() {
            *light = now.is_on(number);
            number = number.saturating_add(1);
        }
    }
}
