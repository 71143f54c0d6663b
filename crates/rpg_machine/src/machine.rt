//! The machine's public calls.
ghost use Rattle.std.specs.Prelude.{IfOk};
ghost use Rattle.rpg_machine_lines.specs.Right.{HasLineRoom};
ghost use Rattle.rpg_machine.specs.Leaving.{IsStartOf};
ghost use Rattle.rpg_program.specs.Object.{seen};

use crate::accepted::Accepted;
use crate::cells::Cells;
use crate::output::write_line_out;
use crate::section::run_section;
use crate::state::{State, Writer};
use crate::time::OutputTime;
use rpg_machine_inputs::inputs::fill_all;
use rpg_machine_lines::{Entries, Output};
use rpg_memory::memory::Memory;
use rpg_program::outcome::End;
use rpg_program::rows::Rows;
use rpg_program::section::{Place, Section};
use rpg_store::store::Store;
use rpg_verify::Verified;
use std::alloc::{AllocError, Global};
use std::marker::Model;

/// An accepted program that runs, with its output since it was last taken.
///
/// After an `Err` or a halt its values are unspecified: only its steps and its output may still be read.
#[derive(Drop)]
pub struct Machine<'a, S: Store + Drop> {
    alloc: Global,
    program: Accepted<'a>,
    state: State<'a, S>,
}

impl<'a, S: Store + Drop> Model for Machine<'a, S> {
    ghost use Rattle.rpg_machine.specs.Running.{Running};
    ghost use Rattle.rpg_machine.specs.Codes.{config_code};
    ghost use Rattle.std.specs.Coded.{codes};

    ghost Value = { Running };

    ghost coded = { Prim.hlevel (codes, config_code) };

    ghost use Rattle.rpg_machine.specs.State.{IsStateOf, running_of};

    ghost view = { λ m. running_of m.program m.state };

    ghost invariant = { λ m. IsStateOf m.program m.state };
}

/// Returns room for a line of either file.
fn line_room(alloc: Global, rows: &Rows) -> Result<Vec<u8>, AllocError>
    ensures { IfOk result (λ text. HasLineRoom (seen rows.now) text.items) }
{
    let places = rows.printer_length.max(rows.disk_length);
    let text = vec![in alloc; b' '; usize::from(places)]?;
    Ok(text)
}

/// Returns the first state: after detail calculations, as before every cycle.
fn first_state<'a, S: Store + Drop>(
    alloc: Global,
    memory: Memory<'a, S>,
) -> Result<State<'a, S>, AllocError>
    ensures { IfOk result (λ s. IsStartOf memory.entry s) }
{
    let rows = memory.rows();
    let text = line_room(alloc, rows)?;
    Ok(State {
        memory,
        writer: Writer {
            output: Output {
                print: Vec::new(alloc),
                disk: Vec::new(alloc),
            },
            text,
            to_blank: Entries::new(),
        },
        section: Section::Detail,
        place: rows.detail.len() as u16,
        cells: Cells::new(),
        allowance: rows.allowance,
        steps: 0,
    })
}

impl<'a, S: Store + Drop> Machine<'a, S> {
    ghost use Rattle.std.specs.Prelude.{◌≡◌, ◌<◌, ◌≤◌, ◌^◌, All, length, true, IfOk, OnOk};
    ghost use Rattle.std.specs.FinSet as set;
    ghost use Rattle.rpg_program.specs.Ends.{end_of};
    ghost use Rattle.rpg_program.specs.Fronts.{OnlyGrows};
    ghost use Rattle.rpg_machine.specs.Config.{here};
    ghost use Rattle.rpg_machine.specs.Outputs.{FillsFields, Outputs, length_at};
    ghost use Rattle.rpg_machine.specs.Potential.{PaysForSection};
    ghost use Rattle.rpg_machine.specs.Ready.{IsReady};
    ghost use Rattle.rpg_machine.specs.Run.{RunsTo};
    ghost use Rattle.rpg_machine.specs.Running as of;
    ghost use Rattle.rpg_machine.specs.Running.{Did};
    ghost use Rattle.rpg_program.specs.Kept.{IsCharacter};
    ghost use Rattle.rpg_program.specs.Sections.{has_end};
    ghost use Rattle.rpg_memory.specs.Memory.{first_working};

    /// Returns a machine before its first cycle: only L0 and 1P on, the form at its first line, and the values that are in the memory. Not
    /// inlined, so that the run's loop has more registers.
    #[inline(never)]
    pub fn new(
        alloc: Global,
        program: &'a Verified,
        memory: Memory<'a, S>,
    ) -> Result<Machine<'a, S>, AllocError>
        requires first { memory ≡ first_working program.now memory.world.data.fields }
        ensures start { IfOk result (λ m. m ≡ of.started program.now memory.entry.world.data.fields) }
        ensures ready { IfOk result (λ m. IsReady m) }
    {
        let state = first_state(alloc, memory)?;
        let accepted = Accepted::new(alloc, program)?;
        accepted.is_orderly();
        Ok(Machine {
            alloc,
            program: accepted,
            state,
        })
    }

    /// Returns the program that it runs.
    pub fn program(&self) -> &'a Verified
        ensures { result.now ≡ self.now.program }
    {
        self.program.program()
    }

    /// Runs detail or total calculations from their first place.
    #[inline(always)]
    pub fn section(&mut self, section: Section) -> Result<End, AllocError>
        requires ready { IsReady self.old }
        requires section { has_end section ≡ true }
        requires steps { self.old.config.steps < 2 ^ 63 }
        ensures done { IfOk result (λ e. Did (RunsTo self.old.program section) self.old (end_of e) self.new) }
        ensures ready { IfOk result (λ e. e ≡ End.Continues → IsReady self.new) }
        ensures bound { OnOk result (PaysForSection section self.old self.new) }
        ensures grows { OnlyGrows self.old.output self.new.output }
    {
        self.program.is_orderly();
        let end = run_section(&self.program, &mut self.state, section)?;
        Ok(end)
    }

    /// Outputs the lines of a time that are due.
    pub fn output(&mut self, time: OutputTime) -> Result<End, AllocError>
        requires ready { IsReady self.old }
        requires steps { self.old.config.steps < 2 ^ 63 }
        ensures done { IfOk result (λ e. Did (Outputs self.old.program time) self.old (end_of e) self.new) }
        ensures ready { IfOk result (λ e. e ≡ End.Continues → IsReady self.new) }
        ensures grows { OnlyGrows self.old.output self.new.output }
    {
        self.program.is_orderly();
        let weight = self.program.weight_of(time);
        let state = &mut self.state;
        state.steps += u64::from(weight);
        let plan = self.program.plan();
        let end = write_line_out(&mut state.memory, &mut state.writer, time, weight, plan)?;
        Ok(end)
    }

    /// Fills the fields of a record type, counted from 0, from a record as long as its file's records.
    #[inline(always)]
    pub fn fill_fields(&mut self, row: usize, text: &[u8]) -> End
        requires ready { IsReady self.old }
        requires steps { self.old.config.steps < 2 ^ 63 }
        requires row { row < length self.old.program.types }
        requires filled { length text.now ≡ length_at self.old.program row }
        requires characters { All IsCharacter text.now }
        ensures done { Did (FillsFields self.old.program row text.now) self.old (end_of result) self.new }
        ensures ready { result ≡ End.Continues → IsReady self.new }
    {
        let rows = self.program.rows();
        let inputs = &rows.types[row].inputs;
        let fixed = self.program.inputs_of(row);
        self.state.steps += inputs.len() as u64;
        let end = fill_all(&mut self.state.memory, text, inputs, fixed);
        end
    }

    /// Refills the allowance and resets the steps.
    pub fn refill(&mut self)
        ensures refilled { self.new ≡ of.refilled self.old }
        ensures ready { IsReady self.old → IsReady self.new }
    {
        self.state.allowance = self.program.rows().allowance;
        self.state.steps = 0;
    }

    /// Returns the steps since the last refill.
    pub fn steps(&self) -> u64
        ensures { result ≡ self.now.config.steps }
    {
        self.state.steps
    }

    /// Returns the place of the running instruction, or the one after the last.
    pub fn place(&self) -> Place
        ensures { result ≡ here self.now.config }
    {
        Place {
            section: self.state.section,
            number: self.state.place,
        }
    }

    /// Returns the values of its program's fields, and its indicators.
    pub fn memory(&self) -> &Memory<'a, S>
        ensures program { result.now.program ≡ self.now.program }
        ensures world { result.now.world ≡ self.now.config.world }
    {
        &self.state.memory
    }

    /// Adds to the steps.
    pub fn charge(&mut self, n: u32)
        requires { self.old.config.steps < 2 ^ 63 }
        ensures charged { self.new ≡ of.with_charge n self.old }
        ensures ready { IsReady self.old → IsReady self.new }
    {
        self.state.steps += u64::from(n);
    }

    pub fn indicator(&self, n: u8) -> bool
        requires low { 1 ≤ n }
        requires high { n ≤ 129 }
        ensures { result ≡ set.contains self.now.config.world.data.on n }
    {
        self.state.memory.on().is_on(n)
    }

    pub fn set_indicator(&mut self, n: u8, on: bool)
        requires low { 1 ≤ n }
        requires high { n ≤ 129 }
        ensures set { self.new ≡ of.with_indicator n on self.old }
        ensures ready { IsReady self.old → IsReady self.new }
    {
        self.state.memory.turn(n, on);
    }

    /// Ends the last line on the printer.
    pub fn finish(&mut self) -> Result<(), AllocError>
        ensures finished { OnOk result (self.new ≡ of.finished self.old) }
        ensures grows { OnlyGrows self.old.output self.new.output }
    {
        if self.state.memory.last().is_some() {
            self.state.writer.output.print.push(b'\n')?;
        }
        Ok(())
    }

    /// Takes the output since the last call.
    pub fn take_output(&mut self) -> Output
        ensures print { result.print.items ≡ self.old.output.print }
        ensures disk { result.disk.items ≡ self.old.output.disk }
        ensures rest { self.new ≡ of.taken self.old }
        ensures ready { IsReady self.old → IsReady self.new }
    {
        let output = &mut self.state.writer.output;
        let print = std::mem::replace(&mut output.print, Vec::new(self.alloc));
        let disk = std::mem::replace(&mut output.disk, Vec::new(self.alloc));
        Output { print, disk }
    }
    /// Returns the output since it was last taken or cleared.
    pub fn pending_output(&self) -> &Output
        ensures print { result.now.print.items ≡ self.now.output.print }
        ensures disk { result.now.disk.items ≡ self.now.output.disk }
    {
        &self.state.writer.output
    }

    /// Clears the output and keeps its capacity.
    pub fn clear_output(&mut self)
        ensures rest { self.new ≡ of.taken self.old }
        ensures ready { IsReady self.old → IsReady self.new }
    {
        let output = &mut self.state.writer.output;
        output.print.clear();
        output.disk.clear();
    }
}
