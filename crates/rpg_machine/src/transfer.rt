//! Calls of subroutines, and returns from them.
ghost use Rattle.std.specs.Prelude.{◌≡◌, ℕ, ◌^◌, ◌<◌, ◌≤◌, true, Some};
ghost use Rattle.rpg_program.specs.Ends.{end_of};
ghost use Rattle.rpg_machine.specs.Accepted.{IsNextTransfer, IsSmall};
ghost use Rattle.rpg_machine.specs.Acts.{Makes};
ghost use Rattle.rpg_machine.specs.Control as controls;
ghost use Rattle.rpg_machine.specs.Leaving.{CanLead, CanStep, OnlyMoves, OnlySpends};
ghost use Rattle.rpg_machine.specs.Running.{Did};
ghost use Rattle.rpg_machine.specs.State.{IsAble, config_of, running_of};
ghost use Rattle.rpg_machine.specs.Step as spec;

use crate::accepted::Accepted;
use crate::control::Control;
use crate::state::State;
use rpg_program::halt::Halt;
use rpg_program::outcome::End;
use rpg_program::section::{Place, Section};
use rpg_store::store::Store;

fn spends(control: Control) -> bool
    ensures { result ≡ controls.spends control }
{
    match control {
        Control::Goes(_) | Control::Returns(_) => false,
        Control::GoesBack(_) | Control::Calls(_) => true,
    }
}

/// Returns the next place.
fn destination<S: Store + Drop>(
    program: &Accepted<'_>,
    state: &State<'_, S>,
    control: Control,
) -> Place
    requires { CanLead program.now (config_of state.now) control }
    ensures { spec.destination program.now (config_of state.now) control ≡ Some result }
{
    match control {
        Control::Goes(number) | Control::GoesBack(number) => Place {
            section: state.section,
            number,
        },
        Control::Calls(subroutine) => {
            let section = Section::Subroutine(subroutine);
            Place {
                section,
                number: program.first_of(section),
            }
        }
        Control::Returns(subroutine) => match state.cells.get(subroutine) {
            Some(place) => place,
            None => unreachable!(),
        },
    }
}

/// Goes to a place: sets or clears a return cell, and spends allowance if it has to.
fn arrive<S: Store + Drop>(state: &mut State<'_, S>, control: Control, to: Place)
    requires place { state.old.place < 8192 }
    requires small { IsSmall control }
    requires left { controls.spends control ≡ true → 0 < state.old.allowance }
    ensures arrived { config_of state.new ≡ spec.arrived (config_of state.old) control (Some to) }
    ensures moves { OnlyMoves state.old state.new }
    ensures spent { state.new.allowance ≤ state.old.allowance }
{
    match control {
        Control::Goes(_) => {}
        Control::GoesBack(_) => state.allowance -= 1,
        Control::Calls(subroutine) => {
            let back = Place {
                section: state.section,
                number: state.place + 1,
            };
            state.cells.set(subroutine, back);
            state.allowance -= 1;
        }
        Control::Returns(subroutine) => state.cells.unset(subroutine),
    }
    state.section = to.section;
    state.place = to.number;
}

/// Makes a call or a return: it has weight one. Not inlined, so that the loop of precomputed steps has more registers for the others.
#[inline(never)]
pub(crate) fn make_transfer<S: Store + Drop>(
    program: &Accepted<'_>,
    state: &mut State<'_, S>,
    control: Control,
) -> End
    requires next { IsNextTransfer program.now (config_of state.old) control }
    requires can { CanStep program.now state.old }
    ensures made { Did (Makes program.now) (running_of program.now state.old) (end_of result) (running_of program.now state.new) }
    ensures able { IsAble program.now state.new.memory }
    ensures spends { OnlySpends state.old state.new }
{
    state.steps += 1;
    if spends(control) && state.allowance == 0 {
        return End::Halt(Halt::AllowanceSpent);
    }
    let to = destination(program, state, control);
    arrive(state, control, to);
    End::Continues
}
