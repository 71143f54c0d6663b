//! The date of a job: today's or a given one, which may not be a real date, or none if its program doesn't use it.

ghost use Rattle.std.specs.Prelude.{◌≡◌};
ghost use Rattle.std.specs.Char.{is_ascii_digit};
ghost use Rattle.std.specs.List.{list_all};
ghost use Rattle.rpg_cli_jobs.specs.Dated as words;

use rpg_cli_answers::{Answer, Listener, tell_made};
use rpg_cli_diagnostics::{Draft, Level};
use rpg_cli_show_fields::uses_date;
use rpg_cli_values::{DateOrder, are_no_date};
use rpg_cli_words::{DateArgument, Request};
use rpg_engine::{Program, RunFault};
use rpg_today::today;
use std::rt::{Clock, Env, Files};

/// Requires a date if the program uses it and the arguments have none.
pub(crate) fn has_date(program: &Program, date: Option<DateArgument<'_>>) -> Result<(), Answer>
    ensures { result ≡ words.date_answer date.entry program.now }
{
    match date {
        Some(_) => Ok(()),
        None if uses_date(program) => Err(Answer::DateWanted),
        None => Ok(()),
    }
}

fn are_digits(text: &[u8]) -> bool
    ensures { result ≡ list_all is_ascii_digit text.now }
{
    text.iter().all(|c| c.is_ascii_digit())
}

fn are_six_digits(text: &[u8]) -> bool
    ensures { result ≡ words.are_six_digits text.now }
{
    text.len() == 6 && are_digits(text)
}

/// Whether a date is six digits. A job without one has zeros.
pub(crate) fn is_valid(date: Option<DateArgument<'_>>) -> bool
    ensures { result ≡ words.are_six_digits (words.date_text date.entry) }
{
    match date {
        None => true,
        Some(DateArgument::Written(text)) => are_six_digits(text.as_bytes()),
        Some(DateArgument::Today(_)) => false,
        Some(DateArgument::Clock(digits)) => are_six_digits(&digits),
    }
}

/// Returns today's date in an order.
fn todays_digits<R: Clock + Env + Files + AllocGlobal>(
    rt: &R,
    order: DateOrder,
) -> Result<[u8; 6], Answer> {
    match today(rt) {
        Some(day) => Ok(day.six_digits(order)),
        None => Err(Answer::Run(RunFault::BadDate)),
    }
}

const ODD_DATE: &str = "--date {} isn't a calendar date: UDATE holds it as it is";

/// Reads the clock if the arguments ask for today's date, and warns about six digits that aren't a calendar date.
pub fn settle_date<R: Clock + Env + Files + AllocGlobal, L: Listener>(
    rt: &R,
    request: &mut Request,
    listener: &mut L,
) -> Result<(), Answer> {
    let date = request.date;
    match date {
        Some(DateArgument::Today(order)) => {
            request.set_today(todays_digits(rt, order)?);
        }
        Some(DateArgument::Written(text)) if are_no_date(text) => {
            let draft = Draft::new(rt.alloc(), Level::Warning, None, None);
            tell_made(listener, draft.filled(ODD_DATE, &[text.into()]));
        }
        _ => {}
    }
    Ok(())
}
