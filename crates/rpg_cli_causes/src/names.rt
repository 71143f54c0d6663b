//! Names, labels and subroutines: F1, F2 and F10 to F14. Names that no card defines, or that are defined again; sections out of order,
//! unpaired BEGSR and ENDSR, and cards without the card that they continue or belong to.

use crate::fields::write_form;
use crate::near::{NameKind, write_near};
use crate::spot::Spot;
use rpg_cards::{Named, SpecCard, defined_name};
use rpg_cli_text::TextWriter;
use rpg_faults::{NowhereCause, OrderCause, Redefined, StrayCause, Target, TwiceCause};
use rpg_program::form::{is_array, is_table};
use rpg_sheet::{ControlLevel, Word};

const DATE: &str =
    ": take it from UDATE, by MOVEL, MOVE, or DIV and MVR (rpg2 fit rewrites it: A20)";

const PAGES: &str =
    ": PAGE is the one page counter; count others in a number of 4 digits, by ADD (of a single one rpg2 fit makes PAGE: A8)";

/// Returns what to write instead of a name that RPG II predefines and this profile doesn't.
fn unread(name: &[u8]) -> Option<&'static str> {
    match name {
        b"UDAY" | b"UMONTH" | b"UYEAR" => Some(DATE),
        [b'P', b'A', b'G', b'E', b'1'..=b'7'] => Some(PAGES),
        _ => None,
    }
}

const MOST: usize = 3;

/// Asks whether one of the defined names that are similar to a name is meant.
fn write_near_names(out: &mut TextWriter, spot: Spot<'_>, name: &[u8]) {
    let mut from = 0;
    let mut is_first = true;
    let mut waiting: Option<&[u8]> = None;
    for _ in 0..MOST {
        let place = spot.source.near.next(NameKind::Field, name, from);
        let Some(near) = spot.source.near.at(place) else {
            break;
        };
        if let Some(earlier) = waiting {
            out.write_str(if is_first { ": is " } else { ", " });
            out.write_shown(earlier);
            is_first = false;
        }
        waiting = Some(near.name.as_slice());
        from = place.saturating_add(1);
    }
    if let Some(last) = waiting {
        out.write_str(if is_first { ": is " } else { " or " });
        out.write_shown(last);
        out.write_str(" meant?");
    }
}

/// F1: which name no card defines, and which defined names are similar.
pub(crate) fn write_undefined(out: &mut TextWriter, spot: Spot<'_>, name: &[u8]) {
    out.fill_one("no card defines {}", name);
    match unread(name) {
        Some(sentence) => out.write_str(sentence),
        None => write_near_names(out, spot, name),
    }
}

const ARRAY_ON_INPUT: &str =
    ": input fields don't fill arrays; read fields of their own, and move them by Z-ADD or MOVE to its entries (rpg2 fit rewrites it: A12)";

/// F2: what a name is here, and what it was before.
pub(crate) fn write_redefined(out: &mut TextWriter, spot: Spot<'_>, cause: &Redefined) {
    let name = cause.name.as_slice();
    if name == b"UDATE".as_slice() {
        out.write_str("UDATE is the date, and no card can define it");
        return;
    }
    out.fill_one("{} is ", name);
    write_form(out, cause.here);
    out.write_str(" here, and ");
    if cause.definer.is_none() {
        out.write_str("it is predefined as ");
    }
    write_form(out, cause.first);
    if let Some(card) = cause.definer {
        out.fill_one(" on card {}", card);
    }
    let class = cause.first.class;
    if spot.card.input_field().is_some() && (is_array(class) || is_table(class)) {
        out.write_str(ARRAY_ON_INPUT);
    }
}

/// Returns the label or the subroutine that a card defines.
pub(crate) fn given_on(card: &SpecCard) -> Option<Named> {
    defined_name(card.calculation()?)
}

const IS_SUBROUTINE: &str = "{} is a subroutine (card {}): EXSR calls it, GOTO goes to labels";

const IS_LABEL: &str = "{} is a label (card {}): GOTO goes to it, EXSR calls subroutines";

/// F10: the label or the subroutine that isn't defined, or is the other of the two.
pub(crate) fn write_nowhere(out: &mut TextWriter, spot: Spot<'_>, cause: &NowhereCause) {
    match cause {
        NowhereCause::Absent(wanted) => {
            let name = wanted.name.as_slice();
            let operation = if wanted.is_subroutine { "BEGSR" } else { "TAG" };
            out.fill_two("no {} defines {}", operation, name);
            write_near(out, spot, NameKind::of(wanted), name);
        }
        NowhereCause::Other { name, giver } => {
            let sentence = if giver.is_subroutine {
                IS_SUBROUTINE
            } else {
                IS_LABEL
            };
            out.fill_two(sentence, name.as_slice(), giver.card);
        }
    }
}

/// F11: what the name was before.
pub(crate) fn write_twice(out: &mut TextWriter, cause: &TwiceCause) {
    match cause {
        TwiceCause::Given { name, giver } => {
            let sentence = if giver.is_subroutine {
                "{} is a subroutine on card {} already"
            } else {
                "{} is a label on card {} already"
            };
            out.fill_two(sentence, name.as_slice(), giver.card);
        }
        TwiceCause::Field { name, card } => out.fill_two(
            "{} is a field of card {} already",
            name.as_slice(),
            *card,
        ),
        TwiceCause::EveryProgram(name) => {
            out.fill_one("{} is predefined as a field", name.as_slice());
        }
    }
}

const APART: &str =
    "{} (card {}) is a label of another section: GOTO stays within the detail calculations, the total calculations, or one subroutine";

const RECURSION: &str = "{} (card {}) is the subroutine that this card is in, or leads back to it";

/// F13 and F14: the label or the subroutine that the card names.
pub(crate) fn write_target(out: &mut TextWriter, target: &Target, is_recursion: bool) {
    let sentence = if is_recursion { RECURSION } else { APART };
    out.fill_two(sentence, target.name.as_slice(), target.card);
}

const fn time_of(control_level: ControlLevel) -> &'static str {
    match control_level {
        ControlLevel::Total(_) => "total time",
        ControlLevel::Subroutine => "a subroutine",
        ControlLevel::Detail | ControlLevel::And | ControlLevel::Or => "detail time",
    }
}

fn write_unended(out: &mut TextWriter, name: &Option<Word<6>>, next: Option<u16>) {
    match name {
        Some(name) => out.fill_one("BEGSR of {} has no ENDSR", name.as_slice()),
        None => out.write_str("this BEGSR has no ENDSR"),
    }
    if let Some(card) = next {
        out.fill_one(": the next BEGSR is on card {}", card);
    }
}

const UNJOINED: &str = "AN and OR continue the calculation right before them, and there is none";

const EARLY: &str = "this card is for {}, but comes after {} (card {})";

const NO_BEGSR: &str = "this ENDSR has no BEGSR: the last subroutine before it ends on card {}";

/// F12 of a calculation card: what it needs before it, or after it.
pub(crate) fn write_order(out: &mut TextWriter, spot: Spot<'_>, cause: &OrderCause) {
    match cause {
        OrderCause::Unjoined => out.write_str(UNJOINED),
        OrderCause::Early { own, later, card } => {
            let times = (time_of(*own), time_of(*later));
            out.fill_three(EARLY, times.0, times.1, *card);
        }
        OrderCause::Outside(None) => out.write_str("an SR card before the first BEGSR"),
        OrderCause::Outside(Some(card)) => out.fill_one(
            "an SR card after the ENDSR of card {}, in no subroutine",
            *card,
        ),
        OrderCause::OutsideSection { .. } => out.fill_one(
            "{} is on a card without SR in 7-8",
            spot.operation(),
        ),
        OrderCause::NoBegsr(None) => out.write_str("this ENDSR has no BEGSR"),
        OrderCause::NoBegsr(Some(card)) => out.fill_one(NO_BEGSR, *card),
        OrderCause::NoEndsr { name, next } => write_unended(out, name, *next),
    }
}

/// Writes what is right before a card that continues another.
fn write_joined(out: &mut TextWriter, sentence: &'static str, card: Option<u16>) {
    out.write_str(sentence);
    match card {
        Some(card) => out.fill_one(", and card {} isn't one", card),
        None => out.write_str(", and there is none"),
    }
}

/// F12 of an I or O card: what it needs before it.
pub(crate) fn write_stray(out: &mut TextWriter, cause: StrayCause) {
    match cause {
        StrayCause::NoType => out.write_str("a field needs a record type before it"),
        StrayCause::NoLine => out.write_str("a field needs a line before it"),
        StrayCause::OtherThanType(card) => {
            write_joined(out, "AND continues the record type right before it", card);
        }
        StrayCause::OtherThanLine(card) => {
            write_joined(out, "AND and OR continue the line right before them", card);
        }
    }
}
