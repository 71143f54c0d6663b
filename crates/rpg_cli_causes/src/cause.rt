//! The cause of a fault in words, and the mistake that it shares with others.

use crate::fields::{
    write_bad_indicator, write_column, write_editing, write_field, write_index, write_limit,
    write_operand, write_rounding, write_size,
};
use crate::files::{write_data, write_file, write_join, write_movement, write_outside};
use crate::names::{
    write_nowhere, write_order, write_redefined, write_stray, write_target, write_twice,
    write_undefined,
};
use crate::spot::{SourceCards, Spot};
use rpg_cli_text::TextWriter;
use rpg_faults::{CardFault, Cause, OperandCause, OrderCause};
use rpg_program::form::Kind;
use rpg_sheet::Entry;

fn write_reported(out: &mut TextWriter, spot: Spot<'_>, cause: &Cause) {
    match cause {
        Cause::UndefinedName(name) => write_undefined(out, spot, name.as_slice()),
        Cause::RedefinedName(redefined) => write_redefined(out, spot, redefined),
        Cause::Size(size) => write_size(out, size.cause),
        Cause::Operand(operand) => write_operand(out, spot, operand),
        Cause::Index(index) => write_index(out, spot, index),
        Cause::Limit(limit) => write_limit(out, *limit),
        Cause::File(file) => write_file(out, spot, file),
        Cause::Indicator(indicator) => write_bad_indicator(out, &indicator.cause),
        Cause::Column(column) => write_column(out, spot, column),
        Cause::Field(field) => write_field(out, spot, field),
        Cause::Movement(file) => write_movement(out, spot, file),
        Cause::Nowhere(nowhere) => write_nowhere(out, spot, nowhere),
        Cause::Twice(twice) => write_twice(out, &twice.cause),
        Cause::Order(order) => write_order(out, spot, order),
        Cause::Stray(stray) => write_stray(out, *stray),
        Cause::Apart(target) => write_target(out, target, false),
        Cause::Recursion(target) => write_target(out, target, true),
        Cause::Rounding(rounding) => write_rounding(out, spot, *rounding),
        Cause::Outside(place) => write_outside(out, spot, place),
        Cause::Join(join) => write_join(out, *join),
        Cause::Editing(editing) => write_editing(out, editing),
        Cause::Data(data) => write_data(out, spot, data),
    }
}

/// Writes why a card of a source has a fault. Returns whether the cause and the card are known; otherwise nothing is written. Card 0 is the
/// source as a whole, which lacks a primary file.
pub fn write_cause(
    out: &mut TextWriter,
    source: SourceCards<'_>,
    line: &[u8],
    fault: &CardFault,
) -> bool {
    if fault.card == 0 {
        out.write_str("no card is a primary file (F card, I in 15, P in 16)");
        return true;
    }
    let (Some(spot), Some(cause)) = (Spot::of(source, line, fault), &fault.cause) else {
        return false;
    };
    write_reported(out, spot, cause);
    true
}

/// A mistake that other faults follow from.
#[derive(Clone, Copy, PartialEq, Eq, Hash)]
pub enum Root {
    /// This card defines a text, and its name is used as a number.
    Text(u16),
    /// No card defines this name, which is padded with blanks.
    Unknown([u8; 6]),
    /// This calculation card comes before cards of an earlier time.
    Later(u16),
}

fn padded(name: &[u8]) -> [u8; 6] {
    let mut padded = [b' '; 6];
    for (place, character) in padded.iter_mut().zip(name) {
        *place = *character;
    }
    padded
}

/// Returns the card that makes an entry a text.
fn text_of(spot: Spot<'_>, entry: Option<&Entry>) -> Option<Root> {
    let name = &entry?.name;
    match (spot.form(name), spot.definer(name.as_slice())) {
        (Some(form), Some(card)) if form.kind == Kind::Text => Some(Root::Text(card.number)),
        _ => None,
    }
}

/// Returns a text field used as a number or edited: the marked field, or factor 1 if factor 2 is of another kind.
fn text_root(spot: Spot<'_>) -> Option<Root> {
    match text_of(spot, spot.entry()) {
        None if spot.column() == 33 => text_of(spot, spot.first_factor()),
        root => root,
    }
}

/// Returns the root of a cause of F1, F4, F12 or F17; of F4 only if an operand is a text.
fn root_in(spot: Spot<'_>, cause: &Cause) -> Option<Root> {
    match cause {
        Cause::UndefinedName(name) => Some(Root::Unknown(padded(name.as_slice()))),
        Cause::Operand(OperandCause::TextOperand { .. } | OperandCause::EditedText(_))
        | Cause::Operand(OperandCause::Unlike { .. })
        | Cause::Editing(_) => text_root(spot),
        Cause::Order(OrderCause::Early { card, .. }) => Some(Root::Later(*card)),
        _ => None,
    }
}

/// Returns the root of a fault that other faults may share: an undefined name, a field that is a text, or a calculation that comes too
/// early.
pub fn root_of(source: SourceCards<'_>, line: &[u8], fault: &CardFault) -> Option<Root> {
    let cause = fault.cause.as_ref()?;
    root_in(Spot::of(source, line, fault)?, cause)
}
