//! The uses of indicators in a deck.

use crate::group::is_in_detail;
use crate::list::List;
use rpg_fit_deck::{Address, Seen, Sentence, View, Word};
use rpg_fit_terms::{Conjunction, Done, Indicator, RuleStop};

/// How a card uses an indicator.
#[derive(Clone, Copy)]
pub enum UseKind {
    /// As that of a record type, or of overflow.
    Type,
    /// An input field turns it on or off.
    Field,
    /// A calculation turns it on or off.
    Result,
    /// It is tested: by a condition, or a field record relation.
    Asked,
}

/// An indicator on a card.
#[derive(Clone, Copy)]
pub struct IndicatorUse {
    pub at: Address,
    pub number: usize,
    pub form: u8,
    pub kind: UseKind,
    pub indicator: Indicator,
}

/// Appends an indicator, if there is one.
fn push_use(found: &mut List<IndicatorUse>, seen: &Seen, kind: UseKind, indicator: Indicator) {
    if !indicator.is_blank() {
        found.push(IndicatorUse {
            at: seen.at,
            number: seen.number,
            form: seen.card.form(),
            kind,
            indicator,
        });
    }
}

/// Appends the indicators in three pairs of columns, from a column on.
fn push_three(found: &mut List<IndicatorUse>, seen: &Seen, kind: UseKind, column: usize) {
    for place in 0..3 {
        let at = column.saturating_add(place * 2);
        push_use(found, seen, kind, Indicator::at(&seen.card, at));
    }
}

/// Appends the indicators that nine columns test, from `column` on.
fn push_tested(found: &mut List<IndicatorUse>, seen: &Seen, column: usize) {
    for term in Conjunction::at(&seen.card, column).terms() {
        push_use(found, seen, UseKind::Asked, term.indicator);
    }
}

/// Appends the indicators of an I card.
fn push_input(found: &mut List<IndicatorUse>, seen: &Seen) {
    if seen.card.is_blank(7, 20) {
        push_three(found, seen, UseKind::Field, 65);
        push_use(found, seen, UseKind::Asked, Indicator::at(&seen.card, 63));
    } else {
        push_use(found, seen, UseKind::Type, Indicator::at(&seen.card, 19));
    }
}

fn push_card(found: &mut List<IndicatorUse>, seen: &Seen) {
    match seen.card.form() {
        b'I' => push_input(found, seen),
        b'C' => {
            push_tested(found, seen, 9);
            push_three(found, seen, UseKind::Result, 54);
        }
        b'O' => push_tested(found, seen, 23),
        b'F' => push_use(found, seen, UseKind::Type, Indicator::at(&seen.card, 33)),
        _ => {}
    }
}

/// Returns the indicators of a deck, card by card.
pub fn indicator_uses(view: &View) -> List<IndicatorUse> {
    let mut found = List::new(view.alloc);
    for seen in view.cards.iter() {
        if !seen.card.is_comment() {
            push_card(&mut found, seen);
        }
    }
    found
}

/// Rejects the deck, for a card, if an indicator that a rule tests at the start of detail may have been turned on or off by anything
/// but its record types: by an input field, or outside detail calculations. Detail calculations change it only for the next record,
/// which turns it off.
pub fn check_only_type(view: &View, indicator: Indicator, card: usize) -> Done {
    let uses = indicator_uses(view);
    for one in uses.checked()? {
        let is_set = one.indicator == indicator
            && (matches!(one.kind, UseKind::Field)
                || matches!(one.kind, UseKind::Result) && !is_in_detail(view, one.at));
        if is_set {
            let why = "indicator % of its type is turned on or off by card % too";
            let other = Word::of_number(one.number);
            return Err(RuleStop::with(card, why, &[indicator.word(), other]));
        }
    }
    Ok(())
}
