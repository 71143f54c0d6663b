//! Changes of a card's slot.

ghost use Rattle.std.specs.Prelude.{◌≡◌, ◌<◌, length, IfSome, OnOk};
ghost use Rattle.std.specs.List.{list_any, position};
ghost use Rattle.rpg_fit_deck.specs.Changing.{has_id, is_of_rule, slot_place, with_card, with_made, with_remark, with_rule};

use crate::here::Here;
use crate::sentence::{Remark, Rule, What};
use crate::slot::{Done, Made, Slot};

impl Slot {
    /// Adds a sentence about the card.
    pub fn report(&mut self, remark: Remark) -> Done
        ensures { OnOk result (slot_place self.new ≡ with_remark remark (slot_place self.old)) }
    {
        self.remarks.push(remark)?;
        Ok(())
    }

    /// Whether a rule has a sentence about the card.
    fn is_reported_by(&self, rule: Rule) -> bool
        ensures { result ≡ list_any (is_of_rule rule) self.now.remarks.items }
    {
        let number = rule.number();
        self.remarks
            .iter()
            .any(|remark| remark.rule.number() == number)
    }

    /// Notes that the card is part of another one's change, unless the rule has a sentence about it.
    pub fn report_with(&mut self, rule: Rule, with: usize) -> Done
        ensures { OnOk result (slot_place self.new ≡ with_rule rule with (slot_place self.old)) }
    {
        if !self.is_reported_by(rule) || self.remarks.is_empty() {
            self.remarks.push(Remark {
                rule,
                what: What::With(with),
            })?;
        }
        Ok(())
    }

    /// Replaces the card (0), or an inserted one.
    pub fn set(&mut self, id: usize, here: Here, rule: Rule, with: usize) -> Done
        ensures { OnOk result (slot_place self.new ≡ with_card here id rule with (slot_place self.old)) }
    {
        if id != 0 {
            set_made(&mut self.before, id, here);
            return Ok(());
        }
        self.report_with(rule, with)?;
        if !self.remarks.is_empty() {
            self.here = here;
        }
        Ok(())
    }

    /// Inserts a card before another inserted one, or before the card itself (0).
    pub fn insert(&mut self, id: usize, made: Made, rule: Rule, with: usize) -> Done {
        self.report_with(rule, with)?;
        insert_made(&mut self.before, id, made)
    }
}

/// Returns the place of an inserted card.
fn place_of(cards: &[Made], id: usize) -> Option<usize>
    ensures first { result ≡ position (has_id id) cards.now }
    ensures within { IfSome result (λ place. place < length cards.now) }
{
    cards.iter().position(|made| made.id == id)
}

/// Replaces an inserted card.
pub(crate) fn set_made(cards: &mut Vec<Made>, id: usize, here: Here)
    ensures { cards.new.items ≡ with_made here id cards.old.items }
{
    if let Some(place) = place_of(cards.as_slice(), id) {
        match here {
            Here::Kept => {}
            Here::Changed(card) => cards[place].card = card,
            Here::Gone => {
                let _ = cards.remove(place);
            }
        }
    }
}

/// Inserts a card before another one, or after all others.
pub(crate) fn insert_made(cards: &mut Vec<Made>, id: usize, made: Made) -> Done {
    match place_of(cards.as_slice(), id) {
        Some(place) => cards.insert(place, made)?,
        None => cards.push(made)?,
    }
    Ok(())
}
