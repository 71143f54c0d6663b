//! The only way to change a deck.

ghost use Rattle.std.specs.Prelude.{◌≡◌, ◌||◌, true, Some, None, IfErr, IfOk, OnOk, is_err, unwrap_or};
ghost use Rattle.rpg_fit_deck.specs.Changing.{Has, change_by, deck_of, rewritten_deck, with_here, with_sentence};
ghost use Rattle.rpg_fit_deck.specs.New.{nothing_reported};
ghost use Rattle.rpg_fit_deck.specs.Laws.{IsFitted};
ghost use Rattle.rpg_fit_deck.specs.Stopping.{IsOf, IsSource, StaysStopped, StopsFor, may_continue, has_run_out, refusal_for, refusal_of};

use crate::card::Card;
use crate::changing::{insert_made, set_made};
use crate::fitted::Fitted;
use crate::here::Here;
use crate::marks::ends_source;
use crate::render::{MOST_CARDS, RenderError, lines_of, render, unreported_cards_are_kept};
use crate::sentence::{Refusal, Remark, Rule, Sentence, What};
use crate::slot::{Done, Made, Slot};
use crate::stopped::Stopped;
use crate::view::{Address, Seen, View};
use std::alloc::{AllocError, Global};

/// A deck that is being rewritten. If a rule rejects it, or memory runs out, it stops, and there is no new deck.
#[derive(Drop)]
pub struct Editor<'a> {
    alloc: Global,
    lines: Vec<&'a [u8]>,
    slots: Vec<Slot>,
    /// Cards inserted after all others.
    end: Vec<Made>,
    /// How many cards were inserted.
    made: usize,
    /// How many cards were removed.
    gone: usize,
    rule: Rule,
    refusal: Option<Refusal>,
    /// Memory ran out, or the cards that a deck may have.
    ran_out: bool,
}

impl<'a> Editor<'a> {
    /// Returns a source that is unchanged.
    pub fn new(alloc: Global, source: &'a [u8]) -> Result<Editor<'a>, AllocError>
        ensures { IfOk result (λ editor. IsSource source.now editor) }
    {
        let lines = lines_of(alloc, source)?;
        let slots = slots_as_they_are(alloc, lines.len())?;
        Ok(Editor {
            alloc,
            lines,
            slots,
            end: Vec::new(alloc),
            made: 0,
            gone: 0,
            rule: Rule::Comments,
            refusal: None,
            ran_out: false,
        })
    }

    /// Begins a rule: what follows carries its code.
    pub fn begin(&mut self, rule: Rule)
        ensures stays { StaysStopped self.old self.new }
        ensures deck { deck_of self.new ≡ record (deck_of self.old) { rule = rule } }
    {
        self.rule = rule;
    }

    /// Whether to continue: memory hasn't run out, and no rule rejected the deck.
    pub fn continues(&self) -> bool
        ensures { result ≡ may_continue self.now }
    {
        self.refusal.is_none() && !self.ran_out
    }

    /// Returns the allocator of the deck.
    pub fn alloc(&self) -> Global {
        self.alloc
    }

    /// Returns how many cards the deck has now.
    pub fn cards(&self) -> usize {
        let all = self.lines.len().saturating_add(self.made);
        all.saturating_sub(self.gone)
    }

    /// Returns the line of a card of the source, counted from 1; empty if there is none.
    pub fn line(&self, card: usize) -> &'a [u8] {
        match self.lines.get(card.saturating_sub(1)) {
            Some(line) => line,
            None => &[],
        }
    }

    fn keep(&mut self, outcome: Done)
        ensures { self.new ≡ record self.old { ran_out = has_run_out self.old || is_err outcome } }
    {
        if outcome.is_err() {
            self.ran_out = true;
        }
    }

    /// Rejects the deck for a card. Only the first rejection counts.
    pub fn refuse(&mut self, card: usize, why: Sentence)
        ensures first { refusal_of self.new ≡ Some (unwrap_or (refusal_of self.old) (refusal_for self.old card why)) }
        ensures memory { has_run_out self.new ≡ has_run_out self.old }
    {
        if self.refusal.is_none() {
            self.refusal = Some(Refusal {
                card,
                rule: self.rule,
                why,
            });
        }
    }

    /// Adds a sentence to a card of the source, if there is such a card.
    fn add(&mut self, card: usize, remark: Remark) -> Done
        ensures stays { StaysStopped self.old self.new }
        ensures deck { OnOk result (deck_of self.new ≡ with_sentence card remark (deck_of self.old)) }
    {
        match self.slots.get_mut(card.saturating_sub(1)) {
            Some(slot) => slot.report(remark),
            None => Ok(()),
        }
    }

    /// Reports a change of a card of the source by a sentence.
    pub fn report(&mut self, card: usize, sentence: Sentence)
        ensures stays { StaysStopped self.old self.new }
        ensures deck { Has (with_sentence card (change_by self.old.rule sentence) (deck_of self.old)) self.new }
    {
        let remark = Remark {
            rule: self.rule,
            what: What::Change(sentence),
        };
        let outcome = self.add(card, remark);
        self.keep(outcome);
    }

    /// Replaces a card, as part of the change of the card `with`.
    fn set(&mut self, at: Address, here: Here, with: usize) -> Done
        ensures stays { StaysStopped self.old self.new }
        ensures deck { OnOk result (deck_of self.new ≡ with_here here at with (deck_of self.old)) }
    {
        let rule = self.rule;
        match self.slots.get_mut(at.slot) {
            Some(slot) => slot.set(at.made, here, rule, with),
            None => {
                set_made(&mut self.end, at.made, here);
                Ok(())
            }
        }
    }

    fn put(&mut self, at: Address, here: Here, with: usize)
        ensures stays { StaysStopped self.old self.new }
        ensures deck { Has (with_here here at with (deck_of self.old)) self.new }
    {
        let outcome = self.set(at, here, with);
        self.keep(outcome);
    }

    /// Replaces a card, as part of the change of the card `with`.
    pub fn change(&mut self, at: Address, card: Card, with: usize)
        ensures stays { StaysStopped self.old self.new }
        ensures deck { Has (with_here (Here.Changed card) at with (deck_of self.old)) self.new }
    {
        self.put(at, Here::Changed(card), with);
    }

    /// Removes a card, as part of the change of the card `with`.
    pub fn remove(&mut self, at: Address, with: usize)
        ensures stays { StaysStopped self.old self.new }
        ensures deck { Has (with_here Here.Gone at with (deck_of self.old)) self.new }
    {
        self.gone = self.gone.saturating_add(1);
        self.put(at, Here::Gone, with);
    }

    /// Replaces a card, and reports that by a sentence.
    pub fn rewrite(&mut self, seen: &Seen, card: Card, sentence: Sentence)
        ensures stays { StaysStopped self.old self.new }
        ensures deck { Has (rewritten_deck seen.now card sentence (deck_of self.old)) self.new }
    {
        self.report(seen.number, sentence);
        self.change(seen.at, card, seen.number);
    }

    /// Inserts a card before another one, as part of the change of the card `with`.
    pub fn insert(&mut self, before: Address, card: Card, with: usize)
        ensures { StaysStopped self.old self.new }
    {
        self.insert_copy(before, card, with, with);
    }

    /// Inserts a card derived from the card `from` before another one.
    pub fn insert_copy(&mut self, before: Address, card: Card, from: usize, with: usize)
        ensures { StaysStopped self.old self.new }
    {
        self.made = self.made.saturating_add(1);
        let made = Made {
            id: self.made,
            from,
            card,
        };
        let rule = self.rule;
        let outcome = match self.slots.get_mut(before.slot) {
            Some(slot) => slot.insert(before.made, made, rule, with),
            None => insert_made(&mut self.end, before.made, made),
        };
        self.keep(outcome);
    }

    /// Returns the cards in their present form.
    pub fn view(&self) -> Result<View, AllocError> {
        let mut view = View::new(self.alloc, self.lines.len());
        self.show(&mut view)?;
        Ok(view)
    }

    /// Appends the cards in their present form, up to the one that ends the source.
    fn show(&self, view: &mut View) -> Done {
        for (place, line) in self.lines.iter().enumerate() {
            if let Some(slot) = self.slots.get(place) {
                if ends_source(line) {
                    view.end_at(place, line, &slot.here);
                    return view.push_made(place, slot.before.as_slice());
                }
                view.push_slot(place, line, slot)?;
            }
        }
        view.push_made(self.lines.len(), self.end.as_slice())
    }

    /// Returns the rewritten deck, and the new deck's text: `source`, which the editor was created from, unchanged if no sentence names a
    /// card. Otherwise each card of the new deck with a line feed: for each card of the source, in order, those inserted before it, and
    /// what replaces it.
    ///
    /// # Errors
    ///
    /// A rule rejected the deck; or the source has more than 2,000 lines, or the new deck would have more cards; or memory ran out.
    pub fn finish(self, source: &[u8]) -> Result<Fitted, Stopped>
        ensures laws { IfOk result (λ fitted. IsFitted source.now fitted) }
        ensures its_own { IfOk result (λ fitted. IsOf self.entry fitted) }
        ensures went_on { OnOk result (may_continue self.entry ≡ true) }
        ensures stopped { IfErr result (λ why. StopsFor (refusal_of self.entry) why) }
    {
        if let Some(refusal) = self.refusal {
            return Err(Stopped::Refused(refusal));
        }
        if self.ran_out && self.cards() > MOST_CARDS {
            return Err(Stopped::TooMany);
        }
        if self.ran_out {
            return Err(Stopped::NoMemory);
        }
        let Editor {
            alloc,
            slots,
            end,
            ..
        } = self;
        finished(alloc, source, slots, end)
    }

    /// Stops because memory ran out in a rule, or the deck has too many cards.
    pub fn run_out(&mut self)
        ensures stops { has_run_out self.new ≡ true }
        ensures refusal { refusal_of self.new ≡ refusal_of self.old }
    {
        self.ran_out = true;
    }
}

/// Returns the new deck, given what happened to the source's cards.
fn finished(
    alloc: Global,
    source: &[u8],
    slots: Vec<Slot>,
    end: Vec<Made>,
) -> Result<Fitted, Stopped>
    ensures laws { IfOk result (λ fitted. IsFitted source.now fitted) }
    ensures its_own { IfOk result (λ fitted. (fitted.slots ≡ slots) × (fitted.end ≡ end)) }
    ensures stopped { IfErr result (λ why. StopsFor None why) }
{
    unreported_cards_are_kept();
    match render(alloc, source, slots.as_slice(), end.as_slice()) {
        Ok(done) => Ok(Fitted {
            slots,
            end,
            cards: done.cards,
            new: done.new,
        }),
        Err(RenderError::TooMany) => Err(Stopped::TooMany),
        Err(RenderError::NoMemory) => Err(Stopped::NoMemory),
    }
}

/// Returns slots for `count` cards, all unchanged.
fn slots_as_they_are(alloc: Global, count: usize) -> Result<Vec<Slot>, AllocError>
    ensures { IfOk result (λ slots. nothing_reported slots.items ≡ true) }
{
    let mut slots = Vec::with_capacity(alloc, count)?;
    'slots: for _ in 0..count {
        slots.push(Slot::new(alloc))?;
    }
    Ok(slots)
}
