//! Renders the new deck, from the source and the changes of its cards.

ghost use Rattle.std.specs.Prelude.{◌≡◌, ◌++◌, ◌≤◌, length, map, true, false, IfOk, OnOk};
ghost use Rattle.std.specs.List.{flat_map};
ghost use Rattle.std.specs.Str.Lines.{lines};
ghost use Rattle.rpg_text.specs.Lines.{with_line_feed};
ghost use Rattle.rpg_fit_deck.specs.New.{KeepsUnreported, lines_here, made_lines, new_cards, nothing_reported, rewritten, rewritten_text};

use crate::here::Here;
use crate::slot::{Done, Made, Slot};
use rpg_text::first_line;
use std::alloc::{AllocError, Global};

/// The most cards of a deck.
pub const MOST_CARDS: usize = 2000;

/// Why there is no new deck.
#[derive(Clone, Copy)]
pub(crate) enum RenderError {
    /// The source has more than 2,000 cards, or the new deck would have.
    TooMany,
    NoMemory,
}

impl From<AllocError> for RenderError {
    fn from(_: AllocError) -> Self {
        RenderError::NoMemory
    }
}

/// Returns the lines of a source.
pub(crate) fn lines_of<'a>(alloc: Global, source: &'a [u8]) -> Result<Vec<&'a [u8]>, AllocError>
    ensures { IfOk result (λ found. map (λ line. line.now) found.items ≡ lines source.now) }
{
    let mut found = Vec::new(alloc);
    let mut rest = source;
    while !rest.is_empty() {
        let (line, more) = first_line(rest);
        found.push(line)?;
        rest = more;
    }
    Ok(found)
}

/// Whether no sentence names a card.
fn reports_nothing(slots: &[Slot]) -> bool
    ensures { result ≡ nothing_reported slots.now }
{
    slots.iter().all(|slot| slot.remarks.is_empty())
}

fn push_made<'b>(cards: &mut Vec<&'b [u8]>, made: &'b [Made]) -> Done
    ensures { OnOk result (map (λ line. line.now) cards.new.items ≡ map (λ line. line.now) cards.old.items ++ made_lines made.now) }
{
    for one in made {
        cards.push(one.card.text())?;
    }
    Ok(())
}

fn push_here<'b>(cards: &mut Vec<&'b [u8]>, line: &'b [u8], here: &'b Here) -> Done
    ensures { OnOk result (map (λ line. line.now) cards.new.items ≡ map (λ line. line.now) cards.old.items ++ lines_here line.now here.now) }
{
    match here {
        Here::Kept => cards.push(line)?,
        Here::Changed(card) => cards.push(card.text())?,
        Here::Gone => {}
    }
    Ok(())
}

/// Returns the new deck's cards.
fn cards_of<'b>(
    alloc: Global,
    lines: &[&'b [u8]],
    slots: &'b [Slot],
) -> Result<Vec<&'b [u8]>, AllocError>
    ensures { IfOk result (λ cards. map (λ line. line.now) cards.items ≡ new_cards (map (λ line. line.now) lines.now) slots.now) }
{
    let mut cards = Vec::new(alloc);
    let mut rest = slots;
    for line in lines {
        match rest {
            [slot, more @ ..] => {
                push_made(&mut cards, slot.before.as_slice())?;
                push_here(&mut cards, line, &slot.here)?;
                rest = more;
            }
            [] => cards.push(line)?,
        }
    }
    Ok(cards)
}

/// Returns the text of cards.
fn text(alloc: Global, cards: &[&[u8]]) -> Result<Vec<u8>, AllocError>
    ensures { IfOk result (λ out. out.items ≡ flat_map with_line_feed (map (λ line. line.now) cards.now)) }
{
    let mut out = Vec::new(alloc);
    for card in cards {
        out.extend_from_slice(card)?;
        out.push(b'\n')?;
    }
    Ok(out)
}

/// The new deck, and how many cards its source has.
#[derive(Drop)]
pub(crate) struct Rendered {
    pub new: Vec<u8>,
    pub cards: usize,
}

/// Renders the new deck: the source itself if no sentence names a card.
pub(crate) fn render<'b>(
    alloc: Global,
    source: &'b [u8],
    slots: &'b [Slot],
    end: &'b [Made],
) -> Result<Rendered, RenderError>
    ensures as_it_was { IfOk result (λ done. nothing_reported slots.now ≡ true → done.new.items ≡ source.now) }
    ensures its_cards { IfOk result (λ done. nothing_reported slots.now ≡ false → done.new.items ≡ rewritten_text (lines source.now) slots.now end.now) }
    ensures few_cards { IfOk result (λ done. nothing_reported slots.now ≡ false → length (rewritten (lines source.now) slots.now end.now) ≤ 2000) }
    ensures cards { IfOk result (λ done. done.cards ≡ length (lines source.now)) }
    ensures few { IfOk result (λ done. done.cards ≤ 2000) }
{
    let lines = lines_of(alloc, source)?;
    let cards = lines.len();
    if cards > MOST_CARDS {
        return Err(RenderError::TooMany);
    }
    if reports_nothing(slots) {
        let new = Vec::from_slice(alloc, source)?;
        return Ok(Rendered { new, cards });
    }
    let new = new_text(alloc, lines.as_slice(), slots, end)?;
    Ok(Rendered { new, cards })
}

/// Returns the text of the new deck's cards.
fn new_text<'b>(
    alloc: Global,
    lines: &[&'b [u8]],
    slots: &'b [Slot],
    end: &'b [Made],
) -> Result<Vec<u8>, RenderError>
    ensures its_cards { IfOk result (λ new. new.items ≡ rewritten_text (map (λ line. line.now) lines.now) slots.now end.now) }
    ensures few_cards { IfOk result (λ _. length (rewritten (map (λ line. line.now) lines.now) slots.now end.now) ≤ 2000) }
{
    let mut cards = cards_of(alloc, lines, slots)?;
    push_made(&mut cards, end)?;
    if cards.len() > MOST_CARDS {
        return Err(RenderError::TooMany);
    }
    Ok(text(alloc, cards.as_slice())?)
}

/// A law of the definition: cards that no sentence names keep their bytes and their order. Does nothing.
pub(crate) fn unreported_cards_are_kept()
    ensures { KeepsUnreported }
{}
