//! Calculations that are done if one of several conditions holds.

use crate::list::Cards;
use rpg_fit_deck::Word;
use rpg_fit_terms::{Conjunction, Done, Indicator, NewCard};

/// Appends the cards of an alternative: AN from its second card on. The last of them is `end`, and the others have only
/// conditions.
fn push_alternative(cards: &mut Cards, lead: Word, condition: &Conjunction, end: NewCard) -> Done {
    condition.check(end.number)?;
    let last = condition.cards().saturating_sub(1);
    for part in 0..condition.cards() {
        let level = if part == 0 { lead } else { Word::of(b"AN") };
        let blank = NewCard::of_form(b'C', end.number);
        let card = if part == last { end } else { blank };
        let leveled = card.with(7, 8, level.text());
        cards.push(leveled.with(9, 17, condition.columns(part).text()));
    }
    Ok(())
}

/// Appends the cards of a calculation that is done if one of the alternatives, of at most 60 conditions, holds. Columns 9 to 17 of `last`
/// are blank, and 7 to 8 are those of the first card.
pub fn push_conditioned(cards: &mut Cards, alternatives: &[Conjunction], last: NewCard) -> Done {
    let mut lead = Indicator::at(&last.card, 7).word();
    for (place, condition) in alternatives.iter().enumerate() {
        let is_last = place.saturating_add(1) == alternatives.len();
        let blank = NewCard::of_form(b'C', last.number);
        let end = if is_last { last } else { blank };
        push_alternative(cards, lead, condition, end)?;
        lead = Word::of(b"OR");
    }
    Ok(())
}
