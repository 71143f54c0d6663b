//! Calculations that rules create, from templates.

use rpg_fit_deck::{Card, Word};
use rpg_fit_terms::NewCard;

/// The columns that the parts of a template begin with.
const STARTS: [usize; 9] = [9, 18, 28, 33, 43, 49, 54, 56, 58];

/// Returns a calculation, derived from the card with a number. The template has its conditions, factor 1, operation, factor 2, result,
/// the length and decimals of that, and three indicators, with `|` between them. Each `%` is the next word.
pub fn calculation(template: &[u8], words: &[Word], number: usize) -> NewCard {
    let mut card = Card::of_form(b'C');
    let mut column = 9;
    let mut part: usize = 0;
    let mut used: usize = 0;
    for character in template {
        match *character {
            b'|' => {
                part = part.saturating_add(1);
                column = STARTS.get(part).copied().unwrap_or(80);
            }
            b'%' => {
                let word = words.get(used).copied().unwrap_or(Word::empty());
                let end = column.saturating_add(word.len());
                card.put(column, end.saturating_sub(1), word.text());
                column = end;
                used = used.saturating_add(1);
            }
            other => {
                card.put_column(column, other);
                column = column.saturating_add(1);
            }
        }
    }
    NewCard { card, number }
}
