//! The four places where rules insert calculations.

use crate::group::{Group, Section, groups};
use rpg_fit_deck::{Address, Editor, View};
use rpg_fit_terms::{Done, NewCard, address_after, is_card, put_cards};

/// A place for calculations in the cycle.
#[derive(Clone, Copy)]
pub enum Place {
    /// After the moves of the input fields.
    DetailFront,
    /// Before the heading and detail lines.
    DetailEnd,
    /// Before all other total calculations.
    TotalFront,
    /// Before the total lines.
    TotalEnd,
}

/// Returns the address of the first output card, or that after all cards.
pub fn before_output(view: &View) -> Address {
    for seen in view.cards.iter() {
        if is_card(seen, b'O') {
            return seen.at;
        }
    }
    view.cards_end
}

impl Place {
    /// Whether calculations of a section come after it.
    fn is_before(self, section: Section) -> bool {
        match self {
            Place::DetailFront => true,
            Place::DetailEnd | Place::TotalFront => section != Section::Detail,
            Place::TotalEnd => section == Section::Subroutine,
        }
    }
}

/// Returns the address before which cards of a place go.
fn address_of(view: &View, groups: &[Group], place: Place) -> Address {
    for group in groups {
        if place.is_before(group.section()) {
            return group.first().at;
        }
    }
    match groups.last() {
        Some(last) => address_after(view, last.last.at),
        None => before_output(view),
    }
}

/// Inserts calculations at a place of the deck in its present form, as part of the change of the
/// card `with`.
pub fn insert_at(editor: &mut Editor, place: Place, cards: &[NewCard], with: usize) -> Done {
    let view = editor.view()?;
    let groups = groups(&view)?;
    let before = address_of(&view, groups.as_slice(), place);
    put_cards(editor, before, cards, with)
}
