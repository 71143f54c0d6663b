//! All cards of a source that can't be read.

ghost use Rattle.std.specs.Prelude.{◌≡◌, ℕ, ◌≤◌, ◌++◌, List, slice_get, IfOk, OnOk};
ghost use Rattle.std.specs.Option.{option_map};
ghost use Rattle.rpg_sheet.specs.Seen.{HasSeen};
ghost use Rattle.rpg_sheet.specs.Sheet as sheets;
ghost use Rattle.rpg_sheet.specs.Unreadable as every;
ghost use Rattle.rpg_sheet_specs.specs.Cards.{card_of};

use crate::card::columns_of;
use crate::form::ends_source;
use crate::sheet::{CardFault, SheetCode};
use crate::source::{Earlier, MOST_CARDS, NO_LINES, checked};
use rpg_sheet_specs::ColumnFault;
use rpg_text::first_line;
use std::alloc::{AllocError, Global};

/// A card that can't be read. Cards are numbered from 1.
#[derive(Clone, Copy)]
pub struct UnreadableCard {
    pub card: u16,
    pub code: SheetCode,
    /// The columns of the leftmost bad value, with S5 only.
    pub columns: Option<ColumnFault>,
}

/// Returns the cards that can't be read, in order, each with its lowest code, up to the card `/*` or card 2,001. Fails only if memory runs out.
#[tactic(auto, using(crate::proofs::UnreadableLemmas::cut_short))]
pub fn unreadable_cards(alloc: Global, text: &[u8]) -> Result<Vec<UnreadableCard>, AllocError>
    ensures { IfOk result (λ cards. cards.items ≡ every.unreadable_cards (sheets.source text.now)) }
{
    let mut found = Vec::new(alloc);
    let mut earlier = NO_LINES;
    let mut rest = text;
    while !rest.is_empty() {
        if earlier.count > MOST_CARDS {
            return Ok(found);
        }
        let (line, more) = first_line(rest);
        let columns = columns_of(line);
        put_if_unreadable(&mut found, earlier, line, &columns)?;
        if ends_source(&columns) {
            return Ok(found);
        }
        earlier = earlier.with(&columns);
        rest = more;
    }
    Ok(found)
}

/// Appends a line with these columns if it can't be read.
fn put_if_unreadable(
    found: &mut Vec<UnreadableCard>,
    earlier: Earlier,
    line: &[u8],
    columns: &[u8; 80],
) -> Result<(), AllocError>
    requires few { earlier.count ≤ 2000 }
    requires columns { columns.now ≡ card_of line.now }
    ensures { OnOk result ((lines : List (List ℕ)) → HasSeen earlier lines → found.new.items ≡ found.old.items ++ every.unreadable_at lines line.now) }
{
    let mut spec = None;
    match checked(&mut spec, earlier, line, columns) {
        Ok(()) => Ok(()),
        Err(CardFault { code, columns }) => {
            found.push(UnreadableCard {
                card: earlier.count + 1,
                code,
                columns,
            })?;
            Ok(())
        }
    }
}

/// A law: the first of the cards that can't be read is the one that `cards` reports, and there is none if it reports none.
pub fn refusal_names_the_first(text: &[u8])
    ensures { sheets.first_sheet_fault (sheets.source text.now) ≡ option_map every.reported_fault (slice_get (every.unreadable_cards (sheets.source text.now)) 0) }
{}
