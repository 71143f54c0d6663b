//! The groups of the cards before a card.

ghost use Rattle.std.specs.Prelude.{◌≡◌, ◌+◌, ◌≤◌, [], ◌∷◌, ◌++◌, length, true, List};
ghost use Rattle.rpg_cards.specs.Groups.{input_role, output_role};
ghost use Rattle.rpg_faults_limits.specs.Sheets.{AreSheets, file_or, with_role};
ghost use Rattle.rpg_cards.specs.declared.spec_card.SpecCard.{SpecCard};

use rpg_card_index::IndexedCards;
use rpg_cards::SpecCard;
use rpg_sheet_specs::{InputSpec, OutputSpec, Word};

/// The groups of a sheet.
#[derive(Clone, Copy)]
pub struct Groups {
    pub number: u16,
    /// Whether one is open, so that a further card would belong to it.
    pub is_open: bool,
    /// The place of the F card that describes the open group's file, if there is one.
    pub file: Option<usize>,
}

/// The groups of record types and of lines.
#[derive(Clone, Copy)]
pub struct Sheets {
    pub types: Groups,
    pub lines: Groups,
}

const NO_GROUPS: Groups = Groups {
    number: 0,
    is_open: false,
    file: None,
};

impl Sheets {
    /// Returns the groups before the first card.
    pub fn none() -> Self
        ensures { (cards : List SpecCard) → AreSheets cards [] result }
    {
        Sheets {
            types: NO_GROUPS,
            lines: NO_GROUPS,
        }
    }

    /// Returns the groups after one more card.
    #[inline(always)]
    pub fn with(&self, source: &IndexedCards, before: &[SpecCard], card: &SpecCard) -> Self
        requires few { length before.now ≤ 2000 }
        requires sheets { AreSheets source.now before.now self.now }
        ensures { AreSheets source.now (before.now ++ card.now ∷ []) result }
    {
        Sheets {
            types: self.types.with_input(source, card),
            lines: self.lines.with_output(source, card),
        }
    }

    /// Moves on to the next card. Only I and O cards change the groups.
    #[inline(always)]
    pub fn pass(&mut self, source: &IndexedCards, before: &[SpecCard], card: &SpecCard)
        requires few { length before.now ≤ 2000 }
        requires sheets { AreSheets source.now before.now self.old }
        ensures { AreSheets source.now (before.now ++ card.now ∷ []) self.new }
    {
        let Some(_) = card.input() else {
            let Some(_) = card.output() else {
                return;
            };
            *self = self.with(source, before, card);
            return;
        };
        *self = self.with(source, before, card);
    }
}

impl Groups {
    #[inline(always)]
    fn with_input(self, source: &IndexedCards, card: &SpecCard) -> Self
        requires { self.number ≤ 2000 }
        ensures { result ≡ with_role source.now (input_role card.now.spec) self }
    {
        match card.input() {
            Some(InputSpec::Type(record_type)) => self.opened(source, &record_type.file),
            _ => self,
        }
    }

    #[inline(always)]
    fn with_output(self, source: &IndexedCards, card: &SpecCard) -> Self
        requires { self.number ≤ 2000 }
        ensures { result ≡ with_role source.now (output_role card.now.spec) self }
    {
        match card.output() {
            Some(OutputSpec::Record(line)) => self.opened(source, &line.file),
            _ => self,
        }
    }

    /// Begins one more group, of the file that its heading names.
    fn opened(self, source: &IndexedCards, file: &Option<Word<8>>) -> Self
        requires { self.number ≤ 2000 }
        ensures { result ≡ record { number = self.number + 1; is_open = true; file = file_or source.now file.now self.file } }
    {
        Groups {
            number: self.number + 1,
            is_open: true,
            file: file_or(source, file, self.file),
        }
    }
}

/// Returns the place of the F card of the file that a card names, or this place if the card names none.
pub fn file_or(source: &IndexedCards, name: &Option<Word<8>>, place: Option<usize>) -> Option<usize>
    ensures { result ≡ file_or source.now name.now place }
{
    match name {
        None => place,
        Some(name) => source.file_place(name),
    }
}
