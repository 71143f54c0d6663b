//! Names that one slip of the pen turns into each other. Two of them share a stem: a whole name, or what is left of it without one of its
//! characters. So similar names are looked up by their stems, without going over all names.

ghost use Rattle.std.specs.Prelude.{◌≤◌, length};

use crate::names::given_on;
use crate::spot::Spot;
use rpg_cards::{Named, SpecCard, given_form};
use rpg_cli_text::{TextWriter, is_near};
use rpg_faults::{CardFault, Cause, FileCause, NowhereCause};
use rpg_sheet::Word;
use std::alloc::{AllocError, Global};
use std::collections::{HashMap, HashSet};

#[derive(Clone, Copy, PartialEq, Eq, Hash)]
pub(crate) enum NameKind {
    Field,
    File,
    Label,
    Subroutine,
}

impl NameKind {
    pub const fn of(named: &Named) -> Self {
        if named.is_subroutine {
            NameKind::Subroutine
        } else {
            NameKind::Label
        }
    }
}

/// At most eight characters of a name.
#[derive(Clone, Copy, PartialEq, Eq, Hash)]
struct Stem {
    kind: NameKind,
    text: u64,
}

/// Returns a name without the character at a place, or the whole name if it has none there.
fn stem_of(kind: NameKind, name: &[u8], without: usize) -> Stem {
    let mut text = 0_u64;
    for (place, character) in name.iter().enumerate() {
        if place != without {
            text = text.wrapping_mul(256).wrapping_add(u64::from(*character));
        }
    }
    Stem { kind, text }
}

/// A name, and the first card that defines it.
#[derive(Drop)]
pub(crate) struct KnownName {
    pub name: Word<8>,
    pub card: u16,
}

/// The names that cards define, in the order of their cards.
#[derive(Drop)]
pub struct NearNames {
    alloc: Global,
    names: Vec<KnownName>,
    whole: HashSet<Stem>,
    /// The places of the names that have this stem.
    places: HashMap<Stem, Vec<usize>>,
}

const fn has_unknown_name(fault: &CardFault) -> bool {
    match &fault.cause {
        Some(Cause::UndefinedName(_) | Cause::File(FileCause::Unknown { .. })) => true,
        Some(Cause::Nowhere(NowhereCause::Absent(_))) => true,
        _ => false,
    }
}

impl NearNames {
    /// Notes the names of cards, if one of the faults has a name that no card defines.
    pub fn of(
        alloc: Global,
        cards: &[SpecCard],
        faults: &[&CardFault],
    ) -> Result<Self, AllocError> {
        let mut names = NearNames {
            alloc,
            names: Vec::new(alloc),
            whole: HashSet::new(alloc),
            places: HashMap::new(alloc),
        };
        if faults.iter().any(|fault| has_unknown_name(fault)) {
            for card in cards {
                names.note_card(card)?;
            }
        }
        Ok(names)
    }

    fn note_card(&mut self, card: &SpecCard) -> Result<(), AllocError> {
        if let Some(file) = card.file() {
            self.note(NameKind::File, file.name.as_slice(), card.number)?;
        }
        if let Some(named) = given_on(card) {
            self.note(NameKind::of(&named), named.name.as_slice(), card.number)?;
        }
        let definitions = card.definitions();
        for definition in definitions.as_slice() {
            if given_form(&definition.name).is_none() {
                self.note(NameKind::Field, definition.name.as_slice(), card.number)?;
            }
        }
        Ok(())
    }

    /// Notes a name under all its stems, unless it is known.
    fn note(&mut self, kind: NameKind, name: &[u8], card: u16) -> Result<(), AllocError>
        requires { length name.now ≤ 8 }
    {
        if !self.whole.insert(stem_of(kind, name, name.len()))? {
            return Ok(());
        }
        for without in 0..=name.len() {
            let places = self.places.entry(stem_of(kind, name, without))?;
            places
                .or_insert(Vec::new(self.alloc))
                .push(self.names.len())?;
        }
        let name = Word::new(name);
        self.names.push(KnownName { name, card })?;
        Ok(())
    }

    /// Returns the place of the first name, from a place on, that is similar to this one; if there is none, how many names there are.
    pub(crate) fn next(&self, kind: NameKind, name: &[u8], from: usize) -> usize {
        let mut next = self.names.len();
        for without in 0..=name.len() {
            if let Some(places) = self.places.get(&stem_of(kind, name, without)) {
                next = next.min(self.next_of(places, name, from));
            }
        }
        next
    }

    fn next_of(&self, places: &[usize], name: &[u8], from: usize) -> usize {
        let is_next = |place: &usize| match self.at(*place) {
            Some(known) => from <= *place && is_near(name, known.name.as_slice()),
            None => false,
        };
        places
            .iter()
            .copied()
            .find(is_next)
            .unwrap_or(self.names.len())
    }

    pub(crate) fn at(&self, place: usize) -> Option<&KnownName> {
        self.names.get(place)
    }
}

/// Writes the first name that is similar to an unknown one, and its card.
pub(crate) fn write_near(out: &mut TextWriter, spot: Spot<'_>, kind: NameKind, name: &[u8]) {
    let near = spot.source.near;
    if let Some(known) = near.at(near.next(kind, name, 0)) {
        out.fill_two(" ({} is on card {})", known.name.as_slice(), known.card);
    }
}
