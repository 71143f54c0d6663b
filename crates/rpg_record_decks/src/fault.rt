//! Why a deck has no layout.

ghost use Rattle.std.specs.Prelude.{◌≡◌};
ghost use Rattle.rpg_record_decks.specs.declared.fault.CardFault.TheVariants.{Columns};
ghost use Rattle.rpg_record_decks.specs.declared.fault.DeckFault.TheVariants.{Card};

use rpg_sheet::ColumnFault;
use std::alloc::{AllocError, AllocFailed};

/// What is wrong with a card.
#[derive(Clone, Copy, PartialEq, Eq)]
pub enum CardFault {
    /// It has more than 80 characters.
    TooLong,
    /// A byte isn't a character.
    NoCharacter,
    /// It is card 2,001.
    TooMany,
    /// These columns have a bad value.
    Columns {
        first: u8,
        last: u8,
    },
    /// The length of a record isn't 1 to 9,999.
    Length,
    /// The columns aren't in the record.
    Outside,
    /// The size of a packed field isn't 1 to 8 bytes, or that of a binary one not 2 or 4.
    Size,
    /// A packed or binary field has no decimals.
    NoDecimals,
    /// A column belongs to characters, and also to a packed or binary field.
    Shared {
        card: u16,
    },
    /// The columns of a packed or binary array aren't those of its entries.
    Entries {
        name: [u8; 6],
        entries: u16,
        bytes: u16,
        columns: u16,
    },
    /// The longest line would have more than 9,999 columns.
    Wide {
        columns: usize,
    },
    /// The file has no record type.
    NoType,
    /// The output file has no line.
    NoLine,
    /// Records are lines, but a field is packed or binary.
    BytesInLines,
    /// A packed or binary output field has an edit code or an edit word.
    Edited,
    /// A packed or binary output field isn't a number with a name.
    Unnamed,
    /// No card says how long an output field is.
    NoLength {
        name: [u8; 6],
    },
    /// A binary output field has more than 9 digits.
    BinaryDigits,
    /// The bytes of an output field would begin before column 1.
    BeforeRecord {
        bytes: u16,
    },
    /// An output field ends after its record.
    AfterRecord {
        end: u16,
    },
    /// Two output fields, one of them packed or binary, share columns.
    Overlapping {
        first: u16,
        last: u16,
        one: u16,
        other: u16,
    },
    /// The packed and binary fields of two lines differ, and no constant distinguishes the lines.
    Alike {
        one: u16,
        other: u16,
    },
    /// An updated record has no packed or binary field in these columns, or has its digits in different places.
    NotRead {
        first: u16,
        last: u16,
    },
}

/// Why a deck has no layout.
#[derive(Clone, Copy, PartialEq, Eq)]
pub enum DeckFault {
    /// A card is rejected. Cards are numbered from 1.
    Card { number: u16, fault: CardFault },
    /// No card describes the file.
    NoFile,
    NoMemory,
}

impl DeckFault {
    pub fn at(number: u16, fault: CardFault) -> Self
        ensures { result ≡ Card number fault }
    {
        DeckFault::Card { number, fault }
    }
}

impl From<AllocError> for DeckFault {
    ghost use Rattle.std.specs.Prelude.{◌≡◌};
    ghost use Rattle.rpg_record_decks.specs.declared.fault.DeckFault.TheVariants.{NoMemory};

    ghost from_gives = { λ _ e. e ≡ NoMemory };

    fn from(_: AllocError) -> Self {
        DeckFault::NoMemory
    }
}

impl<T: Drop> From<AllocFailed<T>> for DeckFault {
    ghost use Rattle.std.specs.Prelude.{◌≡◌};
    ghost use Rattle.rpg_record_decks.specs.declared.fault.DeckFault.TheVariants.{NoMemory};

    ghost from_gives = { λ _ e. e ≡ NoMemory };

    fn from(_: AllocFailed<T>) -> Self {
        DeckFault::NoMemory
    }
}

/// Returns the fault for columns of a card that rpg2 rejects.
pub fn bad_columns(number: u16, fault: ColumnFault) -> DeckFault
    ensures { result ≡ Card number (Columns fault.column fault.last) }
{
    let (first, last) = (fault.column, fault.last);
    DeckFault::at(number, CardFault::Columns { first, last })
}
