//! Counts with limits, and limits that are exceeded.

ghost use Rattle.std.specs.Prelude.{◌≡◌};
ghost use Rattle.rpg_faults_limits.specs.Causes as causes;

use rpg_sheet_specs::ColumnRange;

/// What a limit counts.
#[derive(Clone, Copy)]
pub enum Limit {
    RecordTypes,
    /// Of a record type.
    Codes,
    /// Of a record type.
    ControlFields,
    /// Of a record type.
    InputFields,
    Lines,
    /// Of a line.
    Alternatives,
    /// Of an alternative.
    Conditions,
    /// Of a line.
    OutputFields,
    Calculations,
    Subroutines,
    Names,
    /// Bytes of all names.
    NameBytes,
    /// Bytes of names and constants.
    Bytes,
    /// Names and constants.
    Fields,
}

/// Which limit a card exceeds.
#[derive(Clone, Copy)]
pub enum LimitCause {
    /// A table or an array of this many entries.
    Entries(u16),
    /// The count including the card.
    Passed { limit: Limit, count: u64 },
}

impl LimitCause {
    /// Returns the columns of a card that the cause is about; None if the card as a whole is one too many.
    pub fn range(self) -> Option<ColumnRange>
        ensures { result ≡ causes.limit_range self }
    {
        match self {
            LimitCause::Entries(_) => Some(ColumnRange::Entries),
            LimitCause::Passed { .. } => None,
        }
    }
}

/// A count and its limit: before a card, and with it.
#[derive(Clone, Copy)]
pub struct Measure {
    pub limit: Limit,
    pub most: u64,
    pub before: u64,
    pub with: u64,
}

impl Measure {
    /// The cause, if the count is within its limit before the card and over it with the
    /// card.
    pub(crate) const fn cause(self) -> Option<LimitCause>
        ensures { result ≡ causes.of_count self }
    {
        if self.before <= self.most && self.most < self.with {
            let Measure { limit, with, .. } = self;
            Some(LimitCause::Passed { limit, count: with })
        } else {
            None
        }
    }
}

pub(crate) const fn counted(limit: Limit, most: u64, before: u64, with: u64) -> Measure
    ensures { result ≡ record { limit = limit; most = most; before = before; with = with } }
{
    Measure {
        limit,
        most,
        before,
        with,
    }
}

/// Returns the first count that exceeds its limit.
pub(crate) fn first_past(counts: &[Measure]) -> Option<LimitCause>
    ensures { result ≡ causes.first_past counts.now }
{
    for count in counts {
        let cause = count.cause();
        if cause.is_some() {
            return cause;
        }
    }
    None
}
