//! F12 of I and O cards: cards without the card that they continue or belong to.

ghost use Rattle.std.specs.Prelude.{◌≡◌, is_some};
ghost use Rattle.rpg_faults_limits.specs.Sheets.{AreSheets};
ghost use Rattle.rpg_causes_flow.specs.Strays as causes;
ghost use Rattle.rpg_faults_flow.specs.Strays as rules;

use rpg_card_index::IndexedCards;
use rpg_cards::SpecCard;
use rpg_faults_limits::Sheets;
use rpg_sheet_specs::{ColumnRange, InputSpec, OutputSpec};

/// What an I or O card lacks before it.
#[derive(Clone, Copy)]
pub enum StrayCause {
    /// A field without a record type.
    NoType,
    /// AND on an I card: the previous card, if there is one, is neither a record type nor an AND
    /// card.
    OtherThanType(Option<u16>),
    /// A field without a line.
    NoLine,
    /// AND or OR on an O card: the previous card, if there is one, is neither a line nor an AND
    /// or OR card.
    OtherThanLine(Option<u16>),
}

impl StrayCause {
    /// Returns the name of the field that belongs to no type or line; None for the card as a whole.
    pub fn range(self) -> Option<ColumnRange>
        ensures { result ≡ causes.stray_range self }
    {
        match self {
            StrayCause::NoType => Some(ColumnRange::InputName),
            StrayCause::NoLine => Some(ColumnRange::OutputName),
            StrayCause::OtherThanType(_) | StrayCause::OtherThanLine(_) => None,
        }
    }
}

/// F12 of I and O cards: what the card lacks before it.
#[tactic(auto, using(crate::proofs::StrayLemmas::stray_rule))]
pub fn stray_cause(
    source: &IndexedCards,
    sheets: &Sheets,
    before: &[SpecCard],
    card: &SpecCard,
) -> Option<StrayCause>
    requires { AreSheets source.now before.now sheets.now }
    ensures cause { result ≡ causes.stray_cause before.now card.now }
    ensures rule { is_some result ≡ rules.is_stray before.now card.now }
{
    if let Some(input) = card.input() {
        return on_input(sheets.types.is_open, before, input);
    }
    on_output(sheets.lines.is_open, before, card.output()?)
}

fn on_input(is_open: bool, before: &[SpecCard], input: &InputSpec) -> Option<StrayCause>
    ensures { result ≡ causes.input_stray_cause is_open before.now input.now }
{
    match input {
        InputSpec::Type(_) => None,
        InputSpec::And(_) if follows_codes(before) => None,
        InputSpec::And(_) => Some(StrayCause::OtherThanType(number_before(before))),
        InputSpec::Field(_) if is_open => None,
        InputSpec::Field(_) => Some(StrayCause::NoType),
    }
}

fn on_output(is_open: bool, before: &[SpecCard], output: &OutputSpec) -> Option<StrayCause>
    ensures { result ≡ causes.output_stray_cause is_open before.now output.now }
{
    match output {
        OutputSpec::Record(_) => None,
        OutputSpec::And(_) | OutputSpec::Or(_) if follows_conditions(before) => None,
        OutputSpec::And(_) | OutputSpec::Or(_) => {
            Some(StrayCause::OtherThanLine(number_before(before)))
        }
        OutputSpec::Field(_) if is_open => None,
        OutputSpec::Field(_) => Some(StrayCause::NoLine),
    }
}

fn number_before(before: &[SpecCard]) -> Option<u16>
    ensures { result ≡ causes.card_number_before before.now }
{
    Some(before.last()?.number)
}

fn follows_codes(before: &[SpecCard]) -> bool
    ensures { result ≡ rules.follows_codes before.now }
{
    let Some(card) = before.last() else {
        return false;
    };
    matches!(card.input(), Some(InputSpec::Type(_) | InputSpec::And(_)))
}

fn follows_conditions(before: &[SpecCard]) -> bool
    ensures { result ≡ rules.follows_conditions before.now }
{
    let Some(card) = before.last() else {
        return false;
    };
    matches!(
        card.output(),
        Some(OutputSpec::Record(_) | OutputSpec::And(_) | OutputSpec::Or(_))
    )
}
