//! W8 and W9: lines that no condition keeps back.

ghost use Rattle.std.specs.Prelude.{◌≡◌};
ghost use Rattle.rpg_warnings_lines.specs.Unheld as unheld;

use crate::alternatives::{ConditionTest, line_passes};
use crate::warning::{Warning, WarningKind};
use rpg_cards::SpecCard;
use rpg_sheet_specs::{ColumnFault, LineTime, OutputRecord};

/// The columns of a line's conditions.
const CONDITIONS: ColumnFault = ColumnFault {
    column: 23,
    last: 31,
};

/// Returns what is wrong with a line, if no condition keeps it back. An EXCPT keeps back a line of type E.
fn unheld(line: &OutputRecord, after: &[SpecCard]) -> Option<WarningKind>
    ensures { result ≡ unheld.unheld line.now after.now }
{
    match line.time {
        LineTime::Heading | LineTime::Detail if line_passes(ConditionTest::Open, line, after) => {
            Some(WarningKind::BeforeRecords)
        }
        LineTime::Total if line_passes(ConditionTest::Always, line, after) => {
            Some(WarningKind::EachTotal)
        }
        _ => None,
    }
}

/// Returns the warning of a line that nothing keeps back.
pub(crate) fn unheld_on(card: &SpecCard, after: &[SpecCard]) -> Option<Warning>
    ensures { result ≡ unheld.unheld_on card.now after.now }
{
    let kind = unheld(card.line()?, after)?;
    Some(Warning {
        card: card.number,
        columns: CONDITIONS,
        kind,
    })
}
