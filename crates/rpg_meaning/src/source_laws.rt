//! A law of the definitions. The function does nothing: it is called only for its contract.
ghost use Rattle.rpg_meaning.specs.Sources.Law.{HasOneMeaning, OfCompiled, PrintsItsMeaning, SendsItsMeaning};

use rpg_cycle_safety::run_laws::runs_keep;
use rpg_cycle_safety::step_laws::first_values_hold;

/// A source that compiles has one meaning. On every date and over all records its cards have a run, and all their runs end alike, in the
/// same number of cycles and with the same bytes (`meaning`). What the engine promises of a run of its program holds for the run of the
/// cards: the report and all output (`prints`), and the first parts of it that are sent if a run stops early (`parts`).
pub fn source_to_print()
    ensures meaning { OfCompiled HasOneMeaning }
    ensures prints { OfCompiled PrintsItsMeaning }
    ensures parts { OfCompiled SendsItsMeaning }
{
    first_values_hold();
    runs_keep();
}
