//! The counts of the open line.

ghost use Rattle.std.specs.Prelude.{ℕ, ◌+◌, ◌≤◌, [], ◌∷◌, ◌++◌, Option, length};
ghost use Rattle.rpg_cards.specs.Groups.{Group, open_group, output_card_role, output_role, with_card};
ghost use Rattle.rpg_faults_limits.specs.State.{HasFewOnLine, IsOpenLine};
ghost use Rattle.rpg_sheet_specs.specs.declared.output.OutputRecord.{OutputRecord};
ghost use Rattle.rpg_sheet_specs.specs.declared.output.OutputSpec.{OutputSpec};

use rpg_cards::SpecCard;
use rpg_sheet_specs::OutputSpec;

/// The alternatives, conditions of the last alternative, and fields of a line with its AND, OR and field cards; all 0 if none is open.
#[derive(Clone, Copy)]
pub struct OpenLine {
    pub is_open: bool,
    pub alternatives: u64,
    pub conditions: u64,
    pub fields: u64,
}

impl OpenLine {
    /// The counts before the first card.
    pub(crate) const NONE: OpenLine = OpenLine {
        is_open: false,
        alternatives: 0,
        conditions: 0,
        fields: 0,
    };

    /// Moves on to the next card, in place: most cards are of another sheet.
    pub(crate) fn pass(&mut self, before: &[SpecCard], card: &SpecCard)
        requires few_cards { length before.now ≤ 2000 }
        requires open { IsOpenLine (open_group output_role before.now) self.old }
        requires few { HasFewOnLine (length before.now) self.old }
        ensures open { IsOpenLine (open_group output_role (before.now ++ card.now ∷ [])) self.new }
        ensures few { HasFewOnLine (length before.now + 1) self.new }
    {
        if let Some(output) = card.output() {
            *self = self.with_output(output);
        }
    }

    fn with_output(self, output: &OutputSpec) -> Self
        requires { HasFewOnLine 2000 self }
        ensures open { (g : Option (Group OutputRecord OutputSpec)) → IsOpenLine g self → IsOpenLine (with_card g (output_card_role output.now)) result }
        ensures few { (n : ℕ) → HasFewOnLine n self → HasFewOnLine (n + 1) result }
    {
        match output {
            OutputSpec::Record(record) => OpenLine {
                is_open: true,
                alternatives: 1,
                conditions: record.conditions.filled(),
                fields: 0,
            },
            OutputSpec::And(conditions) if self.is_open => OpenLine {
                conditions: self.conditions + conditions.filled(),
                ..self
            },
            OutputSpec::Or(conditions) if self.is_open => OpenLine {
                alternatives: self.alternatives + 1,
                conditions: conditions.filled(),
                ..self
            },
            OutputSpec::Field(_) if self.is_open => OpenLine {
                fields: self.fields + 1,
                ..self
            },
            OutputSpec::And(_) | OutputSpec::Or(_) | OutputSpec::Field(_) => self,
        }
    }
}
