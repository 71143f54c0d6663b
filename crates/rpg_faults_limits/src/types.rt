//! The counts of the open record type.

ghost use Rattle.std.specs.Prelude.{ℕ, ◌+◌, ◌≤◌, [], ◌∷◌, ◌++◌, Option, length};
ghost use Rattle.rpg_cards.specs.Groups.{Group, input_card_role, input_role, open_group, with_card};
ghost use Rattle.rpg_faults_limits.specs.State.{HasFewOnType, IsOpenType};
ghost use Rattle.rpg_sheet_specs.specs.declared.input.InputSpec.{InputSpec};
ghost use Rattle.rpg_sheet_specs.specs.declared.input.RecordType.{RecordType};

use crate::filled::one_if;
use rpg_cards::SpecCard;
use rpg_sheet_specs::InputSpec;

/// The codes, control and match fields, and input fields of a record type with its AND and field cards; all 0 if none is open.
#[derive(Clone, Copy)]
pub struct OpenType {
    pub is_open: bool,
    pub codes: u64,
    pub levels: u64,
    pub fields: u64,
}

impl OpenType {
    /// The counts before the first card.
    pub(crate) const NONE: OpenType = OpenType {
        is_open: false,
        codes: 0,
        levels: 0,
        fields: 0,
    };

    /// Moves on to the next card, in place: most cards are of another sheet.
    pub(crate) fn pass(&mut self, before: &[SpecCard], card: &SpecCard)
        requires few_cards { length before.now ≤ 2000 }
        requires open { IsOpenType (open_group input_role before.now) self.old }
        requires few { HasFewOnType (length before.now) self.old }
        ensures open { IsOpenType (open_group input_role (before.now ++ card.now ∷ [])) self.new }
        ensures few { HasFewOnType (length before.now + 1) self.new }
    {
        if let Some(input) = card.input() {
            *self = self.with_input(input);
        }
    }

    fn with_input(self, input: &InputSpec) -> Self
        requires { HasFewOnType 2000 self }
        ensures open { (g : Option (Group RecordType InputSpec)) → IsOpenType g self → IsOpenType (with_card g (input_card_role input.now)) result }
        ensures few { (n : ℕ) → HasFewOnType n self → HasFewOnType (n + 1) result }
    {
        match input {
            InputSpec::Type(record_type) => OpenType {
                is_open: true,
                codes: record_type.codes.filled(),
                levels: 0,
                fields: 0,
            },
            InputSpec::And(codes) if self.is_open => OpenType {
                codes: self.codes + codes.filled(),
                ..self
            },
            InputSpec::Field(field) if self.is_open => OpenType {
                levels: self.levels + one_if(field.level.is_some()),
                fields: self.fields + 1,
                ..self
            },
            InputSpec::And(_) | InputSpec::Field(_) => self,
        }
    }
}
