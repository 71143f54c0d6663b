//! The rules.

ghost use Rattle.std.specs.Prelude.{◌≡◌, Some};

use std::fmt;

/// A rule of record types.
#[derive(Clone, Copy)]
pub enum TypeRule {
    /// The positions of codes are in the record.
    V3,
    /// The indicator is none, 01 to 99, L1 to LR or H1 to H9.
    V4,
    /// Control fields are in the record, and a level's are as long as in the first type that has it, 256 at most.
    V5,
    /// As many columns of the record are moved as the field is long.
    V6,
    /// Indicators of moves can be set, and a text field has one only for blanks.
    V7,
    /// The program has the type's file.
    V25,
    /// Match fields are in the record, each of a different level, with the joined lengths of the first type that has some, 256 at most in
    /// all.
    V26,
}

/// A rule of output lines.
#[derive(Clone, Copy)]
pub enum LineRule {
    /// The program has the line's file.
    V2,
    /// Spaces of 0 to 3 and skips to a line of the page, only on the printer.
    V8,
    /// Alternatives aren't conditioned by MR in version 1; versions 2 and 3 allow it.
    V9,
    /// Output fields exist.
    V10,
    /// What is edited is a number that suits the code, and a fill is used only where allowed.
    V11,
    /// An edit word is a text constant of 1 to 24 characters that fits the number.
    V12,
    /// The text ends inside the line, and begins there.
    V13,
    /// What is blanked after output may be written.
    V14,
    /// Fields aren't conditioned by MR in version 1; versions 2 and 3 allow it.
    V15,
}

/// A rule of instructions.
#[derive(Clone, Copy)]
pub enum PlaceRule {
    /// Operands exist, with an index that they may have.
    V16,
    /// Operands are of the kinds that the table of operations requires.
    V17,
    /// Results may be written.
    V18,
    /// Indicators are given where required, and may be set.
    V19,
    /// What a search makes current exists, and its index can hold what is found.
    V20,
    /// Branches stay in their section.
    V21,
    /// Calls go to a subroutine of a higher level.
    V22,
}

/// A rule of subroutines.
#[derive(Clone, Copy)]
pub enum SubroutineRule {
    /// A subroutine ends in its own return, and contains no other's; detail and total calculations contain none.
    V23,
    /// Levels are 1 to 100.
    V24,
}

/// A rule, by the table that its rows are in.
#[derive(Clone, Copy)]
pub enum Rule {
    /// V1: an overflow indicator requires a printer.
    Overflow,
    Type(TypeRule),
    Line(LineRule),
    Place(PlaceRule),
    Subroutine(SubroutineRule),
}

/// A rule that a row breaks. Rows are counted from 0 in the rule's table.
#[derive(Clone, Copy)]
pub struct BrokenRule {
    pub rule: Rule,
    pub row: usize,
}

impl Rule {
    ghost use Rattle.rpg_verify_rules.specs.Rules as rules;

    /// The number in the rule's name: 21 for V21.
    pub fn number(self) -> u8
        ensures { result ≡ rules.rule_number self }
    {
        match self {
            Rule::Overflow => 1,
            Rule::Line(LineRule::V2) => 2,
            Rule::Type(TypeRule::V3) => 3,
            Rule::Type(TypeRule::V4) => 4,
            Rule::Type(TypeRule::V5) => 5,
            Rule::Type(TypeRule::V6) => 6,
            Rule::Type(TypeRule::V7) => 7,
            Rule::Line(LineRule::V8) => 8,
            Rule::Line(LineRule::V9) => 9,
            Rule::Line(LineRule::V10) => 10,
            Rule::Line(LineRule::V11) => 11,
            Rule::Line(LineRule::V12) => 12,
            Rule::Line(LineRule::V13) => 13,
            Rule::Line(LineRule::V14) => 14,
            Rule::Line(LineRule::V15) => 15,
            Rule::Place(PlaceRule::V16) => 16,
            Rule::Place(PlaceRule::V17) => 17,
            Rule::Place(PlaceRule::V18) => 18,
            Rule::Place(PlaceRule::V19) => 19,
            Rule::Place(PlaceRule::V20) => 20,
            Rule::Place(PlaceRule::V21) => 21,
            Rule::Place(PlaceRule::V22) => 22,
            Rule::Subroutine(SubroutineRule::V23) => 23,
            Rule::Subroutine(SubroutineRule::V24) => 24,
            Rule::Type(TypeRule::V25) => 25,
            Rule::Type(TypeRule::V26) => 26,
        }
    }
}

impl fmt::Display for Rule {
    ghost use Rattle.rpg_verify_rules.specs.Rules as rules;

    ghost output = { λ rule. Some (rules.rule_text rule) };

    fn fmt<W: fmt::Write>(&self, f: &mut fmt::Formatter<W>) -> fmt::Result {
        write!(f, "V{}", self.number())
    }
}
