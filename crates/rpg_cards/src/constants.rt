//! The constants on the cards themselves.

ghost use Rattle.std.specs.Prelude.{◌≡◌, ◌≤◌, length, IsTrue};
ghost use Rattle.std.specs.List.{list_all};
ghost use Rattle.std.specs.Option.{option_and_then, option_to_list};
ghost use Rattle.rpg_text.specs.Texts.{is_character};
ghost use Rattle.std.specs.Cmp.{partial_equiv_from_equiv};
ghost use Rattle.rpg_cards.specs.Constants as constants;
ghost use Rattle.rpg_cards.specs.SameConstants.{is_same_equiv, hashed, hashed_alike};
ghost use Rattle.rpg_cards.specs.declared.constants.Constant.TheVariants.{Text};

use crate::spec_card::SpecCard;
use rpg_program::form::{Class, FieldForm, Kind};
use rpg_sheet_specs::{
    CalculationSpec, Factor, Few, Literal, NumericLiteral, OutputField, OutputSpec, Spec,
    TextLiteral, Word,
};
use std::hash::{Hash, Hasher};
use std::marker::Model;

/// A text of 1 to 24 characters.
#[derive(Drop)]
pub struct ConstantText {
    characters: Word<24>,
}

impl Model for ConstantText {
    ghost use Rattle.std.specs.Prelude.{ℕ, List, length, ◌≤◌, IsTrue};
    ghost use Rattle.std.specs.List.{list_all};
    ghost use Rattle.rpg_text.specs.Texts.{is_character};

    ghost Value = { List ℕ };

    ghost view = { λ t. t.characters };

    ghost invariant = { λ t. (1 ≤ length t.characters) × (length t.characters ≤ 24) × IsTrue (list_all is_character t.characters) };
}

impl ConstantText {
    fn new(text: &[u8]) -> Self
        requires least { 1 ≤ length text.now }
        requires most { length text.now ≤ 24 }
        requires characters { IsTrue (list_all is_character text.now) }
        ensures { result ≡ text.now }
    {
        ConstantText {
            characters: Word::new(text),
        }
    }

    pub fn as_slice(&self) -> &[u8]
        ensures value { result.now ≡ self.now }
        ensures least { 1 ≤ length result.now }
        ensures most { length result.now ≤ 24 }
        ensures characters { IsTrue (list_all is_character result.now) }
    {
        self.characters.as_slice()
    }
}

/// A number or a text that a card has instead of a name.
#[derive(Drop)]
pub enum Constant {
    Number(NumericLiteral),
    Text(ConstantText),
}

impl Constant {
    /// The constant or the edit word of an output field.
    pub fn of_text(text: &TextLiteral<24>) -> Self
        ensures { result ≡ Text text.now }
    {
        Constant::Text(ConstantText::new(text.as_slice()))
    }

    pub fn copied(&self) -> Self
        ensures { result ≡ self.now }
    {
        match self {
            Constant::Number(number) => Constant::Number(*number),
            Constant::Text(text) => Constant::Text(ConstantText::new(text.as_slice())),
        }
    }

    #[tactic(auto, unfolding(crate::specs::Constants::constant_form))]
    pub fn form(&self) -> FieldForm
        ensures { result ≡ constants.constant_form self.now }
    {
        match self {
            Constant::Number(number) => FieldForm {
                kind: Kind::Number,
                class: Class::Constant,
                length: number.length() as u16,
                decimals: number.decimals(),
                is_ascending: false,
                entries: 1,
            },
            Constant::Text(text) => FieldForm {
                kind: Kind::Text,
                class: Class::Constant,
                length: text.as_slice().len() as u16,
                decimals: 0,
                is_ascending: false,
                entries: 1,
            },
        }
    }

    /// The limits of a constant's digits or characters. Does nothing: its contract is the law.
    pub fn keeps_limits(&self)
        ensures { constants.IsConstant self.now }
    {
        match self {
            Constant::Number(number) => {
                number.value();
                number.length();
                number.decimals();
            }
            Constant::Text(text) => {
                text.as_slice();
            }
        }
    }
}

/// The value of an unused place in a list.
impl Default for Constant {
    fn default() -> Self {
        Constant::Number(NumericLiteral::new(0, 1, 0))
    }
}

/// Equal if one field can serve for both: their kind, length, decimals and value are the same.
impl PartialEq for Constant {
    ghost eq = { constants.is_same };

    ghost laws = { partial_equiv_from_equiv is_same_equiv };

    fn eq(&self, other: &Self) -> bool {
        match (self, other) {
            (Constant::Number(a), Constant::Number(b)) => {
                a.value() == b.value() && a.length() == b.length() && a.decimals() == b.decimals()
            }
            (Constant::Number(_), Constant::Text(_)) => false,
            (Constant::Text(_), Constant::Number(_)) => false,
            (Constant::Text(a), Constant::Text(b)) => a.as_slice() == b.as_slice(),
        }
    }
}

impl Eq for Constant {
    ghost laws = { is_same_equiv };
}

impl Hash for Constant {
    ghost hash_input = { hashed };

    ghost respects_eq = { hashed_alike };

    fn hash<H: Hasher>(&self, state: &mut H) {
        match self {
            Constant::Number(number) => number.value().hash(state),
            Constant::Text(text) => state.write(text.as_slice()),
        }
    }
}

/// Returns the constant in a factor, if it is one.
pub fn factor_constant(factor: &Factor) -> Option<Constant>
    ensures { result ≡ constants.factor_constant factor.now }
{
    match factor {
        Factor::Entry(_) => None,
        Factor::Literal(Literal::Number(number)) => Some(Constant::Number(*number)),
        Factor::Literal(Literal::Text(text)) => Some(Constant::Text(ConstantText::new(
            text.as_slice(),
        ))),
    }
}

impl SpecCard {
    /// Returns the constants of the card: those of factor 1 and factor 2, or the constant or edit word of an output field.
    #[inline(always)]
    pub fn constants(&self) -> Few<Constant>
        ensures { result ≡ constants.constants_on self.now.spec }
    {
        if self.constant_count() == 0 {
            return Few::new();
        }
        match &self.spec {
            Spec::Calculation(calculation) => of_factors(calculation),
            Spec::Output(OutputSpec::Field(field)) => Few::of(text_constant(field)),
            _ => Few::new(),
        }
    }

    /// Returns how many constants the card has.
    pub fn constant_count(&self) -> usize
        ensures { result ≡ length (constants.constants_on self.now.spec) }
    {
        match &self.spec {
            Spec::Calculation(calculation) => {
                literal_count(&calculation.factor_1) + literal_count(&calculation.factor_2)
            }
            Spec::Output(OutputSpec::Field(field)) => {
                usize::from(field.code.is_none() && field.text.is_some())
            }
            _ => 0,
        }
    }
}

fn literal_count(factor: &Option<Factor>) -> usize
    ensures { result ≡ length (option_to_list (option_and_then constants.factor_constant factor.now)) }
{
    match factor {
        None => 0,
        Some(Factor::Entry(_)) => 0,
        Some(Factor::Literal(_)) => 1,
    }
}

fn of_factors(calculation: &CalculationSpec) -> Few<Constant>
    ensures { result ≡ constants.factor_constants calculation.now }
{
    let mut constants = Few::of(constant_in(&calculation.factor_1));
    if let Some(constant) = constant_in(&calculation.factor_2) {
        constants.push(constant);
    }
    constants
}

/// Returns the constant in a factor, if there is a factor and it is one.
pub fn constant_in(factor: &Option<Factor>) -> Option<Constant>
    ensures { result ≡ option_and_then constants.factor_constant factor.now }
{
    factor_constant(factor.as_ref()?)
}

/// Returns the constant or the edit word of an output field. A text beside an edit code is its fill, not a constant.
pub fn text_constant(field: &OutputField) -> Option<Constant>
    ensures { result ≡ constants.text_constant field.now }
{
    if field.code.is_some() {
        return None;
    }
    Some(Constant::of_text(field.text.as_ref()?))
}
