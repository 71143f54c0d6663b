//! The indicators of a source: what turns them on and off, and which cards test them.

use crate::mentions::Done;
use rpg_cards::{SpecCard, level, line_conditions_on, number_of};
use rpg_cli_show_fields::Indicator;
use rpg_cli_text::{Piece, TextWriter};
use rpg_sheet_specs::{
    CalculationSpec, ConditionSpec, FileSpec, InputFieldSpec, InputSpec, Operation, Spec, Three,
};
use rpg_text::trimmed;
use std::alloc::{AllocError, Global};

const AFTER: usize = 130;

const MATCHING: u8 = 129;

const HEADING: &str =
    "\nINDICATORS\n      turned on by                              tested on (N: where it's off)\n";

/// The width of the column of what turns an indicator on.
const TURNED: usize = 40;

/// How many cards that test an indicator go on a line.
const ON_A_LINE: usize = 8;

const SHOWN: [&str; 3] = [
    "input field plus",
    "input field minus",
    "input field zero or blank",
];

/// The indicator that a full page of a file turns on.
pub fn overflow_of(file: &FileSpec) -> Option<u8> {
    Some(file.overflow?.number())
}

/// A card that tests an indicator.
#[derive(Clone, Copy)]
struct Testing {
    card: u16,
    is_negated: bool,
}

/// What turns an indicator on or off, and which cards test it.
#[derive(Drop)]
struct IndicatorUses {
    turned: Vec<Turning>,
    tested: Vec<Testing>,
}

#[derive(Drop)]
pub struct Indicators {
    uses: Vec<IndicatorUses>,
}

fn unused(alloc: Global) -> Result<Indicators, AllocError> {
    let mut uses = Vec::with_capacity(alloc, AFTER)?;
    for _ in 0..AFTER {
        uses.push(IndicatorUses {
            turned: Vec::new(alloc),
            tested: Vec::new(alloc),
        })?;
    }
    Ok(Indicators { uses })
}

impl Indicators {
    pub fn of(alloc: Global, cards: &[SpecCard]) -> Result<Self, AllocError> {
        let mut indicators = unused(alloc)?;
        for card in cards {
            indicators.note_card(card)?;
        }
        Ok(indicators)
    }

    /// Notes what turns an indicator on or off, if the indicator is there.
    fn turned(&mut self, indicator: Option<u8>, turning: Turning) -> Done {
        if let Some(number) = indicator {
            if let Some(uses) = self.uses.get_mut(usize::from(number)) {
                uses.turned.push(turning)?;
            }
        }
        Ok(())
    }

    fn tested(&mut self, number: u8, testing: Testing) -> Done {
        let Some(uses) = self.uses.get_mut(usize::from(number)) else {
            return Ok(());
        };
        let Testing { card, is_negated } = testing;
        match uses.tested.last() {
            Some(last) if last.card == card && last.is_negated == is_negated => {}
            _ => uses.tested.push(testing)?,
        }
        Ok(())
    }

    fn note_card(&mut self, card: &SpecCard) -> Done {
        let number = card.number;
        match &card.spec {
            Spec::File(file) => {
                let turning = Turning::of("a full page", NO_WORD, number);
                self.turned(overflow_of(file), turning)
            }
            Spec::Input(InputSpec::Type(record_type)) => {
                let turning = Turning::of("record type", NO_WORD, number);
                self.turned(number_of(record_type.indicator), turning)
            }
            Spec::Input(InputSpec::Field(field)) => self.note_field(number, field),
            Spec::Calculation(calculation) => self.note_calculation(number, calculation),
            Spec::Output(output) => self.note_conditions(number, line_conditions_on(output)),
            _ => Ok(()),
        }
    }

    fn note_three(
        &mut self,
        indicators: Three<Option<rpg_sheet_specs::Indicator>>,
        words: ([&'static str; 3], Piece<'static>),
        card: u16,
    ) -> Done {
        let ([first, second, third], piece) = words;
        let turning = |sentence| Turning::of(sentence, piece, card);
        self.turned(number_of(indicators.first), turning(first))?;
        self.turned(number_of(indicators.second), turning(second))?;
        self.turned(number_of(indicators.third), turning(third))
    }

    fn note_field(&mut self, card: u16, field: &InputFieldSpec) -> Done {
        if let Some(level) = field.level {
            let number = level.number().saturating_add(100);
            self.turned(Some(number), Turning::of("control field", NO_WORD, card))?;
        }
        if let Some(level) = field.match_level {
            let turning = Turning::of("match field M{}", level.number().into(), card);
            self.turned(Some(MATCHING), turning)?;
        }
        self.note_three(field.indicators, (SHOWN, NO_WORD), card)
    }

    fn note_calculation(&mut self, card: u16, calculation: &CalculationSpec) -> Done {
        if let Some(number) = level(calculation.control_level) {
            let is_negated = false;
            self.tested(number, Testing { card, is_negated })?;
        }
        self.note_conditions(card, calculation.conditions)?;
        let words = results_of(calculation.operation);
        self.note_three(calculation.resulting_indicators, words, card)
    }

    fn note_conditions(&mut self, card: u16, conditions: Three<Option<ConditionSpec>>) -> Done {
        for condition in [conditions.first, conditions.second, conditions.third] {
            if let Some(condition) = condition {
                let is_negated = condition.negated;
                self.tested(condition.indicator.number(), Testing { card, is_negated })?;
            }
        }
        Ok(())
    }

    /// Writes the rows of each indicator that a card names.
    pub fn write(&self, out: &mut TextWriter) {
        let mut heading = HEADING;
        for (number, uses) in self.uses.iter().enumerate() {
            if !uses.turned.is_empty() || !uses.tested.is_empty() {
                out.write_str(heading);
                heading = "";
                uses.write(out, number);
            }
        }
    }
}

impl IndicatorUses {
    /// Returns the line below the cards that turn it on or off: that the machine does, or that nothing does.
    fn last_words(&self, number: usize) -> Option<&'static str> {
        match machine_words(number) {
            None if self.turned.is_empty() => Some("nothing"),
            words => words,
        }
    }

    fn write(&self, out: &mut TextWriter, number: usize) {
        let last = self.last_words(number);
        let turned = self.turned.len().saturating_add(last.is_some().into());
        let tested = self.tested.len().saturating_add(ON_A_LINE - 1) / ON_A_LINE;
        for line in 0..tested.max(turned) {
            write_name(out, number, line);
            let end = out.len().saturating_add(TURNED);
            match (self.turned.get(line), last) {
                (Some(turning), _) => turning.write(out),
                (None, Some(words)) if line == self.turned.len() => out.write_str(words),
                (None, _) => {}
            }
            out.pad_to(end);
            out.write_str("  ");
            write_tested(out, line, &self.tested);
            out.end_line();
        }
    }
}

fn write_name(out: &mut TextWriter, number: usize, line: usize) {
    match u8::try_from(number) {
        Ok(number) if line == 0 => out.fill("  {}  ", &[Indicator(number).name().into()]),
        _ => out.write_str("      "),
    }
}

fn write_tested(out: &mut TextWriter, line: usize, tested: &[Testing]) {
    if line == 0 && tested.is_empty() {
        out.write_str("nothing");
    }
    let before = line.saturating_mul(ON_A_LINE);
    for testing in tested.iter().skip(before).take(ON_A_LINE) {
        let Testing { card, is_negated } = *testing;
        out.fill(if is_negated { "{}N " } else { "{} " }, &[card.into()]);
    }
}

/// What turns an indicator on or off: a card, with a sentence and a word or number in it.
#[derive(Clone, Copy)]
pub(crate) struct Turning {
    pub sentence: &'static str,
    pub piece: Piece<'static>,
    pub card: u16,
}

/// What a sentence without a place is filled with.
pub(crate) const NO_WORD: Piece<'static> = Piece::Word("");

impl Turning {
    pub fn of(sentence: &'static str, piece: Piece<'static>, card: u16) -> Self {
        Turning {
            sentence,
            piece,
            card,
        }
    }

    pub fn write(self, out: &mut TextWriter) {
        out.fill(self.sentence, &[self.piece]);
        out.fill_one(", card {}", self.card);
    }
}

/// Returns how a calculation turns each of its resulting indicators on or off, with the operation; None if the card has no
/// operation.
pub(crate) fn results_of(wanted: Option<Operation>) -> ([&'static str; 3], Piece<'static>) {
    let sentences = match wanted {
        None => ["plus", "minus", "zero"],
        Some(Operation::SetOn) => ["{}", "{}", "{}"],
        Some(Operation::SetOff) => ["off by {}", "off by {}", "off by {}"],
        Some(Operation::Compare | Operation::LookUp) => ["{} high", "{} low", "{} equal"],
        Some(_) => ["{} plus", "{} minus", "{} zero"],
    };
    let word = match wanted {
        None => NO_WORD,
        Some(wanted) => Piece::Outside(trimmed(wanted.letters())),
    };
    (sentences, word)
}

/// Returns what turns on an indicator without a card.
pub(crate) fn machine_words(number: usize) -> Option<&'static str> {
    match number {
        100 => Some("always on"),
        101..=109 => Some("a higher level, or the end of the input"),
        110 => Some("the end of the input"),
        111 => Some("the start, until the first record"),
        129 => Some("a record with the same match fields in the other file"),
        _ => None,
    }
}
