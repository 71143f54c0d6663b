//! Figurative constants.

use rpg_fit_deck::{Card, Editor, Seen, Sentence, View, Word};
use rpg_fit_words::{
    Columns, Done, Operand, Outcome, Place, RuleStop, calculation, form_of, fresh_name, insert_at,
    is, is_card,
};

/// The longest text that a literal fills.
const LITERAL: usize = 8;

/// The most digits of a number.
const DIGITS: usize = 15;

/// The calculation that defines a field of blanks, as long as the longest text. It is never done.
const BLANKS: &[u8] = b"NL0||MOVE|' '|%|256";

/// The calculation that defines a field of zeros, with the most digits of a number. It is never done.
const ZEROS: &[u8] = b"NL0||Z-ADD|0|%| 150";

/// A figurative constant.
#[derive(Clone, Copy)]
enum Figure {
    Blanks,
    Zeros,
}

impl Figure {
    /// Returns the figurative constant in an operand.
    fn of(operand: &[u8]) -> Option<Figure> {
        if is(operand, b"*BLANK") || is(operand, b"*BLANKS") {
            Some(Figure::Blanks)
        } else if is(operand, b"*ZERO") || is(operand, b"*ZEROS") {
            Some(Figure::Zeros)
        } else {
            None
        }
    }

    /// Returns a literal of `length` of its characters.
    fn literal(self, length: usize) -> Word {
        let characters: &[u8] = match self {
            Figure::Blanks => b"        ",
            Figure::Zeros => b"00000000",
        };
        Word::of(b"'")
            .and(characters.get(..length).unwrap_or(&[]))
            .and(b"'")
    }

    /// Inserts a field of its characters that nothing writes, and returns its name.
    fn new_field(self, editor: &mut Editor, number: usize) -> Outcome<Word> {
        let (stem, template): (&[u8], &[u8]) = match self {
            Figure::Blanks => (b"BL$", BLANKS),
            Figure::Zeros => (b"ZE$", ZEROS),
        };
        let name = fresh_name(&editor.view()?, stem, number)?;
        let never = calculation(template, &[name], number);
        insert_at(editor, Place::DetailFront, &[never], number)?;
        Ok(name)
    }
}

/// The other operand of a figurative constant.
#[derive(Clone, Copy)]
enum Beside {
    Number,
    /// A text of this many characters.
    Text(usize),
}

/// Whether an operand is a character literal.
pub(crate) fn is_literal(operand: &[u8]) -> bool {
    operand.first() == Some(&b'\'')
}

impl Beside {
    /// Returns what an operand is, or None if nothing defines it. A blank counts as a number.
    fn of(view: &View, operand: &[u8]) -> Option<Beside> {
        if matches!(operand, [] | [b'0'..=b'9' | b'+' | b'-' | b'.', ..]) {
            return Some(Beside::Number);
        }
        if is_literal(operand) {
            return Some(Beside::Text(operand.len().saturating_sub(2)));
        }
        let form = form_of(view, Operand::of(operand).name)?;
        Some(if form.is_number() {
            Beside::Number
        } else {
            Beside::Text(form.length)
        })
    }
}

/// What replaces a figurative constant.
#[derive(Clone, Copy)]
enum Instead {
    /// The number 0. A move becomes Z-ADD.
    Number,
    /// A literal of this many characters.
    Literal(usize),
    /// A field that nothing writes.
    Field,
}

pub(crate) fn is_move(operation: &[u8]) -> bool {
    is(operation, b"MOVE") || is(operation, b"MOVEL")
}

/// A deck, and its fields that nothing writes, for constants that are longer than a literal.
#[derive(Clone, Copy)]
struct Fields<'a> {
    view: &'a View,
    blanks: Option<Word>,
    zeros: Option<Word>,
}

/// Rewrites figurative constants as numbers, as literals, or as fields that nothing writes.
pub fn figures(editor: &mut Editor) -> Done {
    let view = editor.view()?;
    let mut fields = Fields {
        view: &view,
        blanks: None,
        zeros: None,
    };
    fields.rewrite_all(editor)
}

impl Fields<'_> {
    fn rewrite_all(&mut self, editor: &mut Editor) -> Done {
        let view = self.view;
        for seen in view.cards.iter() {
            if is_card(seen, b'C') {
                let mut now = *seen;
                now.card = self.rewritten(editor, now, Columns::Factor1)?;
                self.rewritten(editor, now, Columns::Factor2)?;
            }
        }
        Ok(())
    }

    /// Rewrites the figurative constant in columns of a card, and returns the card. The first one of a card may change the operation for
    /// the second.
    fn rewritten(&mut self, editor: &mut Editor, seen: Seen, columns: Columns) -> Outcome<Card> {
        let constant = Word::of(columns.value(&seen.card));
        let Some(figure) = Figure::of(constant.text()) else {
            return Ok(seen.card);
        };
        let mut card = seen.card;
        let text = match meaning(self.view, &seen, columns, figure)? {
            Instead::Number => {
                if is_move(card.value(28, 32)) {
                    card = card.with(28, 32, b"Z-ADD");
                }
                Word::of(b"0")
            }
            Instead::Literal(length) => figure.literal(length),
            Instead::Field => self.field(editor, figure, seen.number)?,
        };
        card = columns.put(card, text.text());
        editor.rewrite(&seen, card, Sentence::with("% is %", &[constant, text]));
        Ok(card)
    }

    /// Returns the field that replaces a figurative constant, created for the first card that needs it.
    fn field(&mut self, editor: &mut Editor, figure: Figure, number: usize) -> Outcome<Word> {
        let known = match figure {
            Figure::Blanks => self.blanks,
            Figure::Zeros => self.zeros,
        };
        if let Some(name) = known {
            return Ok(name);
        }
        let name = figure.new_field(editor, number)?;
        match figure {
            Figure::Blanks => self.blanks = Some(name),
            Figure::Zeros => self.zeros = Some(name),
        }
        Ok(name)
    }
}

/// Returns what replaces a figurative constant in columns.
fn meaning(view: &View, seen: &Seen, columns: Columns, figure: Figure) -> Outcome<Instead> {
    let constant = Word::of(columns.value(&seen.card));
    let operation = seen.card.value(28, 32);
    let Some(beside) = Beside::of(view, other_operand(&seen.card, columns)) else {
        let why = "% stands with a name that nothing defines";
        return Err(RuleStop::about(seen.number, why, constant));
    };
    let is_compared = is(operation, b"COMP") || is(operation, b"LOKUP");
    if matches!(beside, Beside::Text(_)) && !is_move(operation) && !is_compared {
        return Err(RuleStop::with(seen.number, "% beside %", &[constant, Word::of(operation)]));
    }
    match instead_of(figure, beside, is_move(operation)) {
        Ok(instead) => Ok(instead),
        Err(why) => Err(RuleStop::because(seen.number, why)),
    }
}

/// Returns the operand that decides what replaces a figurative constant.
fn other_operand(card: &Card, columns: Columns) -> &[u8] {
    let field = Columns::Result.value(card);
    match columns {
        Columns::Factor1 => Columns::Factor2.value(card),
        _ if field.is_empty() => Columns::Factor1.value(card),
        _ => field,
    }
}

/// Returns what replaces a figurative constant that is moved or compared, or why nothing has the same meaning.
fn instead_of(figure: Figure, beside: Beside, is_move: bool) -> Result<Instead, &'static str> {
    match (beside, figure) {
        (Beside::Number, Figure::Zeros) => Ok(Instead::Number),
        (Beside::Number, Figure::Blanks) => Err("*BLANK beside a number"),
        (Beside::Text(length), _) if is_move && length <= LITERAL => Ok(Instead::Literal(length)),
        (Beside::Text(length), Figure::Zeros) if is_move && length > DIGITS => {
            Err("*ZERO to a text of more than 15 characters")
        }
        (Beside::Text(_), _) if is_move => Ok(Instead::Field),
        (Beside::Text(_), Figure::Blanks) => Ok(Instead::Literal(1)),
        (Beside::Text(length), Figure::Zeros) if length <= LITERAL => Ok(Instead::Literal(length)),
        (Beside::Text(_), Figure::Zeros) => Err("*ZERO beside a text of more than 8 characters"),
    }
}
