//! SQRT: replaced by a loop that takes Newton's steps on whole numbers.

use crate::now::{Now, Under};
use rpg_fit_deck::{Card, Editor, Sentence, View, Word};
use rpg_fit_words::{
    Cards, Columns, Done, FreshNames, Group, Indicator, NewCard, Operand, Outcome, RuleStop,
    array_of, calculation, form_of, groups_now, is,
};

/// The most digits of a number.
const MOST_DIGITS: usize = 15;

/// The most decimals of a root: four times a power of ten with twice as many zeros is a constant of at most 10 digits.
const MOST_DECIMALS: usize = 4;

/// Replaces each SQRT by a loop. Its result is rounded.
pub fn square_roots(editor: &mut Editor) -> Done {
    let found = groups_now(editor)?;
    let Some(first) = found.first() else {
        return Ok(());
    };
    let mut now = Now::of(editor, first)?;
    rewrite_roots(editor, &mut now, found.as_slice())
}

fn rewrite_roots<'a>(editor: &mut Editor, now: &mut Now<'a>, found: &'a [Group]) -> Done {
    let mut unused = Unused::new();
    for group in found {
        if is(group.operation(), b"SQRT") {
            now.turn(group);
            rewrite_root(editor, &mut unused, now, found)?;
        }
    }
    Ok(())
}

/// The names that no card has and no loop has got yet: for its square, root and next root, and the labels at its start and after it.
#[derive(Clone, Copy)]
struct Unused {
    stems: [FreshNames; 5],
}

impl Unused {
    fn new() -> Unused {
        Unused {
            stems: [
                FreshNames::of(b"SQ#", 6),
                FreshNames::of(b"SG#", 6),
                FreshNames::of(b"SH#", 6),
                FreshNames::of(b"STEP#", 6),
                FreshNames::of(b"ROOT#", 6),
            ],
        }
    }

    /// Returns the names of a loop.
    fn take(&mut self, view: &View, card: usize) -> Outcome<[Word; 5]> {
        let mut names = [Word::empty(); 5];
        for (place, stem) in self.stems.iter_mut().enumerate() {
            if let Some(name) = names.get_mut(place) {
                *name = stem.take(view, card)?;
            }
        }
        Ok(names)
    }
}

/// Whether a calculation follows another one under the same conditions, both on a card of their own.
fn follows(group: &Group, before: &Group) -> bool {
    group.leading.is_empty()
        && before.leading.is_empty()
        && is(
            group.last.card.columns(7, 17),
            before.last.card.columns(7, 17),
        )
}

/// Rejects an MVR that may take the remainder of a DIV of the loop.
fn check_remainders(number: usize, found: &[Group]) -> Done {
    let mut before: Option<&Group> = None;
    for group in found {
        let is_paired = match before {
            Some(division) => follows(group, division),
            None => false,
        };
        if is(group.operation(), b"MVR") && !is_paired {
            let why =
                "an MVR (card %) under other conditions than its DIV: the rest of another DIV, and SQRT becomes some";
            return Err(RuleStop::about(number, why, Word::of_number(group.last.number)));
        }
        before = Some(group);
    }
    Ok(())
}

/// Rejects whole arrays and resulting indicators.
fn check(now: &Now, found: &[Group]) -> Done {
    let (card, number) = (&now.seen.card, now.seen.number);
    if array_of(&now.view, Columns::Factor2.value(card)).is_some()
        || array_of(&now.view, Columns::Result.value(card)).is_some()
    {
        return Err(RuleStop::because(number, "SQRT of whole arrays"));
    }
    if !card.is_blank(54, 59) {
        return Err(RuleStop::because(number, "SQRT with resulting indicators"));
    }
    check_remainders(number, found)
}

/// How many digits a number has, and how many of them are decimals.
#[derive(Clone, Copy)]
struct Digits {
    length: usize,
    decimals: usize,
}

fn digits_of(constant: &[u8]) -> Digits {
    let mut digits = Digits {
        length: 0,
        decimals: 0,
    };
    let mut is_decimal = false;
    for character in constant {
        is_decimal = is_decimal || *character == b'.';
        if character.is_ascii_digit() {
            digits.length = digits.length.saturating_add(1);
            digits.decimals = digits.decimals.saturating_add(usize::from(is_decimal));
        }
    }
    digits
}

/// Returns the digits of an operand, or None if nothing defines it as a number.
fn operand_digits(view: &View, text: &[u8]) -> Option<Digits> {
    if matches!(text, [b'0'..=b'9' | b'.' | b'+' | b'-', ..]) {
        return Some(digits_of(text));
    }
    let form = form_of(view, Operand::of(text).name)?;
    form.is_number().then_some(Digits {
        length: form.length,
        decimals: form.places(),
    })
}

/// Returns how many decimals the root has: those on its card, or those of the result.
fn decimals_of(view: &View, card: &Card) -> Option<usize> {
    if card.is_blank(49, 51) {
        Some(operand_digits(view, Columns::Result.value(card))?.decimals)
    } else {
        card.number(52, 52)
    }
}

/// Replaces a SQRT. One whose operands nothing defines stays, for the compiler to report.
fn rewrite_root(editor: &mut Editor, unused: &mut Unused, now: &mut Now, found: &[Group]) -> Done {
    check(now, found)?;
    let card = &now.seen.card;
    let (Some(digits), Some(decimals)) = (
        operand_digits(&now.view, Columns::Factor2.value(card)),
        decimals_of(&now.view, card),
    ) else {
        return Ok(());
    };
    let whole = digits.length.saturating_sub(digits.decimals);
    let length = whole
        .saturating_add(decimals.saturating_mul(2))
        .saturating_add(1);
    if length > MOST_DIGITS || decimals > MOST_DECIMALS {
        let why = "the root of a number of % digits to % decimals";
        let (length, decimals) = (Word::of_number(digits.length), Word::of_number(decimals));
        return Err(RuleStop::with(now.seen.number, why, &[length, decimals]));
    }
    let under = now.under_flag()?;
    let root = Root::of(now, unused, &under, length.max(2))?;
    root.put(editor, now, now.cards_before(&under), decimals)
}

/// Returns a number with zeros after it.
fn power(first: usize, zeros: usize) -> Word {
    let mut number = first;
    for _ in 0..zeros {
        number = number.saturating_mul(10);
    }
    Word::of_number(number)
}

/// The parts of the loop.
#[derive(Clone, Copy)]
struct Root {
    /// Columns 7 to 8 of each calculation.
    level: Indicator,
    /// On if the loop is done at all.
    flag: Indicator,
    /// On while it continues.
    goes_on: Indicator,
    /// Four times the number, as a whole one.
    square: Word,
    /// Twice the root, from above.
    root: Word,
    /// The next root.
    next: Word,
    /// The label at its start.
    again: Word,
    /// The label after it.
    done: Word,
    length: usize,
    number: usize,
}

impl Root {
    fn of(now: &mut Now, unused: &mut Unused, under: &Under, length: usize) -> Outcome<Root> {
        let number = now.seen.number;
        let [square, root, next, again, done] = unused.take(&now.view, number)?;
        Ok(Root {
            level: under.level,
            flag: under.flag,
            square,
            root,
            next,
            again,
            done,
            goes_on: now.free.take(&now.view, number)?,
            length,
            number,
        })
    }

    /// Replaces the SQRT by some cards and the loop after them.
    fn put(&self, editor: &mut Editor, now: &Now, mut cards: Cards, decimals: usize) -> Done {
        let card = &now.seen.card;
        cards.push_all(&self.begin(card, power(4, decimals.saturating_mul(2))));
        cards.push_all(&self.check(card));
        cards.push_all(&self.step());
        cards.push_all(&self.end(card, power(2, decimals)));
        let most = self.length.saturating_mul(167) / 100;
        let text = "SQRT: a loop, rounded; at most % of the allowance";
        let remark = Sentence::about(text, Word::of_number(most.saturating_add(6)));
        now.replace(editor, cards, remark)
    }

    fn card(&self, template: &[u8], words: &[Word]) -> NewCard {
        let card = calculation(template, words, self.number);
        card.with(7, 8, self.level.word().text())
    }

    /// Returns a card that defines its result as a whole number.
    fn defining(&self, template: &[u8], words: &[Word]) -> NewCard {
        let card = self.card(template, words);
        card.with_number(49, 51, self.length).with(52, 52, b"0")
    }

    /// Returns the cards that set the first root: a negative number divides by 0.
    fn begin(&self, card: &Card, factor: Word) -> [NewCard; 5] {
        let (goes_on, square) = (self.goes_on.word(), self.square);
        let operand = Word::of(Columns::Factor2.value(card));
        [
            self.card(b"N%||GOTO|%", &[self.flag.word(), self.done]),
            self.defining(b"|%|MULT|%|%", &[operand, factor, square]),
            self.defining(b"||Z-ADD|%|%", &[square, self.root]),
            self.card(b"|%|COMP|0||||%", &[square, goes_on]),
            self.card(b" %|%|DIV|0|%", &[goes_on, square, square]),
        ]
    }

    /// Returns the cards for a number that is 0.
    fn check(&self, card: &Card) -> [NewCard; 4] {
        let (goes_on, square) = (self.goes_on.word(), self.square);
        let result = Word::of(Columns::Result.value(card));
        [
            self.card(b"|%|COMP|0|||||%", &[square, goes_on]),
            self.defining(b"N%||Z-ADD|%|%", &[goes_on, square, self.next]),
            self.card(b" %||Z-ADD|0|%", &[goes_on, result])
                .with_columns(49, 52, card),
            self.card(b" %||GOTO|%", &[goes_on, self.done]),
        ]
    }

    /// Returns the cards of a step: the next root is the mean of the last one and what it divides the number to.
    fn step(&self) -> [NewCard; 6] {
        let (goes_on, root, next) = (self.goes_on.word(), self.root, self.next);
        [
            self.card(b"|%|TAG", &[self.again]),
            self.card(b"|%|DIV|%|%", &[self.square, root, next]),
            self.card(b"|%|COMP|%||||%", &[next, root, goes_on]),
            self.card(b" %|%|ADD|%|%", &[goes_on, next, root, next]),
            self.card(b" %|%|DIV|2|%", &[goes_on, next, root]),
            self.card(b" %||GOTO|%", &[goes_on, self.again]),
        ]
    }

    /// Returns the cards that round the root.
    fn end(&self, card: &Card, divisor: Word) -> [NewCard; 3] {
        let result = Word::of(Columns::Result.value(card));
        [
            self.card(b"|%|ADD|1|%", &[self.root, self.root]),
            self.card(b"|%|DIV|%|%", &[self.root, divisor, result]),
            self.card(b"|%|TAG", &[self.done]),
        ]
    }
}
