//! OR cards with spaces or skips of their own: replaced by a line for each.

use rpg_fit_deck::{Editor, Seen, Sentence, Word};
use rpg_fit_words::{
    Alternative, Apart, Cards, Conditions, Conjunction, DeckLines, Done, Line, List, Outcome,
    Printer, Term, Time, is, is_or, name_files, put_cards,
};

/// Replaces each line whose alternatives have different spaces or skips by several lines. No two of these are printed together.
pub fn or_spaces(editor: &mut Editor) -> Done {
    let deck = DeckLines::of(editor)?;
    split_lines(editor, &deck)
}

fn split_lines(editor: &mut Editor, deck: &DeckLines) -> Done {
    let mut apart = Apart {
        alloc: editor.alloc(),
        overflow: Printer::of(&deck.view).overflow,
        card: 0,
    };
    let mut are_named = false;
    for line in deck.lines.iter() {
        if let Some(card) = own_spaces(line) {
            apart.card = card;
            let split = Split { line, apart };
            if split.has_one_run() {
                blank_spaces(editor, line.more.as_slice());
                continue;
            }
            if !are_named {
                // the line that has the file's name may go
                name_files(editor, deck.lines.as_slice(), card);
                are_named = true;
            }
            split.make_lines(editor)?;
        }
    }
    Ok(())
}

/// Whether a card is an OR card with spaces or skips of its own.
fn has_spaces(seen: &Seen) -> bool {
    is_or(seen) && !seen.card.is_blank(17, 22)
}

/// Returns the number of a line's first OR card with spaces or skips of its own.
fn own_spaces(line: &Line) -> Option<usize> {
    let seen = line.more.iter().find(|seen| has_spaces(seen))?;
    Some(seen.number)
}

/// Blanks the spaces and skips of OR cards, which are the same as their line's.
fn blank_spaces(editor: &mut Editor, cards: &[Seen]) {
    for seen in cards {
        if has_spaces(seen) {
            let remark = Sentence::of("17 to 22 blanked: they are the line's");
            editor.rewrite(seen, seen.card.with(17, 22, &[]), remark);
        }
    }
}

/// Returns the sentence about `lines` lines that replace one.
fn remark(lines: usize) -> Sentence {
    let alone = "one line is left: its other alternatives never hold without an earlier one";
    Sentence::counted(alone, "% lines in place of one", lines)
}

/// A line whose alternatives have spaces or skips of their own.
#[derive(Clone, Copy)]
struct Split<'a> {
    line: &'a Line,
    /// The deck's overflow indicator, and the card that the change is reported for.
    apart: Apart,
}

impl Split<'_> {
    /// Replaces the line by a line for each run of alternatives with the same spaces and skips.
    fn make_lines(&self, editor: &mut Editor) -> Done {
        let mut cards = List::new(editor.alloc());
        let lines = self.push_lines(&mut cards)?;
        put_cards(editor, self.line.head.at, cards.checked()?, self.apart.card)?;
        self.line.remove(editor, self.apart.card);
        editor.report(self.apart.card, remark(lines));
        Ok(())
    }

    /// Returns the spaces and skips of an alternative: those of its line if it has none of its own.
    fn spaces_of(&self, alternative: &Alternative) -> Word {
        let own = &alternative.card.card;
        let is_blank = own.is_blank(17, 22);
        let card = if is_blank { &self.line.head.card } else { own };
        Word::of(card.columns(17, 22))
    }

    fn are_alike(&self, one: &Alternative, next: &Alternative) -> bool {
        is(self.spaces_of(one).text(), self.spaces_of(next).text())
    }

    /// Whether all alternatives have the same spaces and skips.
    fn has_one_run(&self) -> bool {
        let spaces = self.line.head.card.columns(17, 22);
        let mut alternatives = self.line.alternatives.iter();
        alternatives.all(|alternative| is(self.spaces_of(alternative).text(), spaces))
    }

    /// Appends a line for each run, unless it is never printed, and returns how many lines there are.
    fn push_lines(&self, cards: &mut Cards) -> Outcome<usize> {
        let all = self.line.alternatives.as_slice();
        let mut lines: usize = 0;
        let mut first: usize = 0;
        for end in 1..all.len().saturating_add(1) {
            if self.ends_run(all, end) {
                let earlier = all.get(..first).unwrap_or(&[]);
                let run = all.get(first..end).unwrap_or(&[]);
                lines = lines.saturating_add(self.push_run(cards, run, earlier)?);
                first = end;
            }
        }
        Ok(lines)
    }

    /// Whether a run of alternatives ends before a place.
    fn ends_run(&self, all: &[Alternative], end: usize) -> bool {
        match (all.get(end.saturating_sub(1)), all.get(end)) {
            (Some(last), Some(next)) => !self.are_alike(last, next),
            _ => true,
        }
    }

    /// Appends the line of a run, unless it is never printed, and returns how many lines that is.
    fn push_run(
        &self,
        cards: &mut Cards,
        run: &[Alternative],
        earlier: &[Alternative],
    ) -> Outcome<usize> {
        let apart = self.all_apart(run, earlier)?;
        let when = apart.checked()?;
        match run.first() {
            Some(first) if !when.is_empty() => {
                let head = self
                    .line
                    .new_head()
                    .with(17, 22, self.spaces_of(first).text());
                self.line.push_copy(cards, head, when)?;
                Ok(1)
            }
            _ => Ok(0),
        }
    }

    fn is_overflow(&self, condition: &Conjunction) -> bool {
        self.line.time != Time::Exception
            && !self.apart.overflow.is_blank()
            && condition.has(Term::on(self.apart.overflow))
    }

    /// Returns conditions that hold if an alternative of a run does and no earlier one for the same output.
    fn all_apart(&self, run: &[Alternative], earlier: &[Alternative]) -> Outcome<Conditions> {
        let mut apart = List::new(self.apart.alloc);
        for alternative in run {
            apart.append(&self.apart_of(alternative.condition, earlier)?);
        }
        Ok(apart)
    }

    /// Returns conditions that hold if a condition does and no earlier alternative for the same output.
    fn apart_of(&self, own: Conjunction, earlier: &[Alternative]) -> Outcome<Conditions> {
        let mut left = List::new(self.apart.alloc);
        left.push(own);
        for other in earlier {
            if self.is_overflow(&other.condition) == self.is_overflow(&own) {
                left = self.apart.without(left.checked()?, &other.condition)?;
            }
        }
        Ok(left)
    }
}
