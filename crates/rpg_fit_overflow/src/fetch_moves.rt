//! Moves lines to EXCPT, and overflow output to where they fetch it.

use crate::overflow::{Part, fetches, push_overflow};
use rpg_fit_deck::{Address, Editor, Sentence, View, Word};
use rpg_fit_words::{
    Cards, Conditions, Conjunction, Done, FreeIndicators, Indicator, Line, List, NewCard, Outcome,
    Printer, Term, calculation, insert_at, is_card, name_files, push_conditioned, put_cards,
};

/// Lines that EXCPT is to print.
#[derive(Clone, Copy)]
pub(crate) struct Moves<'a> {
    pub view: &'a View,
    pub lines: &'a [Line],
    pub printer: Printer,
    /// The card that the change is reported for.
    pub card: usize,
}

/// What was created so far.
#[derive(Drop)]
struct Made {
    free: FreeIndicators,
    /// The indicator under which overflow lines are printed.
    at_overflow: Indicator,
    /// The lines that EXCPT prints.
    tail: Cards,
    /// How many of them aren't overflow lines.
    moved: usize,
    /// How many of them are copies of overflow lines.
    copied: usize,
}

/// The calculations for the lines of a time.
#[derive(Drop)]
struct Steps {
    part: Part,
    cards: Cards,
    /// The card that they are derived from.
    card: usize,
    /// The indicator under which the lines since the last fetch are printed.
    flag: Option<Indicator>,
}

impl Moves<'_> {
    /// Creates the lines and the calculations.
    pub fn make(&self, editor: &mut Editor) -> Done {
        name_files(editor, self.lines, self.card);
        let mut made = self.begin()?;
        self.copy_overflow(&mut made, Part::Total)?;
        self.copy_overflow(&mut made, Part::Detail)?;
        self.move_part(editor, &mut made, Part::Total)?;
        self.move_part(editor, &mut made, Part::Detail)?;
        self.put_tail(editor, &made)
    }

    fn begin(&self) -> Outcome<Made> {
        let mut free = FreeIndicators::new();
        let at_overflow = free.take(self.view, self.card)?;
        Ok(Made {
            free,
            at_overflow,
            tail: List::new(self.view.alloc),
            moved: 0,
            copied: 0,
        })
    }

    /// Appends copies of the overflow lines of a time.
    fn copy_overflow(&self, made: &mut Made, part: Part) -> Done {
        for line in self.lines {
            if part.has(line.time) && self.printer.has_overflow(line) {
                self.copy_line(made, line)?;
            }
        }
        Ok(())
    }

    /// Appends a copy of an overflow line.
    fn copy_line(&self, made: &mut Made, line: &Line) -> Done {
        let mut conditions = List::new(self.view.alloc);
        push_overflow(&mut conditions, &self.printer, line);
        made.copied = made.copied.saturating_add(1);
        self.append(made, made.at_overflow, line, conditions.checked()?)
    }

    /// Moves the lines of a time, if some of them fetch overflow output.
    fn move_part(&self, editor: &mut Editor, made: &mut Made, part: Part) -> Done {
        let mut lines = self.lines.iter();
        if !lines.any(|line| part.has(line.time) && fetches(line)) {
            return Ok(());
        }
        let mut steps = Steps {
            part,
            cards: List::new(self.view.alloc),
            card: self.card,
            flag: None,
        };
        if matches!(part, Part::Detail) {
            // at the end of detail it is on only if overflow output was done
            steps.push(b"||SETOF||||%", &[self.printer.overflow.word()]);
        }
        self.move_lines(editor, made, &mut steps)?;
        steps.print_lines();
        insert_at(editor, part.end(), steps.cards.checked()?, self.card)
    }

    fn move_lines(&self, editor: &mut Editor, made: &mut Made, steps: &mut Steps) -> Done {
        for line in self.lines {
            if steps.part.has(line.time) {
                self.move_line(made, steps, line)?;
                self.keep(editor, line, steps.part)?;
            }
        }
        Ok(())
    }

    /// Returns the conditions under which a line may be printed after the first output, at which alone 1P is on, and not at
    /// overflow.
    fn later(&self, line: &Line) -> Conditions {
        let mut found = List::new(self.view.alloc);
        for alternative in line.alternatives.iter() {
            let condition = &alternative.condition;
            let is_first = condition.has(Term::on(Indicator::FIRST_PAGE));
            if !is_first && !self.printer.is_overflow(line, condition) {
                found.push(*condition);
            }
        }
        found
    }

    /// Moves a line, except at the first output and at overflow.
    fn move_line(&self, made: &mut Made, steps: &mut Steps, line: &Line) -> Done {
        let later = self.later(line);
        let later = later.checked()?;
        if later.is_empty() {
            return Ok(());
        }
        if fetches(line) {
            steps.print_lines();
            self.push_fetch(steps, made.at_overflow, later)?;
        }
        let flag = self.flag(made, steps, line)?;
        made.moved = made.moved.saturating_add(1);
        self.append(made, flag, line, later)
    }

    /// Returns the indicator under which a line is printed.
    fn flag(&self, made: &mut Made, steps: &mut Steps, line: &Line) -> Outcome<Indicator> {
        if let Some(flag) = steps.flag {
            return Ok(flag);
        }
        let flag = made.free.take(self.view, line.head.number)?;
        steps.flag = Some(flag);
        Ok(flag)
    }

    /// Before a line that fetches, if it is printed and overflow is on: prints the overflow lines, and turns overflow off.
    fn push_fetch(&self, steps: &mut Steps, flag: Indicator, conditions: &[Conjunction]) -> Done {
        let flag = flag.word();
        let on = steps.calculation(b"||SETON||||%", &[flag]);
        let tested = self.with_overflow(conditions);
        steps.push(b"||SETOF||||%", &[flag]);
        push_conditioned(&mut steps.cards, tested.checked()?, on)?;
        steps.push(b" %||EXCPT", &[flag]);
        steps.push(
            b" %||SETOF||||%|%",
            &[flag, self.printer.overflow.word(), flag],
        );
        Ok(())
    }

    /// Returns conditions that also test overflow.
    fn with_overflow(&self, conditions: &[Conjunction]) -> Conditions {
        let mut found = List::new(self.view.alloc);
        for condition in conditions {
            found.push(condition.and(Term::on(self.printer.overflow)));
        }
        found
    }

    /// Returns the alternatives that a line keeps: those that hold at the first output, limited to it, and those for overflow.
    fn kept(&self, line: &Line, part: Part) -> Conditions {
        let mut kept = List::new(self.view.alloc);
        if matches!(part, Part::Detail) {
            self.push_first(&mut kept, line);
        }
        push_overflow(&mut kept, &self.printer, line);
        kept
    }

    /// Appends the conditions of a line that hold at the first output, each with 1P, so that they hold only then.
    fn push_first(&self, kept: &mut Conditions, line: &Line) {
        let first = Conjunction::on(Indicator::FIRST_PAGE);
        for alternative in line.alternatives.iter() {
            let condition = &alternative.condition;
            if condition.holds_first() && !self.printer.is_overflow(line, condition) {
                kept.push(condition.and_missing(&first));
            }
        }
    }

    /// Keeps some alternatives of a line; without any the line goes.
    fn keep(&self, editor: &mut Editor, line: &Line, part: Part) -> Done {
        let kept = self.kept(line, part);
        self.put_copy(editor, line, kept.checked()?)?;
        line.remove(editor, self.card);
        Ok(())
    }

    /// Inserts a copy of a line with some alternatives, which fetches nothing; none without any.
    fn put_copy(&self, editor: &mut Editor, line: &Line, alternatives: &[Conjunction]) -> Done {
        if alternatives.is_empty() {
            return Ok(());
        }
        let mut cards = List::new(self.view.alloc);
        line.push_copy(&mut cards, line.new_head().with(16, 16, &[]), alternatives)?;
        put_cards(editor, line.head.at, cards.checked()?, self.card)
    }

    /// Appends a copy of a line that EXCPT prints if a flag is on and one of the conditions holds.
    fn append(&self, made: &mut Made, flag: Indicator, line: &Line, when: &[Conjunction]) -> Done {
        let mut flagged = List::new(self.view.alloc);
        for condition in when {
            flagged.push(Conjunction::on(flag).and_all(condition));
        }
        let head = line.new_head().with(15, 16, b"E");
        line.push_copy(&mut made.tail, head, flagged.checked()?)
    }

    /// Inserts the lines that EXCPT prints after all others.
    fn put_tail(&self, editor: &mut Editor, made: &Made) -> Done {
        let following = following_output(&editor.view()?);
        put_cards(editor, following, made.tail.checked()?, self.card)?;
        let remark =
            "fetch: lines printed by EXCPT: %; lines of overflow before those that fetch: %";
        let (moved, copied) = (Word::of_number(made.moved), Word::of_number(made.copied));
        editor.report(self.card, Sentence::with(remark, &[moved, copied]));
        Ok(())
    }
}

/// Returns the address after the last output card, or the end of the cards if there is none.
fn following_output(view: &View) -> Address {
    let mut following = view.cards_end;
    let mut is_output = false;
    for seen in view.cards.iter() {
        if is_output {
            following = seen.at;
        }
        is_output = is_card(seen, b'O');
    }
    if is_output { view.cards_end } else { following }
}

impl Steps {
    /// Returns a calculation, done at the lines' time.
    fn calculation(&self, template: &[u8], words: &[Word]) -> NewCard {
        let card = calculation(template, words, self.card);
        card.with(7, 8, self.part.level().word().text())
    }

    fn push(&mut self, template: &[u8], words: &[Word]) {
        let card = self.calculation(template, words);
        self.cards.push(card);
    }

    /// Prints the lines since the last fetch.
    fn print_lines(&mut self) {
        if let Some(flag) = self.flag {
            self.push(b"||SETON||||%", &[flag.word()]);
            self.push(b"||EXCPT", &[]);
            self.push(b"||SETOF||||%", &[flag.word()]);
        }
        self.flag = None;
    }
}
