//! The lines of a printer whose deck isn't wanted.

use rpg_fit_deck::{Address, Editor, Seen, Sentence, Word};
use rpg_fit_terms::is_name_on;
use rpg_fit_words::{
    Cards, Conjunction, DeckLines, Done, Indicator, Line, List, NewCard, Outcome, RuleStop, Term,
    Time, UseKind, file_name, indicator_uses, is, is_card, name_files, operand_on, push_conditions,
    put_cards,
};

/// Whether a field counts pages.
pub(crate) fn is_page(field: &Seen) -> bool {
    matches!(operand_on(field).name, [b'P', b'A', b'G', b'E', ..])
}

/// A printer whose lines are taken out, and the deck before that.
#[derive(Drop)]
pub(crate) struct OtherPrinter {
    file: Seen,
    overflow: Indicator,
    deck: DeckLines,
}

/// Puts the name of its file on each line's card.
fn name_all_files(editor: &mut Editor, with: usize) -> Done {
    let unnamed = DeckLines::of(editor)?;
    name_files(editor, unnamed.lines.as_slice(), with);
    Ok(())
}

impl OtherPrinter {
    /// Returns a printer of a deck in its present form. Each line gets its file's name, so that lines may go.
    pub fn of(editor: &mut Editor, file: &Seen) -> Outcome<OtherPrinter> {
        name_all_files(editor, file.number)?;
        Ok(OtherPrinter {
            file: *file,
            overflow: Indicator::at(&file.card, 33),
            deck: DeckLines::of(editor)?,
        })
    }

    /// Takes the printer out with its lines, or makes a disk file of it, if its lines change what others put out.
    pub fn take_out(&self, editor: &mut Editor) -> Done {
        self.check_overflow()?;
        if self.has_effects()? {
            self.become_disk(editor)?;
        } else {
            self.remove(editor);
        }
        self.remove_forms(editor);
        Ok(())
    }

    fn name(&self) -> Word {
        Word::of(file_name(&self.file))
    }

    fn has(&self, line: &Line) -> bool {
        is(line.file.text(), file_name(&self.file))
    }

    /// Rejects its overflow indicator anywhere but in the alternatives of its own lines.
    fn check_overflow(&self) -> Done {
        let uses = indicator_uses(&self.deck.view);
        for one in uses.checked()? {
            let is_asked = one.indicator == self.overflow && matches!(one.kind, UseKind::Asked);
            if is_asked && !self.is_own(one.at) {
                let why = "% is the overflow of %, and is asked for here";
                return Err(RuleStop::with(one.number, why, &[self.overflow.word(), self.name()]));
            }
        }
        Ok(())
    }

    /// Whether a card is of a line of its own, which doesn't ask that there be no overflow.
    fn is_own(&self, at: Address) -> bool {
        for line in self.deck.lines.iter() {
            if self.has(line) && line.time != Time::Exception {
                if let Some(seen) = line.card_at(at) {
                    return !Conjunction::at(&seen.card, 23).has(Term::off(self.overflow));
                }
            }
        }
        false
    }

    fn is_overflow(&self, condition: &Conjunction) -> bool {
        !self.overflow.is_blank() && condition.has(Term::on(self.overflow))
    }

    /// Whether one of its lines changes what other lines put out.
    fn has_effects(&self) -> Outcome<bool> {
        let mut found = false;
        for line in self.deck.lines.iter() {
            if let Some(field) = self.effect_of(line) {
                self.check_time(line, field)?;
                found = true;
            }
        }
        Ok(found)
    }

    /// Returns the first field of a line of its own that changes what other lines put out.
    fn effect_of<'a>(&self, line: &'a Line) -> Option<&'a Seen> {
        line.fields
            .iter()
            .find(|field| self.has(line) && self.has_effect(field))
    }

    /// Whether a field counts pages or is blanked for others, or may have a bad index.
    fn has_effect(&self, field: &Seen) -> bool {
        let operand = operand_on(field);
        let is_changed = field.card.column(39) == b'B' || is_page(field);
        operand.has_index_field() || is_changed && self.is_used_elsewhere(operand.name)
    }

    /// Whether a calculation, or a line of another file, has a name.
    fn is_used_elsewhere(&self, name: &[u8]) -> bool {
        let (mut lines, mut cards) = (self.deck.lines.iter(), self.deck.view.cards.iter());
        !name.is_empty()
            && (lines.any(|line| !self.has(line)
                && line
                    .fields
                    .iter()
                    .any(|field| is_name_on(&field.card, name)))
                || cards.any(|seen| is_card(seen, b'C') && is_name_on(&seen.card, name)))
    }

    /// Rejects a field that changes others at overflow, which a disk file doesn't have.
    fn check_time(&self, line: &Line, field: &Seen) -> Done {
        for alternative in line.alternatives.iter() {
            if self.is_overflow(&alternative.condition) {
                let why = "PAGE, blank after or an index field on a line of % at its overflow";
                return Err(RuleStop::about(field.number, why, self.name()));
            }
        }
        Ok(())
    }

    /// Takes out the printer and its lines.
    fn remove(&self, editor: &mut Editor) {
        let mut lines: usize = 0;
        for line in self.deck.lines.iter() {
            if self.has(line) {
                line.remove(editor, self.file.number);
                lines = lines.saturating_add(1);
            }
        }
        let text = if lines == 1 {
            "% and its % line taken out: --printer % writes its deck"
        } else {
            "% and its % lines taken out: --printer % writes its deck"
        };
        let sentence = Sentence::with(text, &[self.name(), Word::of_number(lines), self.name()]);
        editor.report(self.file.number, sentence);
        editor.remove(self.file.at, self.file.number);
    }

    /// Takes out the forms of the printer.
    fn remove_forms(&self, editor: &mut Editor) {
        for seen in &self.deck.view.cards {
            if is_card(seen, b'L') && is(seen.card.value(7, 14), file_name(&self.file)) {
                editor.remove(seen.at, self.file.number);
            }
        }
    }

    /// Makes a disk file of the printer.
    fn become_disk(&self, editor: &mut Editor) -> Done {
        for line in self.deck.lines.iter() {
            if self.has(line) {
                self.write_line(editor, line)?;
            }
        }
        let text =
            "% is a disk file in this deck, as its lines change what others put out: --printer % writes its deck";
        let sentence = Sentence::with(text, &[self.name(), self.name()]);
        let card = self.file.card.with(20, 23, &[]).with(33, 34, &[]);
        let card = card.with(39, 39, &[]).with(40, 46, b"DISK");
        editor.rewrite(&self.file, card, sentence);
        Ok(())
    }

    /// Replaces a line by one without overflow, spaces and skips.
    fn write_line(&self, editor: &mut Editor, line: &Line) -> Done {
        let mut conditions = List::new(editor.alloc());
        for alternative in line.alternatives.iter() {
            if !self.is_overflow(&alternative.condition) {
                conditions.push(alternative.condition);
            }
        }
        let conditions = conditions.checked()?;
        if !conditions.is_empty() {
            self.put_line(editor, line, conditions)?;
        }
        line.remove(editor, self.file.number);
        Ok(())
    }

    /// Inserts a line under conditions, without spaces and skips.
    fn put_line(&self, editor: &mut Editor, line: &Line, conditions: &[Conjunction]) -> Done {
        let mut cards = List::new(editor.alloc());
        let head = line.new_head().with(16, 22, &[]);
        push_conditions(&mut cards, head, conditions)?;
        self.push_fields(&mut cards, line);
        put_cards(editor, line.head.at, cards.checked()?, self.file.number)
    }

    /// Appends the fields of a line without counters that no other line has, or a blank if there are none.
    fn push_fields(&self, cards: &mut Cards, line: &Line) {
        let mut is_empty = true;
        for field in line.fields.iter() {
            if !is_page(field) || self.is_used_elsewhere(operand_on(field).name) {
                cards.push(NewCard::copy(field));
                is_empty = false;
            }
        }
        if is_empty {
            let blank = NewCard::of_form(b'O', self.file.number);
            cards.push(blank.with_number(40, 43, 1).with(45, 47, b"' '"));
        }
    }
}
