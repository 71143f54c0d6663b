//! Combined files, and files that are updated in place: their records go to a new file.

use crate::end_of_file::may_leave_records;
use crate::joined_line::{check_joined, join};
use crate::record_text::RecordText;
use crate::updated_line::write_lines;
use rpg_fit_deck::{Editor, Seen, View, Word};
use rpg_fit_terms::address_after;
use rpg_fit_words::{
    Conjunction, DeckLines, DeckTypes, Done, FileTypes, FreeIndicators, Indicator, IndicatorUse,
    Line, List, NewCard, Outcome, RuleStop, UseKind, file_card, file_name, files_read,
    indicator_uses, is, name_files, name_types, put_cards, record_length, types_now,
};

/// LR, which ends the job.
const LAST_RECORD: &[u8] = b"LR";

/// Makes an input file of each combined file and each file that is updated in place, and writes its records to a new one.
pub fn updated_files(editor: &mut Editor) -> Done {
    let view = editor.view()?;
    let files = files_read(&view);
    update_files(editor, files.checked()?)
}

fn update_files(editor: &mut Editor, files: &[Seen]) -> Done {
    let mut free = FreeIndicators::new();
    for file in files {
        if matches!(file.card.column(15), b'C' | b'U') {
            write_back(editor, &mut free, file)?;
        }
    }
    Ok(())
}

/// An alternative of a line for the file.
#[derive(Clone, Copy)]
pub(crate) struct Put {
    /// The number of its line's first card.
    pub line: usize,
    pub condition: Conjunction,
}

/// The first cards of two lines that may be for one record.
#[derive(Clone, Copy)]
pub(crate) struct Both {
    pub earlier: usize,
    pub later: usize,
}

/// A file whose records are written back, and the deck before that.
#[derive(Drop)]
pub(crate) struct Updated {
    pub file: Seen,
    /// The new file.
    pub new: Word,
    pub deck: DeckLines,
    pub types: FileTypes,
    pub record: RecordText,
}

/// Returns a name that no file has.
fn fresh_file(view: &View) -> Word {
    let mut name = Word::of(b"NEW");
    for number in 1..99 {
        if file_card(view, name.text()).is_none() {
            return name;
        }
        name = Word::of(b"NEW").and(Word::of_number(number).text());
    }
    name
}

/// Rejects a file with keys or new records, and a deck that ends the job before the last record.
fn check_file(view: &View, file: &Seen) -> Done {
    if !file.card.is_blank(28, 32) || !file.card.is_blank(66, 66) {
        return Err(RuleStop::because(file.number, "keys, or records are added (66)"));
    }
    if may_leave_records(view, file)? {
        let why = "another file ends the job (E in 17), and the records after it would be missing";
        return Err(RuleStop::because(file.number, why));
    }
    let uses = indicator_uses(view);
    for one in uses.checked()? {
        let is_last = is(one.indicator.word().text(), LAST_RECORD);
        if is_last && !matches!(one.kind, UseKind::Asked) {
            let why = "LR is turned on here, and the records after it would be missing";
            return Err(RuleStop::because(one.number, why));
        }
    }
    Ok(())
}

/// Puts the name of its file on each type's card.
fn name_all_types(editor: &mut Editor, with: usize) -> Done {
    let unnamed = types_now(editor)?;
    name_types(editor, unnamed.as_slice(), with);
    Ok(())
}

/// Gives each type of a file its name, and an indicator if it has none.
fn complete_types(editor: &mut Editor, free: &mut FreeIndicators, file: &Seen) -> Done {
    name_all_types(editor, file.number)?;
    let deck = DeckTypes::of(editor)?;
    give_indicators(editor, free, &deck, file)
}

fn give_indicators(
    editor: &mut Editor,
    free: &mut FreeIndicators,
    deck: &DeckTypes,
    file: &Seen,
) -> Done {
    for kind in deck.types.iter() {
        let head = &kind.head;
        if kind.is_of(file_name(file)) && Indicator::at(&head.card, 19).is_blank() {
            let indicator = free.take(&deck.view, head.number)?;
            let card = head.card.with(19, 20, indicator.word().text());
            editor.change(head.at, card, file.number);
        }
    }
    Ok(())
}

/// Writes the records of a file to a new one. A file whose length can't be read stays, for the compiler to report.
fn write_back(editor: &mut Editor, free: &mut FreeIndicators, file: &Seen) -> Done {
    let Some(length) = record_length(&file.card) else {
        return Ok(());
    };
    check_file(&editor.view()?, file)?;
    complete_types(editor, free, file)?;
    let updated = Updated::of(editor, file, length)?;
    updated.put_back(editor, free)
}

impl Updated {
    /// Returns a file of a deck in its present form, with records of a length.
    fn of(editor: &Editor, file: &Seen, length: usize) -> Outcome<Updated> {
        let deck = DeckLines::of(editor)?;
        Ok(Updated {
            file: *file,
            new: fresh_file(&deck.view),
            types: FileTypes::of(&deck.view, Word::of(file_name(file)))?,
            record: RecordText::of(&deck.view, length, file.number)?,
            deck,
        })
    }

    pub fn name(&self) -> Word {
        self.types.file
    }

    /// Rejects the deck for a card, with a sentence about its file.
    pub fn refused(&self, card: usize, why: &'static str) -> RuleStop {
        RuleStop::about(card, why, self.name())
    }

    /// Whether a line is for the file.
    pub fn has(&self, line: &Line) -> bool {
        is(line.file.text(), self.types.file.text())
    }

    /// Writes the records of the file to the new one by its lines.
    fn put_back(&self, editor: &mut Editor, free: &mut FreeIndicators) -> Done {
        self.check_indicators()?;
        self.check_lines()?;
        let puts = self.puts();
        let puts = puts.checked()?;
        let both = self.both(puts);
        if let Some(both) = &both {
            check_joined(self, both)?;
        }
        self.put_files(editor)?;
        match both {
            Some(_) => join(editor, free, self),
            None => write_lines(editor, self, puts),
        }
    }

    /// Returns the lines for the file, in order.
    pub fn lines(&self) -> List<&Line> {
        let mut found = List::new(self.deck.view.alloc);
        for line in self.deck.lines.iter() {
            if self.has(line) {
                found.push(line);
            }
        }
        found
    }

    /// Returns the card of a detail line for the new file, derived from the card with a number.
    pub fn new_line(&self, number: usize) -> NewCard {
        let card = NewCard::of_form(b'O', number).with(7, 14, self.new.text());
        card.with(15, 15, b"D")
    }

    /// Rejects an indicator of its types that anything else turns on or off.
    fn check_indicators(&self) -> Done {
        let uses = indicator_uses(&self.deck.view);
        let uses = uses.checked()?;
        for indicator in self.types.indicators.as_slice() {
            if !indicator.is_number() {
                let why = "its indicator is %, and may be on in other cycles";
                return Err(RuleStop::about(self.file.number, why, indicator.word()));
            }
            self.check_uses(uses, *indicator)?;
        }
        Ok(())
    }

    fn check_uses(&self, uses: &[IndicatorUse], indicator: Indicator) -> Done {
        for one in uses {
            if one.indicator == indicator && self.types.is_changed(one) {
                let why = "% of a record of % is turned on or off here";
                return Err(RuleStop::with(one.number, why, &[indicator.word(), self.name()]));
            }
        }
        Ok(())
    }

    /// Whether a record of the file is read in each cycle, and each of its types has an indicator of its own.
    fn is_alone(&self) -> bool {
        let mut types: usize = 0;
        for kind in &self.types.all {
            types = types.saturating_add(usize::from(kind.is_of(self.types.file.text())));
        }
        let is_only = files_read(&self.deck.view).as_slice().len() == 1;
        is_only && self.types.indicators.as_slice().len() == types
    }

    /// Rejects lines that aren't for the record that was read.
    fn check_lines(&self) -> Done {
        let is_alone = self.is_alone();
        for line in self.deck.lines.iter() {
            if self.has(line) {
                self.check_line(line, is_alone)?;
            }
        }
        Ok(())
    }

    fn check_line(&self, line: &Line, is_alone: bool) -> Done {
        let number = line.head.number;
        if !line.time.is_detail() {
            let why = "a line of time % for a record of %";
            let time = Word::of(line.head.card.columns(15, 15));
            return Err(RuleStop::with(number, why, &[time, self.name()]));
        }
        if line.is_put_first() {
            return Err(self.refused(number, "a line for a record of % at the first output"));
        }
        for alternative in line.alternatives.iter() {
            if !is_alone && self.types.type_in(&alternative.condition).is_none() {
                let why = "a line for a record of % where none need have been read";
                return Err(self.refused(number, why));
            }
        }
        Ok(())
    }

    /// Whether a condition wants another one of its types than this one.
    fn wants_other(&self, condition: &Conjunction, own: Indicator) -> bool {
        condition.terms().iter().any(|term| {
            !term.is_off && term.indicator != own && self.types.has(term.indicator)
        })
    }

    /// Whether two conditions never hold together.
    pub fn excludes(&self, one: &Conjunction, other: &Conjunction) -> bool {
        let own = self.types.type_in(one).or(self.types.type_in(other));
        let wants_two = match own {
            Some(own) => self.wants_other(one, own) || self.wants_other(other, own),
            None => false,
        };
        wants_two || one.clashes_with(other)
    }

    /// Returns the first two alternatives of different lines that may hold together.
    fn both(&self, puts: &[Put]) -> Option<Both> {
        for (place, put) in puts.iter().enumerate() {
            let before = puts.get(..place).unwrap_or(&[]);
            if let Some(earlier) = self.line_with(before, put) {
                let later = put.line;
                return Some(Both { earlier, later });
            }
        }
        None
    }

    /// Returns the first other line with an alternative that may hold together with one.
    fn line_with(&self, before: &[Put], put: &Put) -> Option<usize> {
        for other in before {
            if other.line != put.line && !self.excludes(&put.condition, &other.condition) {
                return Some(other.line);
            }
        }
        None
    }

    /// Makes an input file of it, with the whole record in each type, and inserts the new file.
    fn put_files(&self, editor: &mut Editor) -> Done {
        let number = self.file.number;
        for kind in self.types.all.iter() {
            if kind.is_of(self.types.file.text()) {
                self.record.read(editor, &self.deck.view, kind, number)?;
            }
        }
        let new = NewCard::of_form(b'F', number).with(7, 14, self.new.text());
        let new = new
            .with(15, 19, b"O   F")
            .with_number(24, 27, self.record.length);
        let following = address_after(&self.deck.view, self.file.at);
        put_cards(editor, following, &[new.with(40, 46, b"DISK")], number)?;
        editor.change(self.file.at, self.file.card.with(15, 15, b"I"), number);
        name_files(editor, self.deck.lines.as_slice(), number);
        Ok(())
    }

    /// Returns the alternatives of its lines.
    fn puts(&self) -> List<Put> {
        let mut found = List::new(self.deck.view.alloc);
        for line in self.deck.lines.iter() {
            if self.has(line) {
                push_puts(&mut found, line);
            }
        }
        found
    }
}

fn push_puts(found: &mut List<Put>, line: &Line) {
    for alternative in line.alternatives.iter() {
        found.push(Put {
            line: line.head.number,
            condition: alternative.condition,
        });
    }
}
