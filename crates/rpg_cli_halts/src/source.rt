//! The cards of a job that halted: of its instruction, of its input field, or of the line fields that may have been the
//! cause.

use crate::halts::{BadInput, HaltedCycle};
use rpg_cli_diagnostics::{Columns, Draft, FileName};
use rpg_cli_messages::CardLines;
use rpg_cli_show_fields::{SourceRows, write_card_operand};
use rpg_cli_text::TextWriter;
use rpg_program::Program;
use rpg_program::columns::row_of;
use rpg_program::halt::Halt;
use rpg_program::operation::{Action, Index, Instruction, Operand};
use rpg_program::rows::{Line, Rows};
use rpg_refusal_causes::placed_at;
use rpg_text::trimmed;

/// The source of the program that halted: its name, its text, and the cards of its rows.
#[derive(Clone, Copy)]
pub struct HaltedSource<'a> {
    pub file: FileName<'a>,
    pub text: &'a [u8],
    pub rows: &'a SourceRows,
}

impl<'a> HaltedSource<'a> {
    fn line_of(self, card: u16) -> &'a [u8] {
        CardLines::of(self.text).line_of(card)
    }

    /// Adds a remark on a card, which is shown.
    pub(crate) fn add(
        self,
        draft: &mut Draft<'a>,
        card: u16,
        columns: Option<Columns>,
        remark: TextWriter,
    ) {
        let place = self.file.card(card, columns, self.line_of(card));
        draft.add(Some(place), remark);
    }
}

/// The columns of an input card that have those of its field.
const FIELD_COLUMNS: Columns = Columns {
    first: 44,
    last: 51,
};

impl<'a> HaltedSource<'a> {
    /// Writes a calculation by the contents of its card: factor 1, operation, factor 2 and the result field.
    fn write_action(self, out: &mut TextWriter, rows: &Rows, action: Action<Operand<u16>>) {
        let row = row_of(rows, action);
        if let Some(used) = row.factor1 {
            write_card_operand(out, rows, self.rows, used.operand);
            out.write_char(' ');
        }
        out.write_str(action.name());
        for (before, used) in [(" ", row.factor2), (" into ", row.result)] {
            if let Some(used) = used {
                out.write_str(before);
                write_card_operand(out, rows, self.rows, used.operand);
            }
        }
    }

    /// Writes what an instruction was compiled from; the label or subroutine that it goes to is in factor 2 (33-42) of its card.
    fn write_made_of(self, out: &mut TextWriter, rows: &Rows, card: u16, made: Instruction<u16>) {
        let sentence = match made {
            Instruction::Act(action) => {
                self.write_action(out, rows, action);
                return;
            }
            Instruction::Branch { .. } => "GOTO {}",
            Instruction::Call { .. } => "EXSR {}",
            Instruction::Return { .. } => "ENDSR",
            Instruction::Except => "EXCPT",
        };
        let line = self.line_of(card);
        let target = trimmed(line.get(32..line.len().min(42)).unwrap_or(&[]));
        out.fill(sentence, &[target.into()]);
    }

    fn add_instruction(self, draft: &mut Draft<'a>, program: &Program, place: usize) {
        let card = self.rows.place_card(place);
        if let (Some(placed), Some(card)) = (placed_at(program, place), card) {
            let mut remark = draft.text();
            self.write_made_of(&mut remark, program.rows(), card, placed.instruction);
            self.add(draft, card, None, remark);
        }
    }

    /// Adds the card of the input field whose columns aren't a number.
    fn add_input(self, draft: &mut Draft<'a>, bad: BadInput) {
        let name = self.rows.field_name(bad.input.field);
        let card = self.rows.input_card(bad.row, bad.number);
        if let (Some(name), Some(card)) = (name, card) {
            let mut remark = draft.text();
            remark.fill_one("{} has these columns", name);
            self.add(draft, card, Some(FIELD_COLUMNS), remark);
        }
    }

    /// Adds the cards of a line's fields that have an index field.
    fn add_line(self, draft: &mut Draft<'a>, rows: &Rows, number: usize, line: &Line) {
        for (at, field) in line.fields.iter().enumerate() {
            let card = self.rows.line_field_card(number, at);
            if let (Index::Field(_), Some(card)) = (field.operand.index, card) {
                let mut remark = draft.text();
                write_card_operand(&mut remark, rows, self.rows, field.operand);
                self.add(draft, card, None, remark);
            }
        }
    }

    /// Adds the card that a halt is about, or the cards that it may be about, and what they hold, by name.
    pub(crate) fn add_cards(
        self,
        draft: &mut Draft<'a>,
        program: &Program,
        halted: HaltedCycle,
        bad: Option<BadInput>,
    ) {
        let rows = program.rows();
        match (halted.place, halted.halt, bad) {
            (Some(place), _, _) => self.add_instruction(draft, program, usize::from(place.number)),
            (None, Halt::BadIndex, _) => {
                for (number, line) in rows.lines.iter().enumerate() {
                    self.add_line(draft, rows, number, line);
                }
            }
            (None, _, Some(bad)) => self.add_input(draft, bad),
            (None, _, None) => {}
        }
    }
}
