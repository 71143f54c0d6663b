//! What the rows of a program are printed from, and what they share.

use rpg_cli_show_fields::{SourceRows, constant_of, name_text, write_card_operand, write_value};
use rpg_cli_text::{TextWriter, Topic};
use rpg_program::Program;
use rpg_program::operation::{Index, Operand};
use rpg_program::rows::Rows;
use rpg_verify::{BrokenRule, Rule, Verified, VerifyFault, verify};
use std::alloc::{AllocError, Global};

/// A program's rows, and what else is known about them.
#[derive(Clone, Copy)]
pub(crate) struct Shown<'a> {
    pub rows: &'a Rows,
    /// The cards of the program's source; empty if that isn't known.
    pub source: &'a SourceRows,
    pub is_named: bool,
    /// The path costs of the places; empty for a rejected program.
    pub costs: &'a [u64],
    pub broken: Option<BrokenRule>,
}

/// A table that a rule is about.
#[derive(Clone, Copy, PartialEq, Eq)]
pub(crate) enum Table {
    Header,
    Types,
    Lines,
    Places,
    Subroutines,
}

fn table_of(rule: Rule) -> Table {
    match rule {
        Rule::Overflow => Table::Header,
        Rule::Type(_) => Table::Types,
        Rule::Line(_) => Table::Lines,
        Rule::Place(_) => Table::Places,
        Rule::Subroutine(_) => Table::Subroutines,
    }
}

fn sentence_of_rule(rule: Rule) -> &'static str {
    Topic::Rule(usize::from(rule.number())).sentence()
}

const REFUSED: &str = "  refused  row {} by V{}: {}\n";

/// Writes the row of a broken rule, the rule, and what is wrong.
pub(crate) fn write_refusal(out: &mut TextWriter, broken: BrokenRule) {
    let (number, sentence) = (broken.rule.number(), sentence_of_rule(broken.rule));
    out.fill_three(REFUSED, broken.row, number, sentence);
}

#[derive(Drop)]
pub(crate) enum Judged {
    Accepted(Verified),
    Refused(Program, BrokenRule),
}

impl Judged {
    pub fn of(alloc: Global, program: Program) -> Result<Judged, AllocError> {
        match verify(alloc, program) {
            Ok(verified) => Ok(Judged::Accepted(verified)),
            Err((program, fault)) => match fault {
                VerifyFault::Refused { rule, row } => {
                    Ok(Judged::Refused(program, BrokenRule { rule, row }))
                }
                VerifyFault::NoMemory => Err(AllocError),
            },
        }
    }

    pub fn program(&self) -> &Program {
        match self {
            Judged::Accepted(verified) => verified.program(),
            Judged::Refused(program, _) => program,
        }
    }
}

/// Writes the offset of a row of this many bytes, and moves past it.
pub(crate) fn write_offset(out: &mut TextWriter, at: &mut usize, bytes: usize) {
    out.fill_one("{:>6}", *at);
    *at = (*at).saturating_add(bytes);
}

impl Shown<'_> {
    /// Writes the rule that is broken after the row that breaks it.
    pub fn write_broken(self, out: &mut TextWriter, table: Table, row: usize) {
        match self.broken {
            Some(broken) if broken.row == row && table_of(broken.rule) == table => {
                let (number, sentence) = (broken.rule.number(), sentence_of_rule(broken.rule));
                out.fill_two("        ^ V{}: {}\n", number, sentence);
            }
            _ => {}
        }
    }

    /// Writes a blank and the name of a field; nothing if it has none or the source isn't known.
    pub fn write_name(self, out: &mut TextWriter, field: u16) {
        if let Some(name) = self.source.field_name(field) {
            out.fill_one(" {}", name_text(name));
        }
    }

    /// Writes a field with its index, if it has one, and a constant with its value. If the source is known, what its cards have follows.
    pub fn write_operand(self, out: &mut TextWriter, operand: Operand<u16>) {
        let constant = constant_of(self.rows, operand.field);
        out.fill_one("#{}", operand.field);
        if let Some((value, decimals)) = constant {
            out.write_char('=');
            write_value(out, value, decimals);
        }
        match operand.index {
            Index::Blank => {}
            Index::Literal(entry) => out.fill_one(",{}", entry),
            Index::Field(field) => out.fill_one(",#{}", field),
        }
        if self.is_named && constant.is_none() {
            out.write_char(' ');
            write_card_operand(out, self.rows, self.source, operand);
        }
    }
}
