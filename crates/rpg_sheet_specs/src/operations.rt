//! The columns that operations use on their cards.

ghost use Rattle.std.specs.Prelude.{◌≡◌};
ghost use Rattle.rpg_sheet_specs.specs.Operations as operations;

use crate::calculation::Operation;

/// What a column of a calculation card holds.
#[derive(Clone, Copy)]
pub enum Content {
    /// A plain field, a constant, an array entry or a current table entry.
    Value,
    WholeArray,
    /// A table, an array, or an entry of an array at which the search begins.
    Searched,
    Table,
    Label,
    Subroutine,
}

/// Whether a column is filled, and with what.
#[derive(Clone, Copy)]
pub enum Column {
    Blank,
    May(Content),
    Must(Content),
}

/// How many resulting indicators are filled.
#[derive(Clone, Copy)]
pub enum Shown {
    Unused,
    Any,
    Some,
    /// One or two, but not both high and low.
    Search,
}

/// What the operands of an operation hold.
#[derive(Clone, Copy)]
pub enum Kinds {
    Numbers,
    /// Factors 1 and 2 are both numbers, or both texts.
    Alike,
    Any,
}

/// The columns that an operation uses on its card.
#[derive(Clone, Copy)]
pub struct OperationColumns {
    pub factor_1: Column,
    pub factor_2: Column,
    pub result_field: Column,
    pub may_half_adjust: bool,
    pub indicators: Shown,
    pub kinds: Kinds,
    /// Whether its group may have conditions.
    pub may_depend: bool,
}

const fn row(
    factor_1: Column,
    factor_2: Column,
    result_field: Column,
    may_half_adjust: bool,
    indicators: Shown,
    kinds: Kinds,
    may_depend: bool,
) -> OperationColumns
    ensures { result ≡ operations.column_row factor_1 factor_2 result_field may_half_adjust indicators kinds may_depend }
{
    OperationColumns {
        factor_1,
        factor_2,
        result_field,
        may_half_adjust,
        indicators,
        kinds,
        may_depend,
    }
}

pub const fn columns(operation: Operation) -> OperationColumns
    ensures { result ≡ operations.card_columns operation }
{
    let blank = Column::Blank;
    let value = Column::Must(Content::Value);
    let label = Column::Must(Content::Label);
    let subroutine = Column::Must(Content::Subroutine);
    let unused = Shown::Unused;
    match operation {
        Operation::Add | Operation::Subtract | Operation::Multiply | Operation::Divide => {
            let first = Column::May(Content::Value);
            row(first, value, value, true, Shown::Any, Kinds::Numbers, true)
        }
        Operation::ZeroAdd | Operation::ZeroSubtract => {
            row(blank, value, value, true, Shown::Any, Kinds::Numbers, true)
        }
        Operation::MoveRemainder => {
            row(blank, blank, value, false, Shown::Any, Kinds::Numbers, true)
        }
        Operation::CrossFoot => {
            let array = Column::Must(Content::WholeArray);
            row(blank, array, value, true, Shown::Any, Kinds::Numbers, true)
        }
        Operation::Move | Operation::MoveLeft => {
            row(blank, value, value, false, unused, Kinds::Any, true)
        }
        Operation::Compare => row(value, value, blank, false, Shown::Some, Kinds::Alike, true),
        Operation::LookUp => {
            let searched = Column::Must(Content::Searched);
            let table = Column::May(Content::Table);
            let shown = Shown::Search;
            row(value, searched, table, false, shown, Kinds::Alike, true)
        }
        Operation::SetOn | Operation::SetOff => {
            row(blank, blank, blank, false, Shown::Some, Kinds::Any, true)
        }
        Operation::GoTo => row(blank, label, blank, false, unused, Kinds::Any, true),
        Operation::Call => row(blank, subroutine, blank, false, unused, Kinds::Any, true),
        Operation::Label => row(label, blank, blank, false, unused, Kinds::Any, false),
        Operation::BeginSubroutine => {
            row(subroutine, blank, blank, false, unused, Kinds::Any, false)
        }
        Operation::EndSubroutine => {
            let label = Column::May(Content::Label);
            row(label, blank, blank, false, unused, Kinds::Any, false)
        }
        Operation::Except => row(blank, blank, blank, false, unused, Kinds::Any, true),
    }
}
