//! The table of operations: the columns of each operation, and what they require.

ghost use Rattle.std.specs.Prelude.{◌≡◌, ◌≤◌};
ghost use Rattle.rpg_program.specs.Forms as forms;
ghost use Rattle.rpg_program.specs.Instructions as instructions;
ghost use Rattle.rpg_program.specs.Rows as words;

use crate::form::{FieldForm, Kind, fits_digits, is_array, is_table, same_kind};
use crate::forms::{
    entries_of, form_at, is_index_form, is_table_form, kind_of, length_of, may_write,
};
use crate::operation::{Action, Index, Instruction, Operand};
use crate::row::{Marks, Row, Shape, Use};
use crate::rows::Rows;

/// No columns.
const NO_ROW: Row<Operand<u16>> = Row {
    factor1: None,
    factor2: None,
    result: None,
    marks: Marks::Unmarked,
};

fn use_of(shape: Shape, kind: Kind, operand: Operand<u16>) -> Option<Use<Operand<u16>>>
    ensures { result ≡ words.use_of shape kind operand }
{
    Some(Use {
        operand,
        kind,
        shape,
    })
}

/// Returns the kind of the field that an operand names.
fn kind_at(rows: &Rows, operand: Operand<u16>) -> Kind
    ensures { result ≡ forms.kind_of (words.form_of (forms.form_at rows.now.fields.items) operand) }
{
    kind_of(form_at(rows, operand.field))
}

fn number(operand: Operand<u16>) -> Option<Use<Operand<u16>>>
    ensures { result ≡ words.use_of Shape.One Kind.Number operand }
{
    use_of(Shape::One, Kind::Number, operand)
}

/// Returns the use of an entry of the same kind as another operand.
fn like(rows: &Rows, other: Operand<u16>, operand: Operand<u16>) -> Option<Use<Operand<u16>>>
    ensures { result ≡ words.like (words.form_of (forms.form_at rows.now.fields.items)) other operand }
{
    use_of(Shape::One, kind_at(rows, other), operand)
}

fn searched(rows: &Rows, other: Operand<u16>, operand: Operand<u16>) -> Option<Use<Operand<u16>>>
    ensures { result ≡ words.searched (words.form_of (forms.form_at rows.now.fields.items)) other operand }
{
    use_of(Shape::Searched, kind_at(rows, other), operand)
}

fn table(rows: &Rows, operand: Option<Operand<u16>>) -> Option<Use<Operand<u16>>>
    ensures { result ≡ words.table_use (words.form_of (forms.form_at rows.now.fields.items)) operand }
{
    match operand {
        None => None,
        Some(operand) => use_of(Shape::Table, kind_at(rows, operand), operand),
    }
}

/// Returns the row of an operation.
#[tactic(auto, unfolding(crate::specs::Rows::row_of))]
pub fn row_of(rows: &Rows, action: Action<Operand<u16>>) -> Row<Operand<u16>>
    ensures { result ≡ words.row_of (words.form_of (forms.form_at rows.now.fields.items)) action }
{
    let (factor1, factor2, to, marks) = match action {
        Action::Compute {
            factor1,
            factor2,
            result: to,
            shows,
            ..
        } => (
            number(factor1),
            number(factor2),
            number(to),
            Marks::Shown(shows),
        ),
        Action::Divide {
            factor1,
            factor2,
            result: to,
            shows,
            ..
        } => (
            number(factor1),
            number(factor2),
            number(to),
            Marks::Shown(shows),
        ),
        Action::Assign {
            factor2,
            result: to,
            shows,
            ..
        } => (None, number(factor2), number(to), Marks::Shown(shows)),
        Action::TakeRemainder { result: to, shows } => (
            None,
            None,
            number(to),
            Marks::Shown(shows),
        ),
        Action::CrossFoot {
            factor2,
            result: to,
            shows,
            ..
        } => (
            None,
            use_of(Shape::Whole, Kind::Number, factor2),
            number(to),
            Marks::Shown(shows),
        ),
        Action::Compare {
            factor1,
            factor2,
            shows,
        } => (
            like(rows, factor1, factor1),
            like(rows, factor1, factor2),
            None,
            Marks::Wanted(shows),
        ),
        Action::LookUp {
            factor1,
            factor2,
            result: to,
            shows,
        } => (
            like(rows, factor1, factor1),
            searched(rows, factor1, factor2),
            table(rows, to),
            Marks::Sought(shows),
        ),
        Action::Move {
            factor2,
            result: to,
            ..
        } => (
            None,
            like(rows, factor2, factor2),
            like(rows, to, to),
            Marks::Unmarked,
        ),
        Action::SetIndicators { named, .. } => (None, None, None, Marks::Wanted(named)),
    };
    Row {
        factor1,
        factor2,
        result: to,
        marks,
    }
}

/// Returns the row of an instruction. EXCPT and transfers of control have no operands.
pub fn columns_of(rows: &Rows, instruction: Instruction<u16>) -> Row<Operand<u16>>
    ensures { result ≡ instructions.instruction_columns (forms.form_at rows.now.fields.items) instruction }
{
    match instruction {
        Instruction::Act(action) => row_of(rows, action),
        Instruction::Except
        | Instruction::Branch { .. }
        | Instruction::Call { .. }
        | Instruction::Return { .. } => NO_ROW,
    }
}

fn is_blank(index: Index<u16>) -> bool
    ensures { result ≡ words.is_blank_index index }
{
    match index {
        Index::Blank => true,
        Index::Literal(_) | Index::Field(_) => false,
    }
}

fn has_index(rows: &Rows, form: FieldForm, index: Index<u16>) -> bool
    ensures { result ≡ words.has_index (forms.form_at rows.now.fields.items) form index }
{
    match index {
        Index::Blank => true,
        Index::Literal(n) => !is_array(form.class) || (1 <= n && n <= form.entries),
        Index::Field(field) => form_at(rows, field).is_some(),
    }
}

/// Whether the entry that an operand names exists.
pub fn has_entry(rows: &Rows, operand: Operand<u16>) -> bool
    ensures { result ≡ words.has_entry (forms.form_at rows.now.fields.items) operand }
{
    match form_at(rows, operand.field) {
        None => false,
        Some(form) => has_index(rows, form, operand.index),
    }
}

fn is_one(rows: &Rows, form: FieldForm, index: Index<u16>) -> bool
    ensures { result ≡ words.is_one (forms.form_at rows.now.fields.items) form index }
{
    match index {
        Index::Blank => !is_array(form.class),
        Index::Literal(_) => is_array(form.class),
        Index::Field(field) => is_array(form.class) && is_index_form(form_at(rows, field)),
    }
}

fn is_searchable(rows: &Rows, form: FieldForm, index: Index<u16>) -> bool
    ensures { result ≡ words.has_shape (forms.form_at rows.now.fields.items) Shape.Searched form index }
{
    if is_blank(index) {
        is_array(form.class) || is_table(form.class)
    } else {
        is_one(rows, form, index)
    }
}

fn has_shape(rows: &Rows, shape: Shape, form: FieldForm, index: Index<u16>) -> bool
    ensures { result ≡ words.has_shape (forms.form_at rows.now.fields.items) shape form index }
{
    match shape {
        Shape::One => is_one(rows, form, index),
        Shape::Whole => is_array(form.class) && is_blank(index),
        Shape::Searched => is_searchable(rows, form, index),
        Shape::Table => is_table(form.class) && is_blank(index),
    }
}

fn is_shaped(rows: &Rows, form: Option<FieldForm>, shape: Shape, index: Index<u16>) -> bool
    ensures { result ≡ words.is_shaped (forms.form_at rows.now.fields.items) form shape index }
{
    match form {
        None => false,
        Some(form) => has_shape(rows, shape, form, index),
    }
}

/// Whether an operand is a single entry, not a whole array.
pub fn is_one_entry(rows: &Rows, operand: Operand<u16>) -> bool
    ensures { result ≡ words.is_one_entry (forms.form_at rows.now.fields.items) operand }
{
    is_shaped(
        rows,
        form_at(rows, operand.field),
        Shape::One,
        operand.index,
    )
}

fn operand_shape(shape: Shape) -> Shape
    ensures { result ≡ words.operand_shape shape }
{
    match shape {
        Shape::One | Shape::Table => Shape::One,
        Shape::Whole => Shape::Whole,
        Shape::Searched => Shape::Searched,
    }
}

/// Whether the field and the index exist, and the index is as the shape requires.
pub fn is_valid(rows: &Rows, used: Use<Operand<u16>>) -> bool
    ensures { result ≡ words.is_valid_operand (forms.form_at rows.now.fields.items) used }
{
    let form = form_at(rows, used.operand.field);
    has_entry(rows, used.operand)
        && is_shaped(rows, form, operand_shape(used.shape), used.operand.index)
}

pub fn has_kind(rows: &Rows, used: Use<Operand<u16>>) -> bool
    ensures { result ≡ words.has_kind (forms.form_at rows.now.fields.items) used }
{
    same_kind(kind_at(rows, used.operand), used.kind)
}

pub fn is_writable_use(rows: &Rows, used: Use<Operand<u16>>) -> bool
    ensures { result ≡ words.is_writable_use (forms.form_at rows.now.fields.items) used }
{
    may_write(form_at(rows, used.operand.field))
}

/// Whether it is a table, if an entry of it becomes current.
pub fn is_current_table(rows: &Rows, used: Use<Operand<u16>>) -> bool
    ensures { result ≡ words.is_current_table (forms.form_at rows.now.fields.items) used }
{
    match used.shape {
        Shape::Table => is_table_form(form_at(rows, used.operand.field)),
        Shape::One | Shape::Whole | Shape::Searched => true,
    }
}

/// Whether an index field can hold a position.
fn can_hold(rows: &Rows, index: Index<u16>, position: u16) -> bool
    ensures { result ≡ words.can_hold (forms.form_at rows.now.fields.items) index position }
{
    match index {
        Index::Blank | Index::Literal(_) => true,
        Index::Field(field) => fits_digits(position, length_of(form_at(rows, field))),
    }
}

/// Whether the index field can hold a position, and a result's table has that position.
fn holds_position(
    rows: &Rows,
    index: Index<u16>,
    to: Option<Use<Operand<u16>>>,
    position: u16,
) -> bool
    ensures { result ≡ words.holds_position (forms.form_at rows.now.fields.items) index (words.field_of (forms.form_at rows.now.fields.items) to) position }
{
    match to {
        None => can_hold(rows, index, position),
        Some(to) => {
            can_hold(rows, index, position)
                && position <= entries_of(form_at(rows, to.operand.field))
        }
    }
}

/// Whether any result of a search fits its index field and the result's table.
#[tactic(auto, unfolding(crate::specs::Rows::holds_positions))]
pub fn holds_positions(rows: &Rows, row: Row<Operand<u16>>) -> bool
    ensures { result ≡ words.holds_positions (forms.form_at rows.now.fields.items) row }
{
    let Some(used) = row.factor2 else {
        return true;
    };
    match used.shape {
        Shape::Searched => {
            let entries = entries_of(form_at(rows, used.operand.field));
            holds_position(rows, used.operand.index, row.result, entries)
        }
        Shape::One | Shape::Whole | Shape::Table => true,
    }
}
