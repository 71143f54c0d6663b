//! The date of a job.
ghost use Rattle.std.specs.Prelude.{◌≡◌, ◌≤◌, ◌<◌, ◌^◌, All, [], ◌∷◌, length, Some, option_map, unsigned_abs};
ghost use Rattle.std.specs.List.{list_all};
ghost use Rattle.rpg_cycle.specs.Starting.{date_in};
ghost use Rattle.rpg_cycle.specs.Dating.{memory_dated};
ghost use Rattle.rpg_decimal_words.specs.Zoned.{is_digit};
ghost use Rattle.rpg_program.specs.Forms.{is_date};
ghost use Rattle.rpg_program.specs.Kept.{IsFieldRow};
ghost use Rattle.rpg_memory.specs.Memory.{forms_in};

use rpg_decimal::read_zoned;
use rpg_memory::memory::Memory;
use rpg_program::form::{Class, FieldForm};
use rpg_store::Store;

/// The date of a job: a number of six digits.
#[derive(Clone, Copy)]
pub struct Date {
    pub value: i64,
    pub ghost fits: { unsigned_abs value < 10 ^ 6 },
}

impl Date {
    /// Reads a date from a text of exactly six digits.
    pub fn read(text: &[u8]) -> Option<Date>
        ensures { option_map (λ d. d.value) result ≡ date_in text.now }
    {
        if text.len() != 6 || !are_digits(text) {
            return None;
        }
        match read_zoned(text) {
            Ok(value) => Some(Date { value }),
            Err(_) => None,
        }
    }
}

fn are_digits(text: &[u8]) -> bool
    ensures { result ≡ list_all is_digit text.now }
{
    text.iter().all(|c| 48 <= *c && *c <= 57)
}

/// Whether a field holds the date.
fn has_date(form: FieldForm) -> bool
    ensures { result ≡ is_date form.class }
{
    match form.class {
        Class::Date => true,
        Class::Plain | Class::Array | Class::Table | Class::Constant => false,
    }
}

/// Returns the forms of a program's fields.
fn forms_of<'a, S: Store + Drop>(memory: &Memory<'a, S>) -> &'a [FieldForm]
    ensures same { result.now ≡ memory.now.program.fields }
    ensures rows { All IsFieldRow result.now }
    ensures few { length result.now ≤ 4000 }
{
    memory.rows().fields.as_slice()
}

/// Stores a date in a field if it is a date field.
#[tactic(auto, using(crate::proofs::Dating::date_value, crate::proofs::Dating::date_short))]
fn put_into<S: Store + Drop>(memory: &mut Memory<'_, S>, form: FieldForm, field: u16, date: i64)
    requires form { forms_in memory.old field ≡ Some form }
    requires row { IsFieldRow form }
    requires date { unsigned_abs date < 10 ^ 6 }
    ensures { memory.new ≡ memory_dated date field (form ∷ []) memory.old }
{
    if has_date(form) {
        memory.set_number(field, 1, date);
    }
}

/// Stores a date in all date fields.
pub(crate) fn put_date<S: Store + Drop>(memory: &mut Memory<'_, S>, date: i64)
    requires { unsigned_abs date < 10 ^ 6 }
    ensures { memory.new ≡ memory_dated date 1 memory.old.program.fields memory.old }
{
    let forms = forms_of(memory);
    let mut field = 1u16;
    for form in forms {
        put_into(memory, *form, field, date);
        field += 1;
    }
}
