//! The form of a field.

ghost use Rattle.std.specs.Prelude.{◌≡◌, ◌^◌, nat_lt};
ghost use Rattle.rpg_program.specs.Forms as words;

/// What a field holds.
#[derive(Clone, Copy, PartialEq, Eq)]
pub enum Kind {
    Number,
    Text,
}

/// The use of a field.
#[derive(Clone, Copy, PartialEq, Eq)]
pub enum Class {
    Plain,
    Array,
    Table,
    Constant,
    /// The date of the job.
    Date,
}

/// The form of a field: what it holds, and how much.
#[derive(Clone, Copy)]
pub struct FieldForm {
    pub kind: Kind,
    pub class: Class,
    /// Digits of a number (1 to 15), or characters of a text (1 to 256).
    pub length: u16,
    /// Decimals of a number, at most 9 and at most its length; 0 for a text.
    pub decimals: u8,
    /// Whether the entries of an array or a table are in ascending sequence.
    pub is_ascending: bool,
    /// Entries of an array or a table, 1 to 9,999; 1 for any other field.
    pub entries: u16,
}

impl FieldForm {
    ghost use Rattle.std.specs.Prelude.{◌≡◌};
    ghost use Rattle.rpg_program.specs.Forms.{size_of};

    /// Returns how many bytes a field of this form takes.
    pub fn size(&self) -> u32
        ensures { result ≡ size_of self.now }
    {
        u32::from(self.length) * u32::from(self.entries)
    }
}

/// Whether a number of this many digits can be `n`. Five digits hold any two-byte number.
#[tactic(auto, using(crate::proofs::Digits::five_digits))]
pub fn fits_digits(n: u16, digits: u16) -> bool
    ensures { result ≡ nat_lt n (10 ^ digits) }
{
    match digits {
        0 => n < 1,
        1 => n < 10,
        2 => n < 100,
        3 => n < 1000,
        4 => n < 10000,
        _ => true,
    }
}

pub fn same_kind(kind: Kind, other: Kind) -> bool
    ensures { result ≡ words.same_kind kind other }
{
    match kind {
        Kind::Number => match other {
            Kind::Number => true,
            Kind::Text => false,
        },
        Kind::Text => match other {
            Kind::Number => false,
            Kind::Text => true,
        },
    }
}

pub fn is_plain(class: Class) -> bool
    ensures { result ≡ words.is_plain class }
{
    match class {
        Class::Plain => true,
        Class::Array | Class::Table | Class::Constant | Class::Date => false,
    }
}

pub fn is_array(class: Class) -> bool
    ensures { result ≡ words.is_array class }
{
    match class {
        Class::Array => true,
        Class::Plain | Class::Table | Class::Constant | Class::Date => false,
    }
}

pub fn is_table(class: Class) -> bool
    ensures { result ≡ words.is_table class }
{
    match class {
        Class::Table => true,
        Class::Plain | Class::Array | Class::Constant | Class::Date => false,
    }
}

pub fn is_constant(class: Class) -> bool
    ensures { result ≡ words.is_constant class }
{
    match class {
        Class::Constant => true,
        Class::Plain | Class::Array | Class::Table | Class::Date => false,
    }
}

pub fn is_writable(class: Class) -> bool
    ensures { result ≡ words.is_writable class }
{
    match class {
        Class::Plain | Class::Array | Class::Table => true,
        Class::Constant | Class::Date => false,
    }
}
