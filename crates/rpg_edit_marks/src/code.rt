//! Edit codes.

ghost use Rattle.std.specs.Prelude.{◌≡◌, ◌==◌, ◌%◌, nat_lt};

/// What follows a number: nothing, or its sign, which is blank unless the number is negative.
#[derive(Clone, Copy)]
pub enum Ending {
    Unsigned,
    Credit,
    Minus,
}

impl Ending {
    ghost use Rattle.rpg_edit_marks.specs.Code.{first_character};

    /// Returns the character of the first code with this ending.
    fn first_character(self) -> u8
        ensures { result ≡ first_character self }
    {
        match self {
            Ending::Unsigned => b'1',
            Ending::Credit => b'A',
            Ending::Minus => b'J',
        }
    }
}

/// What precedes the first printed character: blanks, asterisks, or blanks and one dollar sign.
#[derive(Clone, Copy)]
pub enum Fill {
    Blank,
    Star,
    Dollar,
}

impl Fill {
    ghost use Rattle.rpg_edit_marks.specs.Code.{fill_by, is_blank_fill};

    /// Returns the fill of a constant beside an edit code: an asterisk, or a dollar sign.
    pub fn of(text: &[u8]) -> Option<Fill>
        ensures { result ≡ fill_by text.now }
    {
        match text {
            b"*" => Some(Fill::Star),
            b"$" => Some(Fill::Dollar),
            _ => None,
        }
    }

    pub fn is_blank(self) -> bool
        ensures { result ≡ is_blank_fill self }
    {
        match self {
            Fill::Blank => true,
            Fill::Star | Fill::Dollar => false,
        }
    }
}

/// An edit code, by the columns of this profile's table of codes: 1 to 4, A to D and J to M are `Combination`.
#[derive(Clone, Copy)]
pub enum EditCode {
    Combination {
        commas: bool,
        zeros: bool,
        ending: Ending,
    },
    X,
    Y,
    Z,
}

impl EditCode {
    ghost use Rattle.rpg_edit_marks.specs.Code.{code_character, code_of, fits_code, takes_fill};

    /// Returns the code of a character, if it is one.
    pub fn of(character: u8) -> Option<EditCode>
        ensures { result ≡ code_of character }
    {
        match character {
            b'1'..=b'4' => Some(EditCode::combination(character - b'1', Ending::Unsigned)),
            b'A'..=b'D' => Some(EditCode::combination(character - b'A', Ending::Credit)),
            b'J'..=b'M' => Some(EditCode::combination(character - b'J', Ending::Minus)),
            b'X' => Some(EditCode::X),
            b'Y' => Some(EditCode::Y),
            b'Z' => Some(EditCode::Z),
            _ => None,
        }
    }

    /// Returns the character of the code.
    pub fn character(self) -> u8
        ensures { result ≡ code_character self }
    {
        match self {
            EditCode::Combination {
                commas,
                zeros,
                ending,
            } => ending.first_character() + if commas { 0 } else { 2 } + if zeros { 0 } else { 1 },
            EditCode::X => b'X',
            EditCode::Y => b'Y',
            EditCode::Z => b'Z',
        }
    }

    /// Whether the code allows this fill: X, Y and Z allow none.
    pub fn takes(self, fill: Fill) -> bool
        ensures { result ≡ takes_fill self fill }
    {
        match self {
            EditCode::Combination { .. } => true,
            EditCode::X | EditCode::Y | EditCode::Z => fill.is_blank(),
        }
    }

    /// Whether the code can edit numbers of this form with this fill: X, Y and Z allow no fill, and Y edits six digits without
    /// decimals.
    pub fn fits(self, fill: Fill, length: u16, decimals: u8) -> bool
        ensures { result ≡ fits_code length decimals self fill }
    {
        match self {
            EditCode::Combination { .. } => true,
            EditCode::X | EditCode::Z => fill.is_blank(),
            EditCode::Y => length == 6 && (decimals == 0 && fill.is_blank()),
        }
    }

    fn combination(column: u8, ending: Ending) -> EditCode
        ensures { result ≡ EditCode.Combination (nat_lt column 2) (column % 2 == 0) ending }
    {
        EditCode::Combination {
            commas: column < 2,
            zeros: column % 2 == 0,
            ending,
        }
    }
}
