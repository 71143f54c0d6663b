//! The codes of the rules that a card can break.

ghost use Rattle.std.specs.Prelude.{◌≡◌, ◌≤◌, length};
ghost use Rattle.rpg_faults.specs.Codes as codes;
ghost use Rattle.rpg_faults.specs.Faults as faults;

/// A rule that a card breaks. Codes are ordered by number.
#[derive(Clone, Copy)]
pub enum FaultCode {
    /// A name isn't defined.
    F1 = 1,
    /// A name is defined again in another form.
    F2 = 2,
    /// A length or decimals are over their limit, or decimals have no length.
    F3 = 3,
    /// An operand is of the wrong kind, a result can't be written, or LOKUP's result has too few entries.
    F4 = 4,
    /// An index is missing, not allowed, out of range, or isn't a plain whole number that is long enough.
    F5 = 5,
    /// A limit is passed.
    F6 = 6,
    /// A file is unknown, described twice, of the wrong use or length, or there is no input file.
    F7 = 7,
    /// An indicator isn't allowed.
    F8 = 8,
    /// A column is missing or isn't allowed.
    F9 = 9,
    /// A label or a subroutine is missing.
    F10 = 10,
    /// The name of a label or a subroutine is defined twice, or is also a field's.
    F11 = 11,
    /// Sections are out of order, BEGSR and ENDSR aren't paired, or a card needs one before it.
    F12 = 12,
    /// GOTO leads to another section.
    F13 = 13,
    /// A subroutine calls itself, possibly through others.
    F14 = 14,
    /// H isn't allowed, or MVR doesn't follow a division without H.
    F15 = 15,
    /// A column is outside the record or the line, a field is too wide for its end position, or control or match fields don't
    /// agree.
    F16 = 16,
    /// An edit code or an edit word doesn't fit.
    F17 = 17,
    /// A table's data are missing, too few, too many, bad or out of sequence.
    F18 = 18,
}

impl FaultCode {
    /// Returns all codes in numeric order.
    pub fn all() -> [FaultCode; 18]
        ensures { result ≡ faults.codes }
    {
        [
            FaultCode::F1,
            FaultCode::F2,
            FaultCode::F3,
            FaultCode::F4,
            FaultCode::F5,
            FaultCode::F6,
            FaultCode::F7,
            FaultCode::F8,
            FaultCode::F9,
            FaultCode::F10,
            FaultCode::F11,
            FaultCode::F12,
            FaultCode::F13,
            FaultCode::F14,
            FaultCode::F15,
            FaultCode::F16,
            FaultCode::F17,
            FaultCode::F18,
        ]
    }

    pub fn number(self) -> u8
        ensures { result ≡ codes.fault_number self }
    {
        self as u8
    }

    /// Returns the letter F and the number.
    pub const fn text(self) -> &'static str
        ensures value { result.now ≡ codes.fault_code_text self }
        ensures len { length result.now ≤ 4 }
    {
        match self {
            FaultCode::F1 => "F1",
            FaultCode::F2 => "F2",
            FaultCode::F3 => "F3",
            FaultCode::F4 => "F4",
            FaultCode::F5 => "F5",
            FaultCode::F6 => "F6",
            FaultCode::F7 => "F7",
            FaultCode::F8 => "F8",
            FaultCode::F9 => "F9",
            FaultCode::F10 => "F10",
            FaultCode::F11 => "F11",
            FaultCode::F12 => "F12",
            FaultCode::F13 => "F13",
            FaultCode::F14 => "F14",
            FaultCode::F15 => "F15",
            FaultCode::F16 => "F16",
            FaultCode::F17 => "F17",
            FaultCode::F18 => "F18",
        }
    }
}
