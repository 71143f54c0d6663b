//! The codes of warnings.

ghost use Rattle.std.specs.Prelude.{◌≡◌, ◌<◌};
ghost use Rattle.rpg_cli_values.specs.Codes.{code_number, warning_code_text};

/// What a warning is about.
#[derive(Clone, Copy, PartialEq, Eq)]
pub enum WarningCode {
    W1,
    W2,
    W3,
    W4,
    W5,
    W6,
    W7,
    W8,
    W9,
    W10,
    W11,
    W12,
    W13,
    W14,
    W15,
}

impl WarningCode {
    /// Returns its number, counted from 0.
    pub const fn number(self) -> usize
        ensures value { result ≡ code_number self }
        ensures within { result < 15 }
    {
        match self {
            WarningCode::W1 => 0,
            WarningCode::W2 => 1,
            WarningCode::W3 => 2,
            WarningCode::W4 => 3,
            WarningCode::W5 => 4,
            WarningCode::W6 => 5,
            WarningCode::W7 => 6,
            WarningCode::W8 => 7,
            WarningCode::W9 => 8,
            WarningCode::W10 => 9,
            WarningCode::W11 => 10,
            WarningCode::W12 => 11,
            WarningCode::W13 => 12,
            WarningCode::W14 => 13,
            WarningCode::W15 => 14,
        }
    }

    pub const fn text(self) -> &'static str
        ensures { result.now ≡ warning_code_text self }
    {
        match self {
            WarningCode::W1 => "W1",
            WarningCode::W2 => "W2",
            WarningCode::W3 => "W3",
            WarningCode::W4 => "W4",
            WarningCode::W5 => "W5",
            WarningCode::W6 => "W6",
            WarningCode::W7 => "W7",
            WarningCode::W8 => "W8",
            WarningCode::W9 => "W9",
            WarningCode::W10 => "W10",
            WarningCode::W11 => "W11",
            WarningCode::W12 => "W12",
            WarningCode::W13 => "W13",
            WarningCode::W14 => "W14",
            WarningCode::W15 => "W15",
        }
    }

    /// Returns the code with this text.
    pub fn named(text: &str) -> Option<WarningCode> {
        match text {
            "W1" => Some(WarningCode::W1),
            "W2" => Some(WarningCode::W2),
            "W3" => Some(WarningCode::W3),
            "W4" => Some(WarningCode::W4),
            "W5" => Some(WarningCode::W5),
            "W6" => Some(WarningCode::W6),
            "W7" => Some(WarningCode::W7),
            "W8" => Some(WarningCode::W8),
            "W9" => Some(WarningCode::W9),
            "W10" => Some(WarningCode::W10),
            "W11" => Some(WarningCode::W11),
            "W12" => Some(WarningCode::W12),
            "W13" => Some(WarningCode::W13),
            "W14" => Some(WarningCode::W14),
            "W15" => Some(WarningCode::W15),
            _ => None,
        }
    }
}
