//! Warnings and their kinds.

ghost use Rattle.std.specs.Prelude.{◌≡◌, ◌++◌, OnOk};
ghost use Rattle.std.specs.Option.{option_to_list};
ghost use Rattle.rpg_warnings_lines.specs.Kinds as kinds;

use rpg_cli_values::WarningCode;
use rpg_sheet_specs::ColumnFault;
use std::alloc::AllocError;

/// Why a card has a warning.
#[derive(Clone, Copy)]
pub enum WarningKind {
    /// It tests an indicator that nothing turns on.
    NeverOn {
        indicator: u8,
    },
    /// It turns on an indicator that no card tests.
    NeverTested {
        indicator: u8,
    },
    /// Its field has these places of the line, some of which another card's field has too.
    Overlap {
        first: usize,
        last: usize,
        card: u16,
    },
    /// Its result has this many digits before the decimal point, and a factor has more.
    Shorter {
        result: u16,
        factor: u16,
    },
    /// It tests a control level that no field has.
    NoLevel {
        indicator: u8,
    },
    /// It writes PAGE under conditions.
    PageConditions,
    /// It turns on a halt indicator with SETON.
    SetsHalt {
        indicator: u8,
    },
    /// Its line is written before the first record too.
    BeforeRecords,
    /// Its line is written at each total time.
    EachTotal,
    /// A total line prints its field, which is added to and never set back.
    NotReset,
    /// Nothing reads its result field.
    Unused,
    /// Its printer has no overflow indicator.
    NoOverflow,
    /// Its device looks like the printer, and is the disk file.
    NotPrinter,
    /// Its file ends the job: records of the file on this card that have a greater match value are left out.
    LeftOut {
        card: u16,
    },
    /// Its file ends the job before a record of the file on this card is selected.
    NeverRead {
        card: u16,
    },
    /// It has L in 39, and there is no L card.
    NoForm,
    /// There is an L card for its file, and 39 is blank.
    UnmarkedForm,
}

impl WarningKind {
    pub const fn code(self) -> WarningCode
        ensures { result ≡ kinds.code self }
    {
        match self {
            WarningKind::NeverOn { .. } => WarningCode::W1,
            WarningKind::NeverTested { .. } => WarningCode::W2,
            WarningKind::Overlap { .. } => WarningCode::W3,
            WarningKind::Shorter { .. } => WarningCode::W4,
            WarningKind::NoLevel { .. } => WarningCode::W5,
            WarningKind::PageConditions => WarningCode::W6,
            WarningKind::SetsHalt { .. } => WarningCode::W7,
            WarningKind::BeforeRecords => WarningCode::W8,
            WarningKind::EachTotal => WarningCode::W9,
            WarningKind::NotReset => WarningCode::W10,
            WarningKind::Unused => WarningCode::W11,
            WarningKind::NoOverflow => WarningCode::W12,
            WarningKind::NotPrinter => WarningCode::W13,
            WarningKind::LeftOut { .. } | WarningKind::NeverRead { .. } => WarningCode::W14,
            WarningKind::NoForm | WarningKind::UnmarkedForm => WarningCode::W15,
        }
    }
}

/// A warning at columns of a card.
#[derive(Clone, Copy)]
pub struct Warning {
    pub card: u16,
    pub columns: ColumnFault,
    pub kind: WarningKind,
}

/// Appends a warning, if there is one.
pub fn put_warning(warnings: &mut Vec<Warning>, warning: Option<Warning>) -> Result<(), AllocError>
    ensures { OnOk result (warnings.new.items ≡ warnings.old.items ++ option_to_list warning) }
{
    if let Some(warning) = warning {
        warnings.push(warning)?;
    }
    Ok(())
}
