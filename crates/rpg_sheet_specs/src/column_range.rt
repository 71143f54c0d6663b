//! The ranges of columns that a fault can point at.

ghost use Rattle.std.specs.Prelude.{◌≡◌};
ghost use Rattle.rpg_sheet_specs.specs.Ranges as table;

use crate::column::ColumnFault;
use crate::ranges;

/// A range of columns, by its contents.
#[derive(Clone, Copy)]
pub enum ColumnRange {
    // ---- F
    FileName,
    FileType,
    RecordLength,
    Device,

    // ---- E
    TableName,
    EntriesPerCard,
    Entries,
    EntryLength,
    EntryDecimals,
    AlternatingName,
    AlternatingLength,
    AlternatingDecimals,

    // ---- L
    FormFile,
    OverflowLine,

    // ---- I
    /// The file of a record type.
    TypeFile,
    TypeIndicator,
    FirstCode,
    SecondCode,
    ThirdCode,
    /// A field's columns in the record.
    FirstColumn,
    LastColumn,
    InputName,
    InputLevel,
    InputMatch,
    InputPlus,
    InputMinus,
    InputZero,

    // ---- C
    ControlLevel,
    /// All three conditions.
    Conditions,
    FirstCondition,
    SecondCondition,
    ThirdCondition,
    FirstFactor,
    Operation,
    SecondFactor,
    ResultName,
    ResultLength,
    ResultDecimals,
    HalfAdjust,
    /// All three resulting indicators.
    ResultingIndicators,
    ResultPlus,
    ResultMinus,
    ResultZero,

    // ---- O
    /// The file of a line.
    LineFile,
    SpaceBefore,
    SpaceAfter,
    SkipBefore,
    SkipAfter,
    FirstLineCondition,
    SecondLineCondition,
    ThirdLineCondition,
    OutputName,
    OutputCode,
    BlankAfter,
    EndPosition,
    /// A constant, an edit word or a fill.
    OutputText,
}

impl ColumnRange {
    /// Returns its first and last column.
    #[tactic(auto, unfolding(crate::specs::Ranges::columns_of))]
    pub fn columns(self) -> ColumnFault
        ensures { result ≡ table.columns_of self }
    {
        match self {
            ColumnRange::FileName => ranges::FILE_NAME.fault(),
            ColumnRange::TypeFile => ranges::TYPE_FILE.fault(),
            ColumnRange::LineFile => ranges::LINE_FILE.fault(),
            ColumnRange::FileType => ranges::FILE_TYPE.fault(),
            ColumnRange::RecordLength => ranges::RECORD_LENGTH.fault(),
            ColumnRange::Device => ranges::DEVICE.fault(),
            ColumnRange::TableName => ranges::TABLE_NAME.fault(),
            ColumnRange::EntriesPerCard => ranges::ENTRIES_PER_CARD.fault(),
            ColumnRange::Entries => ranges::ENTRIES.fault(),
            ColumnRange::EntryLength => ranges::ENTRY_LENGTH.fault(),
            ColumnRange::EntryDecimals => ranges::ENTRY_DECIMALS.fault(),
            ColumnRange::AlternatingName => ranges::ALTERNATING_NAME.fault(),
            ColumnRange::AlternatingLength => ranges::ALTERNATING_LENGTH.fault(),
            ColumnRange::AlternatingDecimals => ranges::ALTERNATING_DECIMALS.fault(),
            ColumnRange::FormFile => ranges::FORM_FILE.fault(),
            ColumnRange::OverflowLine => ranges::OVERFLOW_LINE.fault(),
            ColumnRange::TypeIndicator => ranges::TYPE_INDICATOR.fault(),
            ColumnRange::SkipBefore => ranges::SKIP_BEFORE.fault(),
            ColumnRange::FirstCode => ranges::FIRST_CODE.fault(),
            ColumnRange::SecondCode => ranges::SECOND_CODE.fault(),
            ColumnRange::ThirdCode => ranges::THIRD_CODE.fault(),
            ColumnRange::FirstColumn => ranges::FIRST_COLUMN.fault(),
            ColumnRange::LastColumn => ranges::LAST_COLUMN.fault(),
            ColumnRange::InputName => ranges::INPUT_NAME.fault(),
            ColumnRange::InputLevel => ranges::INPUT_LEVEL.fault(),
            ColumnRange::InputMatch => ranges::INPUT_MATCH.fault(),
            ColumnRange::InputPlus => ranges::INPUT_PLUS.fault(),
            ColumnRange::InputMinus => ranges::INPUT_MINUS.fault(),
            ColumnRange::InputZero => ranges::INPUT_ZERO.fault(),
            ColumnRange::ControlLevel => ranges::CONTROL_LEVEL.fault(),
            ColumnRange::Conditions => ranges::CONDITIONS.fault(),
            ColumnRange::FirstCondition => ranges::FIRST_CONDITION.fault(),
            ColumnRange::SecondCondition => ranges::SECOND_CONDITION.fault(),
            ColumnRange::ThirdCondition => ranges::THIRD_CONDITION.fault(),
            ColumnRange::FirstFactor => ranges::FIRST_FACTOR.fault(),
            ColumnRange::Operation => ranges::OPERATION.fault(),
            ColumnRange::SecondFactor => ranges::SECOND_FACTOR.fault(),
            ColumnRange::ResultName => ranges::RESULT_NAME.fault(),
            ColumnRange::ResultLength => ranges::RESULT_LENGTH.fault(),
            ColumnRange::ResultDecimals => ranges::RESULT_DECIMALS.fault(),
            ColumnRange::HalfAdjust => ranges::HALF_ADJUST.fault(),
            ColumnRange::ResultingIndicators => ranges::RESULTING_INDICATORS.fault(),
            ColumnRange::ResultPlus => ranges::RESULT_PLUS.fault(),
            ColumnRange::ResultMinus => ranges::RESULT_MINUS.fault(),
            ColumnRange::ResultZero => ranges::RESULT_ZERO.fault(),
            ColumnRange::SpaceBefore => ranges::SPACE_BEFORE.fault(),
            ColumnRange::SpaceAfter => ranges::SPACE_AFTER.fault(),
            ColumnRange::SkipAfter => ranges::SKIP_AFTER.fault(),
            ColumnRange::FirstLineCondition => ranges::FIRST_LINE_CONDITION.fault(),
            ColumnRange::SecondLineCondition => ranges::SECOND_LINE_CONDITION.fault(),
            ColumnRange::ThirdLineCondition => ranges::THIRD_LINE_CONDITION.fault(),
            ColumnRange::OutputName => ranges::OUTPUT_NAME.fault(),
            ColumnRange::OutputCode => ranges::OUTPUT_CODE.fault(),
            ColumnRange::BlankAfter => ranges::BLANK_AFTER.fault(),
            ColumnRange::EndPosition => ranges::END_POSITION.fault(),
            ColumnRange::OutputText => ranges::OUTPUT_TEXT.fault(),
        }
    }
}
