//! The columns of each sheet, by their contents.

use crate::card_columns::CardColumns;

// ---- H

pub const AFTER_HEADER: CardColumns<60> = CardColumns { first: 15 };

// ---- F

pub const FILE_NAME: CardColumns<8> = CardColumns { first: 7 };

pub const FILE_TYPE: CardColumns<1> = CardColumns { first: 15 };

pub const FILE_ROLE: CardColumns<1> = CardColumns { first: 16 };

pub const ENDS_JOB: CardColumns<1> = CardColumns { first: 17 };

pub const FILE_SEQUENCE: CardColumns<1> = CardColumns { first: 18 };

pub const RECORD_FORMAT: CardColumns<1> = CardColumns { first: 19 };

pub const RECORD_LENGTH: CardColumns<4> = CardColumns { first: 24 };

pub const BEFORE_OVERFLOW: CardColumns<5> = CardColumns { first: 28 };

pub const OVERFLOW: CardColumns<2> = CardColumns { first: 33 };

pub const AFTER_OVERFLOW: CardColumns<4> = CardColumns { first: 35 };

pub const HAS_FORM: CardColumns<1> = CardColumns { first: 39 };

pub const DEVICE: CardColumns<7> = CardColumns { first: 40 };

pub const AFTER_DEVICE: CardColumns<28> = CardColumns { first: 47 };

// ---- E

pub const BEFORE_TABLE: CardColumns<20> = CardColumns { first: 7 };

pub const TABLE_NAME: CardColumns<6> = CardColumns { first: 27 };

pub const ENTRIES_PER_CARD: CardColumns<3> = CardColumns { first: 33 };

pub const ENTRIES: CardColumns<4> = CardColumns { first: 36 };

pub const ENTRY_LENGTH: CardColumns<3> = CardColumns { first: 40 };

pub const ENTRY_FORMAT: CardColumns<1> = CardColumns { first: 43 };

pub const ENTRY_DECIMALS: CardColumns<1> = CardColumns { first: 44 };

pub const ENTRY_SEQUENCE: CardColumns<1> = CardColumns { first: 45 };

/// All columns of the alternating table.
pub const ALTERNATING: CardColumns<12> = CardColumns { first: 46 };

pub const ALTERNATING_NAME: CardColumns<6> = CardColumns { first: 46 };

pub const ALTERNATING_LENGTH: CardColumns<3> = CardColumns { first: 52 };

pub const ALTERNATING_FORMAT: CardColumns<1> = CardColumns { first: 55 };

pub const ALTERNATING_DECIMALS: CardColumns<1> = CardColumns { first: 56 };

pub const ALTERNATING_SEQUENCE: CardColumns<1> = CardColumns { first: 57 };

// ---- L

pub const FORM_FILE: CardColumns<8> = CardColumns { first: 7 };

pub const FORM_LINES: CardColumns<3> = CardColumns { first: 15 };

pub const LINES_WORD: CardColumns<2> = CardColumns { first: 18 };

pub const OVERFLOW_LINE: CardColumns<3> = CardColumns { first: 20 };

pub const OVERFLOW_WORD: CardColumns<2> = CardColumns { first: 23 };

pub const AFTER_FORM: CardColumns<50> = CardColumns { first: 25 };

// ---- I and O

/// The columns before AND and OR.
pub const BEFORE_WORD: CardColumns<7> = CardColumns { first: 7 };

pub const AND_WORD: CardColumns<3> = CardColumns { first: 14 };

pub const OR_WORD: CardColumns<2> = CardColumns { first: 14 };

/// Columns that only the card of a record type or of a line uses.
pub const TYPE_OR_LINE: CardColumns<10> = CardColumns { first: 7 };

// ---- I

pub const TYPE_FILE: CardColumns<8> = CardColumns { first: 7 };

pub const TYPE_SEQUENCE: CardColumns<2> = CardColumns { first: 15 };

pub const BEFORE_INDICATOR: CardColumns<2> = CardColumns { first: 17 };

pub const TYPE_INDICATOR: CardColumns<2> = CardColumns { first: 19 };

/// All three codes.
pub const CODES: CardColumns<21> = CardColumns { first: 21 };

pub const FIRST_CODE: CardColumns<7> = CardColumns { first: 21 };

pub const SECOND_CODE: CardColumns<7> = CardColumns { first: 28 };

pub const THIRD_CODE: CardColumns<7> = CardColumns { first: 35 };

pub const AFTER_CODES: CardColumns<33> = CardColumns { first: 42 };

/// The columns before the codes of an AND card.
pub const BEFORE_CODES: CardColumns<4> = CardColumns { first: 17 };

pub const BEFORE_FIELD: CardColumns<27> = CardColumns { first: 17 };

pub const FIRST_COLUMN: CardColumns<4> = CardColumns { first: 44 };

pub const LAST_COLUMN: CardColumns<4> = CardColumns { first: 48 };

pub const INPUT_DECIMALS: CardColumns<1> = CardColumns { first: 52 };

pub const INPUT_NAME: CardColumns<6> = CardColumns { first: 53 };

pub const INPUT_LEVEL: CardColumns<2> = CardColumns { first: 59 };

pub const INPUT_MATCH: CardColumns<2> = CardColumns { first: 61 };

pub const AFTER_MATCH: CardColumns<2> = CardColumns { first: 63 };

/// All three indicators of a field.
pub const INPUT_INDICATORS: CardColumns<6> = CardColumns { first: 65 };

pub const INPUT_PLUS: CardColumns<2> = CardColumns { first: 65 };

pub const INPUT_MINUS: CardColumns<2> = CardColumns { first: 67 };

pub const INPUT_ZERO: CardColumns<2> = CardColumns { first: 69 };

pub const AFTER_INDICATORS: CardColumns<4> = CardColumns { first: 71 };

// ---- C

pub const CONTROL_LEVEL: CardColumns<2> = CardColumns { first: 7 };

/// All three conditions.
pub const CONDITIONS: CardColumns<9> = CardColumns { first: 9 };

pub const FIRST_CONDITION: CardColumns<3> = CardColumns { first: 9 };

pub const SECOND_CONDITION: CardColumns<3> = CardColumns { first: 12 };

pub const THIRD_CONDITION: CardColumns<3> = CardColumns { first: 15 };

pub const FIRST_FACTOR: CardColumns<10> = CardColumns { first: 18 };

pub const OPERATION: CardColumns<5> = CardColumns { first: 28 };

pub const SECOND_FACTOR: CardColumns<10> = CardColumns { first: 33 };

pub const RESULT_NAME: CardColumns<6> = CardColumns { first: 43 };

pub const RESULT_LENGTH: CardColumns<3> = CardColumns { first: 49 };

pub const RESULT_DECIMALS: CardColumns<1> = CardColumns { first: 52 };

pub const HALF_ADJUST: CardColumns<1> = CardColumns { first: 53 };

/// All three resulting indicators.
pub const RESULTING_INDICATORS: CardColumns<6> = CardColumns { first: 54 };

pub const RESULT_PLUS: CardColumns<2> = CardColumns { first: 54 };

pub const RESULT_MINUS: CardColumns<2> = CardColumns { first: 56 };

pub const RESULT_ZERO: CardColumns<2> = CardColumns { first: 58 };

// ---- O

pub const LINE_FILE: CardColumns<8> = CardColumns { first: 7 };

pub const LINE_TIME: CardColumns<1> = CardColumns { first: 15 };

pub const AFTER_TIME: CardColumns<1> = CardColumns { first: 16 };

pub const SPACE_BEFORE: CardColumns<1> = CardColumns { first: 17 };

pub const SPACE_AFTER: CardColumns<1> = CardColumns { first: 18 };

pub const SKIP_BEFORE: CardColumns<2> = CardColumns { first: 19 };

pub const SKIP_AFTER: CardColumns<2> = CardColumns { first: 21 };

/// All columns of spaces and skips.
pub const MOVEMENT: CardColumns<6> = CardColumns { first: 17 };

/// All three conditions.
pub const LINE_CONDITIONS: CardColumns<9> = CardColumns { first: 23 };

pub const FIRST_LINE_CONDITION: CardColumns<3> = CardColumns { first: 23 };

pub const SECOND_LINE_CONDITION: CardColumns<3> = CardColumns { first: 26 };

pub const THIRD_LINE_CONDITION: CardColumns<3> = CardColumns { first: 29 };

pub const AFTER_CONDITIONS: CardColumns<39> = CardColumns { first: 32 };

pub const OUTPUT_NAME: CardColumns<6> = CardColumns { first: 32 };

pub const OUTPUT_CODE: CardColumns<1> = CardColumns { first: 38 };

pub const BLANK_AFTER: CardColumns<1> = CardColumns { first: 39 };

pub const END_POSITION: CardColumns<4> = CardColumns { first: 40 };

pub const OUTPUT_FORMAT: CardColumns<1> = CardColumns { first: 44 };

pub const OUTPUT_TEXT: CardColumns<26> = CardColumns { first: 45 };
