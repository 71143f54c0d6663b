//! Laws of the records of an input.

ghost use Rattle.rpg_files.specs.Answers.{AnswersAreRecords, FirstAnswersAreRecords};
ghost use Rattle.rpg_files.specs.Records.{RecordsAreLines};

/// A law of the definition: the records are the lines of the input.
pub fn records_are_lines()
    ensures { RecordsAreLines }
{}

/// A law of the reader's contract: at any time the records that it returned are the first ones of the whole input.
pub fn first_answers_are_records()
    ensures { FirstAnswersAreRecords }
{}

/// A law of the reader's contract: however short the reads are, its results in order are the records of the whole
/// input.
pub fn answers_are_records()
    ensures { AnswersAreRecords }
{}
