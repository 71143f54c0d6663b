//! Laws of the definitions that the other contracts cite. The functions do nothing: they are called only for their contracts.

ghost use Rattle.rpg_record_lines.specs.Back.{LinesComeBack, RecordsComeBack};

/// The line of a record becomes that record again, and the record of a line that line, if their bytes are those that are written.
pub fn lines_come_back()
    ensures records { RecordsComeBack }
    ensures lines { LinesComeBack }
{}
