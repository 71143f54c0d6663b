//! The end of the job with some of the files that are read: `E` in 17 of F.

use crate::merged::secondary_files;
use rpg_fit_deck::{Editor, Seen, View, Word};
use rpg_fit_words::{Done, Outcome, RecordType, RuleStop, file_name, files_read, record_types};

/// Rejects a deck where only some of several secondary files have `E` in 17: they become one file.
pub fn end_of_files(editor: &mut Editor) -> Done {
    let view = editor.view()?;
    let files = secondary_files(&view);
    let files = files.checked()?;
    if let (Some(file), Some(other)) = (with_end(files, true), with_end(files, false)) {
        let why = "% has E in 17 and % hasn't, and they become one file";
        let names = [Word::of(file_name(file)), Word::of(file_name(other))];
        return Err(RuleStop::with(file.number, why, &names));
    }
    Ok(())
}

/// Returns the first file that has `E` in 17, or the first that hasn't.
fn with_end(files: &[Seen], has_end: bool) -> Option<&Seen> {
    files
        .iter()
        .find(|file| (file.card.column(17) == b'E') == has_end)
}

fn has_match_fields(kind: &RecordType) -> bool {
    kind.fields.iter().any(|field| !field.card.is_blank(61, 62))
}

/// Whether the job may end before the last record of a file, since another one has `E` in 17.
pub(crate) fn may_leave_records(view: &View, file: &Seen) -> Outcome<bool> {
    let files = files_read(view);
    let is_ended = with_end(files.checked()?, true).is_some();
    let types = record_types(view)?;
    let is_behind = file.card.column(16) == b'S' || types.iter().any(|kind| has_match_fields(kind));
    Ok(is_ended && file.card.column(17) != b'E' && is_behind)
}
