//! Printers by other names than PRINTER, and several of them.

use crate::other_printer::OtherPrinter;
use rpg_fit_deck::{Card, Editor, Seen, Sentence, View, Word};
use rpg_fit_words::{Done, List, RuleStop, file_name, is, is_card};

/// Makes each printer a PRINTER. Of several, the deck keeps the one that is `wanted`.
pub fn printers(editor: &mut Editor, wanted: Option<&[u8]>) -> Done {
    let view = editor.view()?;
    let files = files_printed(&view);
    keep_one(editor, files.checked()?, wanted)
}

fn keep_one(editor: &mut Editor, files: &[Seen], wanted: Option<&[u8]>) -> Done {
    for file in files {
        name_device(editor, file);
    }
    let [_, second, ..] = files else {
        return Ok(());
    };
    let Some(kept) = kept_of(files, wanted) else {
        return Err(RuleStop::refused(second.number, several(files)));
    };
    for file in files {
        if file_name(file) != file_name(kept) {
            OtherPrinter::of(editor, file)?.take_out(editor)?;
        }
    }
    Ok(())
}

fn is_printed(card: &Card) -> bool {
    card.column(15) == b'O' && matches!(card.value(40, 46), [b'P', b'R', b'I', b'N', b'T', ..])
}

/// Returns the cards of the files that are printed.
fn files_printed(view: &View) -> List<Seen> {
    let mut found = List::new(view.alloc);
    for seen in &view.cards {
        if is_card(seen, b'F') && is_printed(&seen.card) {
            found.push(*seen);
        }
    }
    found
}

/// Makes the device of a printer PRINTER.
fn name_device(editor: &mut Editor, file: &Seen) {
    let device = file.card.value(40, 46);
    if !is(device, b"PRINTER") {
        let sentence = Sentence::about("% is a printer: PRINTER", Word::of(device));
        editor.rewrite(file, file.card.with(40, 46, b"PRINTER"), sentence);
    }
}

/// Returns the printer that the arguments name, if it is one of these.
fn kept_of<'a>(files: &'a [Seen], wanted: Option<&[u8]>) -> Option<&'a Seen> {
    files.iter().find(|file| wanted == Some(file_name(file)))
}

/// Returns why a deck with several printers is rejected if no argument names one.
fn several(files: &[Seen]) -> Sentence {
    let mut words = [Word::empty(); 4];
    words[0] = Word::of_number(files.len());
    for (place, file) in files.iter().enumerate() {
        if let Some(word) = words.get_mut(place.saturating_add(1)) {
            *word = Word::of(file_name(file));
        }
    }
    let text = if files.len() == 2 {
        "% printers: --printer % or % writes the deck of one, to be run once for each"
    } else {
        "% printers: --printer % or % or % writes the deck of one, to be run once for each"
    };
    Sentence { text, words }
}
