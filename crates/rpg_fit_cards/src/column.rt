//! Blanks columns that have no meaning.

use crate::table_data::COLUMNS;
use crate::wide::narrow_data;
use rpg_fit_deck::{Card, Editor, Seen, Sentence, Word};
use rpg_fit_words::{Done, RuleStop, is};

/// Blanks columns that have no meaning, gives a card file the record length of its block, and cuts what follows column 80.
pub fn columns(editor: &mut Editor) -> Done {
    blank_cards(editor)?;
    narrow_data(editor)
}

fn blank_cards(editor: &mut Editor) -> Done {
    let view = editor.view()?;
    for seen in &view.cards {
        let mut now = *seen;
        if !seen.card.is_comment() {
            blank_habits(editor, &mut now)?;
        }
        cut(editor, &now);
        if !seen.card.is_comment() {
            blank_spares(editor, &mut now);
            put_record_length(editor, &mut now);
            blank_stackers(editor, &mut now);
        }
    }
    Ok(())
}

/// Cuts off what follows the columns of a card.
pub(crate) fn cut(editor: &mut Editor, now: &Seen) {
    if now.width > COLUMNS {
        let last = Word::of_number(now.width);
        let sentence = if now.width == COLUMNS + 1 {
            Sentence::of("column 81 cut")
        } else {
            Sentence::about("columns 81 to % cut", last)
        };
        editor.rewrite(now, now.card, sentence);
    }
}

/// Blanks columns of a card, and reports it unless they are blank.
fn blank(editor: &mut Editor, now: &mut Seen, first: usize, last: usize, sentence: &'static str) {
    if !now.card.is_blank(first, last) {
        now.card.put(first, last, &[]);
        editor.rewrite(now, now.card, Sentence::of(sentence));
    }
}

/// Blanks what a file's areas and extents, and a header's options, stood for.
fn blank_habits(editor: &mut Editor, now: &mut Seen) -> Done {
    match now.card.form() {
        b'F' => {
            blank_areas(editor, now)?;
            blank_extents(editor, now)
        }
        b'H' => blank_options(editor, now),
        _ => Ok(()),
    }
}

/// Blanks the number of a file's areas. Beside keys the column means something else.
fn blank_areas(editor: &mut Editor, now: &mut Seen) -> Done {
    let card = now.card;
    if !card.column(32).is_ascii_digit() || !matches!(card.column(15), b'I' | b'O' | b'C' | b'U') {
        return Ok(());
    }
    if card.is_blank(28, 31) && card.is_blank(35, 38) && card.is_blank(66, 66) {
        blank(editor, now, 32, 32, "two areas (32) blanked");
        return Ok(());
    }
    let why = "32 is % beside keys (28 to 31, 35 to 38) or additions (66)";
    Err(RuleStop::about(now.number, why, Word::of(card.columns(32, 32))))
}

/// Blanks the number of a file's extents.
fn blank_extents(editor: &mut Editor, now: &mut Seen) -> Done {
    for column in 67..=69 {
        if !matches!(now.card.column(column), b' ' | b'0'..=b'9') {
            let extents = Word::of(now.card.value(67, 69));
            return Err(RuleStop::about(now.number, "67 to 69 have %", extents));
        }
    }
    blank(editor, now, 67, 69, "extents (67 to 69) blanked");
    Ok(())
}

/// Why header options are rejected that may change what is printed.
const SIGNS: &str = "signs (40 has %): old numbers may come out with another last character";

const TRANSLATED: &str = "files are translated (43 has %): translate the records beforehand";

/// Rejects the option in a column, unless it is one of the characters that have no meaning for a job over files.
fn check_option(now: &Seen, column: usize, meaningless: &[u8], why: &'static str) -> Done {
    if meaningless.contains(&now.card.column(column)) {
        return Ok(());
    }
    let option = Word::of(now.card.columns(column, column));
    Err(RuleStop::about(now.number, why, option))
}

/// Blanks options of the header without a meaning, and rejects others.
fn blank_options(editor: &mut Editor, now: &mut Seen) -> Done {
    check_option(now, 37, b" IB", "37 has %")?;
    check_option(now, 48, b" 1S", "48 has %")?;
    check_option(now, 40, b" ", SIGNS)?;
    check_option(now, 43, b" ", TRANSLATED)?;
    blank(editor, now, 37, 37, "inquiry (37) blanked");
    blank(editor, now, 48, 48, "shared areas (48) blanked");
    Ok(())
}

/// Blanks columns without a meaning.
fn blank_spares(editor: &mut Editor, now: &mut Seen) {
    if now.card.form() == b'F' {
        let device = "the symbolic device (47 to 52) blanked";
        blank(editor, now, 47, 52, device);
        blank(editor, now, 53, 53, "labels (53) blanked");
        blank(editor, now, 70, 70, "the unit (70) blanked");
    } else if now.card.form() == b'H' {
        blank(editor, now, 15, 15, "debug (15) blanked");
        blank(editor, now, 41, 41, "forms alignment (41) blanked");
    }
}

/// Whether a file has one record per block, by its device.
fn has_one_record(card: &Card) -> bool {
    let device = card.value(40, 46);
    let is_read = is(device, b"READ40") || is(device, b"READER");
    is_read
        || is(device, b"MFCU1")
        || is(device, b"MFCU2")
        || matches!(device, [b'P', b'R', b'I', b'N', b'T', ..])
}

fn put_record_length(editor: &mut Editor, now: &mut Seen) {
    let card = now.card;
    let wants = card.form() == b'F' && card.is_blank(24, 27) && has_one_record(&card);
    if wants && card.number(20, 23).is_some() {
        now.card = card.with(24, 27, card.columns(20, 23));
        let sentence = Sentence::of("the record length is that of the block (20 to 23)");
        editor.rewrite(now, now.card, sentence);
    }
}

fn blank_stackers(editor: &mut Editor, now: &mut Seen) {
    let card = now.card;
    let is_type = card.form() == b'I' && !card.is_blank(7, 16);
    if is_type && card.column(42).is_ascii_digit() {
        blank(editor, now, 42, 42, "the stacker (42) blanked");
    }
    if card.form() == b'O' && card.column(16).is_ascii_digit() {
        blank(editor, now, 16, 16, "the stacker (16) blanked");
    }
}
