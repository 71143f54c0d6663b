//! Floating dollar signs in edit words: replaced by an edit code with the same effect.

use crate::field::worded;
use rpg_fit_deck::{Editor, Seen, Sentence, View, Word};
use rpg_fit_words::{Constant, DeckLines, Done, Form, RuleStop, is};

/// Replaces each edit word with a floating dollar sign by an edit code.
pub fn dollars(editor: &mut Editor) -> Done {
    let deck = DeckLines::of(editor)?;
    code_lines(editor, &deck)
}

fn code_lines(editor: &mut Editor, deck: &DeckLines) -> Done {
    for line in deck.lines.iter() {
        code_fields(editor, &deck.view, line.fields.as_slice())?;
    }
    Ok(())
}

fn code_fields(editor: &mut Editor, view: &View, fields: &[Seen]) -> Done {
    for field in fields {
        match worded(view, &field.card) {
            Some((form, word)) if has_floating_dollar(word.text()) => {
                code_field(editor, field, form, word.text())?;
            }
            _ => {}
        }
    }
    Ok(())
}

/// Edits a number by the code with the same effect as its word.
fn code_field(editor: &mut Editor, field: &Seen, form: Form, word: &[u8]) -> Done {
    let Some(code) = code_of(form, word) else {
        return Err(RuleStop::because(field.number, why_none(form, word)));
    };
    let card = field.card.with(38, 38, &[code]).with(45, 70, b"'$'");
    let remark = "the $ that floats is that of code %";
    editor.rewrite(field, card, Sentence::about(remark, Word::of(&[code])));
    Ok(())
}

/// Whether a dollar sign stands right before the first `0` or `*` of a word.
fn has_floating_dollar(word: &[u8]) -> bool {
    let mut last = b' ';
    for character in word {
        if matches!(*character, b'0' | b'*') {
            return last == b'$';
        }
        last = *character;
    }
    false
}

/// Returns the code with the same effect as a word with a floating dollar sign.
fn code_of(form: Form, word: &[u8]) -> Option<u8> {
    for code in b"1JA3LC" {
        if is(word_of(*code, form).text(), word) {
            return Some(*code);
        }
    }
    None
}

/// Returns why a word with a floating dollar sign has the effect of no code.
fn why_none(form: Form, word: &[u8]) -> &'static str {
    match code_of(form, without_commas(word).text()) {
        Some(_) => "a $ that floats in a word with other commas than an edit code's",
        None => "a $ that floats in a word which no edit code has",
    }
}

/// Returns the edit word with the same effect as a code and a dollar sign; empty if the number has no decimals, or no other digits.
fn word_of(code: u8, form: Form) -> Constant {
    let mut word = Constant::empty();
    let decimals = form.places();
    let whole = form.length.saturating_sub(decimals);
    if decimals == 0 || whole == 0 {
        return word;
    }
    for place in 1..whole {
        word.push(b' ');
        if matches!(code, b'1' | b'J' | b'A') && (whole - place) % 3 == 0 {
            word.push(b',');
        }
    }
    let places = b"         ".get(..decimals).unwrap_or(&[]);
    let word = word.and(b"$0.").and(places);
    match code {
        b'J' | b'L' => word.and(b"-"),
        b'A' | b'C' => word.and(b"CR"),
        _ => word,
    }
}

/// Returns a word without the commas before its dollar sign.
fn without_commas(word: &[u8]) -> Constant {
    let mut plain = Constant::empty();
    let mut is_front = true;
    for character in word {
        is_front = is_front && *character != b'$';
        if !is_front || *character != b',' {
            plain.push(*character);
        }
    }
    plain
}
