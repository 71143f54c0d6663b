//! Data structures that one input field fills: their subfields are read from its columns.

use crate::structure::{Structure, Subfield};
use rpg_fit_deck::{Editor, Seen, Sentence, Word};
use rpg_fit_terms::address_after;
use rpg_fit_words::{Cards, Done, List, NewCard, Outcome, RuleStop, array_of, is, put_cards};

/// Replaces a structure: inserts its subfields after each card that reads the field with its columns, the parent.
pub(crate) fn take_apart(editor: &mut Editor, structure: &Structure, parent: Subfield) -> Done {
    for subfield in structure.subfields.as_slice() {
        check(structure, &parent, subfield)?;
    }
    let number = structure.number();
    structure.check_unchanged(number, parent.name)?;
    structure.check_inputs(parent.name, parent.span, parent.decimals())?;
    let count = put_fields(editor, structure, &parent)?;
    let text = if count == 1 {
        "a data structure: % field is read from the columns of %"
    } else {
        "a data structure: % fields are read from the columns of %"
    };
    let words = [Word::of_number(count), parent.name];
    editor.report(number, Sentence::with(text, &words));
    structure.remove(editor);
    Ok(())
}

/// Inserts the subfields, and returns how many there are.
fn put_fields(editor: &mut Editor, structure: &Structure, parent: &Subfield) -> Outcome<usize> {
    let inputs = structure.inputs(parent.name.text());
    let mut count = 0;
    for input in inputs.checked()? {
        let fields = fields_at(structure, parent, input);
        let following = address_after(&structure.view, input.at);
        put_cards(editor, following, fields.checked()?, structure.number())?;
        count = fields.as_slice().len();
    }
    Ok(count)
}

fn is_parent(parent: &Subfield, subfield: &Subfield) -> bool {
    is(subfield.name.text(), parent.name.text())
}

/// Rejects a subfield that is more than some columns of the parent.
fn check(structure: &Structure, parent: &Subfield, subfield: &Subfield) -> Done {
    let (card, name) = (subfield.seen.number, subfield.name);
    let is_entry = name.text().contains(&b',');
    if is_entry || array_of(&structure.view, name.text()).is_some() {
        return Err(RuleStop::because(card, "an array in a data structure"));
    }
    structure.check_unchanged(card, name)?;
    if subfield.seen.card.column(43) != b' ' {
        return Err(RuleStop::because(card, "a packed or binary subfield"));
    }
    if is_parent(parent, subfield) {
        return Ok(());
    }
    if !parent.span.has(subfield.span) {
        return Err(RuleStop::with(card, "% doesn't lie within %", &[name, parent.name]));
    }
    if parent.decimals() != b' ' && subfield.decimals() == b' ' {
        let why = "% is characters of the number %";
        return Err(RuleStop::with(card, why, &[name, parent.name]));
    }
    Ok(())
}

/// Returns the subfields as input fields, given a card that reads the parent.
fn fields_at(structure: &Structure, parent: &Subfield, input: &Seen) -> Cards {
    let mut fields = List::new(structure.view.alloc);
    let begin = input.card.number(44, 47).unwrap_or(0);
    for subfield in structure.subfields.as_slice() {
        if !is_parent(parent, subfield) {
            let before = subfield.span.first.saturating_sub(parent.span.first);
            let first = begin.saturating_add(before);
            let past = first.saturating_add(subfield.span.length());
            let card = NewCard::copy(&subfield.seen)
                .with(43, 43, &[])
                .with_number(44, 47, first)
                .with_number(48, 51, past.saturating_sub(1))
                .with(59, 74, &[])
                .with_columns(63, 64, &input.card);
            fields.push(card);
        }
    }
    fields
}
