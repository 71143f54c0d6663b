//! Pages as text.

use crate::page::Page;
use crate::topic::{FAMILIES, Topic};
use crate::writer::TextWriter;
use std::alloc::{AllocError, Global};

const TITLE: &str =
    "# What rpg2's codes mean\n\nrpg2 explain CODE prints one code of this list, such as F16, S5, V21, B5 or halt 4; rpg2 explain prints\nthem all. Cards are shown below a ruler, which is a comment card: column 1 is the first of the line.\n";

/// The ruler above cards, which is itself a card, as `rpg2 cards --ruler` prints it.
const RULER: &str =
    "```text\n....+.*..1....+....2....+....3....+....4....+....5....+....6....+....7....+....8\n";

const FENCE: &str = "```\n";

/// Returns the headings above the examples of a page.
const fn headings(topic: Topic) -> (&'static str, &'static str) {
    match topic {
        Topic::Rewriting(_) => ("\nBefore:\n\n", "\nAfter:\n\n"),
        _ => ("\nBreaks it:\n\n", "\nKeeps it:\n\n"),
    }
}

/// Whether a line of a page is the first of some cards: prose begins in the first column.
fn begins_cards(line: &str) -> bool {
    line.starts_with("    ")
}

/// Writes examples: prose unchanged, and cards up to an empty line between a ruler and a fence.
fn write_examples(out: &mut TextWriter, text: &str) {
    let mut are_cards = false;
    for line in text.lines() {
        if are_cards && line.is_empty() {
            out.write_str(FENCE);
            are_cards = false;
        } else if !are_cards && begins_cards(line) {
            out.write_str(RULER);
            are_cards = true;
        }
        out.write_str(line);
        out.write_char('\n');
    }
    if are_cards {
        out.write_str(FENCE);
    }
}

fn write_page(out: &mut TextWriter, topic: Topic) {
    let page = topic.page();
    out.fill("## {}: {}\n", &[page.code.into(), page.sentence.into()]);
    if !page.given.is_empty() {
        out.fill("\n{}\n", &[page.given.into()]);
    }
    let (bad, valid) = headings(topic);
    out.write_str(bad);
    write_examples(out, page.breaks);
    out.write_str(valid);
    write_examples(out, page.keeps);
    out.fill(
        "\nWhat to do: {}.\n\nThen: {}.\n",
        &[page.advice.into(), topic.following().into()],
    );
}

/// Returns the pages of codes, one after another.
pub fn pages_text(alloc: Global, topics: &[Topic]) -> Result<String, AllocError> {
    let mut out = TextWriter::new(alloc);
    for (place, topic) in topics.iter().enumerate() {
        if place > 0 {
            out.write_char('\n');
        }
        write_page(&mut out, *topic);
    }
    out.finish()
}

/// More than the codes of any family.
const MOST: usize = 40;

/// Writes the pages of a family, each after an empty line; or a line for each, with the code and its sentence.
fn write_family(out: &mut TextWriter, family: Topic, has_pages: bool) {
    for number in 1..MOST {
        let Some(topic) = family.sibling_if_any(number) else {
            continue;
        };
        if has_pages {
            out.write_char('\n');
            write_page(out, topic);
        } else {
            let Page { code, sentence, .. } = topic.page();
            out.fill("{:<8}{}\n", &[code.into(), sentence.into()]);
        }
    }
}

/// Returns all pages, as docs/MESSAGES.md begins with them.
pub fn all_pages(alloc: Global) -> Result<String, AllocError> {
    let mut out = TextWriter::new(alloc);
    out.write_str(TITLE);
    for family in FAMILIES {
        write_family(&mut out, family, true);
    }
    out.finish()
}

/// Returns a line for each code: the code and its sentence.
pub fn list_text(alloc: Global) -> Result<String, AllocError> {
    let mut out = TextWriter::new(alloc);
    for family in FAMILIES {
        write_family(&mut out, family, false);
    }
    out.finish()
}
