//! Sentences about cards.

use rpg_cli_text::TextWriter;
use rpg_fit::Sentence;

/// Writes a sentence with a word in place of each `%`.
pub(crate) fn write_sentence(out: &mut TextWriter, sentence: &Sentence) {
    let mut words = sentence.words.iter();
    for character in sentence.text.chars() {
        if character != '%' {
            out.write_char(character);
        } else if let Some(word) = words.next() {
            out.write_shown(word.text());
        }
    }
}
