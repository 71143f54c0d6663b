//! The parts of a code's page.

/// The page of a code. Cards are shown unchanged, one a line.
#[derive(Clone, Copy)]
pub(crate) struct Page {
    pub code: &'static str,
    /// What is wrong, or what a rule does.
    pub sentence: &'static str,
    /// The names, files or fields that its examples use.
    pub given: &'static str,
    /// An example that breaks the rule.
    pub breaks: &'static str,
    /// A similar example that keeps it.
    pub keeps: &'static str,
    pub advice: &'static str,
}

/// The names that the cards of examples use.
const CARDS: &str =
    "In these cards AMT is a number of 3 digits and TOT one of 5, which a card before defines; AR is\nan array of 5 numbers; INPUT is the input file, and PRINT the printer.";

/// The fields that the rows of examples use.
const ROWS: &str =
    "In a program with a printer of 60 places, no disk file, records of 80 columns, and these fields:\n1 a number of 6 digits; 2 a text of 10; 3 an array of 5 numbers; 4 a table of 20 numbers in\nascending sequence; 5 a number of 1 digit; 6 a table of 3 texts; 7 a text constant of 6\ncharacters with 5 places for digits; 8 the date.";

/// What to do with an object program that is rejected.
const ANEW: &str =
    "compile the source again, or ask who made the object program. What rpg2 compile\nmakes is never rejected, so its bytes were changed, or something else made it";

/// Returns a part of a text, counted from 0; empty if the text has fewer.
fn part_of(text: &'static str, separator: char, number: usize) -> &'static str {
    let mut rest = text;
    for _ in 0..number {
        match rest.split_once(separator) {
            Some((_, following)) => rest = following,
            None => return "",
        }
    }
    match rest.split_once(separator) {
        Some((part, _)) => part,
        None => rest,
    }
}

impl Page {
    /// Returns a page of a text of pages, counted from 0, with `@` between them. A page has `%` between its parts: the code, the sentence,
    /// the word `cards` or `rows` for what its examples use or no word, what breaks the rule, what keeps it, and what to do, unless that is
    /// to compile again. After the last page all parts are empty.
    pub fn of(pages: &'static str, number: usize) -> Self {
        let text = part_of(pages, '@', number);
        Page {
            code: part_of(text, '%', 0),
            sentence: part_of(text, '%', 1),
            given: match part_of(text, '%', 2) {
                "cards" => CARDS,
                "rows" => ROWS,
                _ => "",
            },
            breaks: part_of(text, '%', 3),
            keeps: part_of(text, '%', 4),
            advice: match part_of(text, '%', 5) {
                "" => ANEW,
                advice => advice,
            },
        }
    }
}
