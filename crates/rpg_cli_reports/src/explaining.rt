//! The pages of codes.

use rpg_cli_answers::{Answer, CommandStop, Listener, tell_made};
use rpg_cli_diagnostics::{Draft, Level};
use rpg_cli_text::{HALTS, Topic, all_pages, list_text, pages_text, topic_of};
use rpg_cli_words::Request;
use std::alloc::{AllocError, Global};

fn halt_of(alloc: Global, number: &str) -> Result<Option<Topic>, AllocError> {
    let name = format!(in alloc; "halt{number}")?;
    Ok(topic_of(name.as_str()))
}

/// Returns the halt that two arguments name: `halt`, and its number.
fn halt_at(alloc: Global, arguments: &[&str], place: usize) -> Result<Option<Topic>, AllocError> {
    match arguments.get(place..) {
        Some([first, number, ..]) if first.eq_ignore_ascii_case("halt") => halt_of(alloc, number),
        _ => Ok(None),
    }
}

/// Appends the topics of an argument that isn't followed by the number of a halt: a code, or all halts. Returns whether it is one.
fn push_topics(topics: &mut Vec<Topic>, argument: &str) -> Result<bool, AllocError> {
    if argument.eq_ignore_ascii_case("halts") || argument.eq_ignore_ascii_case("halt") {
        for halt in HALTS {
            topics.push(Topic::Halt(halt))?;
        }
    } else if let Some(topic) = topic_of(argument) {
        topics.push(topic)?;
    } else {
        return Ok(false);
    }
    Ok(true)
}

/// Returns the topics of the arguments: codes, and `halt` with the number after it; a bare `halt` and `halts` stand for all halts. None if
/// one isn't a code.
fn topics_of(alloc: Global, arguments: &[&str]) -> Result<Option<Vec<Topic>>, AllocError> {
    let mut topics = Vec::new(alloc);
    let mut is_number = false;
    for (place, argument) in arguments.iter().enumerate() {
        if is_number {
            is_number = false;
        } else if let Some(halt) = halt_at(alloc, arguments, place)? {
            topics.push(halt)?;
            is_number = true;
        } else if !push_topics(&mut topics, argument)? {
            return Ok(None);
        }
    }
    Ok(Some(topics))
}

/// Returns the requested pages, all of them, or the list of codes; None if a code doesn't exist.
fn text_of(alloc: Global, request: &Request) -> Result<Option<String>, AllocError> {
    if request.lists {
        return Ok(Some(list_text(alloc)?));
    }
    if request.codes.is_empty() {
        return Ok(Some(all_pages(alloc)?));
    }
    match topics_of(alloc, &request.codes)? {
        None => Ok(None),
        Some(topics) => Ok(Some(pages_text(alloc, &topics)?)),
    }
}

const CODES: &str =
    "codes are S1 to S6, F1 to F18, W1 to W15, V1 to V26, B1 to B7, A1 to A30, and halt 1 to halt 8";

pub fn explain<L: Listener>(
    alloc: Global,
    request: &Request,
    listener: &mut L,
) -> Result<Answer, CommandStop> {
    match text_of(alloc, request) {
        Ok(Some(text)) => {
            listener.show(text.as_str())?;
            Ok(Answer::Explained)
        }
        Ok(None) => {
            let told = Draft::new(alloc, Level::Error, None, None).filled(CODES, &[]);
            tell_made(listener, told);
            Ok(Answer::NoSuchCode)
        }
        Err(_) => Ok(Answer::NoMemory),
    }
}
