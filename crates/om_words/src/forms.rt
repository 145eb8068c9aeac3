//! Forms of what is printed, and sections of texts.

use std::alloc::{AllocError, Global};

/// Returns whether what is printed is of a form, in which each word in capitals stands for any word.
pub fn is_of(printed: &str, form: &str) -> bool {
    let mut words = printed.split_whitespace();
    for wanted in form.split_whitespace() {
        match words.next() {
            Some(word) if word == wanted || stands_for_any(wanted) => {}
            _ => return false,
        }
    }
    words.next().is_none()
}

fn stands_for_any(word: &str) -> bool {
    word.bytes().all(|byte| byte.is_ascii_uppercase())
}

/// Returns the words of the lines of a text from the one that begins with `first`, up to the next one that begins with
/// `next` or the end: each between two spaces, without a comma or a semicolon behind it. Empty where no line begins so.
pub fn section(alloc: Global, text: &str, first: &str, next: &str) -> Result<String, AllocError> {
    let mut found = String::new(alloc);
    for line in text.lines() {
        if !found.is_empty() && line.starts_with(next) {
            return Ok(found);
        }
        if !found.is_empty() || line.starts_with(first) {
            push_words(&mut found, line)?;
        }
    }
    Ok(found)
}

fn push_words(text: &mut String, line: &str) -> Result<(), AllocError> {
    if text.is_empty() {
        text.push(' ')?;
    }
    for word in line.split_whitespace() {
        let ended = word.strip_suffix(',').or(word.strip_suffix(';'));
        text.push_str(ended.unwrap_or(word))?;
        text.push(' ')?;
    }
    Ok(())
}
