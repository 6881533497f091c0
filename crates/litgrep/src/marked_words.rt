//! The words of a command line if some word is not UTF-8.
use std::alloc::{AllocError, Global};
use std::env::FillError;
use std::rt::Env;

/// What marks a word that is not UTF-8. The system ends each word with this byte, so no word holds it.
const MARK: char = '\0';

/// The most bytes that the system lets a word have.
const MOST_WORD_LEN: usize = 128 * 1024;

/// The words after the program's name. A word that is not UTF-8 gets a mark before its bytes, or after its first `-`,
/// and all but printable ASCII in it is escaped as in Rust. `None` if a word is longer than `MOST_WORD_LEN`.
pub fn marked_words<R: Env + AllocGlobal>(rt: &R) -> Result<Option<Vec<String>>, AllocError> {
    let alloc = rt.alloc();
    let mut buffer = vec![in alloc; 0u8; MOST_WORD_LEN]?;
    let mut words = Vec::new(alloc);
    for place in 1..usize::MAX {
        match rt.arg(place, buffer.as_mut_slice()) {
            Ok(len) => words.push(marked(alloc, &buffer[..len])?)?,
            Err(FillError::NotPresent) => break,
            Err(FillError::TooLong) => return Ok(None),
        }
    }
    Ok(Some(words))
}

/// The word as a text, marked and escaped if it is not UTF-8.
fn marked(alloc: Global, word: &[u8]) -> Result<String, AllocError> {
    if let Ok(text) = str::from_utf8(word) {
        return String::from_str(alloc, text);
    }
    match word.split_first() {
        Some((b'-', rest)) => format!(in alloc; "-{MARK}{}", rest.escape_ascii()),
        _ => format!(in alloc; "{MARK}{}", word.escape_ascii()),
    }
}

/// Whether the text, or a word in it, is marked.
pub fn is_marked(text: &str) -> bool {
    text.contains(MARK)
}

/// Whether one of the texts is marked.
pub fn any_is_marked(texts: &[String]) -> bool {
    for text in texts {
        if is_marked(text.as_str()) {
            return true;
        }
    }
    false
}

/// Takes the marks off the words, and returns copies of the words that had one.
pub fn take_marks(alloc: Global, words: &mut Vec<String>) -> Result<Vec<String>, AllocError> {
    let mut unmarked = Vec::new(alloc);
    for place in 0..words.len() {
        let word = words[place].as_str();
        if let Some((before, after)) = word.split_once(MARK) {
            let text = format!(in alloc; "{before}{after}")?;
            unmarked.push(text.clone()?)?;
            words[place] = text;
        }
    }
    Ok(unmarked)
}
