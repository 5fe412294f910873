//! Texts of several lines, and lists, on one line.

use crate::said::{Failure, Said};
use std::alloc::{AllocError, Global};
use std::fmt::{Display, Write};

/// Returns the text that the words encode: each ` | `, and a ` |` at the end, represents a line feed.
pub fn text_of(alloc: Global, words: &[u8]) -> Result<Vec<u8>, Failure> {
    let mut text = Vec::new(alloc);
    let mut rest = words;
    for _ in 0..words.len() {
        match rest {
            [b' ', b'|', b' ', after @ ..] => {
                text.push(b'\n')?;
                rest = after;
            }
            [b' ', b'|'] => {
                text.push(b'\n')?;
                rest = &[];
            }
            [byte, after @ ..] => {
                text.push(*byte)?;
                rest = after;
            }
            [] => break,
        }
    }
    Ok(text)
}

/// Returns the words that encode the text.
pub fn words_of(alloc: Global, text: &[u8]) -> Result<String, AllocError> {
    let mut words = String::new(alloc);
    let mut is_ended = false;
    for byte in text {
        if is_ended {
            words.push(' ')?;
        }
        is_ended = *byte == b'\n';
        if is_ended {
            words.push_str(" |")?;
        } else {
            words.push(*byte as char)?;
        }
    }
    Ok(words)
}

/// Returns the items with a mark between them; a dash for an empty list.
pub(crate) fn listed<T: Display>(
    alloc: Global,
    items: &[T],
    mark: &str,
) -> Result<Said, AllocError> {
    let [first, rest @ ..] = items else {
        return Ok(Said::Nothing);
    };
    let mut text = first.to_string(alloc)?;
    for item in rest {
        write!(text, "{mark}{item}")?;
    }
    Ok(Said::Text(text))
}
