//! The words of a case.
//!
//! A line is cut at each space. The text between two `"` is one word, with its spaces; in a line that has such words,
//! an empty word is `""`.

use heap_memory::NoMemory;
use std::alloc::Global;

/// The first word, and the rest.
pub fn first_word(line: &str) -> (&str, &str) {
    match line.strip_prefix('"') {
        Some(quoted) => {
            let (word, rest) = quoted.split_once('"').unwrap_or((quoted, ""));
            (word, rest.strip_prefix(' ').unwrap_or(rest))
        }
        None => line.split_once(' ').unwrap_or((line, "")),
    }
}

/// All words.
pub fn words_of(alloc: Global, line: &str) -> Result<Vec<&str>, NoMemory> {
    let has_quoted = line.contains('"');
    let mut words = Vec::new(alloc);
    let mut is_quoted = false;
    for piece in line.split('"') {
        if is_quoted {
            words.push(piece)?;
        } else {
            push_cut(&mut words, piece, has_quoted)?;
        }
        is_quoted = !is_quoted;
    }
    Ok(words)
}

// Adds the words of a line without `"`; if it is a piece of a line that has some, empty words are left out.
fn push_cut<'t>(words: &mut Vec<&'t str>, line: &'t str, is_piece: bool) -> Result<(), NoMemory> {
    for word in line.split(' ') {
        if !is_piece || !word.is_empty() {
            words.push(word)?;
        }
    }
    Ok(())
}
