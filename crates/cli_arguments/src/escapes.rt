//! Words and paths as they are printed: a control character, which controls a terminal, is escaped.

ghost use Rattle.std.specs.Prelude.{◌≡◌, ◌++◌, IfOk, OnOk, codes, string_bytes};
ghost use Rattle.std.specs.List.{list_any};
ghost use Rattle.cli_arguments.specs.Shown.{has_control, shown, shown_character, without_line_feed};

use std::alloc::{AllocError, Global};
use std::convert::AsStr;
use std::fmt::Write;

/// Adds a character as it is printed.
#[tactic(auto, using(text_values::proofs::Digits::padded_hex2))]
fn push_shown(shown: &mut String, character: char) -> Result<(), AllocError>
    ensures { OnOk result (string_bytes shown.new ≡ string_bytes shown.old ++ shown_character character) }
{
    if character.is_control() {
        let code = u32::from(character);
        write!(shown, "\\x{code:02x}")
    } else {
        shown.push(character)
    }
}

/// A text as it is printed: `\x` and two hex digits for each control character.
pub fn shown(alloc: Global, text: &str) -> Result<String, AllocError>
    ensures { IfOk result (λ s. string_bytes s ≡ shown text.now) }
{
    let mut shown = String::new(alloc);
    'characters: for character in text.chars() {
        push_shown(&mut shown, character)?;
    }
    Ok(shown)
}

/// A text without a line feed at its end.
pub fn without_line_feed(text: &str) -> &str
    ensures { result.now ≡ without_line_feed text.now }
{
    match text.strip_suffix("\n") {
        Some(line) => line,
        None => text,
    }
}

/// A text of several lines as one line, with a line feed at its end.
pub fn shown_line(alloc: Global, text: &str) -> Result<String, AllocError>
    ensures { IfOk result (λ line. string_bytes line ≡ shown (without_line_feed text.now) ++ codes "\n") }
{
    let mut line = shown(alloc, without_line_feed(text))?;
    line.push('\n')?;
    Ok(line)
}

/// Whether a text has a control character.
#[tactic(auto, unfolding(crate::specs::Shown::has_control))]
fn is_controlled(text: &str) -> bool
    ensures { result ≡ has_control text.now }
{
    text.chars().any(char::is_control)
}

/// Whether one of these words has a control character.
pub fn has_control<S: AsStr>(words: &[S]) -> bool
    ensures { result ≡ list_any (λ word. has_control (S.text word)) words.now }
{
    words.iter().any(|word| is_controlled(word.as_str()))
}
