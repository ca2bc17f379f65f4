//! The text of a message.

use heap_memory::Heap;
use std::marker::Model;

/// A message that a site sent, as its text.
#[derive(Drop)]
pub struct Message {
    text: Vec<u8, Heap>,
}

impl Model for Message {
    ghost use Rattle.std.specs.Prelude.{ℕ, List};

    ghost Value = { List ℕ };

    ghost view = { λ message. message.text.items };
}

impl Message {
    ghost use Rattle.std.specs.Prelude.{◌≡◌};

    pub(crate) fn new(text: Vec<u8, Heap>) -> Message
        ensures { result ≡ text.items }
    {
        Message { text }
    }

    /// The bytes of the message.
    pub fn text(&self) -> &[u8]
        ensures { result.now ≡ self.now }
    {
        &self.text
    }
}
