//! A sink that keeps nothing.

ghost use Rattle.std.specs.Prelude.{◌<◌, None};

use crate::{Failed, Sink};

/// Accepts all bytes, keeps none, and never fails.
#[derive(Drop)]
pub struct Nowhere;

impl Sink for Nowhere {
    ghost held = { λ _. None };

    ghost failures = { λ _. 0 };

    fn push(&mut self, bytes: &[u8]) -> Result<usize, Failed> {
        Ok(bytes.len())
    }
}
