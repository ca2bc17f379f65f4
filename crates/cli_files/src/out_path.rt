//! The path of OUT, at which its draft is published.

ghost use Rattle.std.specs.Prelude.{◌≡◌, None};
ghost use Rattle.cli_files.specs.OutFiles.{published_account};

use crate::out_file::{MOST_FAILURES, OutFile};
use crate::published::Published;
use byte_device::{Failed, Target};
use std::rt::Files;

/// The published OUT, if there is one, and the number of failed attempts to publish.
#[derive(Drop)]
pub struct OutTarget<'a, F: Files> {
    files: &'a F,
    published: Option<Published>,
    failures: u64,
}

impl<'a, F: Files> OutTarget<'a, F> {
    /// A path at which nothing was published.
    pub fn new(files: &'a F) -> Self
        ensures published { result.published ≡ None }
        ensures failures { result.failures ≡ 0 }
    {
        OutTarget {
            files,
            published: None,
            failures: 0,
        }
    }
}

impl<'a, F: Files> Target for OutTarget<'a, F> {
    type Draft = OutFile<'a, F>;

    ghost published = { λ out. published_account out.published };

    ghost failures = { λ out. out.failures };

    fn publish(&mut self, draft: &mut OutFile<'a, F>) -> Result<(), Failed> {
        if self.failures == MOST_FAILURES {
            return Err(Failed);
        }
        match draft.publish_written() {
            Some(published) => {
                self.published = Some(published);
                Ok(())
            }
            None => {
                self.failures += 1;
                Err(Failed)
            }
        }
    }
}
