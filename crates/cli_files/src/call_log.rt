//! A list of calls that only clauses read. It takes no memory, and its methods do nothing at run time.

ghost use Rattle.std.specs.Prelude.{◌≡◌, ℕ, List, [], ◌∷◌, ◌++◌};
ghost use Rattle.std.specs.Borrow.{ftrue};

use std::marker::{Model, PhantomData};

/// The arguments of the noted calls, in order.
#[derive(Drop)]
pub struct CallLog {
    marker: PhantomData<u8>,
    pub ghost entries: { List (List ℕ) },
}

impl Model for CallLog {
    ghost also_owns = { λ _. ftrue };
}

impl CallLog {
    pub fn new() -> CallLog
        ensures { result.entries ≡ [] }
    {
        CallLog {
            marker: PhantomData,
        }
    }

    pub fn note(&mut self, _entry: &[u8])
        ensures { self.new.entries ≡ self.old.entries ++ _entry.now ∷ [] }
    {}
}
