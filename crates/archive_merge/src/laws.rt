//! Laws about an archive that replaces another. Each law is the contract of a function with an empty body: a caller
//! that needs a law calls its function.

ghost use Rattle.std.specs.Prelude.{◌≡◌, ◌↔◌, count_by};
ghost use Rattle.join_core.specs.Listing.{listing};
ghost use Rattle.archive_core.specs.Content.{Operations, IsBelow, changes};

/// Nothing is lost exactly if the new archive is above the old one: if an archive is replaced only by those that lose
/// nothing, its content only rises.
pub fn nothing_is_lost_just_above()
    ensures { (new old : Operations) → (count_by (changes new) (listing old) ≡ 0) ↔ IsBelow old new }
{}
