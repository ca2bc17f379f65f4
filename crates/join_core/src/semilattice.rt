//! Types with a join.
ghost use Rattle.std.specs.Prelude.{◌≡◌, ◌↔◌, OnErr, OnOk, IsTrue};
ghost use Rattle.join_core.specs.Bound.{IsLeastAbove, IsTowards};

use heap_memory::NoMemory;

/// A type whose contents join, as the replicas of a state-based object do (INRIA RR-7506, 2011).
///
/// The order is on contents and not on values: two values with the same content may differ in other fields of their
/// type, for example in reserved memory.
pub trait Join {
    /// The type of contents, which clauses name. No value of it exists at run time.
    type Content;

    // The content of a value.
    ghost content: { Self → Self.Content };

    // The values of that type that are contents.
    ghost is_content: { Self.Content → Type 0 };

    // The order on contents: the first holds no more than the second.
    ghost below: { Self.Content → Self.Content → Type 0 };

    /// Adds the content of `other`.
    ///
    /// Fails only if memory runs out. A part of `other` may then have been added, and the call may be repeated:
    /// `laws::resumed` says that the result is then that of a first call without a failure.
    fn join(&mut self, other: &Self) -> Result<(), NoMemory>
        ensures joined { OnOk result
            (IsLeastAbove is_content below (content self.old) (content other.now) (content self.new)) }
        ensures refused { OnErr result
            (IsTowards is_content below (content self.old) (content other.now) (content self.new)) };

    /// Adds the content of `other`, which is moved and not copied. Otherwise as [`join`](Join::join).
    ///
    /// A failure drops `other`, of which a part may have been added. To call again, a caller makes `other` again from
    /// its source, for example by reading its text once more; or it calls `join`, which leaves `other` unchanged.
    fn absorb(&mut self, other: Self) -> Result<(), NoMemory>
        ensures joined { OnOk result
            (IsLeastAbove is_content below (content self.old) (content other) (content self.new)) }
        ensures refused { OnErr result
            (IsTowards is_content below (content self.old) (content other) (content self.new)) };

    /// Whether the content of `other` is below this one, so that joining it would change nothing.
    fn covers(&self, other: &Self) -> bool
        ensures answer { IsTrue result ↔ below (content other.now) (content self.now) }
        ensures this_is_content { is_content (content self.now) }
        ensures other_is_content { is_content (content other.now) };

    ghost reflexive: { (x : Self.Content) → below x x };

    ghost transitive: { (x y z : Self.Content) → below x y → below y z → below x z };

    ghost antisymmetric: { (x y : Self.Content) → is_content x → is_content y → below x y → below y x → x ≡ y };

    // Each two contents have a join.
    ghost joins: { (x y : Self.Content)
        → is_content x
        → is_content y
        → (z : Self.Content) × IsLeastAbove is_content below x y z };
}
