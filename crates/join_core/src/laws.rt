//! Laws about each type with a join, from the three laws of its order alone; and about the one ascending list of a
//! finite set.
//!
//! Each law is the contract of a function with an empty body. Its clauses are about contents and their least upper
//! bounds: `IsLeastAbove is_content below x y z` says that `z` is the join of `x` and `y`. A caller that needs a law
//! calls its function. The laws are those of a join semilattice, from which the convergence of state-based objects
//! follows (INRIA RR-7506, 2011).
ghost use Rattle.std.specs.Prelude.{◌≡◌, List, length};
ghost use Rattle.std.specs.declared.cmp.Ordering.{Ordering};
ghost use Rattle.std.specs.Cmp.{IsTotalOrder};
ghost use Rattle.std.specs.FinSet.{FinSet, IsAntisymmetric, len};
ghost use Rattle.join_core.specs.Bound.{IsLeastAbove, IsTowards};
ghost use Rattle.join_core.specs.Listing.{IsListing, listing};

use crate::Join;

/// Two contents have a join, and a content at which their join stopped half way is below it.
pub fn exists<J: Join>()
    ensures joined { (x y : J.Content)
        → J.is_content x
        → J.is_content y
        → (joined : J.Content) × IsLeastAbove J.is_content J.below x y joined }
    ensures stopped { (x y mid : J.Content)
        → J.is_content x
        → J.is_content y
        → IsTowards J.is_content J.below x y mid
        → (joined : J.Content) × IsLeastAbove J.is_content J.below x y joined × J.below mid joined }
{}

/// Two contents have at most one join.
pub fn unique<J: Join>()
    ensures { (x y joined again : J.Content)
        → IsLeastAbove J.is_content J.below x y joined
        → IsLeastAbove J.is_content J.below x y again
        → joined ≡ again }
{}

/// Joins in either grouping have the same result: `(x ∨ y) ∨ z` is `x ∨ (y ∨ z)`.
pub fn associative<J: Join>()
    ensures { (x y z xy yz left right : J.Content)
        → IsLeastAbove J.is_content J.below x y xy
        → IsLeastAbove J.is_content J.below xy z left
        → IsLeastAbove J.is_content J.below y z yz
        → IsLeastAbove J.is_content J.below x yz right
        → left ≡ right }
{}

/// Joins in either order have the same result: `x ∨ y` is `y ∨ x`.
pub fn commutative<J: Join>()
    ensures { (x y left right : J.Content)
        → IsLeastAbove J.is_content J.below x y left
        → IsLeastAbove J.is_content J.below y x right
        → left ≡ right }
{}

/// A join of a content with itself changes nothing: `x ∨ x` is `x`.
pub fn idempotent<J: Join>()
    ensures { (x : J.Content) → J.is_content x → IsLeastAbove J.is_content J.below x x x }
{}

/// Joins preserve the order: if `x` is below `y`, `x ∨ z` is below `y ∨ z`.
pub fn monotone<J: Join>()
    ensures { (x y z xz yz : J.Content)
        → J.below x y
        → IsLeastAbove J.is_content J.below x z xz
        → IsLeastAbove J.is_content J.below y z yz
        → J.below xz yz }
{}

/// A join that stopped half way and is repeated has the same result: `mid ∨ other` is `old ∨ other` if `mid` is above
/// `old` and below that join.
pub fn resumed<J: Join>()
    ensures { (old mid other joined : J.Content)
        → IsLeastAbove J.is_content J.below old other joined
        → J.below old mid
        → J.below mid joined
        → IsLeastAbove J.is_content J.below mid other joined }
{}

/// A finite set has one list of its members in ascending order, and that is its `listing`: for each total order in
/// which no two different members compare equal.
pub fn one_listing<K>()
    ensures listed { (R : K → K → Ordering) (s : FinSet R)
        → IsTotalOrder R
        → IsAntisymmetric R
        → IsListing R s (listing s) }
    ensures one { (R : K → K → Ordering) (s : FinSet R) (members others : List K)
        → IsTotalOrder R
        → IsAntisymmetric R
        → IsListing R s members
        → IsListing R s others
        → members ≡ others }
    ensures number { (R : K → K → Ordering) (s : FinSet R)
        → IsTotalOrder R
        → IsAntisymmetric R
        → length (listing s) ≡ len s }
{}
