//! Contents with a join: an order on contents, and a join whose result is the least content above two.
//!
//! These are the state-based objects of Shapiro, Preguiça, Baquero and Zawirski, "A comprehensive study of Convergent
//! and Commutative Replicated Data Types" (INRIA RR-7506, 2011): replicas whose states form a join semilattice, and
//! that merge by its least upper bound.
//!
//! - `semilattice`: the trait [`Join`];
//! - [`laws`]: laws about each type with a join, and about each finite set.
//!
//! `specs/Bound` defines least upper bounds, and `specs/Listing` finite sets as ascending lists, for contents that are
//! finite sets; `proofs/` has their lemmas: the union of two (`Unions`), sets from lists (`Members`), the index of a
//! key (`Place`, `Search`), the listing of a set (`Listing`) and of a part of it (`Retain`), and two merged lists
//! (`Merge`).
#![tactic(auto)]

pub mod laws;
mod semilattice;

pub use semilattice::Join;
