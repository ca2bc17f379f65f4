//! The content of an archive of Mach-O slices, and the trait of an archive with such a content.
//!
//! An archive keeps a set of operations: admissions of slices and retirements. It is the two-phase set of Shapiro,
//! Preguiça, Baquero and Zawirski (INRIA RR-7506, 2011): a removed slice never comes back, and two archives join by
//! adding each other's operations. It differs in two points. A retirement may arrive before the admission that it
//! covers, and is kept. And a retired slice is not kept: when its retirement arrives, the slice and its bytes are
//! dropped, and later admissions of it are ignored.
//!
//! - `keys`: the keys of slices;
//! - `faults`: faults of bytes that are no slice, or are not admitted;
//! - `slices`: the bytes of a valid image;
//! - `layout`: the bytes of keys and of retirements in records;
//! - `retirements`: retirements, and the slices that they cover;
//! - `operations`: admissions and retirements, with their records;
//! - `find`: the rows of a search for a UUID;
//! - `lookup`: the address that is asked for under a key, and the answer;
//! - `names`: the rows of a search for a name;
//! - `archives`: the trait [`Archive`];
//! - [`laws`]: laws about the faults of a slice.
#![tactic(auto)]

mod archives;
mod faults;
mod find;
mod keys;
pub mod laws;
mod layout;
mod lookup;
mod names;
mod operations;
mod retirements;
mod slices;

pub use archives::{Archive, Contents, take_all};
pub use faults::{AdmitFault, SliceFault};
pub use find::{FindRow, FindState};
pub use keys::{ArchKey, Digest, SliceKey, compare_keys, is_key};
pub use layout::{RETIREMENT, RETIREMENT_LEN, key_prefix, retirement_bytes, tagged_bytes};
pub use lookup::{Answer, Own, Where};
pub use names::{NameRow, OwnedNameRow};
pub use operations::{Operation, Record, retirement};
pub use retirements::Retirements;
pub use slices::{CheckedSlice, Slice, SliceFacts};
