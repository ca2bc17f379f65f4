//! Stored bytes that are compared with their digests, page by page, before one of them is returned.
//!
//! Bytes of at most one page, 4,096 bytes, are stored as they are. More bytes are stored after the SHA-256 of each of
//! their pages, one after another; these digests are bytes that are stored in the same way. So the levels of digests
//! end in one page, whose SHA-256 is the root. A caller with the root can trust each byte that is returned.
//!
//! - `claim`: [`Claim`], the place at which bytes are said to be stored;
//! - `fault`: [`CheckFault`], why bytes cannot be returned;
//! - `sizes`: the number of bytes that are stored, and of each level;
//! - `checking`: a number of bytes, compared with their digest; [`read_all`], all bytes of a claim;
//! - `level`: the known pages of a level;
//! - `pages`: [`Pages`], stored bytes, and their known pages;
//! - `opening`: [`Pages::open`], the bytes of a claim; `reading`: [`Pages::read`], some of them;
//! - `halving`: [`partition_point`], a binary search among rows in pages ([`Sought`]);
//! - `groups`: [`Groups`], the place of rows of any size in groups; `group_reading`: one of the groups;
//! - `storing`: [`store`], bytes with their digests; `numbers`: the numbers among stored bytes;
//! - `laws`: how bytes are stored; the assumption about SHA-256, and when it is not needed.
#![tactic(auto)]

mod checking;
mod claim;
mod fault;
mod group_reading;
mod groups;
mod halving;
pub mod laws;
mod level;
mod numbers;
mod opening;
mod pages;
mod reading;
mod sizes;
mod storing;

pub use checking::read_all;
pub use claim::Claim;
pub use fault::CheckFault;
pub use groups::{GROUP_LEN, GROUP_MOST, GROUP_ROWS, Groups, groups_in};
pub use halving::{Sought, partition_point};
pub use numbers::{u32_be_at, u64_be_at};
pub use pages::Pages;
pub use sizes::{PAGE_LEN, digests_len, pages_in};
pub use storing::{Stored, store};
