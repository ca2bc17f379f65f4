//! Laws of archives, their texts, their sites and their commands, in the words of a user.
//!
//! No function of the program calls these: each law is the contract of a function that only calls other laws, and is
//! about the definitions alone. A caller that needs a law calls its function.
//!
//! - [`content_laws`]: of records, contents, joins, summaries, rows and answers;
//! - [`text_laws`]: of texts and their faults;
//! - [`headline`](headline::headline): all of it as one law;
//! - [`outcome_laws`]: of the commands that write OUT, in the words of their user: for accepted inputs they make one
//!   OUT and one report, for any order and repeats of files, archives and records;
//! - [`report_laws`]: of the commands that only report, in the words of their user, and of several archives, read as
//!   their join;
//! - [`sequence_laws`]: of commands that are called one after another, in any order: the same operations make the same
//!   bytes, and the same answers;
//! - [`refusal_laws`]: two calls whose inputs have the same bytes refuse the same input for the same reason, and those
//!   that only report have the same result;
//! - [`out_laws`]: the possible contents of OUT's path after a crash.
//!
//! # What is proved
//!
//! - Accepted inputs are refused only for their devices. `index` and the commands with `--index` have their laws in
//!   their crates.
//! - For OUT ([`out_laws`]): both laws are over a model of one target and its draft. Written bytes that are not synced
//!   may be anything after a crash. The target is OUT's path, or the path to which the system resolved it; and no
//!   regular file is written through.
//!
//! # Why it is so
//!
//! - No crate depends on this one, so the first build is made without it and the gate proves it with the programs. A
//!   law that a body calls is in a crate below that body.
//! - Laws of answers are about definitions: a content has one answer, so archives of any types with one content answer
//!   alike. A body that makes no call would meet a law about calls.
//! - The headline is a law over definitions alone: calls are tied to it by their own contracts, `run` by `state`,
//!   `write_archive` by the text, `lookup` by `IsAnswer`, a merge by `joined`. It states that two contents are equal by
//!   stating that one text is the text of both.
#![tactic(auto)]

pub mod content_laws;
pub mod headline;
pub mod out_laws;
pub mod outcome_laws;
pub mod refusal_laws;
pub mod report_laws;
pub mod sequence_laws;
pub mod text_laws;
