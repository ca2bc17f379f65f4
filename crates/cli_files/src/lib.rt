//! Files of the system as inputs and as OUT. Contracts cover the calls to the system, not the contents of the files.
//!
//! - `call_log`: a list of calls that only clauses read;
//! - `file_calls`: the same for the calls for one output;
//! - `found`: the metadata of a path; `system_calls`: the calls to the system for OUT, and in its `bodies` one function
//!   for each;
//! - `opened_file`: a file that is read from its start; `placed_file`: one that is read at any offset;
//! - `disks`: [`Disk`], files by their paths; `system_disk`: those of the system;
//! - `input_state`: an input that is opened at its first read;
//! - `inputs`: the inputs of a command;
//! - `identities`: which file a path names;
//! - `descriptors`: the paths of descriptors; `ways`: how OUT is written, by the file that its path leads to;
//! - `replaceable`: which file at OUT's path may be replaced;
//! - `losses`: the kind of the file to be replaced, and the records of an archive that would be lost; `sides`: the two
//!   archives that are compared; `sameness`: whether the file to be replaced has the same bytes;
//! - `drafts`: a file next to OUT, which is renamed when it is complete;
//! - `published`: a published output;
//! - `out_file`: OUT before it is published;
//! - `out_path`: OUT's path, at which it is published;
//! - `system_files`: the files of one command.
//!
//! # What is proved
//!
//! - The calls to the system for OUT are known at each state (`FileCalls`): a file was created next to a target, under
//!   a name that is not the target's; the bytes were written to it; and it was published by the calls of `IsPublished`
//!   or removed (`IsRemoved`). No call was made if OUT received no byte and did not fail.
//! - The target is OUT's path, or the path to which the system resolved a link there (`IsTargetOf`). OUT is written
//!   through only if the system reported that it is no regular file, or if its path is a descriptor (`IsWritable`).
//! - [`SystemFiles::begin`](SystemFiles) sets OUT's path if each input was found to be another file, and otherwise
//!   none.
//! - [`LazyInput`], an input over any disk, opens its path at the first call for its bytes, once, and no other path
//!   (`IsLazyInput`). If it is not opened, that call fails, and each later one; lack of memory is reported only if the
//!   system reported it. A file that is read from its start is closed at its end ([`OpenedFile`]).
//!
//! # Why it is so
//!
//! - The calls are a list that only clauses read (`CallLog`; for OUT `FileCalls`). The methods that fill it do nothing
//!   at run time, and are proved by hand. Nothing ties a list to the system: each entry is written next to its call, in
//!   private fields. Without it a body that opens an input twice, or renames a draft before it is synced, would meet
//!   its contract. `FileCalls` takes the number of a call, and `call_of` returns the call, so one proof by hand serves
//!   all. The replies of the system are entries too, so that no body claims a reply that the system did not give.
//! - Facts by cases in a ghost field have to be propositions: the calls made so far are in `∥ ∥₁`.
//! - For a clause, the content of OUT's draft is its path, its rule of replacement, and then the bytes written to it
//!   (`account`). No contract says that the draft is the same file at each push.
//! - OUT's bytes are written to a draft next to it with a name of its own, since OUT's name may have 255 bytes already.
//!   It is created new, under the first of a hundred names that is free. A killed run leaves it, since std has no
//!   handler for signals; no later run removes it, since another run may still be writing it.
//! - A file that is not regular is written through, since a rename would put a file in the place of a device. So is a
//!   descriptor, by its path: `/dev/stdout` may be a regular file that the shell holds.
//! - OUT is opened for reading and writing before its draft is created: a rename over a file needs permission only for
//!   its folder, and a file that may not be written is refused. The same opening reads its first eight bytes, which
//!   state its kind; more would cost a pass over it.
//! - A file is replaced only by one of its own kind (`GivesWay`). Its first bytes are tested before the draft is made,
//!   and again before it is renamed. An archive is replaced only by one above it, by the order of contents and not by a
//!   number of records. The test is a merge of both that writes nothing (`lost_operations`), over the whole draft. A
//!   damaged archive is not replaced, because its content cannot be known. A slice is replaced only by the same bytes
//!   (`SameBytes`), compared once the draft is complete.
//! - Between the test and the rename another program may put an archive at OUT, which is then lost: the system has no
//!   call that renames over one given file only.
//! - A link that leads to nothing is refused, since `canonicalize` cannot resolve it. Hard links keep the old file.
//!   Mode, owner and group are those of the old file as far as the system allows, without set-id bits; std has no call
//!   for access lists and extended attributes.
//! - A failed sync of the draft is `cannot replace`. A failed sync of the folder is not reported: some file systems
//!   cannot do it, and no command can undo the rename.
//! - Each input has a disk of its own, since no contract covers the content of a shared cell; so its log is of one
//!   input.
//! - Contracts model a missing file by a value outside 0 to 255, so nothing follows from reading it.
//! - OUT and each input are compared by device and file number before any input is opened, links followed, regular
//!   files only; a number of 0 counts as unknown. A file that is put there later is not noticed.
//! - An input keeps its first eight bytes and the error of the system for the second line; nothing is opened again for
//!   that. A sink cannot return why it failed, so `execute` asks OUT afterwards.
#![tactic(auto)]

mod call_log;
mod descriptors;
mod disks;
mod drafts;
mod file_calls;
mod found;
mod identities;
mod input_state;
mod inputs;
mod losses;
mod opened_file;
mod out_file;
mod out_path;
mod placed_file;
mod published;
mod replaceable;
mod sameness;
mod sides;
mod system_calls;
mod system_disk;
mod system_files;
mod ways;

pub use disks::Disk;
pub use input_state::{LazyInput, Unopened};
pub use inputs::SystemInput;
pub use opened_file::{LeadingBytes, OpenedFile};
pub use out_file::OutFile;
pub use out_path::OutTarget;
pub use placed_file::PlacedFile;
pub use replaceable::{Obstacle, OutFault, ReplaceRule};
pub use system_disk::SystemDisk;
pub use system_files::SystemFiles;
