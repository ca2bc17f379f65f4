//! The commands that write OUT, over any archive, sources and sinks.
//!
//! Each reads the inputs of its other arguments first, and writes OUT as its first input is read.
//!
//! - `new`, `admit`, `retire`, `merge`, `migrate`, `apply`, `summary`, `delta`: a command each;
//! - `arriving`: the slices of files, each once, and the rows of these files;
//! - `file_rows`: those rows, and their lines;
//! - `joining`: IN, merged with an archive in memory;
//! - `merging`: IN, merged with operations in memory, and the arrival of each of these in IN;
//! - `notes`: the notes of a command about requested records that IN lacks or retires;
//! - `copying`: the records of an archive that a summary does not name.
//!
//! # Why it is so
//!
//! - A command that writes while it reads ends by `EndsStreamed`, whichever it is; the causes that stop it are its own
//!   (`Stops`). If OUT fails while inputs are read, that is reported at once, and no clause describes the rest of them.
//! - The inputs after the first archive are read before it, and refusals keep the order of the command line: if
//!   SUMMARY, OPS or a FILE is refused, the first archive is tested to its end, and its own fault is reported if it has
//!   one (`IsRefusedInTurn`). So no clause keeps an input after a refused one untouched. If memory runs out in that
//!   test, that is reported, though a device may have failed (`IsWantedInTurn`).
//! - `merge` with one FILE reads both archives side by side; which of two faulty ones stops it depends on their
//!   records. With more FILEs these are joined in memory first, and the text of their join is the other side.
//! - `admit` and `apply` find the new operations in two steps: among the inputs, before IN is read, and in IN, as it is
//!   merged. An operation changes a join if it changes either side. `admit` keeps for each slice the number of the row
//!   that first brought it. A slice that OPS retires after its admission is next to its retirement in the text that IN
//!   is merged with, as in a text of version 1: it counts as new if IN has neither, and is not added.
//! - With `--keep-going` a refused FILE is a row, so `admit` is stopped only by IN, by OUT or when memory runs out. A
//!   reader that fails fails only for its own FILE; for the readers of other FILEs, the only clause is that those of
//!   accepted ones do not fail. The reader of a FILE reports whether it could be opened (`Opens`), since the report is
//!   written here.
//! - `migrate` is such a merge with the 17 bytes of the empty archive.
//! - A note is a value, added to a list of the caller's before OUT is published, so if memory runs out for it nothing
//!   was done. A note names IN by its name in the help and not by its path.
//! - Inputs of a command are of one type, so each FILE of `admit` has a buffer of 64 KiB; a larger read bypasses it.
#![tactic(auto)]

mod admit;
mod apply;
mod arriving;
mod copying;
mod delta;
mod file_rows;
mod joining;
mod merge;
mod merging;
mod migrate;
mod new;
mod notes;
mod retire;
mod summary;

pub use admit::run_admit;
pub use apply::run_apply;
pub use delta::run_delta;
pub use merge::run_merge;
pub use migrate::run_migrate;
pub use new::run_new;
pub use retire::run_retire;
pub use summary::run_summary;
