//! The task of a case: a command line, or a call below the commands.

use crate::commands::run_line;
use archive_index::{IndexedArchive, PlainArchive};
use cli_arguments::{Line, Plan};
use test_calls::{Call, Desk, Tried};
use test_parts::{CaseFault, Left};

/// The task of a case.
#[derive(Clone, Copy)]
pub enum Task<'t> {
    Run(&'t Line),
    Call(Call<'t>),
}

impl<'t> Task<'t> {
    /// Whether OUT is written while an input is read.
    pub fn writes_as_it_reads(self) -> bool {
        match self {
            Task::Run(line) => match Plan::of(line) {
                Plan::Admit { .. }
                | Plan::Retire { .. }
                | Plan::Merge { .. }
                | Plan::Migrate { .. }
                | Plan::Index
                | Plan::Apply { .. }
                | Plan::Delta { .. } => true,
                _ => false,
            },
            Task::Call(_) => false,
        }
    }

    /// Carries out the task of a case, on the archive type that is tried.
    pub fn carry_out(self, desk: Desk<'t>) -> Result<Left, CaseFault> {
        match self {
            Task::Run(line) => Ok(match desk.tried {
                Tried::Plain => run_line::<PlainArchive>(desk, line)?,
                Tried::Indexed => run_line::<IndexedArchive>(desk, line)?,
            }),
            Task::Call(call) => desk.make(call),
        }
    }
}
