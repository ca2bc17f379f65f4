//! The result of a case, and its outputs.

use crate::faults::{CallFault, Ended};
use command_common::{CommandFault, Failure, Status, exit_status};
use heap_memory::NoMemory;
use std::fmt;

/// The result of a case.
#[derive(Clone, Copy, PartialEq, Eq)]
pub enum End {
    /// A command succeeded or was refused.
    Command(Result<Status, Failure>),
    /// A call printed its result in its lines.
    Given,
    /// A call is refused.
    Fault(CallFault),
}

impl End {
    /// The result of a command.
    pub fn of_command(ended: Result<Status, CommandFault>) -> End {
        End::Command(ended.map_err(Failure::Command))
    }

    /// The result of a call.
    pub fn of_call(ended: Ended) -> End {
        match ended {
            Ok(()) => End::Given,
            Err(fault) => End::Fault(fault),
        }
    }

    /// Whether memory ran out.
    pub fn wants_memory(self) -> bool {
        self == End::Command(Err(Failure::Command(CommandFault::OutOfMemory)))
            || self == End::Fault(CallFault::OutOfMemory(NoMemory))
    }
}

impl fmt::Display for End {
    fn fmt<W: fmt::Write>(&self, f: &mut fmt::Formatter<W>) -> fmt::Result {
        match *self {
            End::Command(ended) => {
                let status = exit_status(&ended);
                match ended {
                    Ok(_) => write!(f, "status {status}"),
                    Err(Failure::Command(fault)) => write!(f, "status {status}, {fault}"),
                    Err(Failure::CannotCreate(fault)) => write!(f, "status {status}, {fault}"),
                    Err(Failure::CannotReplace) => write!(
                        f,
                        "status {status}, output: cannot replace"
                    ),
                }
            }
            End::Given => f.write_str("given"),
            End::Fault(fault) => write!(f, "{fault}"),
        }
    }
}

/// The outputs of a case, and its result.
#[derive(Drop, PartialEq, Eq)]
pub struct Left {
    pub end: End,
    /// The bytes published at OUT, or else those of its draft.
    pub out: Vec<u8>,
    /// Whether it is a draft that was not published.
    pub is_draft: bool,
    /// The report of a command, or the lines of a call.
    pub report: Vec<u8>,
}

impl Left {
    /// Whether these outputs are allowed if memory runs out, where `whole` are those with ample memory. A command must
    /// leave no report and nothing published, and OUT's draft empty or complete, or any beginning of it if the command
    /// writes as it reads; a call must leave a beginning of its lines.
    pub fn may_want_memory(&self, whole: &Left, writes_as_it_reads: bool) -> bool {
        match self.end {
            End::Given | End::Fault(_) => whole.report.starts_with(&self.report),
            End::Command(_) => {
                let begun = writes_as_it_reads && whole.out.starts_with(&self.out);
                self.report.is_empty()
                    && (self.is_draft || self.out.is_empty())
                    && (begun || self.out.is_empty() || self.out == whole.out)
            }
        }
    }
}
