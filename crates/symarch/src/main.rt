//! `symarch`: an archive of Mach-O images and their dSYM companions, kept on several sites.
//!
//! `cli_run` parses the command line with `cli_arguments`, carries it out over files of the system, and reports the
//! result.
#![tactic(auto)]

use byte_device::Writing;
use cli_files::SystemFiles;
use cli_run::run;
use cli_standard_error::print_report_fault;
use std::fs::File;
use std::process::{self, ExitCode};
use std::{env, io};

/// The exit status of a command that failed.
const FAILED: u8 = 2;

fn main(rt: HostRuntime) -> ExitCode {
    // If a standard stream is closed, one of these files gets its descriptor. Otherwise OUT would get it, and the
    // printed lines would be written to OUT.
    let _input = File::open(&rt, "/dev/null");
    let _output = File::open(&rt, "/dev/null");
    let _error = File::open(&rt, "/dev/null");
    let mut files = SystemFiles::new(rt.alloc(), &rt, process::id(rt.process()));
    let mut report = Writing::new(io::writer(&rt));
    let mut errors = Writing::new(rt.stderr());
    let status = run(words(&rt), &mut files, &mut report, &mut errors);
    if status == FAILED {
        print_report_fault(rt.alloc(), report.reason(), &mut errors);
    }
    ExitCode::from(status)
}

/// The words of the command line; the first is the program's name.
fn words<R: env::Env + AllocGlobal>(rt: &R) -> io::Result<Vec<String>> {
    Ok(env::args(rt)?.collect(rt.alloc())?)
}
