//! `test_acceptance`: worked rows, carried out over devices in memory.
//!
//! It reads texts of cases, carries each line out by the parser of command lines and the engines of the commands, or by
//! a call below them, over memory or over files of the system, and compares the result with the lines after it. A word
//! of its command line names a subject, or a case, `SUBJECT/CASE`; without words all subjects are carried out. For each
//! it prints whether all results are as expected, and the lines whose results are not. The parts of the lines are in
//! `test_parts`, and the calls in `test_calls`.
//!
//! - `texts`: the texts of cases;
//! - `verdicts`: whether the results are the expected ones;
//! - `folder`: files of the system;
//! - `commands`: a line, carried out; `tasks`: that, or a call;
//! - `sweeps`: one case at each point of a device;
//! - `cases`: the lines of cases, their language.
#![tactic(auto)]

ghost use Rattle.std.specs.Prelude.{◌≡◌, All};
ghost use Rattle.std.specs.Process.{exit_status};
ghost use Rattle.test_acceptance.specs.Verdicts.{CameAsItStands};

mod cases;
mod commands;
mod folder;
mod sweeps;
mod tasks;
mod texts;
mod verdicts;

use folder::Folder;
use std::process::ExitCode;
use std::{env, io};
use texts::{TextFault, Texts, check_cases};
use verdicts::{Outcome, Step, exit_code};

fn main(rt: HostRuntime) -> ExitCode {
    match run_selected(&rt) {
        Ok(outcomes) => end(&rt, &outcomes),
        Err(error) => {
            let _ = rt.eprintln(error);
            ExitCode::FAILURE
        }
    }
}

// Prints the results of all that was requested, and returns the exit code of the run.
fn end<R: Print>(rt: &R, outcomes: &[Outcome]) -> ExitCode
    ensures { exit_status result ≡ 0 → All CameAsItStands outcomes.now }
{
    for outcome in outcomes {
        if print_outcome(rt, outcome).is_err() {
            return ExitCode::FAILURE;
        }
    }
    exit_code(outcomes)
}

// Carries out the subjects and cases that the words of the command line name, or all subjects if there is no word.
fn run_selected(rt: &HostRuntime) -> io::Result<Vec<Outcome>> {
    let texts = Texts::find(rt)?;
    let mut words: Vec<String> = env::args(rt)?.skip(1).collect(rt.alloc())?;
    if words.is_empty() {
        words = texts.subjects()?;
    }
    let mut outcomes = Vec::new(rt.alloc());
    for word in words {
        let ended = run_subject_or_case(rt, &texts, &word);
        outcomes.push(Outcome { word, ended })?;
    }
    Ok(outcomes)
}

// Carries out a subject, or a case of it, `SUBJECT/CASE`.
fn run_subject_or_case(
    rt: &HostRuntime,
    texts: &Texts<'_, HostRuntime>,
    word: &str,
) -> Result<Vec<Step>, TextFault> {
    let (subject, case) = match word.split_once('/') {
        Some((subject, case)) => (subject, Some(case)),
        None => (word, None),
    };
    let text = texts.read(subject)?;
    check_cases(rt.alloc(), &text)?;
    let folder = Folder::create(rt)?;
    let steps = cases::carry_out(rt.alloc(), &folder, &text, case);
    folder.remove()?;
    steps
}

// Prints the lines with unexpected results, and whether there are any.
fn print_outcome<R: Print>(rt: &R, outcome: &Outcome) -> io::Result<()> {
    let word = outcome.word.as_str();
    match &outcome.ended {
        Ok(steps) => print_others(rt, word, steps)?,
        Err(fault) => println!(rt; "{word}: {fault}")?,
    }
    println!(rt; "{word}: {}", outcome.verdict())
}

// Prints the lines with unexpected results, each under the name of its case.
fn print_others<R: Print>(rt: &R, word: &str, steps: &[Step]) -> io::Result<()> {
    let mut case = "";
    for step in steps {
        if let Some(name) = step.line.strip_prefix("= ") {
            case = name;
        }
        if let Some(first) = step.first_other_line() {
            let slash = if case.is_empty() { "" } else { "/" };
            println!(rt; "{word}{slash}{case}")?;
            print_other(rt, step, first)?;
        }
    }
    Ok(())
}

// Prints a line, and its expected and actual results from the first difference on.
fn print_other<R: Print>(rt: &R, step: &Step, first: usize) -> io::Result<()> {
    println!(rt; "{}", step.line)?;
    for wanted in step.wanted.lines().skip(first) {
        println!(rt; "- {wanted}")?;
    }
    for came in step.came.lines().skip(first) {
        println!(rt; "+ {came}")?;
    }
    Ok(())
}
