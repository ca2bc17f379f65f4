//! One case at each point of a device.

use crate::tasks::Task;
use heap_memory::NoMemory;
use test_calls::{Desk, Tried, outcome_at};
use test_parts::{CaseFault, Left, Sweep};

/// Carries out a case at each point of a sweep, the last of which has no limit, and prints the points in groups with
/// one result.
pub fn print_sweep<'a>(
    desk: Desk<'a>,
    sweep: Sweep<'a>,
    task: Task,
    printed: &mut String,
) -> Result<(), CaseFault> {
    let whole = task.carry_out(desk)?;
    let groups = sweep_points(desk, sweep, task, &whole)?;
    printed.push_str(&groups)?;
    let tried = Tried::Indexed;
    if sweep_points(Desk { tried, ..desk }, sweep, task, &whole)? != groups {
        writeln!(printed, "  WRONG: other outcomes on {tried:?}")?;
    }
    Ok(())
}

// Carries out a case at each point, and prints consecutive points with one result in one line.
fn sweep_points<'a>(
    desk: Desk<'a>,
    sweep: Sweep<'a>,
    task: Task,
    whole: &Left,
) -> Result<String, CaseFault> {
    let mut groups = String::new(desk.alloc);
    let mut first = 0;
    let mut before = String::new(desk.alloc);
    let last = last_point(desk, sweep, whole)?;
    for point in 0..=last {
        let limits = sweep.limits(desk.limits, point);
        let left = task.carry_out(Desk { limits, ..desk })?;
        let outcome = outcome_at(desk.alloc, point, &left, whole)?;
        if outcome != before {
            print_group(first, point, &before, &mut groups)?;
            first = point;
            before = outcome;
        }
    }
    print_group(first, last.saturating_add(1), &before, &mut groups)?;
    Ok(groups)
}

// Prints the result of the points from `first`, included, to `end`, excluded, if there are any.
fn print_group(
    first: usize,
    end: usize,
    outcome: &str,
    printed: &mut String,
) -> Result<(), NoMemory> {
    match end.saturating_sub(first) {
        0 => Ok(()),
        1 => writeln!(printed, "  {first}: {outcome}"),
        _ => writeln!(printed, "  {first} to {}: {outcome}", end.saturating_sub(1)),
    }
}

// The point at which nothing is cut any more, and no device fails.
fn last_point(desk: Desk, sweep: Sweep, whole: &Left) -> Result<usize, CaseFault> {
    match sweep {
        Sweep::Cut(name) => Ok(desk.store.named(name)?.len()),
        Sweep::Read(name) => Ok(desk.store.named(name)?.len().saturating_add(1)),
        Sweep::Out => Ok(whole.out.len()),
        Sweep::Report => Ok(whole.report.len()),
        Sweep::Pieces(most) => Ok(most),
    }
}

// The greatest number of growths before a sweep of them gives up.
const MOST_GROWTHS: u64 = 100_000;

/// Carries out a case on each archive type with each number of growths from 0 on, until none is refused, whatever the
/// result, and prints the number of runs with a refusal. A sweep without one shows nothing.
pub fn print_growths(desk: Desk, task: Task, printed: &mut String) -> Result<(), CaseFault> {
    let whole = task.carry_out(desk)?;
    for tried in Tried::BOTH {
        print_refusals(Desk { tried, ..desk }, task, &whole, printed)?;
    }
    Ok(())
}

fn print_refusals(
    mut desk: Desk,
    task: Task,
    whole: &Left,
    printed: &mut String,
) -> Result<(), CaseFault> {
    let tried = desk.tried;
    for growths in 0..MOST_GROWTHS {
        desk.limits.growths = growths;
        let left = task.carry_out(desk)?;
        if !left.end.wants_memory() {
            return print_last_growth(tried, growths, left == *whole, printed);
        }
        if !left.may_want_memory(whole, task.writes_as_it_reads()) {
            writeln!(
                printed,
                "  WRONG: growth {growths} was refused on {tried:?}, and something was written"
            )?;
        }
    }
    Ok(writeln!(printed, "  WRONG: every run was refused on {tried:?}")?)
}

// Prints the number of runs with a refusal, and whether the first run without one has the outputs of ample memory.
fn print_last_growth(
    tried: Tried,
    growths: u64,
    same: bool,
    printed: &mut String,
) -> Result<(), CaseFault> {
    if growths == 0 {
        return Ok(writeln!(printed, "  WRONG on {tried:?}: no growth was refused")?);
    }
    let wrong = if same { "" } else { "WRONG on " };
    let end = if same { "the same" } else { "not the same" };
    Ok(writeln!(
        printed,
        "  {wrong}{tried:?}: {growths} refusals, then {end} as with ample memory"
    )?)
}
