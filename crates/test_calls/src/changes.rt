//! Calls that may change an archive, and the archive that they leave if memory is refused.

use crate::subjects::{Change, Observation, Subject};
use archive_core::Archive;
use heap_memory::{Heap, NoMemory};
use test_parts::{CallFault, Ended, answers_of, print_text, read};

/// Makes a call, and prints its result and the archive afterwards.
///
/// If memory is refused, the archive must be as the call promises, and the repeated call must have the result that it
/// has with ample memory.
pub fn print_change<A: Archive + Drop>(change: Change, printed: &mut String) -> Ended {
    let heap = Heap::new(change.alloc)?;
    let mut subject = Subject::<A>::begin(&heap, change)?;
    let ended = subject.act(&heap, change, printed);
    match ended {
        Ok(()) => {
            let seen = subject.see(&heap, change, printed)?;
            print_seen(&seen, change, printed)?;
            print_other_answers::<A>(&seen, change, printed)?;
        }
        Err(CallFault::OutOfMemory(_)) => {
            print_stopped::<A>(change, printed)?;
            print_again(subject, &heap, change, printed)?;
        }
        Err(_) => {
            let seen = subject.see(&heap, change, printed)?;
            if seen != seen_before::<A>(change, printed)? {
                writeln!(printed, "WRONG: refused, and changed")?;
            }
        }
    }
    ended
}

fn print_seen(seen: &Observation, change: Change, printed: &mut String) -> Result<(), NoMemory> {
    printed.push_str("held: ")?;
    print_text(&seen.held, printed)?;
    if change.saved.is_some() {
        printed.push_str("saved: ")?;
        print_text(&seen.saved, printed)?;
    }
    printed.push_str(&seen.answers)
}

// Prints an error if an archive that is read from the text of another one has other answers.
fn print_other_answers<A: Archive + Drop>(
    seen: &Observation,
    change: Change,
    printed: &mut String,
) -> Ended {
    let heap = Heap::new(change.alloc)?;
    let archive: A = read(heap.share(), &seen.held)?;
    if answers_of(&heap, &archive, change.questions, printed)? != seen.answers {
        writeln!(
            printed,
            "WRONG: an archive of the same text answers otherwise"
        )?;
    }
    Ok(())
}

// The observation before the call.
fn seen_before<A: Archive + Drop>(
    change: Change,
    printed: &mut String,
) -> Result<Observation, CallFault> {
    let heap = Heap::new(change.alloc)?;
    Subject::<A>::begin(&heap, change)?.see(&heap, change, printed)
}

// The result of the call, and the observation after it.
fn seen_after<A: Archive + Drop>(
    change: Change,
    printed: &mut String,
) -> Result<(Ended, Observation), CallFault> {
    let heap = Heap::new(change.alloc)?;
    let mut subject = Subject::<A>::begin(&heap, change)?;
    let mut aside = String::new(change.alloc);
    let ended = subject.act(&heap, change, &mut aside);
    Ok((ended, subject.see(&heap, change, printed)?))
}

// Prints an error if a refused call left an archive that it does not promise.
fn print_stopped<A: Archive + Drop>(change: Change, printed: &mut String) -> Ended {
    let (_, stopped) = seen_after::<A>(change, printed)?;
    print_other_answers::<A>(&stopped, change, printed)?;
    let before = seen_before::<A>(change, printed)?;
    let stands = if change.is_done_in_parts() {
        let (_, whole) = seen_after::<A>(change.with_ample_memory(), printed)?;
        is_between::<A>(change, &before, &stopped, &whole)?
    } else {
        stopped == before
    };
    if !stands {
        writeln!(printed, "WRONG: refused, and left otherwise")?;
    }
    Ok(())
}

// Whether the held content is between that before the call and that after a whole call, and the saved one is one of the
// two.
fn is_between<A: Archive + Drop>(
    change: Change,
    before: &Observation,
    stopped: &Observation,
    whole: &Observation,
) -> Result<bool, CallFault> {
    let least: A = read(Heap::new(change.alloc)?, &before.held)?;
    let held: A = read(Heap::new(change.alloc)?, &stopped.held)?;
    let most: A = read(Heap::new(change.alloc)?, &whole.held)?;
    let is_one_saved = stopped.saved == before.saved || stopped.saved == whole.saved;
    Ok(is_one_saved && held.covers(&least) && most.covers(&held))
}

// Prints an error if a refused call that is repeated has another result than at once.
fn print_again<A: Archive + Drop>(
    mut subject: Subject<A>,
    heap: &Heap,
    change: Change,
    printed: &mut String,
) -> Ended {
    let change = change.with_ample_memory();
    let mut aside = String::new(change.alloc);
    heap.grant(u64::MAX);
    let ended = subject.act(heap, change, &mut aside);
    let again = subject.see(heap, change, printed)?;
    let (ended_at_once, at_once) = seen_after::<A>(change, printed)?;
    if ended != ended_at_once || again != at_once {
        writeln!(printed, "WRONG: made again, it comes to something else")?;
    }
    Ok(())
}
