//! The subject of a call that may change it: an archive by itself, or a site.

use archive_core::{Archive, Operation, Slice, take_all};
use archive_exchange::Site;
use archive_from_records::read_ops;
use archive_index::take_each;
use byte_device::Bytes;
use heap_memory::Heap;
use join_core::Join;
use std::alloc::Global;
use test_parts::{
    CallFault, Ended, answers_of, print_answers, print_beside, print_each_taking, print_text, read,
    text_of,
};
use text_reports::Text;

/// A call that may change an archive, and the questions after it.
#[derive(Clone, Copy)]
pub struct Change<'a> {
    pub alloc: Global,
    /// The verb of the case: a call on an archive, or on a site.
    pub verb: &'a str,
    /// The text of the archive that is held.
    pub held: &'a [u8],
    /// The text of the archive that a site has saved; `None` if the call is on an archive.
    pub saved: Option<&'a [u8]>,
    /// The argument of the call.
    pub input: &'a [u8],
    /// The number of growths that are granted for it.
    pub growths: u64,
    /// The words of the questions.
    pub questions: &'a str,
}

impl Change<'_> {
    /// Whether a part of it may be done if memory is refused.
    pub fn is_done_in_parts(self) -> bool {
        match self.saved {
            None => self.verb != "ask",
            Some(_) => self.verb == "take" || self.verb == "deliver" || self.verb == "ask",
        }
    }

    /// The same call, with all growths.
    pub fn with_ample_memory(mut self) -> Self {
        self.growths = u64::MAX;
        self
    }
}

/// The subject of a call.
#[derive(Drop)]
pub enum Subject<A: Archive> {
    Archive(A),
    Site(Site<A>),
}

/// An observation of a subject: the texts of the held and of the saved archive, and the answers.
#[derive(Drop, PartialEq, Eq)]
pub struct Observation {
    pub held: Vec<u8>,
    pub saved: Vec<u8>,
    pub answers: String,
}

impl<A: Archive + Drop> Subject<A> {
    /// The subject before the call.
    pub fn begin(heap: &Heap, change: Change) -> Result<Subject<A>, CallFault> {
        let Some(saved) = change.saved else {
            return Ok(Subject::Archive(read(heap.share(), change.held)?));
        };
        let mut site = Site::new(heap.share())?;
        site.deliver(saved)?;
        site.save()?;
        site.deliver(change.held)?;
        Ok(Subject::Site(site))
    }

    /// Makes the call, and prints its result.
    pub fn act(&mut self, heap: &Heap, change: Change, printed: &mut String) -> Ended {
        match self {
            Subject::Archive(archive) => print_on_archive(archive, heap, change, printed),
            Subject::Site(site) => {
                heap.grant(change.growths);
                print_at_site(site, heap, change, printed)
            }
        }
    }

    /// Observes the held archive, and for a site then the saved one.
    pub fn see(
        mut self,
        heap: &Heap,
        change: Change,
        printed: &mut String,
    ) -> Result<Observation, CallFault> {
        heap.grant(0);
        let held = text_of(change.alloc, self.archive())?;
        heap.grant(u64::MAX);
        let answers = answers_of(heap, self.archive(), change.questions, printed)?;
        let mut saved = Vec::new(change.alloc);
        if let Subject::Site(site) = &mut self {
            site.stop()?;
            saved = text_of(change.alloc, site.archive())?;
        }
        Ok(Observation {
            held,
            saved,
            answers,
        })
    }

    fn archive(&self) -> &A {
        match self {
            Subject::Archive(archive) => archive,
            Subject::Site(site) => site.archive(),
        }
    }
}

fn print_on_archive<A: Archive + Drop>(
    archive: &mut A,
    heap: &Heap,
    change: Change,
    printed: &mut String,
) -> Ended {
    match change.verb {
        "ask" => {
            heap.grant(change.growths);
            print_answers(heap, archive, change.questions, printed)?;
        }
        "take" => print_each_taking(archive, operations_of(heap, change)?, printed)?,
        "take-each" => {
            let new = take_each(archive, operations_of(heap, change)?)?;
            writeln!(printed, "{new} new")?;
        }
        "join" => {
            let other = other_of(archive, heap, change, printed)?;
            archive.join(&other)?;
            print_beside(archive, &other, printed)?;
        }
        "absorb" => {
            let other = other_of(archive, heap, change, printed)?;
            take_all(archive, other)?;
            writeln!(printed, "{} records", archive.len())?;
        }
        _ => return Err(CallFault::NoSuchCall),
    }
    Ok(())
}

// The operations that are the argument of a call. From here on memory is limited to the granted growths.
fn operations_of(heap: &Heap, change: Change) -> Result<Vec<Operation, Heap>, CallFault> {
    let operations = read_ops(heap.share(), &mut Bytes::new(change.input))?;
    heap.grant(change.growths);
    Ok(operations)
}

// The archive that is the argument of a call. Prints how the subject compares with it.
fn other_of<A: Archive + Drop>(
    archive: &A,
    heap: &Heap,
    change: Change,
    printed: &mut String,
) -> Result<A, CallFault> {
    let other = read(heap.share(), change.input)?;
    print_beside(archive, &other, printed)?;
    heap.grant(change.growths);
    Ok(other)
}

fn print_at_site<A: Archive + Drop>(
    site: &mut Site<A>,
    heap: &Heap,
    change: Change,
    printed: &mut String,
) -> Ended {
    let input = change.input;
    match change.verb {
        "new" => *site = Site::new(heap.share())?,
        "take" => {
            for row in site.take_file(input)? {
                writeln!(printed, "{}", Text(row))?;
            }
        }
        "retire" => {
            let slice = Slice::check(input)?;
            let new = site.retire(slice.key(), slice.digest())?;
            writeln!(printed, "new: {new}")?;
        }
        "full" => print_text(&site.full()?, printed)?,
        "ask" => print_text(&site.ask()?, printed)?,
        "reply" => print_text(&site.reply(input)?, printed)?,
        "deliver" => site.deliver(input)?,
        "save" => site.save()?,
        "stop" => site.stop()?,
        _ => return Err(CallFault::NoSuchCall),
    }
    Ok(())
}
