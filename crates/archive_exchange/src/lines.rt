//! The lines of `rehearse`.
ghost use Rattle.std.specs.Prelude.{◌≡◌, ◌<◌, ◌++◌, [], All, OnOk, length, slice_index_or, string_bytes};
ghost use Rattle.std.specs.List.{count_by};
ghost use Rattle.archive_exchange.specs.EventLines.{IsSentAmong, event_lines, is_added, is_known, is_skipped};
ghost use Rattle.archive_exchange.specs.EventLines.{outcome_text};
ghost use Rattle.archive_exchange.specs.EventLines.{site_line, took_text};
ghost use Rattle.text_reports.specs.Report.{line};

use crate::outcome::{EventFault, Outcome};
use crate::world::World;
use archive_core::{Archive, Digest};
use archive_image_admission::Taken;
use archive_records::Sizes;
use heap_memory::{Heap, NoMemory};
use std::fmt::{self, Display};
use text_reports::Text;
use text_values::Spelled;

// The fault of an event, with its text for the report.
#[derive(Clone, Copy)]
struct Refusal(EventFault);

#[tactic(auto, unfolding(crate::specs::EventLines::event_fault_text))]
impl fmt::Display for Refusal {
    ghost use Rattle.std.specs.Prelude.{Some};
    ghost use Rattle.archive_exchange.specs.EventLines.{event_fault_text};

    ghost output = { λ refusal. Some (event_fault_text refusal.0) };

    fn fmt<W: fmt::Write>(&self, f: &mut fmt::Formatter<W>) -> fmt::Result {
        match self.0 {
            EventFault::NoSite => f.write_str("NoSite"),
            EventFault::NoMessage => f.write_str("NoMessage"),
            EventFault::NotASummary(fault) => {
                let fault = Text(fault);
                write!(f, "NotASummary({fault})")
            }
            EventFault::Refused(fault) => {
                let fault = Text(fault);
                write!(f, "Refused({fault})")
            }
            EventFault::File(fault) => {
                let fault = Text(fault);
                write!(f, "File({fault})")
            }
        }
    }
}

fn is_added(row: &Taken) -> bool
    ensures { result ≡ is_added row.now }
{
    matches!(row, Taken::Added(..))
}

fn added_count(rows: &[Taken]) -> usize
    ensures { result ≡ count_by is_added rows.now }
{
    rows.iter().filter(|row| is_added(row)).count()
}

// Whether a slice was known: present, or covered by a retirement.
fn is_known(row: &Taken) -> bool
    ensures { result ≡ is_known row.now }
{
    matches!(row, Taken::Known(..))
}

fn known_count(rows: &[Taken]) -> usize
    ensures { result ≡ count_by is_known rows.now }
{
    rows.iter().filter(|row| is_known(row)).count()
}

fn is_skipped(row: &Taken) -> bool
    ensures { result ≡ is_skipped row.now }
{
    matches!(row, Taken::Skipped)
}

fn skipped_count(rows: &[Taken]) -> usize
    ensures { result ≡ count_by is_skipped rows.now }
{
    rows.iter().filter(|row| is_skipped(row)).count()
}

#[tactic(auto, unfolding(crate::specs::EventLines::took_text))]
fn push_took(text: &mut String<Heap>, rows: &[Taken]) -> Result<(), NoMemory>
    ensures { OnOk result (string_bytes text.new ≡ string_bytes text.old ++ line (took_text rows.now)) }
{
    let added = added_count(rows);
    let known = known_count(rows);
    let skipped = skipped_count(rows);
    writeln!(text, "took {added} {known} {skipped}")
}

fn message_len<A: Archive>(world: &World<A>, message: u64) -> usize
    requires { message < length world.now.messages }
    ensures { result ≡ length (slice_index_or world.now.messages message []) }
{
    world.message(message).len()
}

// Writes the outcome of an event; for a message that was sent, also its size in bytes.
#[tactic(auto, unfolding(crate::specs::EventLines::outcome_text, crate::specs::EventLines::sent_text))]
fn push_outcome<A: Archive>(
    text: &mut String<Heap>,
    world: &World<A>,
    outcome: &Outcome,
) -> Result<(), NoMemory>
    requires { IsSentAmong (length world.now.messages) outcome.now }
    ensures { OnOk result
        (string_bytes text.new ≡ string_bytes text.old ++ line (outcome_text world.now.messages outcome.now)) }
{
    match outcome {
        Outcome::Took(rows) => push_took(text, rows),
        Outcome::Retired(true) => writeln!(text, "retired"),
        Outcome::Retired(false) => writeln!(text, "known"),
        Outcome::Sent(message) => {
            let bytes = message_len(world, *message);
            writeln!(text, "sent {message} {bytes}")
        }
        Outcome::Delivered => writeln!(text, "delivered"),
        Outcome::Saved => writeln!(text, "saved"),
        Outcome::Stopped => writeln!(text, "stopped"),
        Outcome::Refused(fault) => {
            let fault = Refusal(*fault);
            writeln!(text, "refused {fault}")
        }
    }
}

/// Writes the lines of a rehearsal's events: the number of each, counted from 0, and its outcome. If memory runs out,
/// some of them may have been written.
pub fn push_events<A: Archive>(
    text: &mut String<Heap>,
    world: &World<A>,
    outcomes: &[Outcome],
) -> Result<(), NoMemory>
    requires { All (IsSentAmong (length world.now.messages)) outcomes.now }
    ensures { OnOk result
        (string_bytes text.new ≡ string_bytes text.old ++ event_lines world.now.messages 0 outcomes.now) }
{
    'events: for (number, outcome) in outcomes.iter().enumerate() {
        write!(text, "{number} ")?;
        push_outcome(text, world, outcome)?;
    }
    Ok(())
}

/// Writes the line of a site: its number, the numbers of records and bytes of its archive, and the SHA-256 of that
/// archive's text.
pub fn push_site(
    text: &mut String<Heap>,
    number: u32,
    sizes: Sizes,
    digest: Digest,
) -> Result<(), NoMemory>
    ensures { OnOk result (string_bytes text.new ≡ string_bytes text.old ++ site_line number sizes digest) }
{
    let records = sizes.records;
    let bytes = sizes.bytes;
    let digest = Spelled(digest);
    writeln!(text, "site {number} {records} {bytes} {digest}")
}
