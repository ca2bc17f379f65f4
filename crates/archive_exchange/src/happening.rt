//! The effect of an event at a site, and among sites.
ghost use Rattle.std.specs.Prelude.{◌≡◌, ◌<◌, ◌++◌, ◌∷◌, [], ℕ, List, length, IfOk, OnOk};
ghost use Rattle.archive_core.specs.Record.{retirement_record};
ghost use Rattle.archive_exchange.specs.World as model;
ghost use Rattle.archive_exchange.specs.ModelEvent.{ModelEvent, IsFile, IsSeen};
ghost use Rattle.archive_exchange.specs.InnerEvents.{SeenFile, IsRecorded, Follows, Happens};

use crate::message::Message;
use crate::{DeliverFault, EventFault, Outcome, ReplyFault, Site};
use archive_core::{Archive, Digest, SliceKey};
use archive_image_admission::TakeFault;
use archive_image_admission::laws::one_take_fault;
use heap_memory::{Heap, NoMemory};
use text_input_files::Event;

fn send(messages: &mut Vec<Message, Heap>, text: Vec<u8, Heap>) -> Result<Outcome, NoMemory>
    ensures sent { OnOk result (messages.new.items ≡ messages.old.items ++ text.items ∷ []) }
    ensures number { IfOk result (λ outcome. outcome ≡ Outcome.Sent (length messages.old.items)) }
{
    let number = messages.len() as u64;
    messages.push(Message::new(text))?;
    Ok(Outcome::Sent(number))
}

fn take<A: Archive + Drop>(site: &mut Site<A>, file: &[u8]) -> Result<Outcome, NoMemory>
    ensures { IfOk result (λ outcome. (i : ℕ) (is : SeenFile) (texts : List (List ℕ))
        → IsFile file.now is
        → Follows (model.Take i is) site.old site.new texts texts outcome) }
{
    one_take_fault();
    match site.take_file(file) {
        Ok(rows) => Ok(Outcome::Took(rows)),
        Err(fault) => match fault {
            TakeFault::OutOfMemory => Err(NoMemory),
            _ => Ok(Outcome::Refused(EventFault::File(fault))),
        },
    }
}

fn retire<A: Archive + Drop>(
    site: &mut Site<A>,
    key: SliceKey,
    digest: Digest,
) -> Result<Outcome, NoMemory>
    ensures follows { IfOk result (λ outcome. (i : ℕ) (texts : List (List ℕ))
        → Follows (model.Retire i (retirement_record key digest.0)) site.old site.new texts texts outcome) }
    ensures recorded { OnOk result ((i : ℕ) → IsRecorded (model.Retire i (retirement_record key digest.0))) }
{
    let new = site.retire(key, digest)?;
    Ok(Outcome::Retired(new))
}

fn full<A: Archive + Drop>(
    site: &Site<A>,
    messages: &mut Vec<Message, Heap>,
) -> Result<Outcome, NoMemory>
    ensures { IfOk result (λ outcome. (i : ℕ)
        → Follows (model.Full i) site.now site.now messages.old.items messages.new.items outcome) }
{
    let text = site.full()?;
    let outcome = send(messages, text)?;
    Ok(outcome)
}

fn ask<A: Archive + Drop>(
    site: &mut Site<A>,
    messages: &mut Vec<Message, Heap>,
) -> Result<Outcome, NoMemory>
    ensures { IfOk result (λ outcome. (i : ℕ)
        → Follows (model.Ask i) site.old site.new messages.old.items messages.new.items outcome) }
{
    let text = site.ask()?;
    let outcome = send(messages, text)?;
    Ok(outcome)
}

fn reply<A: Archive + Drop>(
    site: &Site<A>,
    messages: &mut Vec<Message, Heap>,
    message: u64,
) -> Result<Outcome, NoMemory>
    ensures { IfOk result (λ outcome. (i : ℕ)
        → Follows (model.Reply i message) site.now site.now messages.old.items messages.new.items outcome) }
{
    if message >= messages.len() as u64 {
        return Ok(Outcome::Refused(EventFault::NoMessage));
    }
    match site.reply(messages[message as usize].text()) {
        Ok(text) => {
            let outcome = send(messages, text)?;
            Ok(outcome)
        }
        Err(ReplyFault::OutOfMemory) => Err(NoMemory),
        Err(ReplyFault::NotASummary(fault)) => {
            Ok(Outcome::Refused(EventFault::NotASummary(fault)))
        }
    }
}

fn deliver<A: Archive + Drop>(
    site: &mut Site<A>,
    messages: &[Message],
    message: u64,
) -> Result<Outcome, NoMemory>
    ensures { IfOk result (λ outcome. (i : ℕ)
        → Follows (model.Deliver i message) site.old site.new messages.now messages.now outcome) }
{
    if message >= messages.len() as u64 {
        return Ok(Outcome::Refused(EventFault::NoMessage));
    }
    match site.deliver(messages[message as usize].text()) {
        Ok(()) => Ok(Outcome::Delivered),
        Err(DeliverFault::OutOfMemory) => Err(NoMemory),
        Err(DeliverFault::Refused(fault)) => Ok(Outcome::Refused(EventFault::Refused(fault))),
    }
}

fn save<A: Archive + Drop>(site: &mut Site<A>) -> Result<Outcome, NoMemory>
    ensures { IfOk result (λ outcome. (i : ℕ) (texts : List (List ℕ))
        → Follows (model.Save i) site.old site.new texts texts outcome) }
{
    site.save()?;
    Ok(Outcome::Saved)
}

fn stop<A: Archive + Drop>(site: &mut Site<A>) -> Result<Outcome, NoMemory>
    ensures { IfOk result (λ outcome. (i : ℕ) (texts : List (List ℕ))
        → Follows (model.Stop i) site.old site.new texts texts outcome) }
{
    site.stop()?;
    Ok(Outcome::Stopped)
}

fn happen_at<A: Archive + Drop>(
    site: &mut Site<A>,
    messages: &mut Vec<Message, Heap>,
    event: &Event,
) -> Result<Outcome, NoMemory>
    ensures follows { IfOk result (λ outcome. (seen : ModelEvent)
        → IsSeen event.now seen
        → Follows seen site.old site.new messages.old.items messages.new.items outcome) }
    ensures recorded { OnOk result ((seen : ModelEvent) → IsSeen event.now seen → IsRecorded seen) }
{
    match event {
        Event::Take { file, .. } => take(site, file),
        Event::Retire { key, digest, .. } => retire(site, *key, *digest),
        Event::Full { .. } => full(site, messages),
        Event::Ask { .. } => ask(site, messages),
        Event::Reply { message, .. } => reply(site, messages, *message),
        Event::Deliver { message, .. } => deliver(site, messages.as_slice(), *message),
        Event::Save { .. } => save(site),
        Event::Stop { .. } => stop(site),
    }
}

/// Carries an event out among sites. `OutOfMemory` is an error and no outcome.
pub(crate) fn happen<A: Archive + Drop>(
    sites: &mut Vec<Site<A>, Heap>,
    messages: &mut Vec<Message, Heap>,
    event: &Event,
) -> Result<Outcome, NoMemory>
    ensures number { OnOk result (length sites.new.items ≡ length sites.old.items) }
    ensures happens { IfOk result (λ outcome. (seen : ModelEvent)
        → IsSeen event.now seen
        → Happens seen sites.old.items sites.new.items messages.old.items messages.new.items outcome) }
    ensures recorded { OnOk result ((seen : ModelEvent)
        → IsSeen event.now seen
        → model.site_of seen < length sites.old.items
        → IsRecorded seen) }
{
    let index = event.site() as usize;
    if index >= sites.len() {
        return Ok(Outcome::Refused(EventFault::NoSite));
    }
    happen_at(&mut sites[index], messages, event)
}
