//! A site: an archive, and the bytes that it saved.
ghost use Rattle.std.specs.Prelude.{◌≡◌, ◌≢◌, ◌⊎◌, IfOk, IfErr, OnOk, OnErr};
ghost use Rattle.std.specs.FinSet as set;
ghost use Rattle.archive_core.specs.Content.{with_record, changes, joined};
ghost use Rattle.archive_core.specs.Record.{retirement_record, IsRecord};
ghost use Rattle.archive_core.specs.Summary.{Entries, summary, delta};
ghost use Rattle.archive_records.specs.Text.{written, summary_text};
ghost use Rattle.archive_image_admission.specs.File.{IsAcceptedFile, IsTakeFault, admissible, parts};
ghost use Rattle.archive_image_admission.specs.Take.{admitted, taken_rows, HoldsFirstParts};
ghost use Rattle.archive_exchange.specs.SiteState.{IsArchiveTextOf, Gives, IsWhole, IsBetween};
ghost use Rattle.archive_exchange.specs.SiteState.{IsDeliverFault, HasJoined, HasJoinedInPart};
ghost use Rattle.archive_exchange.specs.SiteState.{Names, RepliesTo, IsReplyFault};

use crate::{DeliverFault, ReplyFault};
use archive_core::{Archive, Digest, Operation, SliceKey, take_all};
use archive_from_records::read_archive;
use archive_image_admission::{TakeFault, Taken, check_file, take_accepted};
use archive_records::{
    RecordFaultKind, Summary, read_summary, write_archive, write_delta, write_summary,
};
use byte_device::{Bytes, Grown};
use heap_memory::{Heap, NoMemory};
use std::marker::Model;

fn archive_text<A: Archive>(heap: Heap, archive: &A) -> Result<Vec<u8, Heap>, NoMemory>
    ensures { IfOk result (λ text. IsArchiveTextOf text.items (A.content archive.now)) }
{
    let mut text = Grown::new(heap);
    match write_archive(archive, &mut text) {
        Ok(_) => Ok(text.into_bytes()),
        Err(_) => Err(NoMemory),
    }
}

fn parse_archive<A: Archive + Drop>(heap: Heap, text: &[u8]) -> Result<A, DeliverFault>
    ensures gives { IfOk result (λ archive. Gives text.now (A.content archive)) }
    ensures refused { IfErr result (IsDeliverFault text.now) }
{
    let mut input = Bytes::new(text);
    match read_archive(heap, &mut input) {
        Ok(archive) => Ok(archive),
        Err(fault) => match fault.kind {
            RecordFaultKind::OutOfMemory => Err(DeliverFault::OutOfMemory),
            _ => Err(DeliverFault::Refused(fault)),
        },
    }
}

fn text_of_summary<A: Archive>(heap: Heap, archive: &A) -> Result<Vec<u8, Heap>, NoMemory>
    ensures { IfOk result (λ text. text.items ≡ summary_text (summary (A.content archive.now))) }
{
    let summary = Summary::of(heap.share(), archive)?;
    let mut text = Grown::new(heap);
    match write_summary(&summary, &mut text) {
        Ok(_) => Ok(text.into_bytes()),
        Err(_) => Err(NoMemory),
    }
}

fn parse_summary(heap: Heap, text: &[u8]) -> Result<Summary, ReplyFault>
    ensures names { IfOk result (Names text.now) }
    ensures alone { IfOk result (λ summary. (other : Entries) → Names text.now other → summary ≡ other) }
    ensures refused { IfErr result (IsReplyFault text.now) }
{
    let mut input = Bytes::new(text);
    match read_summary(heap, &mut input) {
        Ok(summary) => Ok(summary),
        Err(fault) => match fault.kind {
            RecordFaultKind::OutOfMemory => Err(ReplyFault::OutOfMemory),
            _ => Err(ReplyFault::NotASummary(fault)),
        },
    }
}

/// The text of the operations of an archive that a summary lacks.
fn text_of_delta<A: Archive>(
    heap: Heap,
    archive: &A,
    summary: &Summary,
) -> Result<Vec<u8, Heap>, NoMemory>
    ensures { IfOk result (λ text. text.items ≡ written (delta (A.content archive.now) summary.now)) }
{
    let mut text = Grown::new(heap);
    match write_delta(archive, summary, &mut text) {
        Ok(_) => Ok(text.into_bytes()),
        Err(_) => Err(NoMemory),
    }
}

/// A site: an archive with a content, and the saved bytes, which are the text of a content.
///
/// Each call that creates or changes a site says this of the new state (`whole`). So if `take_file` or `deliver` runs
/// out of memory, the content is between the one before the call and the result of a complete call, by their contracts
/// alone.
#[derive(Drop)]
pub struct Site<A: Archive> {
    archive: A,
    saved: Vec<u8, Heap>,
}

impl<A: Archive> Model for Site<A> {
    ghost use Rattle.archive_exchange.specs.SiteState.{SiteState, site_state_code, IsWhole};

    ghost Value = { SiteState };

    ghost coded = { site_state_code };

    ghost view = { λ site. record { held = A.content site.archive; saved = site.saved.items } };

    ghost invariant = { λ site. IsWhole (record { held = A.content site.archive; saved = site.saved.items }) };
}

impl<A: Archive + Drop> Site<A> {
    /// An empty site, which has saved the empty archive.
    pub fn new(heap: Heap) -> Result<Site<A>, NoMemory>
        ensures empty { IfOk result (λ site. site ≡ record { held = set.empty; saved = written set.empty }) }
        ensures whole { IfOk result IsWhole }
    {
        let archive = A::empty(heap.share());
        let saved = archive_text(heap, &archive)?;
        Ok(Site { archive, saved })
    }

    /// The archive of the site.
    pub fn archive(&self) -> &A
        ensures content { A.content result.now ≡ self.now.held }
        ensures whole { IsWhole self.now }
    {
        &self.archive
    }

    /// Admits the slices of a file, all or none, and returns a row for each part, in the order of the file.
    ///
    /// # Errors
    ///
    /// Those of `check_file`, which leave the site unchanged, and `OutOfMemory`, after which the first slices of the
    /// file may have been admitted; the call may then be repeated.
    pub fn take_file(&mut self, file: &[u8]) -> Result<Vec<Taken, Heap>, TakeFault>
        ensures accepted { OnOk result (IsAcceptedFile file.now) }
        ensures held { OnOk result (self.new.held ≡ admitted self.old.held (admissible file.now)) }
        ensures rows { IfOk result (λ rows. rows.items ≡ taken_rows self.old.held (parts file.now)) }
        ensures refused { IfErr result (IsTakeFault file.now) }
        ensures kept { IfErr result (λ fault. fault ≢ TakeFault.OutOfMemory → self.new ≡ self.old) }
        ensures stopped { OnErr result (HoldsFirstParts file.now self.old.held self.new.held) }
        ensures between { IfErr result (λ fault. fault ≡ TakeFault.OutOfMemory
            → IsBetween self.old.held self.new.held (admitted self.old.held (admissible file.now))) }
        ensures saved { self.new.saved ≡ self.old.saved }
        ensures whole { IsWhole self.new }
    {
        let heap = self.saved.allocator();
        let accepted = check_file(file)?;
        let rows = take_accepted(&mut self.archive, heap.share(), &accepted)?;
        Ok(rows)
    }

    /// Adds the retirement of the slices with a key and a digest, and returns whether it is new. If memory runs out,
    /// the site is unchanged.
    pub fn retire(&mut self, key: SliceKey, digest: Digest) -> Result<bool, NoMemory>
        ensures held { OnOk result (self.new.held ≡ with_record self.old.held (retirement_record key digest.0)) }
        ensures new { IfOk result (λ new. new ≡ changes self.old.held (retirement_record key digest.0)) }
        ensures recorded { OnOk result (IsRecord (retirement_record key digest.0)) }
        ensures saved { self.new.saved ≡ self.old.saved }
        ensures refused { OnErr result (self.new ≡ self.old) }
        ensures whole { IsWhole self.new }
    {
        self.archive.take(Operation::Retire(key, digest))
    }

    /// The text of the site's archive. Fails only if memory runs out.
    pub fn full(&self) -> Result<Vec<u8, Heap>, NoMemory>
        ensures { IfOk result (λ text. IsArchiveTextOf text.items self.now.held) }
    {
        archive_text(self.saved.allocator().share(), &self.archive)
    }

    /// Saves the archive, and returns the text of the summary of its content. If memory runs out, the archive may have
    /// been saved.
    pub fn ask(&mut self) -> Result<Vec<u8, Heap>, NoMemory>
        ensures text { IfOk result (λ text. text.items ≡ summary_text (summary self.old.held)) }
        ensures held { self.new.held ≡ self.old.held }
        ensures saved { OnOk result (self.new.saved ≡ written self.old.held) }
        ensures stopped { OnErr result ((self.new ≡ self.old) ⊎ (self.new.saved ≡ written self.old.held)) }
        ensures whole { IsWhole self.new }
    {
        self.save()?;
        text_of_summary(self.saved.allocator().share(), &self.archive)
    }

    /// The text of the operations of the site that the summary in a message lacks.
    ///
    /// # Errors
    ///
    /// `NotASummary` if the message is no summary's text, and `OutOfMemory`.
    pub fn reply(&self, message: &[u8]) -> Result<Vec<u8, Heap>, ReplyFault>
        ensures replies { IfOk result (λ text. RepliesTo message.now self.now.held text.items) }
        ensures refused { IfErr result (IsReplyFault message.now) }
    {
        let summary = parse_summary(self.saved.allocator().share(), message)?;
        let text = text_of_delta(self.saved.allocator().share(), &self.archive, &summary)?;
        Ok(text)
    }

    /// Joins the archive whose text is the message.
    ///
    /// # Errors
    ///
    /// `Refused` if the message is no archive's text, which leaves the site unchanged, and `OutOfMemory`, after which
    /// some of the message's operations may have been added; the call may then be repeated with the message, which the
    /// caller still has.
    pub fn deliver(&mut self, message: &[u8]) -> Result<(), DeliverFault>
        ensures joined { OnOk result (HasJoined message.now self.old self.new) }
        ensures refused { IfErr result (IsDeliverFault message.now) }
        ensures kept { IfErr result (λ fault. fault ≢ DeliverFault.OutOfMemory → self.new ≡ self.old) }
        ensures stopped { OnErr result ((self.new ≡ self.old) ⊎ HasJoinedInPart message.now self.old self.new) }
        ensures whole { IsWhole self.new }
    {
        let other: A = parse_archive(self.saved.allocator().share(), message)?;
        take_all(&mut self.archive, other)?;
        Ok(())
    }

    /// Saves the archive: the saved bytes become its text. If memory runs out, the site is unchanged.
    pub fn save(&mut self) -> Result<(), NoMemory>
        ensures held { self.new.held ≡ self.old.held }
        ensures saved { OnOk result (self.new.saved ≡ written self.old.held) }
        ensures refused { OnErr result (self.new ≡ self.old) }
        ensures whole { IsWhole self.new }
    {
        self.saved = archive_text(self.saved.allocator().share(), &self.archive)?;
        Ok(())
    }

    /// Stops, and begins again: the archive is read from the saved bytes. If memory runs out, the site is unchanged.
    pub fn stop(&mut self) -> Result<(), NoMemory>
        ensures held { OnOk result (IsArchiveTextOf self.old.saved self.new.held) }
        ensures saved { self.new.saved ≡ self.old.saved }
        ensures refused { OnErr result (self.new ≡ self.old) }
        ensures whole { IsWhole self.new }
    {
        let heap = self.saved.allocator().share();
        // The saved bytes are an archive's text, so reading them fails only if memory runs out.
        let Ok(archive) = parse_archive(heap, &self.saved) else {
            return Err(NoMemory);
        };
        self.archive = archive;
        Ok(())
    }
}
