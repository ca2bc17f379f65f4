//! OUT, whose draft is created at its first bytes, and published when it is complete. Contracts cover the calls to the
//! system, not the contents of the files.

ghost use Rattle.std.specs.Prelude.{◌≡◌, ◌≢◌, ◌⊎◌, ◌≤◌, ◌<◌, ◌-◌, ◌^◌, ℕ, List, Option, None, Some, IfErr, IfSome};
ghost use Rattle.std.specs.Prelude.{IfOk};
ghost use Rattle.std.specs.Prelude.{IsSome, OnErr, OnOk, length, true, false, [], option_map, string_bytes};
ghost use Rattle.cli_files.specs.FileCalls.{are_probes, bytes_in};
ghost use Rattle.cli_files.specs.OutFiles.{IsSoFar, Settled, Untouched, WritesBegun, WritesTo};
ghost use Rattle.cli_files.specs.OutFiles.{draft_account, fault_of, obstacle_of, reason_of};
ghost use Rattle.cli_files.specs.OutFiles.{has_calls, is_drafted, is_settled, stage_of, takes_bytes};
ghost use Rattle.cli_files.specs.declared.replaceable.ReplaceRule.{ReplaceRule};
ghost use Rattle.cli_files.specs.declared.replaceable.ReplaceRule.TheVariants.{ArchivesBelow};
ghost use Rattle.cli_files.specs.Refusals.{IsRefused, IsSaid};
ghost use Rattle.cli_files.specs.Publishing.{HandsOn, IsRemoved, took_nothing};

use crate::drafts::{Draft, create_draft, put_draft, remove_draft};
use crate::file_calls::FileCalls;
use crate::published::Published;
use crate::replaceable::{Obstacle, OutFault, ReplaceRule};
use crate::system_calls::{System, SystemCalls};
use crate::ways::{WriteMode, write_mode_of};
use byte_device::{Failed, Sink};
use std::alloc::Global;
use std::io::{self, Write};
use std::mem;
use std::rt::Files;

/// The greatest number of failures that a device counts.
pub const MOST_FAILURES: u64 = u64::MAX;

/// OUT before it is published. The first bytes create it, so a command that is refused before them leaves nothing; a
/// push of no bytes creates nothing. The bytes are written to a draft next to OUT, or to OUT itself if that is no
/// regular file, or its path a descriptor.
#[derive(Drop)]
pub struct OutFile<'a, F: Files> {
    alloc: Global,
    system: System<'a, F>,
    process: u32,
    path: Option<String>,
    replaces: ReplaceRule,
    state: OutState<F::File>,
    failures: u64,
    /// Why the last write failed, if the system reported that.
    reason: Option<io::Error>,
    calls: FileCalls,
    // The calls are those of its state: none before the first bytes and none once they were handed on. If no bytes were
    // written and nothing failed, there are no calls.
    ghost so_far: { ∥ IsSoFar replaces (option_map string_bytes path) (stage_of state) calls.entries ∥₁ },
    ghost empty: { has_calls (stage_of state) ≡ false → calls.entries ≡ [] },
    ghost first: { took_nothing (bytes_in calls.entries) failures ≡ true → calls.entries ≡ [] },
}

/// The state of an [`OutFile`].
#[derive(Drop)]
enum OutState<T> {
    /// No byte was pushed yet.
    Untouched,
    /// Bytes are written to the file at the path.
    Through(T),
    /// Bytes are written to a draft.
    Drafted(Draft<T>),
    /// It could not be created, or not be published.
    Refused(OutFault),
    /// Its draft was removed.
    Removed,
    /// It was published, and its calls were handed on.
    Settled,
}

/// Opens the file at OUT's path if it is no regular file or the path is a descriptor, and otherwise creates a draft
/// next to it.
#[tactic(auto, using(crate::proofs::Publishings::begun_drafted, crate::proofs::Publishings::probes_bytes))]
fn open_out<F: Files>(
    alloc: Global,
    system: &System<'_, F>,
    process: u32,
    path: &str,
    replaces: ReplaceRule,
    calls: &mut FileCalls,
) -> Result<OutState<F::File>, OutFault>
    ensures calls { calls.old.entries ≡ [] → IfOk result
        (λ state. IsSoFar replaces (Some path.now) (stage_of state) calls.new.entries) }
    ensures bytes { calls.old.entries ≡ [] → bytes_in calls.new.entries ≡ [] }
    ensures begun { IfOk result (λ state. has_calls (stage_of state) ≡ true) }
    ensures refused { calls.old.entries ≡ [] → OnErr result (are_probes calls.new.entries ≡ true) }
    ensures said { calls.old.entries ≡ [] → IfErr result (λ fault. IsSaid replaces fault calls.new.entries) }
{
    match write_mode_of(alloc, system, path, replaces, calls)? {
        WriteMode::Through => match system.create(path, calls) {
            Ok(file) => Ok(OutState::Through(file)),
            Err(error) => Err(OutFault::NotCreated(Some(error))),
        },
        WriteMode::Beside(target, there) => {
            let draft = create_draft(alloc, system, process, target, there, calls)?;
            Ok(OutState::Drafted(draft))
        }
    }
}

/// Opens OUT, and returns its state: refused if it has no path.
fn opened_state<F: Files>(
    alloc: Global,
    system: &System<'_, F>,
    process: u32,
    path: &Option<String>,
    replaces: ReplaceRule,
    calls: &mut FileCalls,
) -> OutState<F::File>
    ensures calls { calls.old.entries ≡ []
        → IsSoFar replaces (option_map string_bytes path.now) (stage_of result) calls.new.entries }
    ensures bytes { calls.old.entries ≡ [] → bytes_in calls.new.entries ≡ [] }
    ensures begun { has_calls (stage_of result) ≡ true }
{
    let Some(path) = path else {
        return OutState::Refused(OutFault::NotCreated(None));
    };
    match open_out(alloc, system, process, path, replaces, calls) {
        Ok(state) => state,
        Err(fault) => OutState::Refused(fault),
    }
}

/// Opens OUT before its first bytes; later calls do nothing.
fn open_if_untouched<F: Files>(
    alloc: Global,
    system: &System<'_, F>,
    process: u32,
    path: &Option<String>,
    replaces: ReplaceRule,
    state: &mut OutState<F::File>,
    calls: &mut FileCalls,
)
    ensures so_far { IsSoFar replaces (option_map string_bytes path.now) (stage_of state.old) calls.old.entries
        → IsSoFar replaces (option_map string_bytes path.now) (stage_of state.new) calls.new.entries }
    ensures bytes { (has_calls (stage_of state.old) ≡ false → calls.old.entries ≡ [])
        → bytes_in calls.new.entries ≡ bytes_in calls.old.entries }
    ensures empty { (has_calls (stage_of state.old) ≡ false → calls.old.entries ≡ [])
        → has_calls (stage_of state.new) ≡ false → calls.new.entries ≡ [] }
    ensures settled { is_settled (stage_of state.new) ≡ is_settled (stage_of state.old) }
    ensures same { stage_of state.old ≢ Untouched → state.new ≡ state.old }
{
    if let OutState::Untouched = state {
        *state = opened_state(alloc, system, process, path, replaces, calls);
    }
}

/// Writes some first bytes, and returns their number. Fails with the error of the system if the write failed, or with
/// `None` if no file is open.
fn write<T: Write>(state: &mut OutState<T>, bytes: &[u8]) -> Result<usize, Option<io::Error>>
    ensures bound { IfOk result (λ n. n ≤ length bytes.now) }
    ensures bytes { WritesTo T.contents state.old state.new result bytes.now }
    ensures stage { stage_of state.new ≡ stage_of state.old }
    ensures takes { OnOk result (takes_bytes (stage_of state.new) ≡ true) }
{
    match state {
        OutState::Through(file) => file.write(bytes).map_err(Some),
        OutState::Drafted(draft) => draft.own.write(bytes).map_err(Some),
        OutState::Untouched | OutState::Refused(_) | OutState::Removed | OutState::Settled => Err(
            None,
        ),
    }
}

/// Publishes the written bytes, and returns whether that was done. A draft that could not be renamed is removed.
fn publish_state<F: Files>(
    alloc: Global,
    system: &System<'_, F>,
    replaces: ReplaceRule,
    state: &mut OutState<F::File>,
    calls: &mut FileCalls,
) -> bool
    ensures published { result ≡ true → (path : Option (List ℕ))
        → IsSoFar replaces path (stage_of state.old) calls.old.entries
        → HandsOn path replaces calls.new.entries }
    ensures settled { result ≡ true → stage_of state.new ≡ Settled }
    ensures was_open { result ≡ true → is_settled (stage_of state.old) ≡ false }
    ensures refused { result ≡ false → (path : Option (List ℕ))
        → IsSoFar replaces path (stage_of state.old) calls.old.entries
        → IsSoFar replaces path (stage_of state.new) calls.new.entries }
    ensures same { result ≡ false → is_settled (stage_of state.new) ≡ is_settled (stage_of state.old) }
    ensures bytes { bytes_in calls.new.entries ≡ bytes_in calls.old.entries }
    ensures same_calls { result ≡ false
        → (is_drafted (stage_of state.old) ≡ true) ⊎ (calls.new.entries ≡ calls.old.entries) }
    ensures has_calls { result ≡ false → has_calls (stage_of state.new) ≡ has_calls (stage_of state.old) }
{
    match mem::replace(state, OutState::Settled) {
        OutState::Through(_) => true,
        OutState::Drafted(draft) => match put_draft(alloc, system, &draft, replaces, calls) {
            Ok(()) => true,
            Err(fault) => {
                *state = OutState::Refused(fault);
                false
            }
        },
        other => {
            *state = other;
            false
        }
    }
}

/// Removes the draft of an output that was not published.
fn remove<F: Files>(system: &System<'_, F>, state: &mut OutState<F::File>, calls: &mut FileCalls)
    ensures so_far { (replaces : ReplaceRule) (path : Option (List ℕ))
        → IsSoFar replaces path (stage_of state.old) calls.old.entries
        → IsSoFar replaces path (stage_of state.new) calls.new.entries }
    ensures removed { (replaces : ReplaceRule) (path : Option (List ℕ))
        → IsSoFar replaces path (stage_of state.old) calls.old.entries
        → IsRemoved replaces path calls.new.entries }
    ensures bytes { bytes_in calls.new.entries ≡ bytes_in calls.old.entries }
    ensures same_calls { (is_drafted (stage_of state.old) ≡ true) ⊎ (calls.new.entries ≡ calls.old.entries) }
    ensures has_calls { has_calls (stage_of state.new) ≡ has_calls (stage_of state.old) }
    ensures settled { is_settled (stage_of state.new) ≡ is_settled (stage_of state.old) }
    ensures fault { fault_of (stage_of state.new) ≡ fault_of (stage_of state.old) }
{
    match mem::replace(state, OutState::Removed) {
        OutState::Drafted(draft) => remove_draft(system, &draft, calls),
        other => *state = other,
    }
}

impl<'a, F: Files> OutFile<'a, F> {
    /// A file without a path, which is never created. The names of drafts contain the number of this process.
    pub fn new(alloc: Global, files: &'a F, process: u32) -> Self
        ensures path { result.path ≡ None }
        ensures replaces { result.replaces ≡ ArchivesBelow }
        ensures untouched { stage_of result.state ≡ Untouched }
        ensures unfailed { result.failures ≡ 0 }
        ensures calls { result.calls.entries ≡ [] }
    {
        OutFile {
            alloc,
            system: System::new(files),
            process,
            path: None,
            replaces: ReplaceRule::ArchivesBelow,
            state: OutState::Untouched,
            failures: 0,
            reason: None,
            calls: FileCalls::new(),
        }
    }

    /// Sets the path.
    pub fn set_path(&mut self, path: String)
        requires { stage_of self.old.state ≡ Untouched }
        ensures path { self.new.path ≡ Some path }
        ensures replaces { self.new.replaces ≡ self.old.replaces }
        ensures state { self.new.state ≡ self.old.state }
        ensures failures { self.new.failures ≡ self.old.failures }
        ensures calls { self.new.calls ≡ self.old.calls }
    {
        self.path = Some(path);
    }

    /// Sets which files at its path may be replaced.
    pub fn set_rule(&mut self, replaces: ReplaceRule)
        requires { stage_of self.old.state ≡ Untouched }
        ensures path { self.new.path ≡ self.old.path }
        ensures replaces { self.new.replaces ≡ replaces }
        ensures state { self.new.state ≡ self.old.state }
        ensures failures { self.new.failures ≡ self.old.failures }
        ensures calls { self.new.calls ≡ self.old.calls }
    {
        self.replaces = replaces;
    }

    /// The reason why it was not created or not published, if it was not.
    pub fn fault(&self) -> Option<OutFault>
        ensures { result ≡ fault_of (stage_of self.now.state) }
    {
        match self.state {
            OutState::Refused(fault) => Some(fault),
            _ => None,
        }
    }

    /// The error of the system, if one of its calls failed.
    pub fn reason(&self) -> Option<io::Error>
        ensures { result ≡ reason_of (stage_of self.now.state) self.now.reason }
    {
        match self.state {
            OutState::Refused(
                OutFault::NotCreated(reason) | OutFault::NotReplaced(Obstacle::Refused(reason)),
            ) => reason,
            _ => self.reason,
        }
    }

    /// The reason why the file at its path was not replaced, if it was not.
    pub fn obstacle(&self) -> Option<Obstacle>
        ensures { result ≡ obstacle_of (stage_of self.now.state) }
    {
        match self.state {
            OutState::Refused(OutFault::NotReplaced(obstacle)) => Some(obstacle),
            _ => None,
        }
    }

    /// Publishes the written bytes, and hands on the calls that were made. A draft that could not be renamed is
    /// removed.
    pub fn publish_written(&mut self) -> Option<Published>
        ensures published { IfSome result (λ published.
            (Some (string_bytes published.path) ≡ option_map string_bytes self.old.path)
            × (published.replaces ≡ self.old.replaces)
            × (bytes_in published.calls.entries ≡ bytes_in self.old.calls.entries)
            × (is_settled (stage_of self.old.state) ≡ false)) }
        ensures settled { IsSome result → stage_of self.new.state ≡ Settled }
        ensures kept { result ≡ None
            → (self.new.path ≡ self.old.path) × (self.new.replaces ≡ self.old.replaces)
            × (bytes_in self.new.calls.entries ≡ bytes_in self.old.calls.entries)
            × (is_settled (stage_of self.new.state) ≡ is_settled (stage_of self.old.state)) }
        ensures failures { self.new.failures ≡ self.old.failures }
    {
        if !publish_state(
            self.alloc,
            &self.system,
            self.replaces,
            &mut self.state,
            &mut self.calls,
        ) {
            return None;
        }
        let calls = mem::replace(&mut self.calls, FileCalls::new());
        match mem::replace(&mut self.path, None) {
            Some(path) => Some(Published {
                path,
                replaces: self.replaces,
                calls,
            }),
            None => unreachable!(),
        }
    }

    /// Removes the draft of an output that was not published.
    pub fn discard(&mut self)
        ensures removed { ∥ IsRemoved self.new.replaces (option_map string_bytes self.new.path) self.new.calls.entries
            ∥₁ }
        ensures path { self.new.path ≡ self.old.path }
        ensures replaces { self.new.replaces ≡ self.old.replaces }
        ensures bytes { bytes_in self.new.calls.entries ≡ bytes_in self.old.calls.entries }
        ensures failures { self.new.failures ≡ self.old.failures }
        ensures settled { is_settled (stage_of self.new.state) ≡ is_settled (stage_of self.old.state) }
        ensures fault { fault_of (stage_of self.new.state) ≡ fault_of (stage_of self.old.state) }
        ensures refused { IfSome (fault_of (stage_of self.new.state)) (λ fault.
            ∥ IsRefused self.new.replaces (option_map string_bytes self.new.path) fault self.new.calls.entries ∥₁) }
    {
        remove(&self.system, &mut self.state, &mut self.calls);
    }
}

impl<'a, F: Files> Sink for OutFile<'a, F> {
    ghost use Rattle.std.specs.Prelude.{Some};
    ghost use Rattle.std.specs.Io.KnownBytes.{WriteAppends};
    ghost use Rattle.byte_device.specs.Devices.{CountsFailure};

    ghost held = { λ s. Some (draft_account (is_settled (stage_of s.state)) (option_map string_bytes s.path)
        s.replaces s.calls.entries) };

    ghost failures = { λ s. s.failures };

    fn push(&mut self, bytes: &[u8]) -> Result<usize, Failed>
        ensures bound { IfOk result (λ n. n ≤ length bytes.now) }
        ensures some { 0 < length bytes.now → IfOk result (λ n. 0 < n) }
        ensures bytes { WriteAppends
            (Some (draft_account (is_settled (stage_of self.old.state)) (option_map string_bytes self.old.path)
            self.old.replaces self.old.calls.entries))
            (Some (draft_account (is_settled (stage_of self.new.state)) (option_map string_bytes self.new.path)
            self.new.replaces self.new.calls.entries)) result bytes.now }
        ensures count { CountsFailure self.old.failures self.new.failures result }

        // The pushed bytes are the bytes that are written.
        ensures written { 0 < length bytes.now → self.old.failures ≢ 2 ^ 64 - 1
            → WritesBegun ⟦<F::File as Write>⟧.contents self.old.state self.new.state result bytes.now }

        // A push of no bytes creates nothing. OUT stays as it is if it was not created or not published.
        ensures path { self.new.path ≡ self.old.path }
        ensures replaces { self.new.replaces ≡ self.old.replaces }
        ensures empty { bytes.now ≡ [] → self.new.state ≡ self.old.state }
        ensures taken { IfOk result (λ n. 0 < n → takes_bytes (stage_of self.new.state) ≡ true) }
    {
        if self.failures == MOST_FAILURES {
            return Err(Failed);
        }
        if bytes.is_empty() {
            return Ok(0);
        }
        open_if_untouched(
            self.alloc,
            &self.system,
            self.process,
            &self.path,
            self.replaces,
            &mut self.state,
            &mut self.calls,
        );
        match write(&mut self.state, bytes) {
            Ok(n) if n > 0 => {
                self.calls.note_write(&bytes[..n]);
                Ok(n)
            }
            taken => {
                self.reason = taken.err().flatten();
                self.failures += 1;
                Err(Failed)
            }
        }
    }
}
