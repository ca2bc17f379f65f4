//! An input that is opened at its first read: by the first call for its bytes, in order or at an offset.

ghost use Rattle.std.proofs.Props.{props};
ghost use Rattle.std.specs.Prelude.{◌≡◌, ◌≢◌, ◌≤◌, List, ◌∷◌, [], Some, None, IfOk, OnOk, length, option_map};
ghost use Rattle.std.specs.Io.KnownBytes.{ReadConsumes};
ghost use Rattle.byte_device.specs.Disks.{FileAt, Path, opened_with};
ghost use Rattle.byte_device.specs.Places.{HasSize, TakenAt};
ghost use Rattle.cli_files.specs.InputStates.{GivesPlaces, GivesState, HoldsFile, IsStateOf, Open, SaysWanting};
ghost use Rattle.cli_files.specs.InputStates.{Waiting, bytes_at, input_in, left_in, opened_in, opening_in};
ghost use Rattle.cli_files.specs.InputStates.{places_in, stage_of, unopened_in, wanting_in};

use crate::disks::Disk;
use byte_device::{CannotOpen, Failed, Placed, Source};
use byte_lazy_inputs::{Opening, Opens};
use heap_memory::NoMemory;

/// The state of an input.
#[derive(Drop)]
enum InputState<I, P> {
    /// It was not read yet.
    Waiting,
    /// It was opened, and is read from its start.
    Open(I),
    /// It was opened, and is read at any offset.
    Placed(P),
    /// It was not opened, for this reason.
    Unopened(Unopened),
}

/// Why an input was not opened at its first read.
#[derive(Clone, Copy, Debug)]
pub enum Unopened {
    Refused(CannotOpen),
    OutOfMemory,
}

/// The file at a path of a disk, which is opened by the first call for its bytes. If it cannot be opened, that call and
/// all later ones fail: opening is not tried again.
#[derive(Drop)]
pub struct LazyInput<'l, D: Disk> {
    disk: D,
    path: &'l str,
    state: InputState<D::Input, D::Places>,
    failures: u64,
    // Its own disk opened its path once, or nothing before the first read.
    ghost log: { (paths : List Path) → D.opened disk ≡ Some paths → paths ≡ opened_in (stage_of state) path.now },
    // The paths at which memory ran out are those that the disk reports.
    ghost wants: { (paths : List Path) → D.wanting disk ≡ Some paths → paths ≡ wanting_in (stage_of state) path.now },
    // A missing file is not open, and a file that is known to exist is not refused.
    ghost fits: { ∥ IsStateOf (D.file_at disk path.now) (stage_of state) ∥₁ },
    // A file that is read at any offset has the bytes of the file, where these are known.
    ghost holds: { HoldsFile D.Places.whole (D.file_at disk path.now) state } by { Prim.hlevel props },
    // An input that was not opened counts a failure.
    ghost failed: { unopened_in (stage_of state) ≢ None → failures ≢ 0 },
}

impl<'l, D: Disk> LazyInput<'l, D> {
    /// The file at this path of a disk that has opened nothing.
    pub fn new(disk: D, path: &'l str) -> Self
        requires opened { (paths : List Path) → D.opened disk ≡ Some paths → paths ≡ [] }
        requires wanting { (paths : List Path) → D.wanting disk ≡ Some paths → paths ≡ [] }
        ensures disk { result.disk ≡ disk }
        ensures path { result.path.now ≡ path.now }
        ensures waiting { stage_of result.state ≡ Waiting }
        ensures unfailed { result.failures ≡ 0 }
    {
        LazyInput {
            disk,
            path,
            state: InputState::Waiting,
            failures: 0,
        }
    }

    /// The reason why opening failed, if it did.
    pub fn unopened(&self) -> Option<Unopened>
        ensures { result ≡ unopened_in (stage_of self.now.state) }
    {
        match &self.state {
            InputState::Waiting | InputState::Open(_) | InputState::Placed(_) => None,
            InputState::Unopened(why) => Some(*why),
        }
    }

    /// The file, if it was opened to be read from its start.
    pub fn input(&self) -> Option<&D::Input>
        ensures { option_map (λ input. input.now) result ≡ input_in self.now.state }
    {
        match &self.state {
            InputState::Open(input) => Some(input),
            InputState::Waiting | InputState::Placed(_) | InputState::Unopened(_) => None,
        }
    }

    /// The file, if it was opened to be read at any offset.
    pub fn places(&self) -> Option<&D::Places>
        ensures { option_map (λ places. places.now) result ≡ places_in self.now.state }
    {
        match &self.state {
            InputState::Placed(places) => Some(places),
            InputState::Waiting | InputState::Open(_) | InputState::Unopened(_) => None,
        }
    }
}

/// Opens the file at a path to be read from its start, and returns the state.
fn open<D: Disk>(disk: &mut D, path: &str) -> InputState<D::Input, D::Places>
    ensures state { GivesState D.Input.left D.Input.failures D.path_of (D.file_at disk.old path.now) result }
    ensures files { D.file_at disk.new ≡ D.file_at disk.old }
    ensures opened { D.opened disk.new ≡ opened_with (D.opened disk.old) (path.now ∷ []) }
    ensures wanting { SaysWanting (D.wanting disk.old) (D.wanting disk.new) (stage_of result) path.now }
{
    match disk.open(path) {
        Ok(Ok(input)) => InputState::Open(input),
        Ok(Err(refused)) => InputState::Unopened(Unopened::Refused(refused)),
        Err(NoMemory) => InputState::Unopened(Unopened::OutOfMemory),
    }
}

/// Opens the file at a path to be read at any offset, and returns the state.
fn open_places<D: Disk>(disk: &mut D, path: &str) -> InputState<D::Input, D::Places>
    ensures state { GivesPlaces D.Places.whole D.Places.failures D.opened_at (D.file_at disk.old path.now) result }
    ensures files { D.file_at disk.new ≡ D.file_at disk.old }
    ensures opened { D.opened disk.new ≡ opened_with (D.opened disk.old) (path.now ∷ []) }
    ensures wanting { SaysWanting (D.wanting disk.old) (D.wanting disk.new) (stage_of result) path.now }
{
    match disk.open_places(path) {
        Ok(Ok(places)) => InputState::Placed(places),
        Ok(Err(refused)) => InputState::Unopened(Unopened::Refused(refused)),
        Err(NoMemory) => InputState::Unopened(Unopened::OutOfMemory),
    }
}

/// Opens the file of an input that was not read yet.
fn open_if_waiting<D: Disk>(disk: &mut D, path: &str, state: &mut InputState<D::Input, D::Places>)
    ensures files { D.file_at disk.new ≡ D.file_at disk.old }
    ensures waited { stage_of state.old ≡ Waiting
        → (D.opened disk.new ≡ opened_with (D.opened disk.old) (path.now ∷ []))
        × SaysWanting (D.wanting disk.old) (D.wanting disk.new) (stage_of state.new) path.now
        × GivesState D.Input.left D.Input.failures D.path_of (D.file_at disk.old path.now) state.new }
    ensures holds { HoldsFile D.Places.whole (D.file_at disk.old path.now) state.old
        → HoldsFile D.Places.whole (D.file_at disk.old path.now) state.new }
    ensures came { stage_of state.old ≢ Waiting
        → (D.opened disk.new ≡ D.opened disk.old) × (D.wanting disk.new ≡ D.wanting disk.old)
        × (state.new ≡ state.old) }
{
    if let InputState::Waiting = state {
        *state = open(disk, path);
    }
}

/// Opens the file of an input that was not read yet, to be read at any offset.
fn begin_places<D: Disk>(disk: &mut D, path: &str, state: &mut InputState<D::Input, D::Places>)
    ensures files { D.file_at disk.new ≡ D.file_at disk.old }
    ensures waited { stage_of state.old ≡ Waiting
        → (D.opened disk.new ≡ opened_with (D.opened disk.old) (path.now ∷ []))
        × SaysWanting (D.wanting disk.old) (D.wanting disk.new) (stage_of state.new) path.now
        × GivesPlaces D.Places.whole D.Places.failures D.opened_at (D.file_at disk.old path.now) state.new }
    ensures holds { HoldsFile D.Places.whole (D.file_at disk.old path.now) state.old
        → HoldsFile D.Places.whole (D.file_at disk.old path.now) state.new }
    ensures came { stage_of state.old ≢ Waiting
        → (D.opened disk.new ≡ D.opened disk.old) × (D.wanting disk.new ≡ D.wanting disk.old)
        × (state.new ≡ state.old) }
{
    if let InputState::Waiting = state {
        *state = open_places(disk, path);
    }
}

/// Reads bytes from an input that is open to be read from its start; fails for any other.
fn pull_open<I: Source, P: Placed>(
    state: &mut InputState<I, P>,
    buf: &mut [u8],
) -> Result<usize, Failed>
    ensures bound { IfOk result (λ n. n ≤ length buf.new) }
    ensures stage { stage_of state.new ≡ stage_of state.old }
    ensures bytes { (file : FileAt)
        → ReadConsumes (left_in I.left file state.old) (left_in I.left file state.new) result buf.new }
    ensures holds { (file : FileAt) → HoldsFile P.whole file state.old → HoldsFile P.whole file state.new }
    ensures open { OnOk result (stage_of state.old ≡ Open) }
{
    match state {
        InputState::Open(input) => input.pull(buf),
        InputState::Waiting | InputState::Placed(_) | InputState::Unopened(_) => Err(Failed),
    }
}

/// Reads bytes at an offset from an input that is open for that; fails for any other.
#[tactic(auto, using(crate::proofs::PlacesHeld::held_taken))]
fn take_open<I: Source, P: Placed>(
    state: &mut InputState<I, P>,
    at: u64,
    buf: &mut [u8],
) -> Result<usize, Failed>
    ensures bound { IfOk result (λ n. n ≤ length buf.new) }
    ensures stage { stage_of state.new ≡ stage_of state.old }
    ensures bytes { (file : FileAt) → HoldsFile P.whole file state.old
        → HoldsFile P.whole file state.new × IfOk result (λ n. TakenAt (bytes_at file) at n buf.new) }
    ensures left { (file : FileAt) → left_in I.left file state.new ≡ left_in I.left file state.old }
    ensures open { OnOk result (stage_of state.old ≡ Open) }
{
    match state {
        InputState::Placed(places) => places.take_at(at, buf),
        InputState::Waiting | InputState::Open(_) | InputState::Unopened(_) => Err(Failed),
    }
}

/// The size in bytes of an input that is open to be read at any offset; fails for any other.
#[tactic(auto, using(crate::proofs::PlacesHeld::held_size))]
fn size_open<I: Source, P: Placed>(state: &mut InputState<I, P>) -> Result<u64, Failed>
    ensures stage { stage_of state.new ≡ stage_of state.old }
    ensures size { (file : FileAt) → HoldsFile P.whole file state.old
        → HoldsFile P.whole file state.new × IfOk result (λ size. HasSize (bytes_at file) size) }
    ensures open { OnOk result (stage_of state.old ≡ Open) }
{
    match state {
        InputState::Placed(places) => places.size(),
        InputState::Waiting | InputState::Open(_) | InputState::Unopened(_) => Err(Failed),
    }
}

impl<'l, D: Disk> Source for LazyInput<'l, D> {
    ghost left = { λ s. left_in D.Input.left (D.file_at s.disk s.path.now) s.state };

    ghost failures = { λ s. s.failures };

    fn pull(&mut self, buf: &mut [u8]) -> Result<usize, Failed> {
        if self.failures == u64::MAX {
            return Err(Failed);
        }
        open_if_waiting(&mut self.disk, self.path, &mut self.state);
        match pull_open(&mut self.state, buf) {
            Ok(n) => Ok(n),
            Err(Failed) => {
                self.failures += 1;
                Err(Failed)
            }
        }
    }
}

impl<'l, D: Disk> Opens for LazyInput<'l, D> {
    ghost opening_of = { λ s. opening_in (stage_of s.state) };

    fn opening(&self) -> Opening {
        match self.unopened() {
            None => Opening::Fine,
            Some(Unopened::Refused(_)) => Opening::Refused,
            Some(Unopened::OutOfMemory) => Opening::OutOfMemory,
        }
    }
}

impl<'l, D: Disk> Placed for LazyInput<'l, D> {
    ghost use Rattle.byte_device.specs.Devices.{FailedIn};

    ghost whole = { λ s. bytes_at (D.file_at s.disk s.path.now) };

    ghost failures = { λ s. s.failures };

    ghost unread = { λ old new _. FailedIn old.failures new.failures };

    ghost unmeasured = { λ old new. FailedIn old.failures new.failures };

    fn take_at(&mut self, at: u64, buf: &mut [u8]) -> Result<usize, Failed> {
        if self.failures == u64::MAX {
            return Err(Failed);
        }
        begin_places(&mut self.disk, self.path, &mut self.state);
        match take_open(&mut self.state, at, buf) {
            Ok(n) => Ok(n),
            Err(Failed) => {
                self.failures += 1;
                Err(Failed)
            }
        }
    }

    fn size(&mut self) -> Result<u64, Failed> {
        if self.failures == u64::MAX {
            return Err(Failed);
        }
        begin_places(&mut self.disk, self.path, &mut self.state);
        match size_open(&mut self.state) {
            Ok(size) => Ok(size),
            Err(Failed) => {
                self.failures += 1;
                Err(Failed)
            }
        }
    }
}
