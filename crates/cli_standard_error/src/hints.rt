//! The hints for a person after a failure: the file, the error of the system, and the kind of a refused file. Contracts
//! cover the subject, the path, the known facts about the file, the faulty line, the hint for an index that is stale,
//! changed or without lines, and the texts of the last two. That a line has these texts is only tested.

ghost use Rattle.std.specs.Prelude.{◌≡◌, ℕ, codes, Err, IfSome, None, Option, Some, is_some};
ghost use Rattle.command_common.specs.declared.failures.Failure.TheVariants.{Command};
ghost use Rattle.command_common.specs.declared.faults.CommandFault.TheVariants.{Input};
ghost use Rattle.command_common.specs.declared.faults.InputName.{InputName};
ghost use Rattle.command_common.specs.declared.faults.Why.{Why};
ghost use Rattle.command_common.specs.declared.faults.Why.TheVariants.{Damaged, NoLines, Stale};
ghost use Rattle.cli_arguments.specs.Inputs.{inputs_view};
ghost use Rattle.cli_arguments.specs.LineView.{line_view};
ghost use Rattle.cli_arguments.specs.Lines.{out_of};
ghost use Rattle.cli_standard_error.specs.declared.hints.Hint.TheVariants.{NoSourceLines, DamagedIndex};
ghost use Rattle.cli_files.specs.OutFiles.{stage_of};
ghost use Rattle.cli_standard_error.specs.Hints.{IsOfNoFile, IsOfOut, faulty_line_of, file_of};
ghost use Rattle.cli_standard_error.specs.Hints.{other_kind_text, records_word, stale_hint, subject_of, subject_text};
ghost use Rattle.cli_standard_error.specs.Names.{input_at};
ghost use Rattle.cli_standard_error.specs.Seen.{nothing, seen_at_out, seen_in, seen_of, seen_open, seen_placed};

use crate::file_kinds::FileKind;
use crate::flaws::FaultyLine;
use crate::input_names::{input_at, path_at};
use cli_arguments::{Inputs, Line};
use cli_files::{Obstacle, OpenedFile, OutFile, PlacedFile, SystemInput, Unopened};
use command_common::{CommandFault, Failure, InputName, Status, Why};
use std::fmt::{self, Display, Write};
use std::io::{self, ErrorKind, Read, Seek};
use std::rt::Files;

/// The known facts about the file at which a command failed.
#[derive(Clone, Copy)]
pub struct Seen {
    /// The error of the system, if it refused something.
    pub reason: Option<io::Error>,
    /// The kind of the file, if it is known.
    pub kind: Option<FileKind>,
    /// Why the file at OUT was not replaced, if it was not.
    pub obstacle: Option<Obstacle>,
}

impl Seen {
    /// Nothing is known.
    pub const NOTHING: Seen = Seen {
        reason: None,
        kind: None,
        obstacle: None,
    };

    /// The known facts about a file that is read from its start.
    fn of_open<R: Read + Drop>(file: &OpenedFile<R>) -> Seen
        ensures { result ≡ seen_open file.now }
    {
        Seen {
            reason: file.reason(),
            kind: FileKind::of(&file.leading_bytes()),
            obstacle: None,
        }
    }

    /// The known facts about a file that is read at any offset.
    fn of_placed<R: Read + Seek + Drop>(file: &PlacedFile<R>) -> Seen
        ensures { result ≡ seen_placed file.now }
    {
        Seen {
            reason: file.reason(),
            kind: FileKind::of(&file.leading_bytes()),
            obstacle: None,
        }
    }

    /// The known facts about an input.
    #[tactic(auto, using(crate::proofs::Seeing::seen_in_open, crate::proofs::Seeing::seen_in_placed))]
    fn of_input<F: Files>(input: &SystemInput<'_, '_, F>) -> Seen
        ensures { result ≡ seen_in input.now.state }
    {
        if let Some(file) = input.input() {
            return Seen::of_open(file);
        }
        if let Some(file) = input.places() {
            return Seen::of_placed(file);
        }
        match input.unopened() {
            Some(Unopened::Refused(refused)) => Seen {
                reason: Some(refused.reason),
                ..Seen::NOTHING
            },
            Some(Unopened::OutOfMemory) | None => Seen::NOTHING,
        }
    }

    /// The known facts about the file at which a command with these inputs failed.
    pub fn by<F: Files>(
        ended: &Result<Status, CommandFault>,
        inputs: &Inputs<SystemInput<'_, '_, F>>,
        out: &OutFile<'_, F>,
    ) -> Seen
        ensures nothing { IsOfNoFile ended.now → result ≡ nothing }
        ensures out { IsOfOut ended.now → result ≡ seen_at_out (stage_of out.now.state) out.now.reason }
        ensures input { (name : InputName) (why : Why) → ended.now ≡ Err (Input name why)
            → result ≡ seen_of (input_at (inputs_view inputs.now) name) }
    {
        match ended {
            Err(CommandFault::Input(name, _)) => match input_at(inputs, *name) {
                Some(input) => Seen::of_input(input),
                None => Seen::NOTHING,
            },
            Err(CommandFault::Output(_)) => Seen {
                reason: out.reason(),
                kind: None,
                obstacle: out.obstacle(),
            },
            _ => Seen::NOTHING,
        }
    }
}

/// The subject of a failure.
#[derive(Clone, Copy)]
pub(crate) enum Subject {
    Input(InputName),
    Output,
}

#[tactic(auto, unfolding(crate::specs::Hints::subject_text))]
impl Display for Subject {
    ghost use Rattle.std.specs.Prelude.{Some};
    ghost use Rattle.cli_standard_error.specs.Hints.{subject_text};

    ghost output = { λ subject. Some (subject_text subject) };

    fn fmt<W: fmt::Write>(&self, f: &mut fmt::Formatter<W>) -> fmt::Result {
        match self {
            Subject::Input(name) => write!(f, "{name}"),
            Subject::Output => f.write_str("output"),
        }
    }
}

/// The known facts about OUT if it was not created or not replaced, or of a refused input.
#[derive(Clone, Copy)]
enum Hint {
    SameFile,
    OtherKind(Option<FileKind>),
    DamagedArchive,
    Differs,
    Loses(u64),
    OldVersion,
    StaleIndex,
    DamagedIndex,
    NoSourceLines,
    StaleEntry,
}

impl Hint {
    /// The hint if this is why OUT was not replaced. The error of the system is at the end of the line.
    fn of(obstacle: Obstacle) -> Option<Hint> {
        match obstacle {
            Obstacle::OtherKind(bytes) => Some(Hint::OtherKind(FileKind::of(&bytes))),
            Obstacle::Damaged => Some(Hint::DamagedArchive),
            Obstacle::Differs => Some(Hint::Differs),
            Obstacle::Loses(lost) => Some(Hint::Loses(lost)),
            Obstacle::Refused(_) => None,
        }
    }
}

/// The text for a file of another kind at OUT.
fn other_kind(kind: Option<FileKind>) -> &'static str
    ensures { result.now ≡ other_kind_text kind }
{
    match kind {
        Some(FileKind::Archive) => "there, and an archive",
        Some(FileKind::Operations) => "there, and an operations file",
        Some(FileKind::Summary) => "there, and a summary",
        Some(FileKind::Index | FileKind::EarlierIndex) => "there, and an index",
        _ => "there, and neither empty nor one of symarch's files",
    }
}

/// The word after this number of records.
#[tactic(auto, unfolding(crate::specs::Hints::records_word))]
fn records_word(count: u64) -> &'static str
    ensures { result.now ≡ records_word count }
{
    if count == 1 { "record" } else { "records" }
}

#[tactic(auto, unfolding(crate::specs::Hints::hint_text))]
impl Display for Hint {
    ghost use Rattle.std.specs.Prelude.{Some};
    ghost use Rattle.cli_standard_error.specs.Hints.{hint_text};

    ghost output = { λ hint. Some (hint_text hint) };

    fn fmt<W: fmt::Write>(&self, f: &mut fmt::Formatter<W>) -> fmt::Result {
        match self {
            Hint::SameFile => f.write_str("the file of an input"),
            Hint::OldVersion => f.write_str("an archive of version 1, which `migrate` takes"),
            Hint::StaleIndex => f.write_str(
                "not of this archive, of which `index` writes a new one",
            ),
            Hint::DamagedIndex => f.write_str(
                "changed since it was written: run `symarch-keep check` if it keeps the archive, else `index`",
            ),
            Hint::NoSourceLines => f.write_str(
                "without the lines of that slice, which are too many for it: ask without `--index`",
            ),
            Hint::StaleEntry => f.write_str(
                "of an archive in which a slice changed since it came in: run `symarch-keep check` first",
            ),
            Hint::OtherKind(kind) => f.write_str(other_kind(*kind)),
            Hint::DamagedArchive => f.write_str("there, and an archive that is damaged"),
            Hint::Differs => f.write_str("there, and neither empty nor the same slice"),
            Hint::Loses(lost) => {
                let lost = *lost;
                let records = records_word(lost);
                write!(
                    f,
                    "there, and has {lost} {records} that the new archive neither has nor retires"
                )
            }
        }
    }
}

/// A second line, which helps a person with a failure.
#[derive(Clone, Copy)]
pub struct SecondLine<'p> {
    pub(crate) subject: Subject,
    pub(crate) path: &'p str,
    hint: Option<Hint>,
    faulty: Option<FaultyLine>,
    seen: Seen,
}

/// The kind of a refused file, if that explains why it is refused.
fn kind_of(why: Why, kind: Option<FileKind>) -> Option<FileKind> {
    match (why, kind) {
        (Why::Record(fault), _) if fault.offset == 0 => kind,
        (Why::Index(fault), _) if fault.offset == 0 => kind,
        (Why::Take(_), Some(FileKind::MachO | FileKind::Universal | FileKind::Marked)) => None,
        (Why::Take(_), _) => kind,
        _ => None,
    }
}

/// The hint for an input that is refused for this reason.
fn hint_of(why: Why) -> Option<Hint>
    ensures stale { (entry : Option ℕ) → why ≡ Stale entry → result ≡ Some (stale_hint entry) }
    ensures torn { (entry : ℕ) → why ≡ Damaged entry → result ≡ Some DamagedIndex }
    ensures lineless { (entry : ℕ) → why ≡ NoLines entry → result ≡ Some NoSourceLines }
{
    match why {
        Why::OldArchive => Some(Hint::OldVersion),
        Why::Stale(None) => Some(Hint::StaleIndex),
        Why::Stale(Some(_)) => Some(Hint::StaleEntry),
        Why::Damaged(_) => Some(Hint::DamagedIndex),
        Why::NoLines(_) => Some(Hint::NoSourceLines),
        _ => None,
    }
}

/// The second line for this failure of a line, if there is one.
pub fn second_line_of<'p>(line: &'p Line, failure: &Failure, seen: Seen) -> Option<SecondLine<'p>>
    ensures some { is_some result ≡ is_some (file_of (line_view line.now) failure.now) }
    ensures path { IfSome result (λ help. Some help.path.now ≡ file_of (line_view line.now) failure.now) }
    ensures subject { IfSome result (λ help. subject_text help.subject ≡ subject_of failure.now) }
    ensures faulty { IfSome result (λ help. help.faulty ≡ faulty_line_of failure.now) }
    ensures reason { IfSome result (λ help. help.seen.reason ≡ seen.reason) }
    ensures stale { (name : InputName) (entry : Option ℕ) → failure.now ≡ Command (Input name (Stale entry))
        → IfSome result (λ help. help.hint ≡ Some (stale_hint entry)) }
    ensures torn { (name : InputName) (entry : ℕ) → failure.now ≡ Command (Input name (Damaged entry))
        → IfSome result (λ help. help.hint ≡ Some DamagedIndex) }
    ensures lineless { (name : InputName) (entry : ℕ) → failure.now ≡ Command (Input name (NoLines entry))
        → IfSome result (λ help. help.hint ≡ Some NoSourceLines) }
{
    match failure {
        Failure::Command(CommandFault::Input(name, why)) => {
            Some(SecondLine {
                subject: Subject::Input(*name),
                path: path_at(line, *name)?,
                hint: hint_of(*why),
                faulty: FaultyLine::of(*why),
                seen: Seen {
                    kind: kind_of(*why, seen.kind),
                    ..seen
                },
            })
        }
        Failure::Command(CommandFault::Output(_)) => out_second_line(line, None, seen),
        // The caller knows why the report failed.
        Failure::Command(CommandFault::Report(_) | CommandFault::OutOfMemory) => None,
        Failure::CannotCreate(_) => out_second_line(line, Some(Hint::SameFile), seen),
        Failure::CannotReplace => out_second_line(line, seen.obstacle.and_then(Hint::of), seen),
    }
}

/// The second line for OUT. The hint is used if there is no error of the system.
fn out_second_line<'p>(line: &'p Line, hint: Option<Hint>, seen: Seen) -> Option<SecondLine<'p>>
    ensures some { is_some result ≡ is_some (out_of (line_view line.now)) }
    ensures path { IfSome result (λ help. Some help.path.now ≡ out_of (line_view line.now)) }
    ensures subject { IfSome result (λ help. subject_text help.subject ≡ codes "output") }
    ensures faulty { IfSome result (λ help. help.faulty ≡ None) }
    ensures reason { IfSome result (λ help. help.seen.reason ≡ seen.reason) }
{
    Some(SecondLine {
        subject: Subject::Output,
        path: line.out_path()?,
        hint: if seen.reason.is_none() { hint } else { None },
        faulty: None,
        seen,
    })
}

/// Prints the rest of the line: the hint, the faulty line, the kind of the file, and the error of the system.
impl Display for SecondLine<'_> {
    fn fmt<W: fmt::Write>(&self, f: &mut fmt::Formatter<W>) -> fmt::Result {
        if let Some(hint) = self.hint {
            write!(f, ", {hint}")?;
        }
        if let Some(faulty) = self.faulty {
            write!(f, ", {faulty}")?;
        }
        if let Some(kind) = self.seen.kind {
            write!(f, ", {kind}")?;
        }
        let Some(reason) = self.seen.reason else {
            return Ok(());
        };
        write!(f, ": {reason}")?;
        match self.subject {
            Subject::Input(InputName::File(_)) if reason.kind() == ErrorKind::IsADirectory => {
                f.write_str("; of a dSYM, name the file in its folder Contents/Resources/DWARF")
            }
            _ => Ok(()),
        }
    }
}
