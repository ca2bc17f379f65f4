//! The plan of a line, with the values of the line.

ghost use Rattle.std.specs.Prelude.{◌≡◌, IsSomeAnd, map, true};
ghost use Rattle.cli_arguments.specs.Arguments.{are_values_of};
ghost use Rattle.cli_arguments.specs.LineView.{line_view};
ghost use Rattle.cli_arguments.specs.ValuesView.{values_view};
ghost use Rattle.cli_arguments.specs.Lines.{line_with};
ghost use Rattle.cli_arguments.specs.Plan.{IsPlanOf, key_of};
ghost use Rattle.cli_arguments.specs.Table.{admit_command, extract_command, find_command, frames_command};
ghost use Rattle.cli_arguments.specs.Table.{name_command, retire_command, symbolicate_command};

use crate::lines::Line;
use crate::values::Amount::{Flag, One, Perhaps, Several};
use crate::values::Values;
use crate::values::Values::{Archs, Digests, Numbers, Texts, Uuids};
use archive_core::{ArchKey, Digest, SliceKey};
use uuid::Uuid;

/// The plan of a line: its command, with the values that it needs. The paths of its inputs stay in the line.
#[derive(Clone, Copy, Debug)]
pub enum Plan<'l> {
    /// Write the empty archive.
    New,
    /// Admit each file, in the order of the words. A file that is named twice is admitted twice. If `keep_going`, a
    /// refused file is passed over.
    Admit {
        keep_going: bool,
    },
    /// Add one retirement.
    Retire {
        key: SliceKey,
        digest: Digest,
    },
    /// Join archives, in the order of the words.
    Merge,
    /// Rewrite an archive in the current version.
    Migrate,
    /// Add the records of an operations file.
    Apply,
    /// List the rows of the archives under a UUID.
    Find {
        uuid: Uuid,
    },
    /// List all rows of the archive.
    List,
    /// Write the slice that answers under a key, or the one with the digest.
    Extract {
        key: SliceKey,
        digest: Option<Digest>,
    },
    /// Find the addresses of symbols with a name. The name is the word itself.
    Name {
        name: &'l str,
    },
    /// Answer each address, in the order of the words. With `load` the addresses are those of an image that was loaded
    /// there. If `lines`, the source frames follow the answer of each slice. If `slices`, the slices that answer follow
    /// the answers.
    Symbolicate {
        key: SliceKey,
        load: Option<u64>,
        lines: bool,
        slices: bool,
        addresses: &'l [u64],
    },
    /// Answer each frame of a crash, in the order of the lines of FRAMES; `lines` and `slices` as in `Symbolicate`.
    Frames {
        lines: bool,
        slices: bool,
    },
    /// Write the summary of an archive.
    Summary,
    /// Write the index of an archive.
    Index,
    /// Write the records of an archive that a summary does not name.
    Delta,
    /// Carry out the events of a script, and print their results.
    Rehearse,
}

impl<'l> Plan<'l> {
    ghost use Rattle.std.specs.Prelude.{◌≡◌};
    ghost use Rattle.cli_arguments.specs.LineView.{line_view};
    ghost use Rattle.cli_arguments.specs.Plan.{IsPlanOf};

    /// The plan of a line. Each line of the table has one.
    pub fn of(line: &'l Line) -> Plan<'l>
        ensures { IsPlanOf result (line_view line.now) }
    {
        match plan_by_name(line) {
            Some(plan) => plan,
            None => unreachable!(),
        }
    }
}

/// The plan of a line, by the name of its command.
fn plan_by_name<'l>(line: &'l Line) -> Option<Plan<'l>>
    ensures { IsSomeAnd result (λ plan. IsPlanOf plan (line_view line.now)) }
{
    let values = line.values.as_slice();
    match line.name.as_str() {
        "new" => Some(Plan::New),
        "admit" => admit(values),
        "retire" => retire(values),
        "merge" => Some(Plan::Merge),
        "migrate" => Some(Plan::Migrate),
        "apply" => Some(Plan::Apply),
        "find" => find(values),
        "list" => Some(Plan::List),
        "extract" => extract(values),
        "name" => name(values),
        "symbolicate" => symbolicate(values),
        "frames" => frames(values),
        "summary" => Some(Plan::Summary),
        "index" => Some(Plan::Index),
        "delta" => Some(Plan::Delta),
        "rehearse" => Some(Plan::Rehearse),
        _ => None,
    }
}

fn admit<'l>(values: &'l [Values]) -> Option<Plan<'l>>
    requires { are_values_of admit_command.arguments (map values_view values.now) ≡ true }
    ensures { IsSomeAnd result (λ plan. IsPlanOf plan (line_with admit_command (map values_view values.now))) }
{
    match values {
        [
            Texts(One(_)),
            Texts(One(_)),
            Texts(Flag(keep_going)),
            Texts(Several(_)),
        ] => Some(Plan::Admit {
            keep_going: *keep_going,
        }),
        _ => None,
    }
}

fn retire<'l>(values: &'l [Values]) -> Option<Plan<'l>>
    requires { are_values_of retire_command.arguments (map values_view values.now) ≡ true }
    ensures { IsSomeAnd result (λ plan. IsPlanOf plan (line_with retire_command (map values_view values.now))) }
{
    match values {
        [
            Texts(One(_)),
            Texts(One(_)),
            Uuids(One(uuid)),
            Archs(One(arch)),
            Digests(One(digest)),
        ] => Some(Plan::Retire {
            key: key(uuid, arch),
            digest: *digest,
        }),
        _ => None,
    }
}

fn find<'l>(values: &'l [Values]) -> Option<Plan<'l>>
    requires { are_values_of find_command.arguments (map values_view values.now) ≡ true }
    ensures { IsSomeAnd result (λ plan. IsPlanOf plan (line_with find_command (map values_view values.now))) }
{
    match values {
        [
            Texts(One(_)),
            Uuids(One(uuid)),
            Texts(Several(_)),
            Texts(Several(_)),
        ] => Some(Plan::Find { uuid: *uuid }),
        _ => None,
    }
}

fn extract<'l>(values: &'l [Values]) -> Option<Plan<'l>>
    requires { are_values_of extract_command.arguments (map values_view values.now) ≡ true }
    ensures { IsSomeAnd result (λ plan. IsPlanOf plan (line_with extract_command (map values_view values.now))) }
{
    let [Texts(One(_)), Uuids(One(uuid)), Archs(One(arch)), rest @ ..] = values else {
        return None;
    };
    let [Texts(One(_)), Digests(Perhaps(digest)), rest @ ..] = rest else {
        return None;
    };
    match rest {
        [Texts(Several(_)), Texts(Several(_))] => Some(Plan::Extract {
            key: key(uuid, arch),
            digest: *digest,
        }),
        _ => None,
    }
}

fn name<'l>(values: &'l [Values]) -> Option<Plan<'l>>
    requires { are_values_of name_command.arguments (map values_view values.now) ≡ true }
    ensures { IsSomeAnd result (λ plan. IsPlanOf plan (line_with name_command (map values_view values.now))) }
{
    match values {
        [Texts(One(_)), Texts(One(name)), Texts(Several(_))] => Some(Plan::Name { name }),
        _ => None,
    }
}

fn symbolicate<'l>(values: &'l [Values]) -> Option<Plan<'l>>
    requires { are_values_of symbolicate_command.arguments (map values_view values.now) ≡ true }
    ensures { IsSomeAnd result (λ plan. IsPlanOf plan (line_with symbolicate_command (map values_view values.now))) }
{
    let [Texts(One(_)), Uuids(One(uuid)), Archs(One(arch)), rest @ ..] = values else {
        return None;
    };
    let [
        Numbers(Perhaps(load)),
        Texts(Flag(lines)),
        Texts(Flag(slices)),
        rest @ ..,
    ] = rest
    else {
        return None;
    };
    match rest {
        [
            Texts(Several(_)),
            Texts(Several(_)),
            Numbers(Several(addresses)),
        ] => Some(Plan::Symbolicate {
            key: key(uuid, arch),
            load: *load,
            lines: *lines,
            slices: *slices,
            addresses,
        }),
        _ => None,
    }
}

fn frames<'l>(values: &'l [Values]) -> Option<Plan<'l>>
    requires { are_values_of frames_command.arguments (map values_view values.now) ≡ true }
    ensures { IsSomeAnd result (λ plan. IsPlanOf plan (line_with frames_command (map values_view values.now))) }
{
    let [
        Texts(One(_)),
        Texts(Flag(lines)),
        Texts(Flag(slices)),
        rest @ ..,
    ] = values
    else {
        return None;
    };
    match rest {
        [Texts(Several(_)), Texts(Several(_))] => Some(Plan::Frames {
            lines: *lines,
            slices: *slices,
        }),
        _ => None,
    }
}

/// The key that a line names.
fn key(uuid: &Uuid, arch: &ArchKey) -> SliceKey
    ensures { result ≡ key_of uuid.now arch.now }
{
    SliceKey {
        uuid: *uuid,
        arch: *arch,
    }
}
