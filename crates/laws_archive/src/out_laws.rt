//! The possible contents of an output's path after a crash that follows any call. Each law is about the calls that a
//! command makes for its output.
ghost use Rattle.std.specs.Prelude.{◌≡◌, ◌⊎◌, ℕ, Contains, List, Option, Some, [], false, take};
ghost use Rattle.cli_files.specs.FileCalls.{Begins, Compares, FileCall, Finds, FindsNothing, Leads};
ghost use Rattle.cli_files.specs.declared.found.Found.{Found};
ghost use Rattle.cli_files.specs.Publishing.{IsDescriptor, IsDraftRemoved, IsReplaced, IsWrittenThrough};
ghost use Rattle.cli_files.specs.Replacing.{GivesWay, IsMagicOf};
ghost use Rattle.cli_files.specs.declared.replaceable.ReplaceRule.{ReplaceRule};
ghost use Rattle.cli_files.specs.declared.replaceable.ReplaceRule.TheVariants.{SameBytes};
ghost use Rattle.laws_archive.specs.Crashes.{MayBeAt, replay};
ghost use Rattle.archive_records.specs.declared.kind.TextKind.TheVariants.{Archive};

/// A text replaces the target of OUT's path: a crash after any of the calls leaves the earlier file, or the whole text;
/// and after the last call the text. The target is the path itself, or the path to which the system resolved it.
pub fn whole_or_as_before()
    ensures any_moment { (path text : List ℕ) (replaces : ReplaceRule) (calls : List FileCall)
        (before left : Option (List ℕ)) (done : ℕ) (is : IsReplaced path replaces text calls)
        → MayBeAt before (replay is.target (take done calls)) left
        → (left ≡ before) ⊎ (left ≡ Some text) }
    ensures at_the_end { (path text : List ℕ) (replaces : ReplaceRule) (calls : List FileCall)
        (before left : Option (List ℕ)) (is : IsReplaced path replaces text calls)
        → MayBeAt before (replay is.target calls) left
        → left ≡ Some text }
    ensures place { (path text : List ℕ) (replaces : ReplaceRule) (calls : List FileCall)
        (is : IsReplaced path replaces text calls)
        → (is.target ≡ path) ⊎ Contains calls (Leads path is.target) }
{}

/// A draft is removed: a crash after any of the calls leaves the earlier file at the target of OUT's path.
pub fn removed_leaves_it()
    ensures { (replaces : ReplaceRule) (path : List ℕ) (calls : List FileCall) (before left : Option (List ℕ))
        (done : ℕ) (is : IsDraftRemoved replaces path calls)
        → MayBeAt before (replay is.target (take done calls)) left
        → left ≡ before }
{}

/// A regular file is not written through: bytes that are not written to a draft are written to a file that the system
/// reported as not regular, or to a descriptor; and for a descriptor there is no draft.
pub fn never_written_through()
    ensures others { (path text : List ℕ) (calls : List FileCall) (is : IsWrittenThrough path text calls)
        → ((found : Found) × (found.is_file ≡ false) × Contains calls (Finds path found)) ⊎ IsDescriptor path }
    ensures descriptors { (path text : List ℕ) (replaces : ReplaceRule) (calls : List FileCall)
        → IsReplaced path replaces text calls → IsDescriptor path → ⊥ }
{}

/// The target of OUT's path is replaced by any command only so: a file with the first bytes of an archive by an archive
/// that has or covers each of its records; a file of another kind than the draft never, except by a slice with the same
/// bytes. A file counts as empty only if the system reported that it has no bytes.
pub fn archives_give_way_to_those_above()
    ensures archives { (path text bytes : List ℕ) (replaces : ReplaceRule) (calls : List FileCall)
        (is : IsReplaced path replaces text calls)
        → Contains is.tests (Begins is.target bytes) → IsMagicOf Archive bytes
        → Contains is.tests (Compares is.draft is.target 0) }
    ensures kinds { (path text : List ℕ) (replaces : ReplaceRule) (calls : List FileCall)
        (is : IsReplaced path replaces text calls)
        → (replaces ≡ SameBytes) ⊎ Contains is.tests (FindsNothing is.target)
        ⊎ ((found : Found) × (bytes : List ℕ) × GivesWay replaces bytes × (bytes ≡ [] → found.size ≡ 0)
        × Contains is.tests (Finds is.target found) × Contains is.tests (Begins is.target bytes)) }
    ensures empty { (path text : List ℕ) (replaces : ReplaceRule) (calls : List FileCall) (found : Found)
        (is : IsReplaced path replaces text calls)
        → Contains is.tests (Finds is.target found) → Contains is.tests (Begins is.target [])
        → found.size ≡ 0 }
{}
