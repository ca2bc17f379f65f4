//! Laws of the commands that write OUT, in the words of their user. Each law is the contract of a function that only
//! calls other laws.
ghost use Rattle.std.specs.Prelude.{ℕ, List, ◌≡◌, ◌↔◌, ◌+◌, ◌++◌, Some, Contains, drop, map, take, slice_get, ◌≢◌, ◌∷◌};
ghost use Rattle.std.specs.Prelude.{[], Ok, Err};
ghost use Rattle.std.specs.List.{AllByRecursion, AllZip};
ghost use Rattle.archive_core.specs.Content.{Operations, IsContent, IsMade, content_of, joined, IsBelow, with_records};
ghost use Rattle.archive_core.specs.declared.keys.Digest.{Digest};
ghost use Rattle.archive_core.specs.declared.keys.SliceKey.{SliceKey};
ghost use Rattle.archive_core.specs.declared.operations.Operation.{Operation};
ghost use Rattle.archive_core.specs.Summary.{Entries};
ghost use Rattle.archive_records.specs.Entry.{AreEntries};
ghost use Rattle.archive_records.specs.Text.{IsOperationsText, summary_text, AreOperations, old_written, written};
ghost use Rattle.archive_merge.specs.Merging.{AreGoodRecords, of_both};
ghost use Rattle.byte_device.specs.Writes.{WritesFirst};
ghost use Rattle.archive_image_admission.specs.File.{IsAcceptedFile, parts};
ghost use Rattle.byte_lazy_inputs.specs.declared.openings.Opening.{Opening};
ghost use Rattle.command_common.specs.declared.faults.Status.TheVariants.{Done};
ghost use Rattle.command_archives.specs.Admit.{MakesAdmitted, admit, admit_as_it_comes, admit_rows, file_rows};
ghost use Rattle.command_archives.specs.Admit.{images_of};
ghost use Rattle.command_archives.specs.PassedOver.{EachCounted, MakesPassing, admit_passing};
ghost use Rattle.command_archives.specs.PassedOver.{admit_passing_as_it_comes};
ghost use Rattle.command_archives.specs.Apply.{apply, apply_as_it_comes};
ghost use Rattle.command_archives.specs.Delta.{delta, delta_as_it_comes};
ghost use Rattle.command_common.specs.Ends.{MakeOne, Ends, EndsStreamed, IsStopped};
ghost use Rattle.command_common.specs.Inputs.{EachUnfailed, IsGiven, IsGivenArchive, Reader, RefusesDevicesAlone};
ghost use Rattle.command_common.specs.Inputs.{EachKnown, IsDeviceFault, IsKnown};
ghost use Rattle.command_archives.specs.Merge.{merge, operations_of, MakesMerged};
ghost use Rattle.command_archives.specs.Migrate.{migrate, migrate_as_it_comes, MakesMigrated};
ghost use Rattle.command_archives.specs.Retire.{retire, retire_as_it_comes};
ghost use Rattle.command_archives.specs.Summary.{summary};
ghost use Rattle.laws_archive.specs.Joins.{AreDevicesAlone};
ghost use Rattle.laws_archive.specs.Stops.{LeavesBeginningIfStopped};
ghost use Rattle.std.specs.FinSet as set;
ghost use Rattle.archive_core.specs.Record.{admission_record, record_bytes};
ghost use Rattle.archive_image_admission.specs.Take.{admitted, taken_rows};
ghost use Rattle.command_common.specs.declared.faults.InputName.{InputName};
ghost use Rattle.command_common.specs.declared.faults.Why.{Why};
ghost use Rattle.command_common.specs.declared.faults.CommandFault.{CommandFault};
ghost use Rattle.command_common.specs.declared.faults.CommandFault.TheVariants.{Input, Report};
ghost use Rattle.command_common.specs.declared.faults.Status.{Status};
ghost use Rattle.command_archives.specs.MergeStreams.{merge_as_it_comes, merge_of_one};
ghost use Rattle.command_common.specs.Outputs.{Outs, Writer, draft_of, out_of, Out, Publishes, report_of};
ghost use Rattle.command_common.specs.Archives.{merged};

use crate::content_laws::{contents_join, migrate_joins, takes_in_any_order};
use crate::text_laws::{one_list_of_operations, one_summary, stopped_merge_of_texts};
use archive_image_admission::laws::one_take_fault;
use byte_device::{Sink, Source, Target};

/// For archives with one content, of either version, and files with the same bytes, a command makes one OUT and one
/// report, wherever its inputs are stored.
pub fn one_outcome<Q: Source, R: Source, S: Source, T: Source>()
    ensures admit { (input : Reader Q) (other : Reader R) (files : List (Reader S)) (others : List (Reader T))
        (o : Operations) (texts : List (List ℕ))
        → IsContent o
        → IsGivenArchive input o
        → IsGivenArchive other o
        → AllZip IsGiven files texts
        → AllZip IsGiven others texts
        → MakeOne (admit input files).Makes (admit other others).Makes }
    ensures retire { (input : Reader Q) (other : Reader R) (key : SliceKey) (digest : Digest) (o : Operations)
        → IsContent o
        → IsGivenArchive input o
        → IsGivenArchive other o
        → MakeOne (retire input key digest).Makes (retire other key digest).Makes }
    ensures merge { (input : Reader Q) (other : Reader R) (files : List (Reader S)) (others : List (Reader T))
        (o : Operations) (contents : List Operations)
        → IsContent o
        → AllByRecursion IsContent contents
        → IsGivenArchive input o
        → IsGivenArchive other o
        → AllZip IsGivenArchive files contents
        → AllZip IsGivenArchive others contents
        → MakeOne (merge input files).Makes (merge other others).Makes }
    ensures migrate { (input : Reader Q) (other : Reader R) (o : Operations)
        → IsContent o
        → IsGivenArchive input o
        → IsGivenArchive other o
        → MakeOne (migrate input).Makes (migrate other).Makes }
    ensures apply { (input : Reader Q) (other : Reader R) (ops : Reader S) (others : Reader T) (o : Operations)
        (text : List ℕ)
        → IsContent o
        → IsGivenArchive input o
        → IsGivenArchive other o
        → IsGiven ops text
        → IsGiven others text
        → MakeOne (apply input ops).Makes (apply other others).Makes }
    ensures summary { (archive : Reader Q) (other : Reader R) (o : Operations)
        → IsContent o
        → IsGivenArchive archive o
        → IsGivenArchive other o
        → MakeOne (summary archive).Makes (summary other).Makes }
    ensures delta { (archive : Reader Q) (other : Reader R) (named : Reader S) (others : Reader T) (o : Operations)
        (text : List ℕ)
        → IsContent o
        → IsGivenArchive archive o
        → IsGivenArchive other o
        → IsGiven named text
        → IsGiven others text
        → MakeOne (delta archive named).Makes (delta other others).Makes }
{
    one_list_of_operations();
    one_summary();
}

/// If the archives are the texts of contents, the FILEs of `admit` are accepted, OPS is the text of operations and
/// SUMMARY that of entries, inputs are refused only for their devices.
pub fn accepted_inputs_are_not_refused<R: Source, S: Source>()
    ensures admit { (input : Reader R) (files : List (Reader S)) (o : Operations) (texts : List (List ℕ))
        → IsContent o
        → IsGivenArchive input o
        → AllZip IsGiven files texts
        → AllByRecursion IsAcceptedFile texts
        → AreDevicesAlone (admit input files).Refuses }
    ensures retire { (key : SliceKey) (digest : Digest)
        → RefusesDevicesAlone {R = R} (λ input. (retire input key digest).Refuses) }
    ensures merge { (input : Reader R) (files : List (Reader S)) (o : Operations) (contents : List Operations)
        → IsContent o
        → AllByRecursion IsContent contents
        → IsGivenArchive input o
        → AllZip IsGivenArchive files contents
        → AreDevicesAlone (merge input files).Refuses }
    ensures migrate { RefusesDevicesAlone {R = R} (λ input. (migrate input).Refuses) }
    ensures apply { (input : Reader R) (ops : Reader S) (o : Operations) (text : List ℕ) (operations : List Operation)
        → IsContent o
        → IsGivenArchive input o
        → IsGiven ops text
        → IsOperationsText text operations
        → AreDevicesAlone (apply input ops).Refuses }
    ensures summary { RefusesDevicesAlone {R = R} (λ archive. (summary archive).Refuses) }
    ensures delta { (archive : Reader R) (named : Reader S) (o : Operations) (entries : Entries)
        → IsContent o
        → AreEntries entries
        → IsGivenArchive archive o
        → IsGiven named (summary_text entries)
        → AreDevicesAlone (delta archive named).Refuses }
{
    one_take_fault();
}

/// `admit` that passes over files, with the status that all was done, makes the same as `admit` that fails for a
/// refused file, and conversely if no reader of a file fails.
pub fn none_passed_over<R: Source, S: Source>()
    ensures done { (opening : S → Opening) (input : Reader R) (files : List (Reader S)) (o : Operations)
        (lines : List ℕ)
        → MakesPassing opening input files Done o lines
        → MakesAdmitted input files o lines }
    ensures accepted { (opening : S → Opening) (input : Reader R) (files : List (Reader S)) (o : Operations)
        (lines : List ℕ)
        → MakesAdmitted input files o lines
        → EachUnfailed files
        → MakesPassing opening input files Done o lines }
{}

/// The content that `admit` makes is IN's with the admissions of the files' images, for any order and repeats of the
/// files on the command line.
pub fn admitted_in_any_order()
    ensures content { (o : Operations) (files : List (List ℕ)) → IsMade o
        → admitted o (images_of files)
        ≡ joined o (content_of (set.from_list (map admission_record (images_of files)))) }
    ensures order { (o : Operations) (files others : List (List ℕ)) → IsMade o
        → ((file : List ℕ) → Contains files file ↔ Contains others file)
        → admitted o (images_of files) ≡ admitted o (images_of others) }
{}

/// The rows of a file follow those of the earlier files, and state the outcome of its slices over IN with the images of
/// these.
pub fn rows_in_order()
    ensures { (o : Operations) (files : List (List ℕ)) (index : ℕ) (file : List ℕ) → slice_get files index ≡ Some file
        → admit_rows o 0 files ≡ admit_rows o 0 (take index files)
        ++ (file_rows index 0 (taken_rows (admitted o (images_of (take index files))) (parts file))
        ++ admit_rows (admitted o (images_of (take (index + 1) files))) (index + 1) (drop (index + 1) files)) }
{}

/// `merge` makes the least content above IN and above each FILE: it has their records, and no others.
pub fn merged_is_least()
    ensures content { (o : Operations) (contents : List Operations) → IsContent o → AllByRecursion IsContent contents
        → IsContent (merged o contents) }
    ensures input { (o : Operations) (contents : List Operations) → IsContent o → AllByRecursion IsContent contents
        → IsBelow o (merged o contents) }
    ensures each { (o : Operations) (contents : List Operations) (p : Operations) → IsContent o
        → AllByRecursion IsContent contents → Contains contents p → IsBelow p (merged o contents) }
    ensures least { (o : Operations) (contents : List Operations) (q : Operations) → IsContent o
        → AllByRecursion IsContent contents → IsContent q
        → IsBelow o q
        → ((p : Operations) → Contains contents p → IsBelow p q)
        → IsBelow (merged o contents) q }
{}

/// The content that `merge` makes does not depend on the order of the FILEs, on repeated FILEs, on which of the
/// archives is IN, or on earlier merges among the FILEs: it is the content of all their operations.
pub fn merged_in_any_order()
    ensures order { (o : Operations) (contents others : List Operations) → IsContent o
        → AllByRecursion IsContent contents → AllByRecursion IsContent others
        → ((p : Operations) → Contains contents p ↔ Contains others p)
        → merged o contents ≡ merged o others }
    ensures input { (o p : Operations) (contents : List Operations) → IsContent o → IsContent p
        → merged o (p ∷ contents) ≡ merged p (o ∷ contents) }
    ensures grouping { (o p : Operations) (contents others : List Operations) → IsContent o → IsContent p
        → AllByRecursion IsContent contents → AllByRecursion IsContent others
        → merged o (contents ++ merged p others ∷ []) ≡ merged o (contents ++ p ∷ others) }
    ensures union { (o : Operations) (contents : List Operations) → IsContent o → AllByRecursion IsContent contents
        → merged o contents ≡ joined o (content_of (operations_of contents)) }
{
    contents_join();
}

/// If `merge` with one FILE is not stopped, it writes and reports the same as if it had read both archives first.
pub fn both_ways_write_the_same<R: Source, S: Source, D: Sink, T: Target>()
    ensures done { (input : Reader R) (file : Reader S) (out : Outs D T) (report : Writer) (status : Status)
        → EndsStreamed (merge_of_one input file (draft_of out)) (out_of out) report (Ok status)
        → Ends (merge input (file ∷ [])) (out_of out) report (Ok status) }
    ensures report { (input : Reader R) (file : Reader S) (out : Outs D T) (report : Writer) (n : ℕ)
        → EndsStreamed (merge_of_one input file (draft_of out)) (out_of out) report (Err (Report n))
        → Ends (merge input (file ∷ [])) (out_of out) report (Err (Report n)) }
{}

/// With one FILE, too, nothing is published if an input is refused, OUT fails or memory runs out.
pub fn merge_of_one_keeps_out<R: Source, S: Source, D: Sink, T: Target>()
    ensures { (input : Reader R) (file : Reader S) (out : Outs D T) (report : Writer) (fault : CommandFault)
        → ((n : ℕ) → fault ≢ Report n)
        → EndsStreamed (merge_of_one input file (draft_of out)) (out_of out) report (Err fault)
        → out.published out.new.target ≡ out.published out.old.target }
{}

/// A command that is stopped before its text is complete leaves OUT unchanged, even if OUT was begun; a refused input
/// (`Err (Input ..)` of `EndsStreamed`) stops it, too. A pipe, like a draft, then has a beginning of the text that the
/// command makes from an archive with the good records of its first input.
pub fn stopped_commands_keep_out<R: Source, S: Source, D: Sink, T: Target>()
    ensures admit { (input : Reader R) (files : List (Reader S)) (out : Out) (report : Writer)
        → LeavesBeginningIfStopped (admit_as_it_comes input files out.draft) (λ given. admit given files) input
        (EachKnown files) out report }
    ensures passing { (opening : S → Opening) (input : Reader R) (files : List (Reader S)) (out : Out) (report : Writer)
        → LeavesBeginningIfStopped (admit_passing_as_it_comes opening input files out.draft).streamed
        (λ given. admit_passing opening given files) input (EachCounted files) out report }
    ensures retire { (input : Reader R) (key : SliceKey) (digest : Digest) (out : Out) (report : Writer)
        → LeavesBeginningIfStopped (retire_as_it_comes input key digest out.draft) (λ given. retire given key digest)
        input (Unit {0}) out report }
    ensures merge { (input : Reader R) (files : List (Reader S)) (out : Outs D T) (report : Writer)
        → LeavesBeginningIfStopped (merge_as_it_comes input files out) (λ given. merge given files) input
        (EachKnown files) (out_of out) report }
    // With one FILE there is such a text for any bytes of both inputs, from their good records.
    ensures faulty { (input : Reader R) (file : Reader S) (out : Outs D T) (report : Writer) (fault : CommandFault)
        (text other : List ℕ) (records others : List (List ℕ))
        → IsStopped (merge_of_one input file (draft_of out)) (out_of out) report fault
        → IsGiven input text
        → IsGiven file other
        → AreGoodRecords text records
        → AreGoodRecords other others
        → (n : ℕ) × WritesFirst (out_of out).draft.old (out_of out).draft.new (written (of_both records others)) n }
    ensures migrate { (input : Reader R) (out : Out) (report : Writer)
        → LeavesBeginningIfStopped (migrate_as_it_comes input out.draft) (λ given. migrate given) input (Unit {0})
        out report }
    ensures apply { (input : Reader R) (ops : Reader S) (out : Out) (report : Writer)
        → LeavesBeginningIfStopped (apply_as_it_comes input ops out.draft) (λ given. apply given ops) input
        (IsKnown ops) out report }
    ensures delta { (archive : Reader R) (named : Reader S) (out : Out) (report : Writer)
        → LeavesBeginningIfStopped (delta_as_it_comes archive named out.draft) (λ given. delta given named) archive
        (IsKnown named) out report }
{
    stopped_merge_of_texts::<R, S, D>();
}

/// If IN and the one FILE are the texts of contents, they are refused only for their devices.
pub fn two_accepted_archives_are_not_refused<R: Source, S: Source, D: Sink, T: Target>()
    ensures { (input : Reader R) (file : Reader S) (out : Outs D T) (report : Writer) (o p : Operations)
        (name : InputName) (why : Why)
        → IsContent o
        → IsContent p
        → IsGivenArchive input o
        → IsGivenArchive file p
        → EndsStreamed (merge_of_one input file (draft_of out)) (out_of out) report (Err (Input name why))
        → IsDeviceFault why }
{}

/// A text of version 1 becomes the content of its operations, and a text of version 2 keeps its content, so OUT has the
/// bytes of IN.
pub fn migrated<R: Source>()
    ensures old { (input : Reader R) (p content : Operations) (lines : List ℕ) → AreOperations p
        → IsGiven input (old_written p) → MakesMigrated input content lines → content ≡ content_of p }
    ensures new { (input : Reader R) (o content : Operations) (lines : List ℕ) → IsContent o
        → IsGiven input (written o) → MakesMigrated input content lines → content ≡ o }
{}

/// A merge of the texts of version 1 for two sets of operations makes the same as a merge after `migrate` of one or
/// both: the content of all these operations. So the order of the two commands does not matter.
pub fn migrated_before_or_after<R: Source, S: Source>()
    ensures merged { (input : Reader R) (file : Reader S) (p q content : Operations) (lines : List ℕ) → AreOperations p
        → AreOperations q → IsGiven input (old_written p) → IsGiven file (old_written q)
        → MakesMerged input (file ∷ []) content lines → content ≡ content_of (set.union p q) }
    ensures before { (input : Reader R) (file : Reader S) (p q content : Operations) (lines : List ℕ) → AreOperations p
        → AreOperations q → IsGiven input (written (content_of p)) → IsGiven file (old_written q)
        → MakesMerged input (file ∷ []) content lines → content ≡ content_of (set.union p q) }
    ensures file { (input : Reader R) (file : Reader S) (p q content : Operations) (lines : List ℕ) → AreOperations p
        → AreOperations q → IsGiven input (old_written p) → IsGiven file (written (content_of q))
        → MakesMerged input (file ∷ []) content lines → content ≡ content_of (set.union p q) }
    ensures both { (input : Reader R) (file : Reader S) (p q content : Operations) (lines : List ℕ) → AreOperations p
        → AreOperations q → IsGiven input (written (content_of p)) → IsGiven file (written (content_of q))
        → MakesMerged input (file ∷ []) content lines → content ≡ content_of (set.union p q) }
{
    migrate_joins();
}

/// The content that `apply` makes is IN's joined with that of the operations, for any order and repeats of them in the
/// file; so two files with the same operations make one text in OUT.
pub fn applied_in_any_order()
    ensures content { (o : Operations) (operations : List Operation) → IsMade o
        → with_records o (map record_bytes operations)
        ≡ joined o (content_of (set.from_list (map record_bytes operations))) }
    ensures order { (o : Operations) (operations others : List Operation) → IsMade o
        → ((operation : Operation) → Contains operations operation ↔ Contains others operation)
        → with_records o (map record_bytes operations) ≡ with_records o (map record_bytes others) }
    ensures text { (o : Operations) (operations others : List Operation) → IsMade o
        → ((operation : Operation) → Contains operations operation ↔ Contains others operation)
        → written (with_records o (map record_bytes operations)) ≡ written (with_records o (map record_bytes others)) }
{
    takes_in_any_order();
}

/// `new` has no input, and is never refused for one: if it fails, OUT or the report failed, or memory ran out.
pub fn refused_for_no_input()
    ensures { (out : Out) (report : Writer) (name : InputName) (why : Why)
        → ¬ Publishes out report (written set.empty) (report_of set.empty []) (Err (Input name why)) }
{}

/// `new` writes the least archive: it has no records, and its merge with another one, on either side, is the other one.
pub fn least_archive()
    ensures content { IsContent set.empty }
    ensures least { (o : Operations) → IsBelow set.empty o }
    ensures before { (o : Operations) → IsContent o → merged set.empty (o ∷ []) ≡ o }
    ensures after { (o : Operations) → IsContent o → merged o (set.empty ∷ []) ≡ o }
{}
