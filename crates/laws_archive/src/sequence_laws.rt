//! The results of commands that are called one after another, in any order and number, each with archives that earlier
//! ones wrote. Each law is the contract of a function that only calls other laws.
//!
//! The definition is by cases, one for each command, over the text that the command makes by its own definition.
ghost use Rattle.std.specs.Prelude.{◌≡◌, ◌↔◌, ℕ, Bool, List, [], ◌∷◌, Ok, Option, false, length, true};
ghost use Rattle.std.specs.FinSet as set;
ghost use Rattle.join_core.specs.Bound.{IsLeastAbove};
ghost use Rattle.archive_core.specs.Content.{Operations, IsContent, IsBelow, content_of, joined};
ghost use Rattle.archive_core.specs.declared.keys.Digest.{Digest};
ghost use Rattle.archive_core.specs.declared.keys.SliceKey.{SliceKey};
ghost use Rattle.archive_records.specs.Text.{AreOperations, written};
ghost use Rattle.archive_exchange.specs.Reached.{reached};
ghost use Rattle.archive_exchange.specs.SiteState.{IsArchiveTextOf};
ghost use Rattle.archive_exchange.specs.World.{Event, state};
ghost use Rattle.byte_lazy_inputs.specs.declared.openings.Opening.{Opening};
ghost use Rattle.command_common.specs.declared.faults.Status.{Status};
ghost use Rattle.command_common.specs.Ends.{EndsStreamed};
ghost use Rattle.command_common.specs.Inputs.{IsGiven, IsGivenArchive, Reader};
ghost use Rattle.command_common.specs.Outputs.{Out, Outs, Publishes, Writer, out_of, report_of};
ghost use Rattle.command_queries.specs.Find.{find};
ghost use Rattle.command_queries.specs.Frames.{frames};
ghost use Rattle.command_queries.specs.List.{list};
ghost use Rattle.command_queries.specs.Name.{MakesNamed};
ghost use Rattle.command_queries.specs.Symbolicate.{MakesAnswered};
ghost use Rattle.command_archives.specs.Admit.{admit};
ghost use Rattle.command_archives.specs.Apply.{apply, apply_as_it_comes};
ghost use Rattle.command_archives.specs.Delta.{delta, delta_as_it_comes};
ghost use Rattle.command_archives.specs.Merge.{merge};
ghost use Rattle.command_archives.specs.MergeStreams.{merge_as_it_comes};
ghost use Rattle.command_archives.specs.Migrate.{migrate, migrate_as_it_comes};
ghost use Rattle.command_archives.specs.PassedOver.{EndsAdmit, admit_passing};
ghost use Rattle.command_archives.specs.Retire.{retire, retire_as_it_comes};
ghost use Rattle.laws_archive.specs.Joins.{IsGivenJoin, TellOne};
ghost use Rattle.laws_archive.specs.Sequences.{AreInputsOf, HasAtOut, IsInputOf, IsOutOf, Writes};

use crate::content_laws::contents_join;
use crate::report_laws::one_report;
use crate::text_laws::{one_list_of_operations, one_summary};
use archive_exchange::model_laws::reached_is_held;
use archive_image_admission::laws::one_take_fault;
use byte_device::{Sink, Source, Target};

/// For any commands, in any order and with any repeats and merges, OUT is the one text of the content of its
/// operations. So OUTs of the same operations have the same bytes; OUTs have the same bytes exactly if their operations
/// make the same content.
pub fn any_sequence_of_commands<R: Source>()
    ensures text { (text : List ℕ) (o : Operations) → IsOutOf R text o → IsArchiveTextOf text (content_of o) }
    ensures same_operations { (text other : List ℕ) (o p : Operations)
        → IsOutOf R text o
        → IsOutOf R other p
        → ((r : List ℕ) → (set.contains o r ≡ true) ↔ (set.contains p r ≡ true))
        → text ≡ other }
    ensures same_content { (text other : List ℕ) (o p : Operations)
        → IsOutOf R text o
        → IsOutOf R other p
        → (text ≡ other) ↔ (content_of o ≡ content_of p) }

    // An archive that a command reads, the OUT of a command or a text of version 1, has that content, too.
    ensures input { (input : Reader R) (o : Operations) → IsInputOf R input o
        → IsContent (content_of o) × IsGivenArchive input (content_of o) }
    ensures inputs { (input : Reader R) (inputs : List (Reader R)) (o : Operations)
        → AreInputsOf R (input ∷ inputs) o
        → IsGivenJoin input inputs (content_of o) }

    // The OUT of a merge of two is the text of the least content above both.
    ensures merged { (input file : Reader R) (o p : Operations) (text : List ℕ)
        → IsInputOf R input o
        → IsInputOf R file p
        → Writes (merge input (file ∷ [])) text
        → (text ≡ written (joined (content_of o) (content_of p)))
        × IsLeastAbove IsContent IsBelow (content_of o) (content_of p) (joined (content_of o) (content_of p)) }
{
    contents_join();
    one_list_of_operations();
    one_summary();
    one_take_fault();
}

/// A call that succeeds leaves at OUT a text that the definition has for its command.
pub fn calls_write_outs<R: Source, D: Sink, T: Target>()
    ensures new { (out : Out) (report : Writer) (status : Status) (text : List ℕ)
        → HasAtOut out text
        → Publishes out report (written set.empty) (report_of set.empty []) (Ok status)
        → IsOutOf R text set.empty }
    ensures admit { (opening : R → Opening) (input : Reader R) (files : List (Reader R)) (out : Out) (report : Writer)
        (status : Status) (text : List ℕ)
        → HasAtOut out text
        → EndsAdmit false opening input files out report (Ok status)
        → Writes (admit input files) text }
    ensures passing { (opening : R → Opening) (input : Reader R) (files : List (Reader R)) (out : Out) (report : Writer)
        (status : Status) (text : List ℕ)
        → HasAtOut out text
        → EndsAdmit true opening input files out report (Ok status)
        → Writes (admit_passing opening input files) text }
    ensures retire { (input : Reader R) (key : SliceKey) (digest : Digest) (out : Out) (report : Writer)
        (status : Status) (text : List ℕ)
        → HasAtOut out text
        → EndsStreamed (retire_as_it_comes input key digest out.draft) out report (Ok status)
        → Writes (retire input key digest) text }
    ensures apply { (input ops : Reader R) (out : Out) (report : Writer) (status : Status) (text : List ℕ)
        → HasAtOut out text
        → EndsStreamed (apply_as_it_comes input ops out.draft) out report (Ok status)
        → Writes (apply input ops) text }
    ensures merge { (input : Reader R) (files : List (Reader R)) (out : Outs D T) (report : Writer) (status : Status)
        (text : List ℕ)
        → HasAtOut (out_of out) text
        → EndsStreamed (merge_as_it_comes input files out) (out_of out) report (Ok status)
        → Writes (merge input files) text }
    ensures migrate { (input : Reader R) (out : Out) (report : Writer) (status : Status) (text : List ℕ)
        → HasAtOut out text
        → EndsStreamed (migrate_as_it_comes input out.draft) out report (Ok status)
        → Writes (migrate input) text }
    ensures delta { (archive summary : Reader R) (out : Out) (report : Writer) (status : Status) (text : List ℕ)
        → HasAtOut out text
        → EndsStreamed (delta_as_it_comes archive summary out.draft) out report (Ok status)
        → Writes (delta archive summary) text }
{}

/// `new` and `apply` make such an OUT from any operations.
pub fn each_set_has_an_out()
    ensures { (o : Operations) → AreOperations o → IsOutOf (List ℕ) (written (content_of o)) o }
{}

/// OUTs of commands, and texts of version 1, whose operations make one content answer alike, one archive or several
/// read together: they have one status, and one report.
pub fn any_sequence_answers_alike<R: Source>()
    ensures find { (archive also : Reader R) (others more : List (Reader R)) (o p : Operations) (uuid : List ℕ)
        → AreInputsOf R (archive ∷ others) o
        → AreInputsOf R (also ∷ more) p
        → content_of o ≡ content_of p
        → TellOne (find archive others uuid).Makes (find also more uuid).Makes }
    ensures list { (archive also : Reader R) (o p : Operations)
        → IsInputOf R archive o
        → IsInputOf R also p
        → content_of o ≡ content_of p
        → TellOne (list archive).Makes (list also).Makes }
    ensures name { (archive also : Reader R) (others more : List (Reader R)) (o p : Operations) (sought : List ℕ)
        → AreInputsOf R (archive ∷ others) o
        → AreInputsOf R (also ∷ more) p
        → content_of o ≡ content_of p
        → TellOne (MakesNamed archive others sought) (MakesNamed also more sought) }
    ensures symbolicate { (archive also : Reader R) (others more : List (Reader R)) (o p : Operations) (key : SliceKey)
        (load : Option ℕ) (lines slices : Bool) (addresses : List ℕ)
        → AreInputsOf R (archive ∷ others) o
        → AreInputsOf R (also ∷ more) p
        → content_of o ≡ content_of p
        → TellOne (MakesAnswered archive others key load lines slices addresses)
        (MakesAnswered also more key load lines slices addresses) }
    ensures frames { (lines slices : Bool) (input other archive also : Reader R) (others more : List (Reader R))
        (bytes : List ℕ) (o p : Operations)
        → IsGiven input bytes
        → IsGiven other bytes
        → AreInputsOf R (archive ∷ others) o
        → AreInputsOf R (also ∷ more) p
        → content_of o ≡ content_of p
        → TellOne (frames lines slices input archive others).Makes (frames lines slices other also more).Makes }
{
    any_sequence_of_commands::<R>();
    one_report::<R, R, R, R, R, R>();
}

/// An OUT of commands is the text of a site's content, after any list of events, if its operations make the same
/// content as those that reached the site.
pub fn sites_as_commands<F, R: Source>()
    ensures { (sites : ℕ) (events : List (Event F)) (i : ℕ) (text : List ℕ) (o : Operations)
        → IsOutOf R text o
        → content_of (reached sites events i) ≡ content_of o
        → IsArchiveTextOf text ((state sites events (length events)).held i) }
{
    any_sequence_of_commands::<R>();
    reached_is_held::<F>();
}
