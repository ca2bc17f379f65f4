//! Laws about any list of events, on any number of sites: with messages that are lost, repeated, reordered or delivered
//! to another site, and with stops anywhere.
//!
//! Each law is the contract of a function with an empty body. Its clauses are about the definitions alone; `F` is the
//! type of a refused file's fault. Events, sites and messages are counted from 0, and `n` events are the first `n` of
//! the list.
ghost use Rattle.std.specs.Prelude.{◌≡◌, ◌↔◌, ◌≤◌, ℕ, suc, min, max, true, Some, None};
ghost use Rattle.std.specs.Prelude.{is_none, List, length, map, take, slice_get};
ghost use Rattle.std.specs.declared.option.Option.{Option};
ghost use Rattle.std.specs.FinSet as set;
ghost use Rattle.archive_core.specs.Content.{Operations, IsContent, IsBelow, content_of, with_records};
ghost use Rattle.archive_exchange.specs.World.{World, Event, Fault, Refused, Skipped, fault_of, effect};
ghost use Rattle.archive_exchange.specs.World.{happens, answer, outcome, state, row_of, rows, records};
ghost use Rattle.archive_exchange.specs.Reached.{is_accepted, senders, message_sent, had, reaching, reached, Reaches};
ghost use Rattle.archive_exchange.specs.Issued.{AreIssued, AreRecords, DigestsDiffer};
ghost use Rattle.archive_exchange.specs.Issued.{EntriesDiffer, IsExchange, IsQuiet};

/// A refused event changes nothing, and its outcome is the fault; any other event has its effect and its outcome.
pub fn refused_changes_nothing<F>()
    ensures unchanged { (sites : ℕ) (w : World) (e : Event F) (f : Fault F)
        → fault_of sites w e ≡ Some f
        → happens sites w e ≡ w }
    ensures told { (sites : ℕ) (w : World) (e : Event F) (f : Fault F)
        → fault_of sites w e ≡ Some f
        → outcome sites w e ≡ Refused f }
    ensures accepted { (sites : ℕ) (w : World) (e : Event F)
        → fault_of sites w e ≡ None
        → happens sites w e ≡ effect w e }
    ensures answered { (sites : ℕ) (w : World) (e : Event F)
        → fault_of sites w e ≡ None
        → outcome sites w e ≡ answer w e }
{}

/// There is one row for each part, in the order of the file: the row of a record is its result on the content with the
/// records before it.
pub fn rows_in_order()
    ensures number { (o : Operations) (parts : List (Option (List ℕ))) → length (rows o parts) ≡ length parts }
    ensures skipped { (o : Operations) (parts : List (Option (List ℕ))) (i : ℕ)
        → slice_get parts i ≡ Some None
        → slice_get (rows o parts) i ≡ Some Skipped }
    ensures taken { (o : Operations) (parts : List (Option (List ℕ))) (i : ℕ) (r : List ℕ)
        → slice_get parts i ≡ Some (Some r)
        → slice_get (rows o parts) i ≡ Some (row_of (with_records o (records (take i parts))) r) }
{}

/// The list alone determines the run: an event is accepted exactly if it has no fault in the state before it, and the
/// messages of that state are those that the accepted events before it have sent, in their order.
pub fn accepted_in_words<F>()
    ensures accepted { (sites : ℕ) (events : List (Event F)) (n : ℕ) (e : Event F)
        → is_accepted sites events (senders sites events n) (Some e)
        ≡ is_none (fault_of sites (state sites events n) e) }
    ensures messages { (sites : ℕ) (events : List (Event F)) (n : ℕ)
        → (state sites events n).messages
        ≡ map (λ k. message_sent sites events (λ m i. (state sites events m).held i) k (slice_get events k))
        (senders sites events n) }
{}

/// An operation reaches a site if an accepted event before `n` of the site brought it, and each stop of the site since
/// then has a save or an ask of the site between that event and the stop.
pub fn reaching_in_words<F>()
    ensures { (sites : ℕ) (events : List (Event F)) (had_by : ℕ → ℕ → Operations) (o : List ℕ) (i n : ℕ)
        → (set.contains (reaching sites events had_by i n) o ≡ true) ↔ Reaches sites events had_by o i n }
{}

/// A site holds the content of the operations that reach it, after all events and after each number of them.
pub fn reached_is_held<F>()
    ensures end { (sites : ℕ) (events : List (Event F)) (i : ℕ)
        → (state sites events (length events)).held i ≡ content_of (reached sites events i) }
    ensures each { (sites : ℕ) (events : List (Event F)) (n i : ℕ)
        → (state sites events n).held i ≡ had sites events n i }
    // The operations that a site had are the content of those that reached it by messages from sites with these
    // operations.
    ensures meant { (sites : ℕ) (events : List (Event F)) (n i : ℕ)
        → had sites events n i ≡ content_of (reaching sites events (had sites events) i n) }
{}

/// If the operations that reached two sites have the same content, the sites hold the same content, after one list of
/// events or after two.
pub fn same_operations_same_content<F>()
    ensures { (sites others : ℕ) (events later : List (Event F)) (i j : ℕ)
        → content_of (reached sites events i) ≡ content_of (reached others later j)
        → (state sites events (length events)).held i ≡ (state others later (length later)).held j }
{}

/// Each operation that a site holds or has saved was issued: an accepted take or retirement of the list brought it. The
/// saved content stays below the contents that the site saves and holds later: only slices that were retired since then
/// are missing.
pub fn issued_and_kept<F>()
    ensures held { (sites : ℕ) (events : List (Event F)) (n i : ℕ)
        → AreIssued sites events ((state sites events n).held i) }
    ensures saved { (sites : ℕ) (events : List (Event F)) (n i : ℕ)
        → AreIssued sites events ((state sites events n).saved i) }
    ensures grows { (sites : ℕ) (events : List (Event F)) (n m i : ℕ)
        → n ≤ m
        → IsBelow ((state sites events n).saved i) ((state sites events m).saved i) }
    ensures below { (sites : ℕ) (events : List (Event F)) (n m i : ℕ)
        → n ≤ m
        → IsBelow ((state sites events n).saved i) ((state sites events m).held i) }
{}

/// If the issued operations are records, the operations that a site holds and those that it has saved are contents.
pub fn records_make_contents<F>()
    ensures held { (sites : ℕ) (events : List (Event F)) (n i : ℕ)
        → AreRecords sites events
        → IsContent ((state sites events n).held i) }
    ensures saved { (sites : ℕ) (events : List (Event F)) (n i : ℕ)
        → AreRecords sites events
        → IsContent ((state sites events n).saved i) }
{}

/// If no two different issued slices have the same SHA-256, no two different issued operations have the same entry.
pub fn digests_differ<F>()
    ensures { (sites : ℕ) (events : List (Event F))
        → AreRecords sites events
        → DigestsDiffer sites events
        → EntriesDiffer sites events }
{}

/// A delta in reply to a summary of site `i`, however old, raises the site above the content of the replier `x` at the
/// reply, whatever stopped between, and whatever slices the site has retired since it asked: event `a` asks, `r`
/// replies, `k` delivers.
pub fn asker_is_above_replier<F>()
    ensures { (sites : ℕ) (events : List (Event F)) (i x a r k : ℕ)
        → AreRecords sites events
        → DigestsDiffer sites events
        → IsExchange sites events i x a r k
        → IsBelow ((state sites events r).held x) ((state sites events (suc k)).held i) }
{}

/// If two sites replied to each other's summaries, and from the earlier ask to the later delivery had no other take,
/// retirement, delivery or stop, they hold the same content.
pub fn mutual_replies_agree<F>()
    ensures { (sites : ℕ) (events : List (Event F)) (i j a r d b s e : ℕ)
        → AreRecords sites events
        → DigestsDiffer sites events
        → IsExchange sites events i j a r d
        → IsExchange sites events j i b s e
        → IsQuiet events i (min a b) (max d e) d
        → IsQuiet events j (min a b) (max d e) e
        → (state sites events (suc (max d e))).held i ≡ (state sites events (suc (max d e))).held j }
{}
