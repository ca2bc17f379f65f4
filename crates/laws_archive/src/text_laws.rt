//! Laws that relate the definitions of texts. Each law is a function with an empty body, and its contract the law.

ghost use Rattle.std.specs.Prelude.{◌≡◌, ◌≢◌, ◌+◌, ◌<◌, ◌≤◌, ◌^◌, ◌++◌, ◌↔◌, ◌⊎◌, ℕ, List};
ghost use Rattle.std.specs.Prelude.{[], length, take, slice_index, Some, Err, Contains, true};
ghost use Rattle.std.specs.FinSet as set;
ghost use Rattle.byte_device.specs.Writes.{WritesFirst};
ghost use Rattle.join_core.specs.Listing.{listing};
ghost use Rattle.archive_core.specs.Content.{Operations, IsContent, joined, content_of};
ghost use Rattle.archive_records.specs.declared.fault.RecordFaultKind.TheVariants.{TooLarge, NotAscending, BadSlice};
ghost use Rattle.archive_records.specs.declared.fault.RecordFaultKind.TheVariants.{KeyMismatch, BadCount, Trailing};
ghost use Rattle.archive_records.specs.declared.fault.RecordFaultKind.TheVariants.{BadMagic, Truncated};
ghost use Rattle.archive_records.specs.declared.fault.RecordFaultKind.TheVariants.{Covered};
ghost use Rattle.archive_records.specs.declared.format.Format.TheVariants.{Archive};
ghost use Rattle.sha2.specs.Sha256.{sha256};
ghost use Rattle.std.specs.List.{concat};
ghost use Rattle.archive_core.specs.Valid.{IsValid, key_of};
ghost use Rattle.archive_core.specs.Record.{admission_record, retirement_record};
ghost use Rattle.archive_records.specs.Kind.{magic, old_magic, may_follow};
ghost use Rattle.archive_core.specs.declared.faults.SliceFault.{SliceFault};
ghost use Rattle.archive_core.specs.Summary.{Entries, summary};
ghost use Rattle.archive_records.specs.Entry.{AreEntries};
ghost use Rattle.archive_records.specs.declared.fault.RecordFault.{RecordFault};
ghost use Rattle.archive_records.specs.declared.fault.MergeFault.{MergeFault};
ghost use Rattle.archive_core.specs.declared.operations.Operation.{Operation};
ghost use Rattle.archive_records.specs.declared.format.Format.{Format};
ghost use Rattle.archive_records.specs.Text.{IsWritten, written, IsOperationsText, IsSummaryText, summary_text};
ghost use Rattle.archive_records.specs.Text.{AreOperations, IsArchiveOf, old_written};
ghost use Rattle.archive_records.specs.Text.{last_of};
ghost use Rattle.archive_records.specs.Fault.{IsFault, IsOperationsFault, IsSummaryFault, IsFaultOf, IsMagicFault};
ghost use Rattle.archive_records.specs.Front.{IsGoodFront, IsLongestFront, front_length};
ghost use Rattle.archive_merge.specs.Merging.{AreGoodRecords, IsArchiveText, IsWrittenBefore};
ghost use Rattle.archive_merge.specs.Merging.{LeftStops, Merges, RightStops, of_both};
ghost use Rattle.byte_device.specs.Devices.{Stream};

use byte_device::{Sink, Source};

/// A content has exactly one written text: that of `written`.
pub fn written_is_the_one_text()
    ensures { (o : Operations) (text : List ℕ) → IsWritten o text ↔ (text ≡ written o) }
{}

/// A text has at most one content.
pub fn one_content()
    ensures { (text : List ℕ) (o p : Operations) → IsContent o → IsContent p → IsArchiveOf o text → IsArchiveOf p text
        → o ≡ p }
{}

/// No text of an archive, of either version, is the beginning of another one.
pub fn no_text_begins_another()
    ensures { (o p : Operations) (text other more : List ℕ) → IsContent o → IsContent p → IsArchiveOf o text
        → IsArchiveOf p other → text ++ more ≡ other → more ≡ [] }
{}

/// Bytes are an archive's text, or have a fault.
pub fn content_or_fault()
    ensures { (text : List ℕ) → ((i : ℕ) → slice_index text i < 256)
        → ((o : Operations) × IsContent o × IsArchiveOf o text) ⊎ ((fault : RecordFault) × IsFault text fault) }
{}

/// A text has at most one fault.
pub fn one_fault()
    ensures { (text : List ℕ) (f g : RecordFault) → IsFault text f → IsFault text g → f ≡ g }
{}

/// The written text of a content has no fault, nor has a text of version 1 for operations. A number of records of 2^64
/// or more would not fit the end record.
pub fn text_has_no_fault()
    ensures written { (o : Operations) (fault : RecordFault) → IsContent o → set.len o < 2 ^ 64
        → IsFault (written o) fault → ⊥ }
    ensures old { (p : Operations) (fault : RecordFault) → AreOperations p → set.len p < 2 ^ 64
        → IsFault (old_written p) fault → ⊥ }
{}

/// Fewer bytes than a magic has are truncated if both magics of archives begin with them; and first bytes with which
/// neither magic begins are those of no archive.
pub fn magics_in_words()
    ensures truncated { (text : List ℕ) → IsFault text (record { kind = Truncated; offset = 0 })
        ↔ ((length text < 8) × (text ≡ take (length text) magic) × (text ≡ take (length text) old_magic)) }
    ensures bad { (text : List ℕ) → IsFault text (record { kind = BadMagic; offset = 0 })
        ↔ ((n : ℕ) × (n ≤ 8) × (n ≤ length text) × (take n text ≢ take n magic) × (take n text ≢ take n old_magic)) }
{}

/// The text of version 1 for a content has this content.
pub fn old_text_of_a_content()
    ensures { (o : Operations) → IsContent o → IsArchiveOf o (old_written o) }
{}

/// After the magic, a fault is at the end of the longest good front; for surplus bytes, it is at the end of the end
/// record there.
pub fn longest_front()
    ensures { (file : Format) (text : List ℕ) (fault : RecordFault) → IsFaultOf file text fault
        → IsMagicFault file text fault.kind
        ⊎ ((records : List (List ℕ)) × IsLongestFront file text records
        × ((fault.offset ≡ front_length records)
        ⊎ ((fault.kind ≡ Trailing) × (fault.offset ≡ front_length records + 9)))) }
{}

/// A text is that of at most one list of operations.
pub fn one_list_of_operations()
    ensures { (text : List ℕ) (a b : List Operation) → IsOperationsText text a → IsOperationsText text b → a ≡ b }
{}

/// Bytes are the text of operations, or have a fault as such a text.
pub fn operations_or_fault()
    ensures { (text : List ℕ) → ((i : ℕ) → slice_index text i < 256)
        → ((operations : List Operation) × IsOperationsText text operations)
        ⊎ ((fault : RecordFault) × IsOperationsFault text fault) }
{}

/// Bytes have at most one fault as the text of operations.
pub fn one_fault_of_operations()
    ensures { (text : List ℕ) (f g : RecordFault) → IsOperationsFault text f → IsOperationsFault text g → f ≡ g }
{}

/// The text of operations has no fault, for any number of them.
pub fn operations_have_no_fault()
    ensures { (text : List ℕ) (operations : List Operation) (fault : RecordFault) → IsOperationsText text operations
        → IsOperationsFault text fault → ⊥ }
{}

/// An operations file is not refused for its order, for a number of records, or for bytes after an end record.
pub fn faults_of_operations()
    ensures { (text : List ℕ) (fault : RecordFault) → IsOperationsFault text fault
        → (fault.kind ≢ NotAscending) × (fault.kind ≢ BadCount) × (fault.kind ≢ Trailing) }
{}

/// A summary has exactly one text: that of `summary_text`.
pub fn summary_text_is_the_one()
    ensures { (s : Entries) (text : List ℕ) → IsSummaryText s text ↔ (text ≡ summary_text s) }
{}

/// The entries of the operations of a content are a summary.
pub fn content_has_summary()
    ensures { (o : Operations) → IsContent o → AreEntries (summary o) }
{}

/// A text is that of at most one summary.
pub fn one_summary()
    ensures { (s t : Entries) → AreEntries s → AreEntries t → summary_text s ≡ summary_text t → s ≡ t }
{}

/// Bytes are the text of a summary, or have a fault as such a text.
pub fn summary_or_fault()
    ensures { (text : List ℕ) → ((i : ℕ) → slice_index text i < 256)
        → ((s : Entries) × AreEntries s × IsSummaryText s text) ⊎ ((fault : RecordFault) × IsSummaryFault text fault) }
{}

/// Bytes have at most one fault as the text of a summary.
pub fn one_fault_of_summary()
    ensures { (text : List ℕ) (f g : RecordFault) → IsSummaryFault text f → IsSummaryFault text g → f ≡ g }
{}

/// The text of a summary has no fault. A number of entries of 2^64 or more would not fit the end record.
pub fn summary_has_no_fault()
    ensures { (s : Entries) (fault : RecordFault) → AreEntries s → set.len s < 2 ^ 64
        → IsSummaryFault (summary_text s) fault → ⊥ }
{}

/// A summary has no slices, and so no fault of a slice.
pub fn faults_of_summaries()
    ensures large { (text : List ℕ) (fault : RecordFault) → IsSummaryFault text fault → fault.kind ≢ TooLarge }
    ensures slice { (text : List ℕ) (fault : RecordFault) (why : SliceFault) → IsSummaryFault text fault
        → fault.kind ≢ BadSlice why }
    ensures key { (text : List ℕ) (fault : RecordFault) → IsSummaryFault text fault → fault.kind ≢ KeyMismatch }
{}

/// A covered slice is a fault only in an archive's text of version 2: in version 1 and in operations, retirements may
/// occur in any order, and a summary's entry covers none.
pub fn covered_in_archives_alone()
    ensures old { (text rest : List ℕ) (fault : RecordFault) → text ≡ old_magic ++ rest → IsFault text fault
        → fault.kind ≢ Covered }
    ensures operations { (text : List ℕ) (fault : RecordFault) → IsOperationsFault text fault → fault.kind ≢ Covered }
    ensures summaries { (text : List ℕ) (fault : RecordFault) → IsSummaryFault text fault → fault.kind ≢ Covered }
{}

/// A covered slice is admitted after the longest good front, whose records include the retirement of its key and
/// SHA-256; the fault is at the offset of its admission. Conversely, each such slice after a good front has this fault.
pub fn covered_in_words()
    ensures stands { (text : List ℕ) (fault : RecordFault) → IsFault text fault → fault.kind ≡ Covered
        → (records : List (List ℕ)) × (slice : List ℕ) × (rest : List ℕ) × IsLongestFront Archive text records
        × (IsValid slice × (text ≡ magic ++ (concat records ++ (admission_record slice ++ rest)))
        × Contains records (retirement_record (key_of slice) (sha256 slice)))
        × (fault.offset ≡ front_length records) }
    ensures told { (text : List ℕ) (records : List (List ℕ)) (front : IsGoodFront Archive text records)
        (slice rest : List ℕ) → IsValid slice → front.rest ≡ admission_record slice ++ rest
        → may_follow Archive (last_of [] records) (admission_record slice) ≡ true
        → Contains records (retirement_record (key_of slice) (sha256 slice))
        → IsFault text (record { kind = Covered; offset = front_length records }) }
{}

/// A text has one longest good front, and so one list of good records.
pub fn one_list_of_good_records()
    ensures { (text : List ℕ) (a b : List (List ℕ)) → AreGoodRecords text a → AreGoodRecords text b → a ≡ b }
{}

/// Any bytes have a list of good records.
pub fn good_records_exist()
    ensures { (text : List ℕ) → ((i : ℕ) → slice_index text i < 256)
        → (records : List (List ℕ)) × AreGoodRecords text records }
{}

/// The good records of the text of a content are its records, and those of a text of version 1 are those of its
/// operations. Those of two texts make the join of both, which is also the join of the contents that their operations
/// make.
pub fn good_records_of_texts()
    ensures records { (o : Operations) → IsContent o → AreGoodRecords (written o) (listing o) }
    ensures old { (p : Operations) → AreOperations p → AreGoodRecords (old_written p) (listing p) }
    ensures joined { (o p : Operations) → of_both (listing o) (listing p) ≡ joined o p }
    ensures made { (o p : Operations) → of_both (listing o) (listing p) ≡ joined (content_of o) (content_of p) }
{}

/// Two inputs are both the texts of archives, or the left side stops their merge, or the right side does.
pub fn texts_or_one_side_stops()
    ensures { (left right : List ℕ) (lefts rights : List (List ℕ)) → AreGoodRecords left lefts
        → AreGoodRecords right rights
        → (IsArchiveText left × IsArchiveText right)
        ⊎ LeftStops left right lefts rights
        ⊎ RightStops left right lefts rights }
{}

/// At most one of two sides stops their merge, after one text.
pub fn one_side_stops()
    ensures side { (left right : List ℕ) (lefts rights : List (List ℕ)) → LeftStops left right lefts rights
        → RightStops left right lefts rights → ⊥ }
    ensures place { (left right : List ℕ) (o : Operations) (low a b : List ℕ) → IsWrittenBefore left right o low a
        → IsWrittenBefore left right o low b → a ≡ b }
{}

/// A merge that is stopped writes no text of an archive: no proper beginning of such a text is one.
pub fn beginning_is_no_text()
    ensures { (o : Operations) (n : ℕ) → IsContent o → n < length (written o) → IsArchiveText (take n (written o)) → ⊥ }
{}

/// The good records of any two inputs make a content. If a side stopped a merge, the written bytes are a beginning of
/// that content's text, and not all of it, so not the text of an archive. No proper beginning of that text is the text
/// of an archive, which covers a failure of the writer.
pub fn refused_merge_is_no_text()
    ensures content { (left right : List ℕ) (lefts rights : List (List ℕ)) → AreGoodRecords left lefts
        → AreGoodRecords right rights → IsContent (of_both lefts rights) }
    ensures beginning { (left right : List ℕ) (lefts rights : List (List ℕ)) (low bytes : List ℕ)
        → AreGoodRecords left lefts
        → AreGoodRecords right rights
        → IsWrittenBefore left right (of_both lefts rights) low bytes
        → (n : ℕ) × (n < length (written (of_both lefts rights)))
        × (bytes ≡ take n (written (of_both lefts rights))) }
    ensures stopped { (left right : List ℕ) (lefts rights : List (List ℕ)) (low bytes : List ℕ)
        → AreGoodRecords left lefts
        → AreGoodRecords right rights
        → IsWrittenBefore left right (of_both lefts rights) low bytes
        → IsArchiveText bytes
        → ⊥ }
    ensures cut { (left right : List ℕ) (lefts rights : List (List ℕ)) (n : ℕ)
        → AreGoodRecords left lefts
        → AreGoodRecords right rights
        → n < length (written (of_both lefts rights))
        → IsArchiveText (take n (written (of_both lefts rights)))
        → ⊥ }
{}

/// If a merge of texts of two contents was stopped, for instance because the writer failed, the written bytes are the
/// first bytes of the text of their join, and not all of it.
pub fn stopped_merge_of_texts<R: Source, S: Source, W: Sink>()
    ensures { (left : Stream R) (right : Stream S) (out : Stream W) (o p : Operations) (t u : List ℕ)
        (fault : MergeFault)
        → IsContent o
        → IsContent p
        → IsArchiveOf o t
        → IsArchiveOf p u
        → left.bytes left.old ≡ Some t
        → right.bytes right.old ≡ Some u
        → Merges left right out (Err fault)
        → WritesFirst (out.bytes out.old) (out.bytes out.new) (written (joined o p)) fault.written }
{}
