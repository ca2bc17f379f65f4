//! The answers of the tables of indexes under a key, each with its lines.

ghost use Rattle.std.specs.Prelude.{◌≡◌, ◌∷◌, ◌++◌, [], IfOk, MatchOption, OnOk, length, map, string_bytes};
ghost use Rattle.std.specs.List.{AllZip};
ghost use Rattle.archive_core.specs.Key.{key_bytes};
ghost use Rattle.text_reports.specs.Answers.{answer_lines};
ghost use Rattle.text_reports.specs.FrameLists.{lists_view};
ghost use Rattle.command_queries.specs.Places.{IsPlaceTold};
ghost use Rattle.index_lookup.specs.Among.{AreTied};
ghost use Rattle.index_lookup.specs.AmongAsked.{HaveTexts};
ghost use Rattle.index_lookup.specs.Views.{borrowed_in};
ghost use Rattle.command_frames.specs.Asking.{IsAnsweredByTables};
ghost use Rattle.command_frames.specs.InnerAsking.{AsksTables, IsKeyFault, command_fault};
ghost use Rattle.command_frames.specs.InnerKeyReplies.{IsAnswerAt, IsAnswerIn, IsKeyReply, shown_at, reply_to_fault};

use archive_core::{Answer, SliceKey, Where};
use byte_device::Placed;
use command_common::{CommandFault, InputName, Status, Why};
use command_queries::{PlaceAnswer, address_in, status_after};
use dwarf_source_frames::SourceFrame;
use heap_memory::{Heap, NoMemory};
use index_format::{IndexFault, IndexFaultKind, IndexPart};
use index_lookup::laws::each_told;
use index_lookup::{AnswerFault, Answers, answer_among, answering_entries};
use text_reports::push_answer;

/// The fault of a command for a fault of asking tables.
fn refusal(fault: AnswerFault) -> CommandFault
    ensures { result ≡ command_fault fault }
{
    match fault {
        AnswerFault::Damaged { input, entry } => {
            CommandFault::Input(InputName::Index(input), Why::Damaged(entry))
        }
        AnswerFault::NoLines { input, entry } => {
            CommandFault::Input(InputName::Index(input), Why::NoLines(entry))
        }
        AnswerFault::Device { input, offset } => {
            let kind = IndexFaultKind::Device;
            CommandFault::Input(
                InputName::Index(input),
                Why::Index(IndexFault { kind, offset }),
            )
        }
        AnswerFault::OutOfMemory => CommandFault::OutOfMemory,
    }
}

/// The reply under a key.
#[derive(Drop)]
pub(crate) enum KeyReply {
    /// The answers for the addresses that were asked for, in order.
    Told(Vec<PlaceAnswer, Heap>),
    /// The key is refused: a table was changed or has no lines, or a slice was changed.
    Refused(InputName, Why),
}

/// The result after a fault of asking tables. If slices are wanted, a fault of the key alone refuses the key.
fn reply_to_fault(slices: bool, fault: AnswerFault) -> Result<Option<KeyReply>, CommandFault>
    ensures { result ≡ reply_to_fault slices fault }
{
    if !slices {
        return Err(refusal(fault));
    }
    match fault {
        AnswerFault::Damaged { input, entry } => Ok(Some(KeyReply::Refused(
            InputName::Index(input),
            Why::Damaged(entry),
        ))),
        AnswerFault::NoLines { input, entry } => Ok(Some(KeyReply::Refused(
            InputName::Index(input),
            Why::NoLines(entry),
        ))),
        AnswerFault::Device { input, offset } => Err(refusal(AnswerFault::Device {
            input,
            offset,
        })),
        AnswerFault::OutOfMemory => Err(CommandFault::OutOfMemory),
    }
}

/// Lists of frames, borrowed.
fn borrowed_lists<'l, 'f>(
    heap: Heap,
    lists: &'l [Vec<SourceFrame<'f>, Heap>],
) -> Result<Vec<&'l [SourceFrame<'f>], Heap>, NoMemory>
    ensures { IfOk result (λ borrowed. lists_view borrowed.items ≡ map borrowed_in lists.now) }
{
    let mut borrowed = Vec::with_capacity(heap, lists.len())?;
    'lists: for list in lists {
        borrowed.push(list.as_slice())?;
    }
    Ok(borrowed)
}

/// Writes the answer with this number to an address, and if lines are wanted its frames.
fn push_table_answer(
    heap: &Heap,
    text: &mut String<Heap>,
    address: u64,
    answer: &Answer<'_>,
    answers: &Answers,
    lines: bool,
    number: usize,
) -> Result<(), NoMemory>
    ensures { OnOk result (string_bytes text.new ≡ string_bytes text.old
        ++ answer_lines address answer.now (shown_at lines answers.now number)) }
{
    let lists = answers.frames(heap, lines, number)?;
    let borrowed = borrowed_lists(heap.share(), &lists)?;
    push_answer(heap, text, address, answer, &borrowed)
}

/// The answer with this number for an address, with its lines.
fn table_answer(
    heap: &Heap,
    answers: &Answers,
    lines: bool,
    place: Where,
    number: usize,
) -> Result<PlaceAnswer, NoMemory>
    ensures { IfOk result (λ told. IsPlaceTold (IsAnswerAt answers.now lines number) place told) }
{
    let answer = answers.answer(heap.share(), number)?;
    let mut text = String::new(heap.share());
    push_table_answer(
        heap,
        &mut text,
        address_in(place),
        &answer,
        answers,
        lines,
        number,
    )?;
    let status = status_after(Status::Done, &answer);
    Ok(PlaceAnswer { status, text })
}

/// The answers for the addresses that were asked for, with their lines.
fn table_answers(
    heap: &Heap,
    answers: &Answers,
    lines: bool,
    places: &[Where],
) -> Result<Vec<PlaceAnswer, Heap>, NoMemory>
    ensures { IfOk result (λ told.
        AllZip (IsPlaceTold (IsAnswerIn answers.now lines places.now)) places.now told.items) }
{
    let mut told = Vec::with_capacity(heap.share(), places.len())?;
    'places: for (number, place) in places.iter().enumerate() {
        told.push(table_answer(heap, answers, lines, *place, number)?)?;
    }
    Ok(told)
}

/// The answers for addresses under a key by the tables of the indexes that were read, with frames if lines are wanted;
/// or `None`, if two slices are in two archives and no entry decides which comes first. If slices are wanted, a table
/// that was changed or has no lines refuses the key alone.
pub(crate) fn answer_by_tables<I: Placed>(
    heap: &Heap,
    read: &[IndexPart],
    indexes: &mut [I],
    key: &SliceKey,
    lines: bool,
    slices: bool,
    places: &[Where],
) -> Result<Option<KeyReply>, CommandFault>
    requires { length read.now ≡ length indexes.old }
    ensures { AsksTables I.whole I.failures lines slices (key_bytes key.now ∷ []) places.now read.now indexes.old
        indexes.new result (λ told. MatchOption told (AreTied (key_bytes key.now) read.now)
        (IsKeyReply (IsAnsweredByTables (HaveTexts I.whole indexes.old) read.now lines key.now)
        (IsKeyFault (HaveTexts I.whole indexes.old) read.now lines (key_bytes key.now) places.now) slices
        places.now)) }
{
    each_told();
    let Some(answering) = answering_entries(heap, key, read)? else {
        return Ok(None);
    };
    match answer_among(heap, indexes, &answering, lines, places) {
        Ok(answers) => {
            let told = table_answers(heap, &answers, lines, places)?;
            Ok(Some(KeyReply::Told(told)))
        }
        Err(fault) => reply_to_fault(slices, fault),
    }
}
