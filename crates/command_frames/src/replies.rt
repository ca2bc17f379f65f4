//! The lines of the answers for frames, and of refused keys.

ghost use Rattle.std.specs.Prelude.{◌≡◌, ◌++◌, IfOk, OnOk, string_bytes};
ghost use Rattle.std.specs.Option.{option_to_list};
ghost use Rattle.archive_core.specs.Key.{key_bytes};
ghost use Rattle.command_queries.specs.Symbolicate.{asked_of};
ghost use Rattle.command_frames.specs.InnerPlaces.{AreInOrder, AreKeysOf, HasAsked};
ghost use Rattle.command_frames.specs.InnerKeyReplies.{HasNumber, HaveEachTold, IsPrinted, ShowsFrames, StandsAt};
ghost use Rattle.command_frames.specs.InnerKeyReplies.{asked_in, refusal_in, refusals_in, status_with};
ghost use Rattle.command_frames.specs.Refusals.{refusal_lines};

use crate::key_answers::KeyAnswers;
use crate::named::whole_key;
use crate::places::{AskedPlace, compare_places};
use crate::tables::KeyReply;
use archive_core::{SliceKey, compare_keys};
use command_common::{CommandFault, Status};
use heap_memory::{Heap, NoMemory};
use text_input_files::Frame;
use text_reports::Text;
use text_values::Address;

/// The answers that have the answer for a frame: those of its key, and the number of its address there.
fn reply_at<'t, 'k>(told: &'t [KeyAnswers<'k>], frame: &Frame) -> (&'t KeyAnswers<'k>, usize)
    requires order { AreInOrder (asked_in told.now) }
    requires there { HasAsked (asked_in told.now) (key_bytes frame.now.key)
        (asked_of frame.now.load frame.now.address) }
    ensures { StandsAt told.now frame.now.key (asked_of frame.now.load frame.now.address) result.0.now result.1 }
{
    let asked = AskedPlace::of(frame);
    let _own = whole_key(frame.key);
    let Ok(key) = told.binary_search_by(|one| compare_keys(&one.asked.key, &asked.key)) else {
        unreachable!()
    };
    let under = told[key].asked;
    let Ok(number) = under
        .places
        .binary_search_by(|place| compare_places(*place, asked.place))
    else {
        unreachable!()
    };
    let one = &told[key];
    let _other = whole_key(one.asked.key);
    (one, number)
}

/// The joint status of two frames.
fn status_with(status: Status, other: Status) -> Status
    ensures { result ≡ status_with status other }
{
    match status {
        Status::Done => other,
        Status::Partial => match other {
            Status::Done => Status::Partial,
            Status::Partial => Status::Partial,
            Status::SomeRefused => Status::SomeRefused,
        },
        Status::SomeRefused => Status::SomeRefused,
    }
}

/// Writes the reply with this number to an address: an answer, or a mark if the key is refused. Returns the status
/// after it.
fn push_reply(
    text: &mut String<Heap>,
    status: Status,
    address: u64,
    told: &KeyReply,
    number: usize,
) -> Result<Status, NoMemory>
    requires { HasNumber told.now number }
    ensures { IfOk result (λ after. IsPrinted told.now address number status after (string_bytes text.old)
        (string_bytes text.new)) }
{
    match told {
        KeyReply::Told(answers) => {
            let answer = &answers[number];
            text.push_str(&answer.text)?;
            Ok(status_with(status, answer.status))
        }
        KeyReply::Refused(_, _) => {
            let address = Address(address);
            writeln!(text, "{address} !")?;
            Ok(status_with(status, Status::SomeRefused))
        }
    }
}

/// The lines of the replies to frames, in order, with the status of a command that prints them.
pub(crate) fn answer_frames_by_keys(
    heap: Heap,
    told: &[KeyAnswers<'_>],
    frames: &[Frame],
) -> Result<(Status, Vec<u8, Heap>), NoMemory>
    requires asked { AreKeysOf frames.now (asked_in told.now) }
    requires even { HaveEachTold told.now }
    ensures { IfOk result (λ shown. ShowsFrames told.now frames.now shown.0 shown.1.items) }
{
    let mut status = Status::Done;
    let mut text = String::new(heap);
    'frames: for frame in frames {
        let (one, number) = reply_at(told, frame);
        status = push_reply(&mut text, status, frame.address, &one.told, number)?;
    }
    Ok((status, text.into_bytes()))
}

/// Writes the line of a refused key; nothing if the key is not refused.
fn push_refusal(text: &mut String<Heap>, key: SliceKey, told: &KeyReply) -> Result<(), NoMemory>
    ensures { OnOk result (string_bytes text.new ≡ string_bytes text.old
        ++ refusal_lines (option_to_list (refusal_in key told.now))) }
{
    match told {
        KeyReply::Told(_) => Ok(()),
        KeyReply::Refused(at, why) => {
            let key = Text(key);
            let fault = CommandFault::Input(*at, *why);
            writeln!(text, "{key} refused {fault}")?;
            Ok(())
        }
    }
}

/// The lines of the refused keys, in order.
pub(crate) fn refused_lines(heap: Heap, told: &[KeyAnswers<'_>]) -> Result<String<Heap>, NoMemory>
    ensures { IfOk result (λ text. string_bytes text ≡ refusal_lines (refusals_in told.now)) }
{
    let mut text = String::new(heap);
    'keys: for one in told {
        push_refusal(&mut text, one.asked.key, &one.told)?;
    }
    Ok(text)
}
