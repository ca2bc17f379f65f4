//! The event of a line.

ghost use Rattle.std.specs.Prelude.{◌≡◌, ◌∷◌, IfOk, option_map};
ghost use Rattle.archive_core.specs.declared.keys.SliceKey.{SliceKey};
ghost use Rattle.uuid.specs.Text.{parsed};
ghost use Rattle.text_values.specs.Words.{arch_of, digest_of};
ghost use Rattle.text_input_files.specs.Events.{act_at, act_of, fields_act, fields_sites, file_of, line_act};
ghost use Rattle.text_input_files.specs.Events.{line_sites, message_act, plain_act, retire_act, take_act};
ghost use Rattle.text_input_files.specs.Events.{word_act};
ghost use Rattle.text_values.specs.Lines.{parts};
ghost use Rattle.text_input_files.specs.Numbers.{number_of};

use crate::Event;
use crate::numbers::read_number;
use archive_core::{ArchKey, Digest, SliceKey};
use heap_memory::{Heap, NoMemory};
use hex::FromHexError;
use std::alloc::AllocError;
use std::str;
use text_values::{Word, cut_field};
use uuid::Uuid;

/// The largest number of sites in a rehearsal.
pub(crate) const MOST_SITES: u32 = 64;

/// The number of sites in a line, if it has one.
pub fn read_sites(line: &[u8]) -> Option<u32>
    ensures { result ≡ line_sites line.now }
{
    match str::from_utf8(line) {
        Ok(text) => sites_in(text),
        Err(_) => None,
    }
}

// `sites N`.
fn sites_in(text: &str) -> Option<u32>
    ensures { result ≡ fields_sites (parts text.now) }
{
    let (word, behind) = cut_field(text);
    let (number, more) = cut_field(behind?);
    if more.is_some() || word != "sites" {
        return None;
    }
    let sites = read_number(number)?;
    if 1 <= sites && sites <= MOST_SITES {
        Some(sites)
    } else {
        None
    }
}

/// The event of a line, if it has one. Fails only if memory runs out.
pub fn read_event(heap: Heap, line: &[u8]) -> Result<Option<Event>, NoMemory>
    ensures { IfOk result (λ event. option_map act_of event ≡ line_act line.now) }
{
    match str::from_utf8(line) {
        Ok(text) => event_in(heap, text),
        Err(_) => Ok(None),
    }
}

fn event_in(heap: Heap, text: &str) -> Result<Option<Event>, NoMemory>
    ensures { IfOk result (λ event. option_map act_of event ≡ fields_act (parts text.now)) }
{
    let (word, behind) = cut_field(text);
    match behind {
        Some(behind) => event_of_word(heap, word, behind),
        None => Ok(None),
    }
}

// The event with a name, and the site after it.
fn event_of_word(heap: Heap, word: &str, text: &str) -> Result<Option<Event>, NoMemory>
    ensures { IfOk result (λ event. option_map act_of event ≡ word_act word.now (parts text.now)) }
{
    let (site, behind) = cut_field(text);
    match (read_number(site), behind) {
        (Some(site), Some(behind)) => event_at(heap, word, site, behind),
        (Some(site), None) => Ok(plain_event(word, site)),
        (None, _) => Ok(None),
    }
}

// The event with a name, a site, and the fields after them.
fn event_at(heap: Heap, word: &str, site: u32, text: &str) -> Result<Option<Event>, NoMemory>
    ensures { IfOk result (λ event. option_map act_of event ≡ act_at word.now site (parts text.now)) }
{
    let (field, behind) = cut_field(text);
    match behind {
        Some(behind) => Ok(long_event(word, site, field, behind)),
        None if word == "take" => take_event(heap, site, field),
        None => Ok(message_event(word, site, field)),
    }
}

// `full SITE`, `ask SITE`, `save SITE` or `stop SITE`.
fn plain_event(word: &str, site: u32) -> Option<Event>
    ensures { option_map act_of result ≡ plain_act word.now site }
{
    if word == "full" {
        Some(Event::Full { site })
    } else if word == "ask" {
        Some(Event::Ask { site })
    } else if word == "save" {
        Some(Event::Save { site })
    } else if word == "stop" {
        Some(Event::Stop { site })
    } else {
        None
    }
}

// `take SITE BYTES`.
fn take_event(heap: Heap, site: u32, field: &str) -> Result<Option<Event>, NoMemory>
    ensures { IfOk result (λ event. option_map act_of event ≡ take_act site (file_of field.now)) }
{
    if field.is_empty() {
        return Ok(None);
    }
    match hex::decode(heap, field) {
        Ok(file) => Ok(Some(Event::Take { site, file })),
        Err(FromHexError::OutOfMemory) => Err(AllocError),
        Err(_) => Ok(None),
    }
}

// `reply SITE MESSAGE` or `deliver SITE MESSAGE`.
fn message_event(word: &str, site: u32, field: &str) -> Option<Event>
    ensures { option_map act_of result ≡ message_act word.now site (number_of field.now) }
{
    let message = u64::from(read_number(field)?);
    if word == "reply" {
        Some(Event::Reply { site, message })
    } else if word == "deliver" {
        Some(Event::Deliver { site, message })
    } else {
        None
    }
}

// `retire SITE UUID ARCH DIGEST`; `uuid` is the field after the site.
fn long_event(word: &str, site: u32, uuid: &str, text: &str) -> Option<Event>
    ensures { option_map act_of result ≡ act_at word.now site (uuid.now ∷ parts text.now) }
{
    let (arch, behind) = cut_field(text);
    let (digest, more) = cut_field(behind?);
    if more.is_some() || word != "retire" {
        return None;
    }
    retire_event(site, uuid, arch, digest)
}

fn retire_event(site: u32, uuid: &str, arch: &str, digest: &str) -> Option<Event>
    ensures { option_map act_of result
        ≡ retire_act site (parsed uuid.now) (arch_of arch.now) (digest_of digest.now) }
{
    Some(Event::Retire {
        site,
        key: SliceKey {
            uuid: Uuid::read(uuid)?,
            arch: ArchKey::read(arch)?,
        },
        digest: Digest::read(digest)?,
    })
}
