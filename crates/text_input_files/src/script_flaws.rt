//! The flaw of the first faulty line of a script.

ghost use Rattle.std.specs.Prelude.{◌≡◌, ◌∷◌, Some, codes, length};
ghost use Rattle.uuid.specs.Text.{parsed};
ghost use Rattle.text_values.specs.Lines.{fields, parts};
ghost use Rattle.text_values.specs.Words.{arch_of};
ghost use Rattle.text_input_files.specs.ScriptFlaws.{count_after, count_flaw, counted_flaw, event_flaw};
ghost use Rattle.text_input_files.specs.ScriptFlaws.{flaw_after_site, flaw_or, key_flaw, one_flaw, script_flaw};
ghost use Rattle.text_input_files.specs.ScriptFlaws.{site_flaw, sites_flaw};
ghost use Rattle.text_input_files.specs.Numbers.{number_flaw, number_of};

use crate::events::MOST_SITES;
use crate::numbers::{NumberFlaw, number_flaw, read_number};
use crate::script::ScriptFault;
use archive_core::ArchKey;
use std::str;
use text_values::{LineFlaw, Word, cut_field, line_flaw};
use uuid::Uuid;

/// The flaw of the first faulty line of a script.
#[derive(Clone, Copy, Debug, PartialEq, Eq)]
pub enum ScriptFlaw {
    /// The whole line is faulty, whatever its fields are.
    Line(LineFlaw),
    /// It is no `sites N`, or N is 0.
    Sites,
    /// It is `sites N`, and N is no number, or above 64.
    SiteCount(NumberFlaw),
    /// It does not begin with the name of an event.
    Word,
    /// It has fewer or more fields than its event requires.
    FieldCount,
    /// The field with this name is not valid. Those before it are.
    Site(NumberFlaw),
    Bytes,
    Message(NumberFlaw),
    Uuid,
    Arch,
    Digest,
}

/// The flaw of a line with this fault, if the fault does not say everything.
pub fn script_flaw(fault: ScriptFault, line: &[u8]) -> Option<ScriptFlaw>
    ensures { result ≡ script_flaw fault line.now }
{
    if line.is_empty() {
        return None;
    }
    match fault {
        ScriptFault::NoSites => Some(flaw_or(line_flaw(line), sites_flaw(line))),
        ScriptFault::BadEvent => Some(flaw_or(line_flaw(line), event_flaw(line))),
        ScriptFault::TooManyEvents => None,
    }
}

fn flaw_or(of_line: Option<LineFlaw>, of_fields: ScriptFlaw) -> ScriptFlaw
    ensures { result ≡ flaw_or of_line of_fields }
{
    match of_line {
        Some(flaw) => ScriptFlaw::Line(flaw),
        None => of_fields,
    }
}

fn sites_flaw(line: &[u8]) -> ScriptFlaw
    ensures { result ≡ sites_flaw (fields line.now) }
{
    match str::from_utf8(line) {
        Ok(text) => sites_flaw_in(text),
        Err(_) => ScriptFlaw::Sites,
    }
}

fn sites_flaw_in(text: &str) -> ScriptFlaw
    ensures { result ≡ sites_flaw (parts text.now) }
{
    let (word, behind) = cut_field(text);
    match behind {
        Some(behind) if word == "sites" => number_after_flaw(behind),
        _ => ScriptFlaw::Sites,
    }
}

// The flaw of the fields after `sites`; there must be one.
fn number_after_flaw(text: &str) -> ScriptFlaw
    ensures { result ≡ sites_flaw (codes "sites" ∷ parts text.now) }
{
    let (number, more) = cut_field(text);
    if more.is_some() {
        return ScriptFlaw::Sites;
    }
    count_flaw(number)
}

fn count_flaw(number: &str) -> ScriptFlaw
    ensures { result ≡ count_flaw (number_of number.now) (number_flaw number.now) }
{
    match read_number(number) {
        None => ScriptFlaw::SiteCount(number_flaw(number)),
        Some(sites) if sites > MOST_SITES => ScriptFlaw::SiteCount(NumberFlaw::TooLarge),
        Some(_) => ScriptFlaw::Sites,
    }
}

fn event_flaw(line: &[u8]) -> ScriptFlaw
    ensures { result ≡ event_flaw (fields line.now) }
{
    match str::from_utf8(line) {
        Ok(text) => flaw_in(text),
        Err(_) => ScriptFlaw::Word,
    }
}

fn flaw_in(text: &str) -> ScriptFlaw
    ensures { result ≡ event_flaw (parts text.now) }
{
    let (word, behind) = cut_field(text);
    match (count_after(word), behind) {
        (None, _) => ScriptFlaw::Word,
        (Some(_), None) => ScriptFlaw::FieldCount,
        (Some(count), Some(behind)) => counted_flaw(word, count, behind),
    }
}

// The number of fields after the name of an event.
fn count_after(word: &str) -> Option<usize>
    ensures { result ≡ count_after word.now }
{
    if word == "full" || word == "ask" || word == "save" || word == "stop" {
        Some(1)
    } else if word == "take" || word == "reply" || word == "deliver" {
        Some(2)
    } else if word == "retire" {
        Some(4)
    } else {
        None
    }
}

fn counted_flaw(word: &str, count: usize, behind: &str) -> ScriptFlaw
    ensures { result ≡ counted_flaw word.now (Some count) (parts behind.now) }
{
    if number_of_parts(behind) == count {
        site_flaw(word, behind)
    } else {
        ScriptFlaw::FieldCount
    }
}

fn number_of_parts(text: &str) -> usize
    ensures { result ≡ length (parts text.now) }
{
    text.split(' ').count()
}

fn site_flaw(word: &str, text: &str) -> ScriptFlaw
    ensures { result ≡ site_flaw word.now (parts text.now) }
{
    let (site, behind) = cut_field(text);
    match (read_number(site), behind) {
        (None, _) => ScriptFlaw::Site(number_flaw(site)),
        (Some(_), Some(behind)) => flaw_after_site(word, behind),
        (Some(_), None) => ScriptFlaw::FieldCount,
    }
}

fn one_flaw(word: &str, field: &str) -> ScriptFlaw
    ensures { result ≡ one_flaw word.now field.now }
{
    if word == "take" {
        ScriptFlaw::Bytes
    } else {
        ScriptFlaw::Message(number_flaw(field))
    }
}

fn flaw_after_site(word: &str, text: &str) -> ScriptFlaw
    ensures { result ≡ flaw_after_site word.now (parts text.now) }
{
    let (first, behind) = cut_field(text);
    match behind {
        Some(behind) => {
            let (arch, _) = cut_field(behind);
            key_flaw(first, arch)
        }
        None => one_flaw(word, first),
    }
}

// The first of a UUID, an architecture and a digest that is not valid, if one is not.
fn key_flaw(uuid: &str, arch: &str) -> ScriptFlaw
    ensures { result ≡ key_flaw (parsed uuid.now) (arch_of arch.now) }
{
    match (Uuid::read(uuid), ArchKey::read(arch)) {
        (None, _) => ScriptFlaw::Uuid,
        (Some(_), None) => ScriptFlaw::Arch,
        (Some(_), Some(_)) => ScriptFlaw::Digest,
    }
}
