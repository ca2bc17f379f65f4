//! `rehearse SCRIPT`.
ghost use Rattle.std.specs.Prelude.{◌≡◌, ◌++◌, IfOk, OnOk, length, string_bytes};
ghost use Rattle.archive_exchange.specs.World.{World as WorldModel};
ghost use Rattle.archive_exchange.specs.WorldState.{Represents};
ghost use Rattle.command_common.specs.Ends.{EndsReport};
ghost use Rattle.command_common.specs.Inputs.{reader};
ghost use Rattle.command_common.specs.Outputs.{writer};
ghost use Rattle.archive_exchange.specs.Rehearse.{TellsEvents, held_line, rehearse, site_lines};

use crate::laws::one_meaning;
use crate::lines::{push_events, push_site};
use crate::running::run;
use crate::site::Site;
use crate::world::World;
use archive_core::{Archive, Digest};
use archive_records::Sizes;
use byte_device::{Sink, Source};
use command_common::{CommandFault, Status, read_script_input, write_report};
use heap_memory::{Heap, NoMemory};
use sha2::{Digest as _, Sha256};
use text_input_files::Script;

/// Adds the line of a site; its archive's text is built for its size and its SHA-256.
fn push_held<A: Archive + Drop>(
    text: &mut String<Heap>,
    number: u32,
    site: &Site<A>,
) -> Result<(), NoMemory>
    ensures { OnOk result (string_bytes text.new ≡ string_bytes text.old ++ held_line number site.now.held) }
{
    let written = site.full()?;
    let sizes = Sizes {
        records: site.archive().len(),
        bytes: written.len() as u128,
    };
    let digest = Digest(Sha256::digest(&written));
    push_site(text, number, sizes, digest)
}

fn push_sites<A: Archive + Drop>(text: &mut String<Heap>, world: &World<A>) -> Result<(), NoMemory>
    ensures { OnOk result ((w : WorldModel)
        → Represents world.now.sites world.now.messages w
        → string_bytes text.new ≡ string_bytes text.old ++ site_lines w.held (length world.now.sites)) }
{
    'sites: for number in 0..world.sites() {
        push_held(text, number, world.site(number))?;
    }
    Ok(())
}

fn lines_of<A: Archive + Drop>(heap: Heap, script: &Script) -> Result<String<Heap>, NoMemory>
    ensures { IfOk result (λ text. TellsEvents script.now.sites script.now.events.items (string_bytes text)) }
{
    one_meaning();
    let (world, outcomes) = run::<A>(heap.share(), script.sites, &script.events)?;
    let mut text = String::new(heap);
    push_events(&mut text, &world, &outcomes)?;
    push_sites(&mut text, &world)?;
    Ok(text)
}

/// Carries out the events of SCRIPT on sites that begin empty, and writes a line for each event to the report, and then
/// a line for each site: the numbers of records and bytes of its archive, and the SHA-256 of that archive's text. The
/// script is read to its end before anything is carried out, and all lines are built before any is written. The line of
/// a refused event says why; the status is `Done` all the same.
///
/// # Errors
///
/// `Input` if the script is refused; `Report` if the report failed; `OutOfMemory`, at any event.
pub fn run_rehearse<A: Archive + Drop, S: Source, P: Sink>(
    heap: Heap,
    script: &mut S,
    report: &mut P,
) -> Result<Status, CommandFault>
    ensures { EndsReport (rehearse (reader S.left S.failures script.old script.new))
        (writer P.held P.failures report.old report.new) result }
{
    let script = read_script_input(heap.share(), script)?;
    let text = lines_of::<A>(heap, &script)?;
    write_report(Status::Done, &text, report)
}
