//! The events at the sites of a rehearsal.

use archive_core::{Digest, SliceKey};
use heap_memory::Heap;

/// An event at a site. Sites and messages are counted from 0; a message has its number among those that were sent.
#[derive(Debug, Drop)]
pub enum Event {
    /// The site adds the slices of a file, all or none.
    Take {
        site: u32,
        file: Vec<u8, Heap>,
    },
    /// The site adds the retirement of the slices with a key and a digest.
    Retire {
        site: u32,
        key: SliceKey,
        digest: Digest,
    },
    /// The site sends the text of its archive.
    Full {
        site: u32,
    },
    /// The site saves, and sends the text of the summary of what it saved.
    Ask {
        site: u32,
    },
    /// The site sends the text of its operations that the summary in this message lacks.
    Reply {
        site: u32,
        message: u64,
    },
    /// The site joins the archive in this message.
    Deliver {
        site: u32,
        message: u64,
    },
    /// The site saves its archive.
    Save {
        site: u32,
    },
    /// The site stops, and begins again from the archive that it saved.
    Stop {
        site: u32,
    },
}

impl Event {
    ghost use Rattle.std.specs.Prelude.{◌≡◌};
    ghost use Rattle.text_input_files.specs.EventSite.{site_number};

    pub fn site(&self) -> u32
        ensures { result ≡ site_number self.now }
    {
        match self {
            Event::Take { site, .. }
            | Event::Retire { site, .. }
            | Event::Full { site }
            | Event::Ask { site }
            | Event::Reply { site, .. }
            | Event::Deliver { site, .. }
            | Event::Save { site }
            | Event::Stop { site } => *site,
        }
    }
}
