//! Sites, each with an archive and a saved one, and the messages between them: as definitions, as a run of events, and
//! as the command `rehearse`.
//!
//! - `specs/World`: an event, its effect, its outcome, and the state after n events; `specs/Reached`: which operations
//!   reach a site; `specs/Issued`: which were issued, and which message an event sent;
//! - [`model_laws`]: laws about any list of events, on any number of sites, for these definitions;
//! - `site`: a site;
//! - `fault`: why a message is not joined, or has no reply;
//! - `message`, `outcome`: a message of a site, and the outcome of an event;
//! - `happening`: the effect of an event among sites;
//! - `world`, `running`: the world after a list of events, and [`run`];
//! - [`laws`]: laws about deliveries and events;
//! - `lines`: the lines of `rehearse`; `rehearse`: the command.
//!
//! # Why it is so
//!
//! - A site of the definitions holds a content and has saved one. The operations that reach it are a function of the
//!   list of events, without a state, and their content is the site's content.
//! - A site keeps its saved archive as a text.
//! - A site is whole (`IsWhole`): that is an invariant, and a clause of each call.
//! - [`run`] has no limit on the number of events.
#![tactic(auto)]

mod fault;
mod happening;
pub mod laws;
mod lines;
mod message;
pub mod model_laws;
mod outcome;
mod rehearse;
mod running;
mod site;
mod world;

pub use fault::{DeliverFault, ReplyFault};
pub use message::Message;
pub use outcome::{EventFault, Outcome};
pub use rehearse::run_rehearse;
pub use running::run;
pub use site::Site;
pub use world::World;
