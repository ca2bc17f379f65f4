//! The world after a rehearsal.
ghost use Rattle.std.specs.Prelude.{◌≡◌, ◌<◌, Some, length, slice_get};
ghost use Rattle.archive_exchange.specs.SiteState.{IsWhole};
ghost use Rattle.archive_exchange.specs.WorldState.{AreSites};

use crate::Site;
use crate::message::Message;
use archive_core::Archive;
use heap_memory::Heap;
use std::marker::Model;

/// The sites of a rehearsal and the messages that they sent. Both are counted from 0.
#[derive(Drop)]
pub struct World<A: Archive> {
    sites: Vec<Site<A>, Heap>,
    messages: Vec<Message, Heap>,
}

impl<A: Archive> Model for World<A> {
    ghost use Rattle.archive_exchange.specs.WorldState.{RunState, run_state_code, AreSites};

    ghost Value = { RunState };

    ghost coded = { run_state_code };

    ghost view = { λ world. record { sites = world.sites.items; messages = world.messages.items } };

    ghost invariant = { λ world. AreSites world.sites.items };
}

impl<A: Archive> World<A> {
    pub(crate) fn new(sites: Vec<Site<A>, Heap>, messages: Vec<Message, Heap>) -> World<A>
        requires { AreSites sites.items }
        ensures sites { result.sites ≡ sites.items }
        ensures messages { result.messages ≡ messages.items }
    {
        World { sites, messages }
    }

    /// The number of sites.
    pub fn sites(&self) -> u32
        ensures { result ≡ length self.now.sites }
    {
        self.sites.len() as u32
    }

    /// The site with this number, counted from 0.
    pub fn site(&self, number: u32) -> &Site<A>
        requires { number < length self.now.sites }
        ensures site { slice_get self.now.sites number ≡ Some result.now }
        ensures whole { IsWhole result.now }
    {
        &self.sites[number as usize]
    }

    /// All messages, in the order in which they were sent.
    pub fn messages(&self) -> &[Message]
        ensures { result.now ≡ self.now.messages }
    {
        &self.messages
    }

    /// The text of the message with this number, counted from 0 in the order in which messages were sent.
    pub fn message(&self, number: u64) -> &[u8]
        requires { number < length self.now.messages }
        ensures { slice_get self.now.messages number ≡ Some result.now }
    {
        self.messages[number as usize].text()
    }
}
