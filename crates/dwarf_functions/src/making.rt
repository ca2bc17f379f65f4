//! Links that are being built.

ghost use Rattle.std.specs.Prelude.{◌≡◌, ◌≤◌, ◌<◌, ◌+◌, IfOk, OnOk, length};
ghost use Rattle.dwarf_functions.specs.Making.{AreKept, AreMade, IsLinkIn, caller_of, child_at, count_at};

use crate::functions::{Function, Functions};
use crate::links::Link;
use heap_memory::{Heap, NoMemory};

/// Links that are being built: `last` is the number of the last link that is nested in none, or 0.
#[derive(Drop)]
pub struct Making<'f, 'a> {
    pub all: &'f Functions<'a>,
    pub links: Vec<Link<'a>, Heap>,
    pub last: usize,
}

/// The number of the link that calls a function, which is nested in the link `outer`.
fn caller_of(function: Function<'_>, outer: usize) -> usize
    ensures { result ≡ caller_of function.entry outer }
{
    if function.is_subprogram { 0 } else { outer }
}

impl<'f, 'a> Making<'f, 'a> {
    /// The number of the last link that is nested in the link `outer`, or in none if that is 0.
    fn child_of(&self, outer: usize) -> usize
        requires { outer ≤ length self.now.links.items }
        ensures { result ≡ child_at self.now.links.items self.now.last outer }
    {
        if outer == 0 {
            return self.last;
        }
        self.links[outer - 1].child
    }

    /// The number of links from the one with this number to the outermost.
    pub fn count_of(&self, number: usize) -> usize
        requires { number ≤ length self.now.links.items }
        ensures { result ≡ count_at self.now.links.items number }
    {
        if number == 0 {
            return 0;
        }
        self.links[number - 1].count
    }

    /// Adds the link of a function in another link, and returns its number.
    fn push(&mut self, index: usize, outer: usize) -> Result<usize, NoMemory>
        requires made { AreMade self.old.all.now.functions.items self.old.links.items self.old.last }
        requires index { index < length self.old.all.now.functions.items }
        requires outer { outer ≤ length self.old.links.items }
        requires few { count_at self.old.links.items outer < 256 }
        ensures all { self.new.all ≡ self.old.all }
        ensures made { OnOk result (AreMade self.new.all.now.functions.items self.new.links.items self.new.last) }
        ensures kept { OnOk result (AreKept self.old.links.items self.new.links.items) }
        ensures link { IfOk result (λ number. IsLinkIn self.new.links.items outer index number) }
    {
        let function: Function<'a> = self.all.functions[index];
        let count = self.count_of(outer) + 1;
        let caller = caller_of(function, outer);
        self.links.push(Link {
            name: function.name,
            name_number: function.name_number,
            call: function.call,
            caller,
            outer,
            function: index,
            child: 0,
            count,
        })?;
        let number = self.links.len();
        if outer == 0 {
            self.last = number;
        } else {
            self.links[outer - 1].child = number;
        }
        Ok(number)
    }

    /// The number of the link of a function in another link. It is added if it is missing.
    pub fn link(&mut self, index: usize, outer: usize) -> Result<usize, NoMemory>
        requires made { AreMade self.old.all.now.functions.items self.old.links.items self.old.last }
        requires index { index < length self.old.all.now.functions.items }
        requires outer { outer ≤ length self.old.links.items }
        requires few { count_at self.old.links.items outer < 256 }
        ensures all { self.new.all ≡ self.old.all }
        ensures made { OnOk result (AreMade self.new.all.now.functions.items self.new.links.items self.new.last) }
        ensures kept { OnOk result (AreKept self.old.links.items self.new.links.items) }
        ensures link { IfOk result (λ number. IsLinkIn self.new.links.items outer index number) }
    {
        let child = self.child_of(outer);
        if child != 0 && self.links[child - 1].function == index {
            return Ok(child);
        }
        self.push(index, outer)
    }
}
