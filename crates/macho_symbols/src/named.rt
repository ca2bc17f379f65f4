//! The search by name.

ghost use Rattle.std.specs.Prelude.{◌≡◌, ◌*◌, ◌≤◌, length};
ghost use Rattle.std.specs.Option.{option_map, option_to_list};
ghost use Rattle.macho_symbols.specs.Symbols.{candidate_in};
ghost use Rattle.macho_symbols.specs.Found.{named, named_among};
ghost use Rattle.macho_symbols.specs.Views.{found_view};

use crate::entries::Entries;
use crate::found::Found;
use crate::name::Name;
use crate::scan::Scan;
use crate::symbols::Symbols;
use std::marker::Model;

/// The remaining symbols with a name, in the order of the symbol table. A contract sees their list.
#[derive(Drop)]
pub struct Named<'a, 'n> {
    scan: Scan<'a>,
    entries: Entries<'a>,
    name: &'n [u8],
}

impl<'a, 'n> Model for Named<'a, 'n> {
    ghost use Rattle.std.specs.Prelude.{List};
    ghost use Rattle.std.specs.List.{filter_map, AllByRecursion};
    ghost use Rattle.macho_symbols.specs.Nlist.{IsEntry};
    ghost use Rattle.macho_symbols.specs.Symbols.{candidate_in};
    ghost use Rattle.macho_symbols.specs.Found.{FoundRecord, named_among};

    ghost Value = { List FoundRecord };

    ghost view = { λ n. named_among n.scan n.name.now (filter_map (candidate_in n.scan) n.entries) };

    ghost invariant = { λ n. AllByRecursion IsEntry n.entries };
}

impl<'a> Symbols<'a> {
    /// The symbols with a name, with offset 0, in the order of the symbol table: one for each candidate, even if
    /// several are equal. The name that is searched for has no NUL at its end.
    #[tactic(auto, unfolding(crate::specs::Symbols::candidates))]
    pub fn named<'n>(&self, name: &'n [u8]) -> Named<'a, 'n>
        ensures all { result ≡ named self.now name.now }
        ensures fit { 16 * length (named self.now name.now) ≤ length self.now }
    {
        Named {
            scan: Scan::new(self),
            entries: self.entries(),
            name,
        }
    }
}

impl<'a> Scan<'a> {
    /// The result for an entry in a search by name; `None` if the entry has another name or is no candidate.
    fn found_by_name(&self, name: &[u8], entry: &[u8]) -> Option<Found<'a>>
        requires { 16 ≤ length entry.now }
        ensures { option_to_list (option_map found_view result)
            ≡ named_among self.now name.now (option_to_list (candidate_in self.now entry.now)) }
    {
        let candidate = self.candidate(entry)?;
        if !Name::at(self.symbols.strings(), candidate.n_strx).is(name) {
            return None;
        }
        Some(self.found(candidate.value, &candidate))
    }
}

#[tactic(auto, using(crate::proofs::Namesakes::of_names))]
impl<'a, 'n> Iterator for Named<'a, 'n> {
    type Item = Found<'a>;

    ghost use Rattle.std.specs.Iterator.{YieldsFirstBy, item_count};

    ghost next_gives = { YieldsFirstBy found_view (λ n. n) };

    ghost remaining = { item_count (λ n. n) };

    fn next(&mut self) -> Option<Found<'a>> {
        'entries: loop {
            let entry = self.entries.next()?;
            if let Some(found) = self.scan.found_by_name(self.name, entry) {
                return Some(found);
            }
        }
    }
}
