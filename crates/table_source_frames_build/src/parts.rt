//! The numbers of a table's parts, in the order of their first use.

ghost use Rattle.std.specs.Prelude.{◌≡◌, ◌≤◌, ◌<◌, ◌+◌, ◌++◌, ◌^◌, [], IfOk, OnOk, flat_map, length, nat_eq};
ghost use Rattle.table_source_frames.specs.Numbering.{numbered_after};
ghost use Rattle.table_source_frames_build.specs.Kept.{IsFileKey, scope_numbers_of};
ghost use Rattle.table_source_frames_build.specs.KeptViews.{kept_view};
ghost use Rattle.table_source_frames_build.specs.PartBytes.{place_in, text_number};
ghost use Rattle.table_source_frames_build.specs.PartNumbers.{AreNumbers, file_uses, name_uses, path_numbers};
ghost use Rattle.table_source_frames_build.specs.PartNumbers.{path_uses, scope_uses, unplaced};
ghost use Rattle.table_source_frames_build.specs.StepViews.{HaveLocations};

use crate::first_uses::FirstUses;
use crate::kept::Kept;
use crate::keys::FileKey;
use crate::step::Step;
use heap_memory::{Heap, NoMemory};

/// The numbers of texts: those among the strings of a slice by their places there, the others in the order of their
/// first use, after the places.
#[derive(Drop)]
pub(crate) struct TextNumbers {
    pub before: u32,
    pub places: Vec<u32, Heap>,
    pub uses: FirstUses,
}

/// The numbers of scopes, files and texts, in the order of their first use.
#[derive(Drop)]
pub(crate) struct Parts {
    pub scopes: FirstUses,
    pub files: FirstUses,
    pub texts: TextNumbers,
}

impl TextNumbers {
    /// 1 and the place of a text among the strings; 0 of 0, or if it has none.
    fn place_of(&self, number: u32) -> u32
        requires { number ≤ length self.now.places.items }
        ensures { result ≡ place_in self.now.places.items number }
    {
        if number == 0 {
            return 0;
        }
        self.places[number as usize - 1]
    }

    /// The new number of a text; 0 of 0, or if it has no place and is not used.
    pub fn number_of(&self, number: u32) -> u32
        requires number { number ≤ length self.now.places.items }
        requires count { length self.now.uses.given.items ≡ length self.now.places.items }
        requires few { self.now.before + length self.now.uses.order.items < 2 ^ 32 }
        ensures { result ≡ text_number self.now.before self.now.places.items self.now.uses.order.items number }
    {
        let place = self.place_of(number);
        if place != 0 {
            return place;
        }
        let other = self.uses.number_of(number);
        if other == 0 {
            return 0;
        }
        self.before + other
    }

    /// Uses a text that has no place; does nothing with 0.
    fn take(&mut self, number: u32) -> Result<(), NoMemory>
        requires number { number ≤ length self.old.places.items }
        requires count { length self.old.uses.given.items ≡ length self.old.places.items }
        ensures count { length self.new.uses.given.items ≡ length self.old.uses.given.items }
        ensures before { self.new.before ≡ self.old.before }
        ensures places { self.new.places ≡ self.old.places }
        ensures taken { OnOk result (self.new.uses.order.items
            ≡ numbered_after nat_eq self.old.uses.order.items (unplaced self.old.places.items number)) }
    {
        if self.place_of(number) != 0 {
            return Ok(());
        }
        self.uses.take_some(number)
    }
}

impl<'a> Kept<'a> {
    ghost use Rattle.table_source_frames_build.specs.PartBytes.{AreCounts};
    ghost use Rattle.table_source_frames_build.specs.Places.{ArePlacesBelow};
    ghost use Rattle.table_source_frames_build.specs.WholeText.{AreOrders};

    /// Adds the numbers of the scopes of a location and of those that it is inlined into, the innermost first.
    fn push_scopes(&self, numbers: &mut Vec<u32, Heap>, location: u32) -> Result<(), NoMemory>
        requires { location ≤ length (kept_view self.now).locations }
        ensures { OnOk result (numbers.new.items
            ≡ numbers.old.items ++ scope_numbers_of (kept_view self.now) location) }
    {
        let mut next = location;
        'callers: while next != 0 {
            let scope = self.location_key_of(next).scope;
            numbers.push(scope)?;
            next = self.scope_key_of(scope).caller;
        }
        Ok(())
    }

    /// The scopes that the steps use.
    pub fn used_scopes(&self, heap: Heap, steps: &[Step]) -> Result<FirstUses, NoMemory>
        requires { HaveLocations (kept_view self.now) steps.now }
        ensures count { IfOk result (λ uses. length uses.given.items ≡ length (kept_view self.now).scopes) }
        ensures order { IfOk result (λ uses. uses.order.items
            ≡ numbered_after nat_eq [] (scope_uses (kept_view self.now) steps.now)) }
    {
        let mut uses = FirstUses::new(heap.share(), self.scopes.len())?;
        let mut scopes = Vec::new(heap);
        for step in steps {
            self.push_scopes(&mut scopes, step.location)?;
            uses.take_back(&mut scopes)?;
        }
        Ok(uses)
    }

    /// The files that the scopes use.
    pub fn used_files(&self, heap: Heap, scopes: &[u32]) -> Result<FirstUses, NoMemory>
        requires { AreNumbers (length (kept_view self.now).scopes) scopes.now }
        ensures count { IfOk result (λ uses. length uses.given.items ≡ length (kept_view self.now).files) }
        ensures order { IfOk result (λ uses. uses.order.items
            ≡ numbered_after nat_eq [] (file_uses (kept_view self.now) scopes.now)) }
    {
        let mut uses = FirstUses::new(heap, self.files.len())?;
        for scope in scopes {
            uses.take_some(self.scope_key_of(*scope).file)?;
        }
        Ok(uses)
    }

    /// Uses the texts of the names of these scopes.
    fn take_names(&self, texts: &mut TextNumbers, scopes: &[u32]) -> Result<(), NoMemory>
        requires places { length texts.old.places.items ≡ length (kept_view self.now).texts }
        requires count { length texts.old.uses.given.items ≡ length texts.old.places.items }
        requires scopes { AreNumbers (length (kept_view self.now).scopes) scopes.now }
        ensures count { length texts.new.uses.given.items ≡ length texts.old.uses.given.items }
        ensures before { texts.new.before ≡ texts.old.before }
        ensures places { texts.new.places ≡ texts.old.places }
        ensures taken { OnOk result (texts.new.uses.order.items ≡ numbered_after nat_eq texts.old.uses.order.items
            (name_uses (kept_view self.now) texts.old.places.items scopes.now)) }
    {
        for scope in scopes {
            texts.take(self.scope_key_of(*scope).name)?;
        }
        Ok(())
    }

    /// Uses the texts of this path.
    fn take_path(&self, texts: &mut TextNumbers, key: FileKey) -> Result<(), NoMemory>
        requires places { length texts.old.places.items ≡ length (kept_view self.now).texts }
        requires count { length texts.old.uses.given.items ≡ length texts.old.places.items }
        requires key { IsFileKey (kept_view self.now) key }
        ensures count { length texts.new.uses.given.items ≡ length texts.old.uses.given.items }
        ensures before { texts.new.before ≡ texts.old.before }
        ensures places { texts.new.places ≡ texts.old.places }
        ensures taken { OnOk result (texts.new.uses.order.items ≡ numbered_after nat_eq texts.old.uses.order.items
            (flat_map (unplaced texts.old.places.items) (path_numbers key))) }
    {
        texts.take(key.base)?;
        texts.take(key.directory)?;
        texts.take(key.name)
    }

    /// Uses the texts of these files.
    fn take_paths(&self, texts: &mut TextNumbers, files: &[u32]) -> Result<(), NoMemory>
        requires places { length texts.old.places.items ≡ length (kept_view self.now).texts }
        requires count { length texts.old.uses.given.items ≡ length texts.old.places.items }
        requires files { AreNumbers (length (kept_view self.now).files) files.now }
        ensures count { length texts.new.uses.given.items ≡ length texts.old.uses.given.items }
        ensures before { texts.new.before ≡ texts.old.before }
        ensures places { texts.new.places ≡ texts.old.places }
        ensures taken { OnOk result (texts.new.uses.order.items ≡ numbered_after nat_eq texts.old.uses.order.items
            (path_uses (kept_view self.now) texts.old.places.items files.now)) }
    {
        for file in files {
            self.take_path(texts, self.file_key_of(*file))?;
        }
        Ok(())
    }

    /// The numbers of the texts that the scopes and files use, those of names first.
    pub fn used_texts(
        &self,
        heap: Heap,
        strings: &'a [u8],
        scopes: &[u32],
        files: &[u32],
    ) -> Result<TextNumbers, NoMemory>
        requires few { length strings.now < 2 ^ 32 }
        requires scopes { AreNumbers (length (kept_view self.now).scopes) scopes.now }
        requires files { AreNumbers (length (kept_view self.now).files) files.now }
        ensures before { IfOk result (λ texts. texts.before ≡ length strings.now) }
        ensures places { IfOk result (λ texts.
            ArePlacesBelow (kept_view self.now) strings.now (length strings.now) texts.places.items) }
        ensures count { IfOk result (λ texts. length texts.uses.given.items ≡ length (kept_view self.now).texts) }
        ensures order { IfOk result (λ texts. texts.uses.order.items ≡ numbered_after nat_eq []
            (name_uses (kept_view self.now) texts.places.items scopes.now
            ++ path_uses (kept_view self.now) texts.places.items files.now)) }
    {
        let places = self.places(heap.share(), strings)?;
        let uses = FirstUses::new(heap, self.texts.len())?;
        let mut texts = TextNumbers {
            before: strings.len() as u32,
            places,
            uses,
        };
        self.take_names(&mut texts, scopes)?;
        self.take_paths(&mut texts, files)?;
        Ok(texts)
    }

    /// The parts of the table of these steps.
    pub fn parts(&self, heap: Heap, strings: &'a [u8], steps: &[Step]) -> Result<Parts, NoMemory>
        requires few { length strings.now < 2 ^ 32 }
        requires steps { HaveLocations (kept_view self.now) steps.now }
        ensures before { IfOk result (λ parts. parts.texts.before ≡ length strings.now) }
        ensures counts { IfOk result (λ parts. AreCounts (kept_view self.now) parts) }
        ensures orders { IfOk result (λ parts. AreOrders (kept_view self.now) strings.now steps.now
            parts.texts.places.items parts.scopes.order.items parts.files.order.items parts.texts.uses.order.items) }
    {
        let scopes = self.used_scopes(heap.share(), steps)?;
        let files = self.used_files(heap.share(), scopes.order())?;
        let texts = self.used_texts(heap, strings, scopes.order(), files.order())?;
        Ok(Parts {
            scopes,
            files,
            texts,
        })
    }
}
