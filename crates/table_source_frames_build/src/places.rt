//! The places of kept texts among the strings of a slice.

ghost use Rattle.std.specs.Prelude.{◌≡◌, ◌+◌, ◌<◌, ◌≤◌, ◌^◌, ◌↔◌, ℕ, IfOk, IsTrue, MatchOption, length, slice_index};
ghost use Rattle.std.specs.Prelude.{true};
ghost use Rattle.table_source_frames.specs.LineText.{begins_string, string_at};
ghost use Rattle.table_source_frames_build.specs.Kept.{IsText, text_at};
ghost use Rattle.table_source_frames_build.specs.KeptViews.{kept_view};
ghost use Rattle.table_source_frames_build.specs.Numbering.{IsNumber};
ghost use Rattle.table_source_frames_build.specs.Places.{AreNoted, ArePlacesBelow};

use crate::kept::Kept;
use crate::keys::TextKey;
use heap_memory::{Heap, NoMemory};
use macho_image::before_nul;

/// The text at an offset: the bytes before the first NUL, or before the end.
fn string_at(strings: &[u8], place: usize) -> &[u8]
    requires { place ≤ length strings.now }
    ensures { result.now ≡ string_at strings.now place }
{
    before_nul(strings.split_at(place).1)
}

/// Whether a text begins behind the first byte of the string at an offset: this is a `_`, and not the last byte of all.
fn has_second(strings: &[u8], from: usize) -> bool
    requires { from < length strings.now }
    ensures { IsTrue result ↔ ((slice_index strings.now from ≡ 95) × (from + 1 < length strings.now)) }
{
    strings[from] == b'_' && from + 1 < strings.len()
}

impl<'a> Kept<'a> {
    /// The number of a text, if it is kept.
    fn number_of_text(&self, text: &'a [u8]) -> Option<u32>
        ensures { MatchOption result
            ((n : ℕ) → IsNumber (length (kept_view self.now).texts) n → text_at (kept_view self.now) n ≡ text.now → ⊥)
            (λ number. IsText (kept_view self.now) number text.now) }
    {
        self.texts.find(&TextKey::of(text))
    }

    /// Notes the text at an offset: if it is kept and has no place, this is its place.
    fn note_place(&self, places: &mut Vec<u32, Heap>, strings: &'a [u8], place: usize)
        requires count { length places.old.items ≡ length (kept_view self.now).texts }
        requires inside { place < length strings.now }
        requires few { length strings.now < 2 ^ 32 }
        ensures { AreNoted (kept_view self.now) (string_at strings.now place) place places.old.items places.new.items }
    {
        let Some(number) = self.number_of_text(string_at(strings, place)) else {
            return;
        };
        let index = number as usize - 1;
        if places[index] != 0 {
            return;
        }
        places[index] = place as u32 + 1;
    }

    /// Notes the texts of the string at an offset: all of it, and what is behind its `_`, if it begins with one.
    fn note_string(&self, places: &mut Vec<u32, Heap>, strings: &'a [u8], from: usize)
        requires begins { begins_string strings.now from ≡ true }
        requires inside { from < length strings.now }
        requires few { length strings.now < 2 ^ 32 }
        requires places { ArePlacesBelow (kept_view self.now) strings.now from places.old.items }
        ensures { ArePlacesBelow (kept_view self.now) strings.now (from + length (string_at strings.now from) + 1)
            places.new.items }
    {
        self.note_place(places, strings, from);
        if !has_second(strings, from) {
            return;
        }
        self.note_place(places, strings, from + 1);
    }

    /// For each kept text 1 and its place among the strings of a slice, or 0. The time is that of two searches for each
    /// string.
    pub fn places(&self, heap: Heap, strings: &'a [u8]) -> Result<Vec<u32, Heap>, NoMemory>
        requires { length strings.now < 2 ^ 32 }
        ensures { IfOk result (λ places.
            ArePlacesBelow (kept_view self.now) strings.now (length strings.now) places.items) }
    {
        let mut places = vec![in heap; 0; self.texts.len()]?;
        let mut from = 0;
        'strings: while from < strings.len() {
            self.note_string(&mut places, strings, from);
            from = from + string_at(strings, from).len() + 1;
        }
        Ok(places)
    }
}
