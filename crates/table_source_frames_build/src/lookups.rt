//! The key of a number.

ghost use Rattle.std.specs.Prelude.{◌≡◌, ◌≤◌, length};
ghost use Rattle.table_source_frames_build.specs.Kept.{file_key_at, location_key_at, scope_key_at, text_at};
ghost use Rattle.table_source_frames_build.specs.KeptViews.{kept_view};
ghost use Rattle.table_source_frames_build.specs.Numbering.{IsNumber};

use crate::kept::Kept;
use crate::keys::{FileKey, LocationKey, ScopeKey};

impl<'a> Kept<'a> {
    /// The text with a number.
    pub fn text_of(&self, number: u32) -> &'a [u8]
        requires { IsNumber (length (kept_view self.now).texts) number }
        ensures { result.now ≡ text_at (kept_view self.now) number }
    {
        self.texts.key(number).text
    }

    /// The key of the file with a number.
    pub fn file_key_of(&self, number: u32) -> FileKey
        requires { IsNumber (length (kept_view self.now).files) number }
        ensures { result ≡ file_key_at (kept_view self.now) number }
    {
        self.files.key(number)
    }

    /// The key of the scope with a number.
    pub fn scope_key_of(&self, number: u32) -> ScopeKey
        requires { IsNumber (length (kept_view self.now).scopes) number }
        ensures { result ≡ scope_key_at (kept_view self.now) number }
    {
        self.scopes.key(number)
    }

    /// The key of the location with a number; that of number 0 has zeros.
    pub fn location_key_of(&self, number: u32) -> LocationKey
        requires { number ≤ length (kept_view self.now).locations }
        ensures { result ≡ location_key_at (kept_view self.now) number }
    {
        if number == 0 {
            return LocationKey {
                scope: 0,
                line: 0,
                column: 0,
            };
        }
        self.locations.key(number)
    }
}
