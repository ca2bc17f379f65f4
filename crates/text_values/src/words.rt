//! Values with a text.
ghost use Rattle.std.specs.Prelude.{◌≡◌};

/// A value that is read from a text.
pub trait Word: Sized {
    ghost use Rattle.std.specs.Prelude.{List, Option, ℕ};

    // The value of a text, if the text has one of the value's forms.
    ghost form_of: { List ℕ → Option Self };

    /// Reads the value of a text. `None` if the text has none of the forms.
    fn read(text: &str) -> Option<Self>
        ensures { result ≡ form_of text.now };
}

/// A value, printed in its text form.
#[derive(Clone, Copy, Debug, PartialEq, Eq)]
pub struct Spelled<T>(pub T);
