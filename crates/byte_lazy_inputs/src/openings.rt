//! The result of opening an input.

ghost use Rattle.std.specs.Prelude.{◌≡◌};
ghost use Rattle.byte_lazy_inputs.specs.declared.openings.Opening.{Opening};

/// The result of opening an input.
#[derive(Clone, Copy, Debug, PartialEq, Eq)]
pub enum Opening {
    /// It was opened, or no byte was requested.
    Fine,
    /// It could not be opened.
    Refused,
    /// Memory ran out when it was opened.
    OutOfMemory,
}

/// An input that is opened by the first call for its bytes, and reports the result.
pub trait Opens {
    ghost opening_of: { Self → Opening };

    fn opening(&self) -> Opening
        ensures { result ≡ opening_of self.now };
}
