//! The rows of a table.

ghost use Rattle.std.specs.Prelude.{◌≡◌, ◌+◌, ◌<◌, ◌≤◌, IfSome, None};

/// The size of a scope in bytes.
pub(crate) const SCOPE_LEN: usize = 20;

/// The size of a file in bytes.
pub(crate) const FILE_LEN: usize = 12;

/// The size of the row of a text in bytes.
pub(crate) const TEXT_LEN: usize = 8;

/// The numbers of a step: its start, and the scope of the innermost frame from there on, up to the next step, with its
/// line and column; 0 if there are no frames. They are any numbers until a frame is made of them.
#[derive(Clone, Copy)]
pub(crate) struct Step {
    pub start: u64,
    pub scope: u64,
    pub line: u64,
    pub column: u64,
}

/// The scope of a frame, from 1 on, or 0 for no frame, and the line and the column of the frame.
#[derive(Clone, Copy)]
pub(crate) struct Position {
    pub scope: u32,
    pub line: u32,
    pub column: u32,
}

/// A scope: the numbers of the name and of the file of a frame, each from 1 on, and 0 for none; and the position of the
/// frame that calls it.
#[derive(Clone, Copy)]
pub(crate) struct Scope {
    pub name: u32,
    pub file: u32,
    pub caller: Position,
}

/// A file: the numbers of the texts of its path.
#[derive(Clone, Copy)]
pub(crate) struct File {
    pub base: u32,
    pub directory: u32,
    pub name: u32,
}

/// The row of a text: its offset in the bytes of all texts, and its length.
#[derive(Clone, Copy)]
pub(crate) struct Text {
    pub place: u32,
    pub length: u32,
}

/// The index of the element with this number, if `count` elements are numbered from 1 on; `None` if there is none.
pub(crate) fn index_of(number: u32, count: u64) -> Option<u64>
    ensures is { IfSome result (λ index. index + 1 ≡ number) }
    ensures inside { IfSome result (λ index. index < count) }
    ensures none { result ≡ None → 0 < number → number ≤ count → ⊥ }
{
    let index = u64::from(number.checked_sub(1)?);
    if index < count { Some(index) } else { None }
}
