//! The keys of texts, files, scopes and locations.

ghost use Rattle.std.specs.Prelude.{◌≡◌};
ghost use Rattle.table_source_frames_build.specs.Marks.{mark_of};

/// A text, after its mark. Most texts differ in their marks, so that one number distinguishes them.
#[derive(Clone, Copy, PartialEq, Eq, PartialOrd, Ord)]
pub(crate) struct TextKey<'a> {
    pub mark: u64,
    pub text: &'a [u8],
    ghost marked: { mark ≡ mark_of text.now },
}

/// The mark of a text.
#[tactic(auto, unfolding(crate::specs::Marks::mark_of))]
fn mark_of(text: &[u8]) -> u64
    ensures { result ≡ mark_of text.now }
{
    let mut mark = 0u64;
    for byte in text {
        mark = mark
            .wrapping_mul(0x100_0000_01b3)
            .wrapping_add(u64::from(*byte));
    }
    mark
}

impl<'a> TextKey<'a> {
    /// The key of a text.
    pub fn of(text: &'a [u8]) -> TextKey<'a>
        ensures { result.text.now ≡ text.now }
    {
        TextKey {
            mark: mark_of(text),
            text,
        }
    }
}

/// The numbers of the texts of the path of a file.
#[derive(Clone, Copy, PartialEq, Eq, PartialOrd, Ord)]
pub(crate) struct FileKey {
    pub base: u32,
    pub directory: u32,
    pub name: u32,
}

/// A scope: the number of the location that it is inlined into, the number of its function's name, and that of its file
/// (0: none). The caller is first, so that scopes which are added one after another are near each other in the order.
#[derive(Clone, Copy, PartialEq, Eq, PartialOrd, Ord)]
pub(crate) struct ScopeKey {
    pub caller: u32,
    pub name: u32,
    pub file: u32,
}

/// A location: the number of its scope, whose caller has a smaller number than the location; and its line and column.
#[derive(Clone, Copy, PartialEq, Eq, PartialOrd, Ord)]
pub(crate) struct LocationKey {
    pub scope: u32,
    pub line: u32,
    pub column: u32,
}
