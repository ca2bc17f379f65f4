//! The limits of devices, and the extent of a sweep.

ghost use Rattle.std.specs.Prelude.{◌≡◌, None};

/// A file of which only a number of first bytes are used.
#[derive(Clone, Copy)]
pub struct FileLimit<'t> {
    pub name: &'t str,
    pub len: usize,
}

impl FileLimit<'_> {
    // The number of first bytes of a file that are used.
    fn len_of(limit: Option<FileLimit<'_>>, name: &str) -> usize
        ensures { limit.entry ≡ None → result ≡ usize.MAX }
    {
        match limit {
            Some(limit) if limit.name == name => limit.len,
            _ => usize::MAX,
        }
    }
}

/// The limits of the devices of a run.
#[derive(Clone, Copy)]
pub struct Limits<'t> {
    /// The number of bytes that an input returns at a time, at least one.
    pub pieces: usize,
    /// The number of growths of memory that are granted.
    pub growths: u64,
    /// The number of bytes of memory that are granted to a command, or to a call that reads.
    pub bytes: u64,
    /// The number of inputs, in the order of the command line, that there is memory to open.
    pub opened: u64,
    /// The number of bytes that OUT accepts before it fails.
    pub out: usize,
    /// Whether OUT can be published.
    pub places: bool,
    /// The number of bytes that the report accepts before it fails.
    pub report: usize,
    /// A file that ends after a number of bytes.
    pub cut: Option<FileLimit<'t>>,
    /// A file that fails after it returned a number of bytes.
    pub read: Option<FileLimit<'t>>,
}

impl Limits<'_> {
    pub const AMPLE: Limits<'static> = Limits {
        pieces: usize::MAX,
        growths: u64::MAX,
        bytes: u64::MAX,
        opened: u64::MAX,
        out: usize::MAX,
        places: true,
        report: usize::MAX,
        cut: None,
        read: None,
    };

    /// The greatest number of bytes that a file has.
    pub fn most_of(&self, name: &str) -> usize
        ensures { self.now.cut ≡ None → result ≡ usize.MAX }
    {
        FileLimit::len_of(self.cut, name)
    }

    /// The number of bytes that a file returns before it fails.
    pub fn given_of(&self, name: &str) -> usize {
        FileLimit::len_of(self.read, name)
    }
}

/// The device of a run that is limited at each point in turn.
#[derive(Clone, Copy)]
pub enum Sweep<'t> {
    /// A file is cut to each length.
    Cut(&'t str),
    /// A file fails after each number of bytes.
    Read(&'t str),
    /// OUT fails after each number of bytes.
    Out,
    /// The report fails after each number of bytes.
    Report,
    /// The inputs return pieces of each size up to this one.
    Pieces(usize),
}

impl<'t> Sweep<'t> {
    /// The limits at a point of the sweep.
    pub fn limits(self, mut limits: Limits<'t>, len: usize) -> Limits<'t> {
        match self {
            Sweep::Cut(name) => limits.cut = Some(FileLimit { name, len }),
            Sweep::Read(name) => limits.read = Some(FileLimit { name, len }),
            Sweep::Out => limits.out = len,
            Sweep::Report => limits.report = len,
            Sweep::Pieces(_) => limits.pieces = len,
        }
        limits
    }
}
