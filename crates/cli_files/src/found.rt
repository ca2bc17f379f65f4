//! The metadata of a file, as the system reports it.

ghost use Rattle.std.specs.Prelude.{◌≡◌};
ghost use Rattle.cli_files.specs.Identities.{is_one};

/// The metadata of the file that a path leads to, as the system reports it.
#[derive(Clone, Copy)]
pub struct Found {
    pub is_file: bool,
    pub size: u64,
    pub device: u64,
    pub number: u64,
    pub mode: u32,
    pub user: u32,
    pub group: u32,
}

impl Found {
    /// Whether both are one regular file: all paths and links to a file have the same device and the same file number
    /// there. A number of 0 counts as unknown.
    pub fn is_one(&self, other: &Found) -> bool
        ensures { result ≡ is_one self.now other.now }
    {
        self.is_file
            && other.is_file
            && self.number != 0
            && self.number == other.number
            && self.device == other.device
    }
}
