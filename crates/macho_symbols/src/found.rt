/// A symbol that a search found. Its names are borrowed from the image.
#[derive(Clone, Copy, Debug, PartialEq, Eq)]
pub struct Found<'a> {
    /// The name, never empty and without NUL.
    pub name: &'a [u8],
    /// `n_value`: the address of the symbol.
    pub address: u64,
    /// The distance from the symbol to the address that was looked up; 0 for a search by name.
    pub offset: u64,
    /// `n_sect`: the number of the section, from 1 on.
    pub sect: u8,
    /// `segname`: the name of the segment, as the section has it.
    pub segment: &'a [u8],
    /// `sectname`: the name of the section.
    pub section: &'a [u8],
}
