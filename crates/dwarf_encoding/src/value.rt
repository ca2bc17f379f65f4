/// The value of an attribute, as its form encodes it (DWARF 5, section 7.5.5).
#[derive(Clone, Copy)]
pub enum Value<'a> {
    /// An address.
    Address(u64),
    /// The index of an address in `__debug_addr`.
    AddressIndex(u64),
    /// A constant. A negative constant is its two's complement of 64 bits.
    Constant(u64),
    /// A text that is stored in the entry itself, without its NUL.
    InlineString(&'a [u8]),
    /// The offset of a text in `__debug_str`.
    StringOffset(u64),
    /// The offset of a text in `__debug_line_str`.
    LineStringOffset(u64),
    /// The index of a text in `__debug_str_offs`.
    StringIndex(u64),
    /// The offset of an entry from the beginning of its unit.
    UnitReference(u64),
    /// The offset of an entry in `__debug_info`.
    SectionReference(u64),
    /// An offset in another section.
    SectionOffset(u64),
    /// The index of a list in `__debug_rnglists`.
    RangeListIndex(u64),
    /// A value that is not used here: a flag, a block, an expression, the index of a location list, a signature, or a
    /// reference to a supplementary file.
    Other,
}
