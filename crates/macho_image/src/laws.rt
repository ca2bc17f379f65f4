//! Relations between the definitions, for every list of bytes. Each law is the contract of a function that does
//! nothing.

ghost use Rattle.std.specs.Prelude.{◌≡◌, ◌+◌, ◌*◌, ◌<◌, ◌⊎◌, ℕ, List, true, Some};
ghost use Rattle.std.specs.Prelude.{Contains, drop, take, length, slice_get};
ghost use Rattle.macho_image.specs.Commands.{AreFirst, SegmentRecord, first_commands};
ghost use Rattle.macho_image.specs.Commands.{commands, is_uuid, is_symtab, nsects};
ghost use Rattle.macho_image.specs.Kinds.{segments};
ghost use Rattle.macho_image.specs.Contents.{uuid_bytes, uuid_of, symtab_fields, symtab_of};
ghost use Rattle.macho_image.specs.Fault.{IsImageFault, IsImage};
ghost use Rattle.macho_image.specs.Sections.{SectionRecord, IsSectionOf, section_record, sections, sections_in};
ghost use Rattle.macho_image.specs.declared.fault.ImageFault.{ImageFault};

/// The bytes have at most one list of `count` first commands, and the definition returns it.
pub fn one_list_of_commands()
    ensures is_cut { (count : ℕ) (area : List ℕ) (commands : List (List ℕ)) →
        AreFirst area count commands → first_commands count area ≡ commands }
    ensures cut_is { (count : ℕ) (area : List ℕ) →
        length (first_commands count area) ≡ count → AreFirst area count (first_commands count area) }
{}

/// Bytes are an image or have a fault, never both and never two faults.
pub fn one_fault()
    ensures some { (bytes : List ℕ) → IsImage bytes ⊎ ((f : ImageFault) × IsImageFault bytes f) }
    ensures one { (bytes : List ℕ) (f g : ImageFault) → IsImageFault bytes f → IsImageFault bytes g → f ≡ g }
    ensures none { (bytes : List ℕ) (f : ImageFault) → IsImage bytes → IsImageFault bytes f → ⊥ }
{}

/// Each LC_UUID of an image has the image's UUID, of sixteen bytes, and each LC_SYMTAB has its symbol table.
pub fn one_of_each()
    ensures uuid { (image command : List ℕ) → IsImage image → Contains (commands image) command →
        is_uuid command ≡ true → uuid_of image ≡ uuid_bytes command }
    ensures sixteen { (image : List ℕ) → IsImage image → length (uuid_of image) ≡ 16 }
    ensures symtab { (image command : List ℕ) → IsImage image → Contains (commands image) command →
        is_symtab command ≡ true → symtab_of image ≡ Some (symtab_fields command) }
{}

/// The sections of a segment follow its first 72 bytes: `nsects` of them, 80 bytes apart.
pub fn section_places()
    ensures number { (segment : SegmentRecord) → length (sections_in segment) ≡ nsects segment.bytes }
    ensures places { (segment : SegmentRecord) (i : ℕ) → i < nsects segment.bytes →
        slice_get (sections_in segment) i
        ≡ Some (section_record (segment.offset + 72 + 80 * i) (drop (72 + 80 * i) segment.bytes)) }
{}

/// Each segment of an image is at its own offset, and so is each section.
pub fn are_at_offsets()
    ensures segment { (image : List ℕ) (segment : SegmentRecord) → IsImage image → Contains (segments image) segment →
        take (length segment.bytes) (drop segment.offset image) ≡ segment.bytes }
    ensures section { (image : List ℕ) (section : SectionRecord) → IsImage image → Contains (sections image) section →
        IsSectionOf image section }
{}
