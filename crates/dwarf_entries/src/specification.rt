//! The attribute specifications of a declaration (DWARF 5, section 7.5.3).

ghost use Rattle.std.specs.Prelude.{◌≡◌, IfOk, OnOk};
ghost use Rattle.std.specs.Option.{option_map};
ghost use Rattle.dwarf_entries.specs.Specifications.{specification_at, with_specification, shape_at};
ghost use Rattle.dwarf_entries.specs.ShapeViews.{shape_view};

use crate::attributes::Attributes;
use dwarf_encoding::dw_form::{DW_FORM_FLAG_PRESENT, DW_FORM_IMPLICIT_CONST};
use dwarf_encoding::{Value, signed_leb128, unsigned_leb128};
use heap_memory::{Heap, NoMemory};

/// An attribute specification.
#[derive(Clone, Copy)]
pub struct Specification {
    /// The number of the attribute.
    pub attribute: u64,
    pub form: u64,
    /// The value of DW_FORM_implicit_const; 0 for other forms.
    pub implicit: u64,
}

/// The parts of a declaration's specifications that an entry needs.
#[derive(Drop)]
pub struct Shape<'a> {
    /// The values that are stored in the declaration.
    pub constants: Attributes<'a>,
    /// The attribute and the form of each value that is stored in an entry, in order.
    pub pairs: Vec<(u64, u64), Heap>,
}

/// A specification, or `None` for the pair of zeros that ends the specifications; and the bytes after it.
#[tactic(auto, unfolding(crate::specs::Specifications::specification_at))]
fn read_specification(bytes: &[u8]) -> Option<(Option<Specification>, &[u8])>
    ensures { option_map (λ x. (x.0, x.1.now)) result ≡ specification_at bytes.now }
{
    let (attribute, rest) = unsigned_leb128(bytes)?;
    let (form, rest) = unsigned_leb128(rest)?;
    if attribute == 0 && form == 0 {
        return Some((None, rest));
    }
    let (implicit, rest) = if form == DW_FORM_IMPLICIT_CONST {
        signed_leb128(rest)?
    } else {
        (0, rest)
    };
    let specification = Specification {
        attribute,
        form,
        implicit,
    };
    Some((Some(specification), rest))
}

impl<'a> Shape<'a> {
    /// Adds a specification. A value of DW_FORM_flag_present has no bytes and is ignored here.
    fn add(&mut self, specification: Specification) -> Result<(), NoMemory>
        ensures { OnOk result (shape_view self.new ≡ with_specification (shape_view self.old) specification) }
    {
        if specification.form == DW_FORM_IMPLICIT_CONST {
            let value = Value::Constant(specification.implicit);
            self.constants.put(specification.attribute, value);
        } else if specification.form != DW_FORM_FLAG_PRESENT {
            self.pairs
                .push((specification.attribute, specification.form))?;
        }
        Ok(())
    }
}

/// The shape of the specifications before the pair of zeros that ends them, and the bytes after that pair; `None` if
/// they cannot be read. The error is `NoMemory`.
pub(crate) fn read_shape<'a>(
    heap: Heap,
    bytes: &'a [u8],
) -> Result<Option<(Shape<'a>, &'a [u8])>, NoMemory>
    ensures { IfOk result (λ found. option_map (λ x. (shape_view x.0, x.1.now)) found ≡ shape_at bytes.now) }
{
    let mut shape = Shape {
        constants: Attributes::none(),
        pairs: Vec::new(heap),
    };
    let mut rest = bytes;
    'specifications: while let Some((specification, after)) = read_specification(rest) {
        rest = after;
        match specification {
            Some(specification) => shape.add(specification)?,
            None => return Ok(Some((shape, rest))),
        }
    }
    Ok(None)
}
