//! The attributes that are read here (DWARF 5, sections 2.2 and 7.5.4).

ghost use Rattle.std.specs.Prelude.{◌≡◌, ◌<◌, length};

use crate::dw::*;
use dwarf_encoding::Value;

/// An attribute that is read here. The names are the standard's, without `DW_AT_`.
#[derive(Clone, Copy)]
pub enum Attribute {
    Name,
    StmtList,
    LowPc,
    HighPc,
    CompDir,
    AbstractOrigin,
    Specification,
    Ranges,
    CallColumn,
    CallFile,
    CallLine,
    LinkageName,
    StrOffsetsBase,
    AddrBase,
    RnglistsBase,
    MipsLinkageName,
}

impl Attribute {
    ghost use Rattle.dwarf_entries.specs.Attributes.{attribute_of};
    ghost use Rattle.dwarf_entries.specs.AttributeViews.{slot_of};

    /// The attribute with a number; `None` if it is not read here.
    #[tactic(auto, unfolding(crate::specs::Attributes::attribute_of))]
    fn of(number: u64) -> Option<Attribute>
        ensures { result ≡ attribute_of number }
    {
        match number {
            DW_AT_NAME => Some(Attribute::Name),
            DW_AT_STMT_LIST => Some(Attribute::StmtList),
            DW_AT_LOW_PC => Some(Attribute::LowPc),
            DW_AT_HIGH_PC => Some(Attribute::HighPc),
            DW_AT_COMP_DIR => Some(Attribute::CompDir),
            DW_AT_ABSTRACT_ORIGIN => Some(Attribute::AbstractOrigin),
            DW_AT_SPECIFICATION => Some(Attribute::Specification),
            DW_AT_RANGES => Some(Attribute::Ranges),
            DW_AT_CALL_COLUMN => Some(Attribute::CallColumn),
            DW_AT_CALL_FILE => Some(Attribute::CallFile),
            DW_AT_CALL_LINE => Some(Attribute::CallLine),
            DW_AT_LINKAGE_NAME => Some(Attribute::LinkageName),
            DW_AT_STR_OFFSETS_BASE => Some(Attribute::StrOffsetsBase),
            DW_AT_ADDR_BASE => Some(Attribute::AddrBase),
            DW_AT_RNGLISTS_BASE => Some(Attribute::RnglistsBase),
            DW_AT_MIPS_LINKAGE_NAME => Some(Attribute::MipsLinkageName),
            _ => None,
        }
    }

    /// The index of its value in [`Attributes`].
    fn slot(self) -> usize
        ensures is { result ≡ slot_of self }
        ensures within { result < 16 }
    {
        match self {
            Attribute::Name => 0,
            Attribute::StmtList => 1,
            Attribute::LowPc => 2,
            Attribute::HighPc => 3,
            Attribute::CompDir => 4,
            Attribute::AbstractOrigin => 5,
            Attribute::Specification => 6,
            Attribute::Ranges => 7,
            Attribute::CallColumn => 8,
            Attribute::CallFile => 9,
            Attribute::CallLine => 10,
            Attribute::LinkageName => 11,
            Attribute::StrOffsetsBase => 12,
            Attribute::AddrBase => 13,
            Attribute::RnglistsBase => 14,
            Attribute::MipsLinkageName => 15,
        }
    }
}

/// The value of each attribute of an entry.
#[derive(Clone, Copy)]
pub struct Attributes<'a> {
    values: [Option<Value<'a>>; 16],
    ghost long: { length values ≡ 16 },
}

impl<'a> Attributes<'a> {
    ghost use Rattle.std.specs.Option.{option_map};
    ghost use Rattle.dwarf_encoding.specs.Views.{value_view};
    ghost use Rattle.dwarf_entries.specs.Attributes.{no_attributes, value_of, with_attribute};
    ghost use Rattle.dwarf_entries.specs.AttributeViews.{attributes_view};

    /// No values.
    #[tactic(auto, unfolding(crate::specs::AttributeViews::of_slots))]
    pub(crate) fn none() -> Attributes<'a>
        ensures { attributes_view result ≡ no_attributes }
    {
        Attributes { values: [None; 16] }
    }

    /// The value of an attribute; `None` if the entry lacks it.
    #[tactic(auto, unfolding(crate::specs::AttributeViews::of_slots))]
    pub fn get(&self, attribute: Attribute) -> Option<Value<'a>>
        ensures { option_map value_view result ≡ value_of (attributes_view self.now) attribute }
    {
        self.values[attribute.slot()]
    }

    /// Sets the value of an attribute, unless it has one.
    pub(crate) fn put(&mut self, number: u64, value: Value<'a>)
        ensures { attributes_view self.new
            ≡ with_attribute (attributes_view self.old) number (value_view value.entry) }
    {
        if let Some(attribute) = Attribute::of(number) {
            let slot = attribute.slot();
            self.values[slot] = self.values[slot].or(Some(value));
        }
    }
}
