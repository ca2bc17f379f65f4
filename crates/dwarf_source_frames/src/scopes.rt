//! The ranges of the functions of a unit.

ghost use Rattle.std.specs.Prelude.{◌≡◌, true};
ghost use Rattle.dwarf_ranges.specs.UnitViews.{unit_view as ranges_view};
ghost use Rattle.dwarf_entries.specs.EntryViews.{entry_view, unread_view};
ghost use Rattle.dwarf_source_frames.specs.Scopes.{is_function, is_subprogram, left_after_scope, scope_ranges};

use crate::unit_code::range_attributes;
use dwarf_entries::dw::{DW_TAG_INLINED_SUBROUTINE, DW_TAG_SUBPROGRAM};
use dwarf_entries::{Entry, UnreadEntry};
use dwarf_ranges::{Ranges, UnitRanges};

/// Whether an entry is DW_TAG_subprogram, a function that is not inlined into the entry in which it is nested.
pub fn is_subprogram(entry: &Entry<'_>) -> bool
    ensures { result ≡ is_subprogram (entry_view entry.now) }
{
    entry.tag == DW_TAG_SUBPROGRAM
}

/// Whether an entry is a function: DW_TAG_subprogram or DW_TAG_inlined_subroutine.
pub fn is_function(entry: &UnreadEntry<'_, '_>) -> bool
    ensures { result ≡ is_function (unread_view entry.now) }
{
    entry.tag() == DW_TAG_SUBPROGRAM || entry.tag() == DW_TAG_INLINED_SUBROUTINE
}

/// The ranges of a function entry of a unit. At most `left` entries of its range list count; `left` is reduced by those
/// that were used.
#[tactic(auto, unfolding(crate::specs::Scopes::scope_ranges, crate::specs::Scopes::left_after_scope))]
pub fn scope_ranges<'a>(unit: &UnitRanges<'a>, entry: &Entry<'a>, left: &mut u128) -> Ranges<'a>
    requires { is_function (entry_view entry.now) ≡ true }
    ensures ranges { result ≡ scope_ranges (ranges_view unit.now) left.old (entry_view entry.now) }
    ensures left { left.new ≡ left_after_scope (ranges_view unit.now) left.old (entry_view entry.now) }
{
    unit.ranges_of(&range_attributes(entry), left)
}
