//! Addresses grouped by the offsets of their units.

ghost use Rattle.std.specs.Prelude.{◌≡◌, ◌≢◌, ◌+◌, ◌++◌, ◌∷◌, ◌↔◌, [], ℕ, IfNone, IfOk, IfSome, OnOk, None, Some};
ghost use Rattle.std.specs.Prelude.{length};
ghost use Rattle.std.specs.List.{Contains};
ghost use Rattle.std.specs.Ordering.{nat_cmp};
ghost use Rattle.std.specs.BTreeMap as tree_map;
ghost use Rattle.dwarf_source_frames.specs.ByUnit.{IsPlaced, addresses_under, placed_under, placed_without};

use heap_memory::{Heap, NoMemory};
use std::collections::BTreeMap;

/// The addresses of a unit.
#[derive(Drop)]
pub struct AddressList {
    pub addresses: Vec<u64, Heap>,
}

/// Addresses grouped by the offsets of their units.
pub type ByUnit = BTreeMap<u64, AddressList, Heap>;

/// Adds an address to the group of its unit's offset.
fn add_under(heap: Heap, by_unit: &mut ByUnit, place: u64, address: u64) -> Result<(), NoMemory>
    ensures here { OnOk result (addresses_under by_unit.new place
        ≡ addresses_under by_unit.old place ++ address ∷ []) }
    ensures others { OnOk result ((other : ℕ) → other ≢ place →
        addresses_under by_unit.new other ≡ addresses_under by_unit.old other) }
{
    let mut list = match by_unit.remove(&place) {
        Some(list) => list,
        None => AddressList {
            addresses: Vec::new(heap),
        },
    };
    list.addresses.push(address)?;
    by_unit.insert(place, list)?;
    Ok(())
}

/// Adds an address to the group of its unit's offset, or to the addresses without a unit.
fn add_placed(
    heap: Heap,
    without: &mut Vec<u64, Heap>,
    by_unit: &mut ByUnit,
    place: Option<u64>,
    address: u64,
) -> Result<(), NoMemory>
    ensures under { OnOk result ((other : ℕ) → addresses_under by_unit.new other
        ≡ addresses_under by_unit.old other ++ placed_under place other address) }
    ensures without { OnOk result (without.new.items ≡ without.old.items ++ placed_without place address) }
{
    match place {
        Some(place) => add_under(heap, by_unit, place, address),
        None => {
            without.push(address)?;
            Ok(())
        }
    }
}

/// Removes the first unit and returns its offset and addresses.
pub fn take_unit(by_unit: &mut ByUnit) -> Option<(u64, AddressList)>
    ensures taken { IfSome result (λ x. tree_map.get nat_cmp by_unit.old x.0 ≡ Some x.1) }
    ensures gone { IfSome result (λ x. tree_map.get nat_cmp by_unit.new x.0 ≡ None) }
    ensures others { IfSome result (λ x. (other : ℕ) → other ≢ x.0 →
        tree_map.get nat_cmp by_unit.new other ≡ tree_map.get nat_cmp by_unit.old other) }
    ensures fewer { IfSome result (λ x.
        tree_map.btree_map_len by_unit.new + 1 ≡ tree_map.btree_map_len by_unit.old) }
    ensures none { IfNone result ((place : ℕ) → tree_map.get nat_cmp by_unit.old place ≡ None) }
{
    by_unit.pop_first()
}

/// The addresses without a unit, and the others grouped by the offsets of their units.
pub fn by_unit(
    heap: Heap,
    addresses: &[u64],
    places: &[Option<u64>],
) -> Result<(Vec<u64, Heap>, ByUnit), NoMemory>
    requires { length places.now ≡ length addresses.now }
    ensures without { IfOk result (λ x. (a : ℕ) → Contains x.0.items a
        ↔ IsPlaced addresses.now places.now a None) }
    ensures under { IfOk result (λ x. (place a : ℕ) → Contains (addresses_under x.1 place) a
        ↔ IsPlaced addresses.now places.now a (Some place)) }
{
    let mut without = Vec::new(heap.share());
    let mut by_unit = BTreeMap::new(heap.share());
    for (i, address) in addresses.iter().enumerate() {
        add_placed(
            heap.share(),
            &mut without,
            &mut by_unit,
            places[i],
            *address,
        )?;
    }
    Ok((without, by_unit))
}
