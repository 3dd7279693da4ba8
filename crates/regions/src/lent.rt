// The steps on the list's slots: region records, lent and written in place.
ghost use Rattle.std.specs.Prelude.{◌≡◌, ◌+◌, ◌-◌, ◌^◌, ◌<◌, ◌≤◌, true, false, length, take, nat_lt, slice_set};
ghost use Rattle.bits.specs.Bit.{both};
ghost use Rattle.slots.specs.Slots.{slotted, every, store, first_at};
ghost use Rattle.regions.specs.Regions.{vm_region, no_vm_region, well_placed_vm, fits, taken_slots, joins as joins_of, merge};
ghost use Rattle.slots.specs.Shifts.{shifted_up, shifted_down};
ghost use Rattle.regions.specs.List.{HasRoom, marked_at, freed_at};

use crate::{MAX_VM_REGIONS, VMRegion};

// Region i has `size` bytes then, and is used or free.
pub fn mark(regions: &mut [VMRegion], i: usize, size: u64, used: bool)
    requires { i < length regions.old }
    ensures { regions.new ≡ marked_at i size used regions.old }
{
    regions[i] = VMRegion {
        size,
        used,
        ..regions[i]
    };
}

// The slots from `at` on, up to `end`, moved up by one, and r in slot `at`.
pub fn shift_up(regions: &mut [VMRegion], at: usize, end: usize, r: VMRegion)
    requires { (at ≤ end) × (end < length regions.old) }
    ensures { regions.new ≡ slice_set (shifted_up regions.old at end) at r }
{
    regions.copy_within(at..end, at + 1);
    regions[at] = r;
}

// Slot `at` struck out: those behind it, up to `end`, moved down by one; the slot that falls past them is zero.
pub fn shift_down(regions: &mut [VMRegion], at: usize, end: usize)
    requires { (at < end) × (end ≤ length regions.old) }
    ensures { regions.new ≡ shifted_down no_vm_region regions.old at end }
{
    regions.copy_within(at + 1..end, at);
    regions[end - 1] = VMRegion::default();
}

// What is left of a region of which `size` bytes are taken.
fn tail(r: VMRegion, size: u64) -> VMRegion
    requires { (size ≤ r.size) × (r.start + r.size < 2 ^ 64) }
    ensures { result ≡ vm_region (r.start + size) (r.size - size) false }
{
    VMRegion {
        start: r.start + size,
        size: r.size - size,
        used: false,
    }
}

// Whether the tail of a region of which `size` bytes are taken is kept: there is one, and a slot for it.
fn keeps_tail(count: usize, r: VMRegion, size: u64) -> bool
    ensures { result ≡ both (nat_lt count 256) (nat_lt size r.size) }
{
    count < MAX_VM_REGIONS && size < r.size
}

// `size` bytes taken of region i, the first that is large enough: it has `size` bytes then, and is used or free. A larger one is split if fewer than 256 stand;
// at 256 its tail is lost. Answers how many regions stand then.
pub fn take_region(regions: &mut [VMRegion], count: usize, i: usize, size: u64, used: bool) -> usize
    requires { HasRoom count regions.old × (every well_placed_vm (take count regions.old) ≡ true) × (i ≡ first_at (fits size) (take count regions.old)) × (i < count) }
    ensures { slotted regions.new result ≡ taken_slots used size (slotted regions.old count) }
{
    let r = regions[i];
    if !keeps_tail(count, r, size) {
        mark(regions, i, size, used);
        return count;
    }
    shift_up(regions, i + 1, count, tail(r, size));
    mark(regions, i, size, used);
    count + 1
}

// Whether two neighbours are free and adjoin.
fn joins(r: VMRegion, s: VMRegion) -> bool
    requires { r.start + r.size < 2 ^ 64 }
    ensures { result ≡ joins_of r s }
{
    !r.used && !s.used && r.start + r.size == s.start
}

// Every adjoining pair of free regions joined, in one pass from the left. Answers how many regions stand then.
pub fn merge_free_regions(regions: &mut [VMRegion], count: usize) -> usize
    requires { (count ≤ length regions.old) × (every well_placed_vm (take count regions.old) ≡ true) }
    ensures { slotted regions.new result ≡ store no_vm_region (merge (take count regions.old)) (slotted regions.old count) }
{
    let mut n = count;
    let mut i = 0;
    // No range counts i: it stays where a pair was joined, and n falls.
    while i + 1 < n {
        let r = regions[i];
        let s = regions[i + 1];
        if joins(r, s) {
            shift_down(regions, i + 1, n);
            mark(regions, i, r.size + s.size, false);
            n -= 1;
        } else {
            i += 1;
        }
    }
    n
}

// Region i free, and joined with the free regions that it adjoins. Answers how many regions stand then.
pub fn free_region(regions: &mut [VMRegion], count: usize, i: usize) -> usize
    requires { (count ≤ length regions.old) × (every well_placed_vm (take count regions.old) ≡ true) × (i < count) }
    ensures { slotted regions.new result ≡ store no_vm_region (merge (freed_at i (take count regions.old))) (slotted regions.old count) }
{
    let r = regions[i];
    mark(regions, i, r.size, false);
    merge_free_regions(regions, count)
}
