// The list's tests, and regions put in and taken out. Each takes the bytes as they are lent (docs/API.md, docs/LAYOUT.md) and asks that `is_sound` was met: a type
// for sound bytes would have to borrow them for the call, and these functions promise what they do to any caller that lends bytes.
ghost use Rattle.std.specs.Prelude.{◌≡◌, true, ◌⊎◌, length, ◌+◌, ◌≤◌, ◌<◌};
ghost use Rattle.slots.specs.Slots.{listed, store};
ghost use Rattle.slots.specs.Shifts.{taken_out};
ghost use Rattle.slots.specs.Sorted.{place_of, found};
ghost use Rattle.mappings.specs.Regions.{no_mapped_region, start_key, starts, found_sized, insert as inserted, with_prot};
ghost use Rattle.mappings.specs.Packed.{mmap_in, next_in, mmap_fit, MmapStands, sound_list};

use crate::{MappedRegion, Mmap};
use slots::SlotList;

// Whether the bytes stand for a list that is not broken.
pub fn is_sound(list: &[u8]) -> bool
    ensures { result ≡ sound_list list.now }
{
    if list.len() != crate::MMAP_SIZE {
        return false;
    }
    let count = Mmap::count(list);
    if count > crate::MAX_REGIONS {
        return false;
    }
    if crate::next_addr(list) % 4096 != 0 {
        return false;
    }
    let mut from = 0;
    // By index: packed slots have no iterator, and an own one would be more text than this loop.
    for i in 0..count {
        let r = Mmap::slot(list, i);
        if r.start < from {
            return false;
        }
        if !regions::is_well_placed(r.start, r.size) {
            return false;
        }
        from = r.start + 1;
    }
    true
}

// Where the region at a stands, or where one would be put in.
pub fn find(list: &[u8], a: u64) -> Result<usize, usize>
    requires { sound_list list.now ≡ true }
    ensures { result ≡ found start_key a (listed (mmap_in list.now)) }
{
    slots::find::<Mmap>(list, a)
}

// Where the region at a stands, if it has n bytes.
pub fn find_sized(list: &[u8], a: u64, n: u64) -> Option<usize>
    requires { sound_list list.now ≡ true }
    ensures { result ≡ found_sized a n (listed (mmap_in list.now)) }
{
    match find(list, a) {
        Ok(at) if Mmap::slot(list, at).size == n => Some(at),
        _ => None,
    }
}

// A region in its place, or instead of the one with its start.
pub fn insert(list: &mut [u8], r: MappedRegion)
    requires list_value { sound_list list.old ≡ true }
    requires fact { (length (listed (mmap_in list.old)) < 256) ⊎ (starts r.start (listed (mmap_in list.old)) ≡ true) }
    ensures { MmapStands list.new
        (store no_mapped_region (inserted r (listed (mmap_in list.old))) (mmap_in list.old)) (next_in list.old) }
{
    match find(list, r.start) {
        Ok(at) => Mmap::put(list, at, r),
        Err(at) => slots::put_in::<Mmap>(list, at, r),
    }
}

// The region at the place of a, which starts at a, has another prot then.
pub fn set_prot(list: &mut [u8], place: usize, a: u64, prot: i32)
    requires list_value { sound_list list.old ≡ true }
    requires place_value { place ≡ place_of start_key a (listed (mmap_in list.old)) }
    requires list_value_2 { starts a (listed (mmap_in list.old)) ≡ true }
    ensures { MmapStands list.new
        (store no_mapped_region (with_prot a prot (listed (mmap_in list.old))) (mmap_in list.old)) (next_in list.old) }
{
    let old = Mmap::slot(list, place);
    let r = MappedRegion {
        start: a,
        size: old.size,
        prot,
        flags: old.flags,
    };
    Mmap::put(list, place, r);
}

// The region in slot `at` taken out: those behind it are moved down by one, and the slot that falls past them is zero.
pub fn remove_at(list: &mut [u8], at: usize)
    requires list_value { mmap_fit list.old ≡ true }
    requires at_bound { (at < (mmap_in list.old).count) × ((mmap_in list.old).count ≤ 256) }
    ensures { MmapStands list.new
        (store no_mapped_region (taken_out at (listed (mmap_in list.old))) (mmap_in list.old)) (next_in list.old) }
{
    slots::take_out::<Mmap>(list, at);
}
