// The list of vmalloc.rs where it stands, as packed bytes: its tests, its searches, and the steps that change it.
#![tactic(auto)]

ghost use Rattle.std.specs.Prelude.{◌≡◌, true, ◌+◌, ◌≤◌, ◌<◌, min, max, eqb, length, get_or, take, drop, set, replicate, MatchOption};
ghost use Rattle.bits.specs.Bit.{both};
ghost use Rattle.packed.specs.Words.{unpack};
ghost use Rattle.slots.specs.Slots.{slotted, listed, every, first_at, store};
ghost use Rattle.regions.specs.Regions.{no_vm_region, well_placed_vm, fits, sound_regions, taken_slots, merge};
ghost use Rattle.regions.specs.List.{one_region, used_at, freed_at};
ghost use Rattle.vm_list.specs.Packed.{vm_size, vm_words, used_is_flag, vm_in, vm_out, vm_fit, overwritten};

use regions::{FEW_REGIONS, MAX_VM_REGIONS, VMALLOC_END, VMALLOC_START, VMRegion, lent};

// How many bytes it takes: the count, and three numbers for each slot. The functions take a slice of that length (`list_len`, `list_value`), since a call is lent one
// of any length and `is_sound` tests it: of what is written through an array that is borrowed from a slice a caller's proof knows nothing.
pub const VM_SIZE: usize = 8 + MAX_VM_REGIONS * 24;

// How many numbers its bytes are.
const VM_WORDS: usize = VM_SIZE / 8;

// The window as one free region.
const WINDOW: VMRegion = VMRegion {
    start: VMALLOC_START,
    size: VMALLOC_END - VMALLOC_START,
    used: false,
};

// How many regions stand.
pub fn count(list: &[u8]) -> usize
    requires { length list.now ≡ vm_size }
    ensures { result ≡ (vm_in list.now).count }
{
    packed::word_at(list, 0) as usize
}

pub fn put_count(list: &mut [u8], n: usize)
    requires { vm_fit list.old ≡ true }
    ensures list_after { vm_in list.new ≡ slotted (vm_in list.old).slots n }
    ensures list_after_2 { vm_fit list.new ≡ true }
{
    packed::put_word(list, 0, n as u64);
}

// Slot i.
pub fn slot(list: &[u8], i: usize) -> VMRegion
    requires list_len { length list.now ≡ vm_size }
    requires i_bound { i < 256 }
    ensures { result ≡ get_or (vm_in list.now).slots i no_vm_region }
{
    VMRegion {
        start: packed::word_at(list, i * 24 + 8),
        size: packed::word_at(list, i * 24 + 16),
        used: packed::word_at(list, i * 24 + 24) == 1,
    }
}

// Slot i is r then.
pub fn put(list: &mut [u8], i: usize, r: VMRegion)
    requires list_value { vm_fit list.old ≡ true }
    requires i_bound { i < 256 }
    ensures list_after { vm_in list.new ≡ slotted (set (vm_in list.old).slots i r) (vm_in list.old).count }
    ensures list_after_2 { vm_fit list.new ≡ true }
{
    packed::put_word(list, i * 24 + 8, r.start);
    packed::put_word(list, i * 24 + 16, r.size);
    packed::put_word(list, i * 24 + 24, r.used as u64);
}

// Whether the first n slots have 0 or 1 for `used`, and are well placed.
fn live_sound(list: &[u8], n: usize) -> bool
    requires list_len { length list.now ≡ vm_size }
    requires n_bound { n ≤ 256 }
    ensures { result ≡ both (used_is_flag n (drop 8 list.now)) (every well_placed_vm (take n (vm_in list.now).slots)) }
{
    for i in 0..n {
        if packed::word_at(list, i * 24 + 24) > 1 {
            return false;
        }
        let r = slot(list, i);
        if !regions::is_well_placed(r.start, r.size) {
            return false;
        }
    }
    true
}

// Whether all numbers from k on are zero. One flag is tested at the end, since a test for each takes longer.
fn rest_zero(list: &[u8], k: usize) -> bool
    requires list_len { length list.now ≡ vm_size }
    requires k_le_vm_words { k ≤ vm_words }
    ensures { result ≡ every (λ w. eqb w 0) (drop k (unpack vm_words list.now)) }
{
    let mut any = 0;
    for j in k..VM_WORDS {
        any |= packed::word_at(list, j * 8);
    }
    any == 0
}

// Whether the bytes stand for a list that is not broken.
pub fn is_sound(list: &[u8]) -> bool
    ensures { result ≡ both (vm_fit list.now) (sound_regions (vm_in list.now)) }
{
    if list.len() != VM_SIZE {
        return false;
    }
    let n = count(list);
    if n > MAX_VM_REGIONS {
        return false;
    }
    live_sound(list, n) && rest_zero(list, n * 3 + 1)
}

// Whether a region is free, of `size` bytes or more.
fn is_fit(r: VMRegion, size: u64) -> bool
    ensures { result ≡ fits size r }
{
    !r.used && r.size >= size
}

// The index of the first free region of `size` bytes or more, of the first n.
pub fn first_fit(list: &[u8], n: usize, size: u64) -> Option<usize>
    requires list_len { length list.now ≡ vm_size }
    requires n_bound { n ≤ 256 }
    ensures { MatchOption result (first_at (fits size) (take n (vm_in list.now).slots) ≡ n) (λ i. (i ≡ first_at (fits size) (take n (vm_in list.now).slots)) × (i < n)) }
{
    for i in 0..n {
        if is_fit(slot(list, i), size) {
            return Some(i);
        }
    }
    None
}

// Whether a region is used and starts at `addr`.
fn is_used_at(r: VMRegion, addr: u64) -> bool
    ensures { result ≡ used_at addr r }
{
    r.start == addr && r.used
}

// The index of the first used region at `addr`, of the first n.
pub fn find_used(list: &[u8], n: usize, addr: u64) -> Option<usize>
    requires list_len { length list.now ≡ vm_size }
    requires n_bound { n ≤ 256 }
    ensures { MatchOption result (first_at (used_at addr) (take n (vm_in list.now).slots) ≡ n) (λ i. (i ≡ first_at (used_at addr) (take n (vm_in list.now).slots)) × (i < n)) }
{
    for i in 0..n {
        if is_used_at(slot(list, i), addr) {
            return Some(i);
        }
    }
    None
}

// The list's first slots, as many as `regions` has; what is behind them is not read.
fn read_slots(list: &[u8], regions: &mut [VMRegion])
    requires list_len { length list.now ≡ vm_size }
    requires regions_len { length regions.old ≤ 256 }
    ensures { regions.new ≡ take (length regions.old) (vm_in list.now).slots }
{
    for (i, r) in regions.iter_mut().enumerate() {
        *r = slot(list, i);
    }
}

// The list's first slots are `regions` then.
fn write_slots(list: &mut [u8], regions: &[VMRegion])
    requires list_value { vm_fit list.old ≡ true }
    requires regions_len { length regions.now ≤ 256 }
    ensures list_after { vm_in list.new ≡ slotted (overwritten (length regions.now) regions.now (vm_in list.old).slots) (vm_in list.old).count }
    ensures list_after_2 { vm_fit list.new ≡ true }
{
    for (i, r) in regions.iter().enumerate() {
        put(list, i, *r);
    }
}

// A list of n regions is what a step on its slots left: `count` of them.
fn write_back(list: &mut [u8], n: usize, regions: &[VMRegion], count: usize)
    requires list_value { vm_fit list.old ≡ true }
    requires n_bound { (n ≤ 256) × (count ≤ 256) }
    requires room { max n count ≤ length regions.now }
    ensures list_after { vm_in list.new ≡ slotted (overwritten (max n count) regions.now (vm_in list.old).slots) count }
    ensures list_after_2 { vm_fit list.new ≡ true }
{
    write_slots(list, &regions[..n.max(count)]);
    put_count(list, count);
}

// `take_region` in an array of N slots, which has one for the tail.
fn take_among<const N: usize>(list: &mut [u8], n: usize, i: usize, size: u64, used: bool)
    requires list_value { (vm_fit list.old ≡ true) × (sound_regions (vm_in list.old) ≡ true) × (n ≡ (vm_in list.old).count) }
    requires i_value { (i ≡ first_at (fits size) (listed (vm_in list.old))) × (i < n) }
    requires room { (n ≤ N) × (min (n + 1) 256 ≤ N) × (N ≤ 256) }
    ensures list_after { vm_in list.new ≡ taken_slots used size (vm_in list.old) }
    ensures list_after_2 { vm_fit list.new ≡ true }
{
    let mut regions = [VMRegion::default(); N];
    read_slots(list, &mut regions[..n]);
    let count = lent::take_region(&mut regions, n, i, size, used);
    write_back(list, n, &regions, count);
}

// `size` bytes taken of region i, the first of n that is large enough, which is used or free then.
pub fn take_region(list: &mut [u8], n: usize, i: usize, size: u64, used: bool)
    requires list_value { (vm_fit list.old ≡ true) × (sound_regions (vm_in list.old) ≡ true) × (n ≡ (vm_in list.old).count) }
    requires i_value { (i ≡ first_at (fits size) (listed (vm_in list.old))) × (i < n) }
    ensures list_after { vm_in list.new ≡ taken_slots used size (vm_in list.old) }
    ensures list_after_2 { vm_fit list.new ≡ true }
{
    if n < FEW_REGIONS {
        take_among::<FEW_REGIONS>(list, n, i, size, used);
    } else {
        take_among::<MAX_VM_REGIONS>(list, n, i, size, used);
    }
}

// `free_region` in an array of N slots.
fn free_among<const N: usize>(list: &mut [u8], n: usize, i: usize)
    requires list_value { (vm_fit list.old ≡ true) × (sound_regions (vm_in list.old) ≡ true) × (n ≡ (vm_in list.old).count) }
    requires i_lt_n { i < n }
    requires room { (n ≤ N) × (N ≤ 256) }
    ensures list_after { vm_in list.new ≡ store no_vm_region (merge (freed_at i (listed (vm_in list.old)))) (vm_in list.old) }
    ensures list_after_2 { vm_fit list.new ≡ true }
{
    let mut regions = [VMRegion::default(); N];
    read_slots(list, &mut regions[..n]);
    let count = lent::free_region(&mut regions, n, i);
    write_back(list, n, &regions, count);
}

// Region i of n free, and joined with the free regions that it adjoins.
pub fn free_region(list: &mut [u8], n: usize, i: usize)
    requires list_value { (vm_fit list.old ≡ true) × (sound_regions (vm_in list.old) ≡ true) × (n ≡ (vm_in list.old).count) }
    requires i_lt_n { i < n }
    ensures list_after { vm_in list.new ≡ store no_vm_region (merge (freed_at i (listed (vm_in list.old)))) (vm_in list.old) }
    ensures list_after_2 { vm_fit list.new ≡ true }
{
    if n <= FEW_REGIONS {
        free_among::<FEW_REGIONS>(list, n, i);
    } else {
        free_among::<MAX_VM_REGIONS>(list, n, i);
    }
}

// The window as one free region.
pub fn start(list: &mut [u8])
    requires { length list.old ≡ vm_size }
    ensures list_after { list.new ≡ vm_out one_region }
    ensures list_after_2 { vm_in list.new ≡ one_region }
    ensures list_after_3 { vm_fit list.new ≡ true }
{
    list.fill(0);
    put(list, 0, WINDOW);
    put_count(list, 1);
}
