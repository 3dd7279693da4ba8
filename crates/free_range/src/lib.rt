// The search for a free range of mmap.rs on the packed list, with how many regions it compares.
#![tactic(auto)]

ghost use Rattle.answer.specs.declared.Refusal.TheVariants.{NoRegion};
ghost use Rattle.std.specs.Prelude.{◌≡◌, true, ◌+◌, ◌≤◌, ◌<◌};
ghost use Rattle.allocator.specs.Round.{last_page};
ghost use Rattle.slots.specs.Slots.{listed};
ghost use Rattle.free_range.specs.Search.{in_the_way};
ghost use Rattle.free_range.specs.Compared.{scanned, searched};
ghost use Rattle.mappings.specs.Packed.{mmap_in, next_in, sound_list};

use answer::Refusal;
use mappings::Mmap;
use slots::SlotList;

pub const USER_MMAP_END: u64 = 0x0000_7FFF_FFFF_F000;

// A scan: what is in the way, and how many regions the definition's scan compares until it comes to it.
#[derive(Clone, Copy)]
pub struct Scanned {
    pub way: Option<u64>,
    pub compared: usize,
}

// A search: where it ends, and how many regions all its scans compare.
#[derive(Clone, Copy)]
pub struct Searched {
    pub outcome: Result<u64, Refusal>,
    pub compared: usize,
}

// One scan for n bytes at a. From a region that starts past them on, none is in the way, and the definition's scan compares the others too.
fn scan(list: &[u8], a: u64, n: u64) -> Scanned
    requires list_value { sound_list list.now ≡ true }
    requires n_bound { a + n ≤ last_page }
    ensures { result ≡ scanned a n (listed (mmap_in list.now)) }
{
    let count = Mmap::count(list);
    let past = a + n;
    // By index: packed slots have no iterator.
    for i in 0..count {
        let r = Mmap::slot(list, i);
        if r.start >= past {
            return Scanned {
                way: None,
                compared: count,
            };
        }
        let end = r.start + r.size;
        if a < end {
            return Scanned {
                way: Some(end),
                compared: i + 1,
            };
        }
    }
    Scanned {
        way: None,
        compared: count,
    }
}

// The first region that n bytes at a overlap.
pub fn in_the_way(list: &[u8], a: u64, n: u64) -> Option<u64>
    requires list_value { sound_list list.now ≡ true }
    requires n_bound { a + n ≤ last_page }
    ensures { result ≡ in_the_way a n (listed (mmap_in list.now)) }
{
    scan(list, a, n).way
}

// A search that found no range.
fn not_found(compared: usize) -> Searched
    ensures { result ≡ record { outcome = Err NoRegion; compared = compared } }
{
    Searched {
        outcome: Err(Refusal::NoRegion),
        compared,
    }
}

// Where n bytes are free, from next_addr on: past each region in the way the scan starts again.
pub fn find_free_region(list: &[u8], n: u64) -> Searched
    requires { sound_list list.now ≡ true }
    ensures { result ≡ searched (listed (mmap_in list.now)) (next_in list.now) n }
{
    if n >= USER_MMAP_END {
        return not_found(0);
    }
    let limit = USER_MMAP_END - n;
    let mut addr = mappings::next_addr(list);
    let mut compared = 0;
    // No index: the search goes on past what is in the way.
    while addr < limit {
        let one = scan(list, addr, n);
        compared += one.compared;
        match one.way {
            Some(end) => addr = end,
            None => {
                return Searched {
                    outcome: Ok(addr),
                    compared,
                };
            }
        }
    }
    not_found(compared)
}
