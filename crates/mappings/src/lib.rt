// The list of mmap.rs where it stands, as packed bytes: its slots, its count and next_addr are read and written here, and nothing else touches the bytes.
#![tactic(auto)]

pub mod list;

ghost use Rattle.std.specs.Prelude.{◌≡◌, true, drop};
ghost use Rattle.packed.proofs.Records.{length_records};
ghost use Rattle.slots.specs.Slots.{slotted};
ghost use Rattle.mappings.specs.Regions.{user_start, no_mapped_region, start_key, empty_slots};
ghost use Rattle.mappings.specs.Packed.{mapped_in, mmap_in, next_in, mmap_out, mmap_fit, MmapStands};

use slots::SlotList;

pub const USER_MMAP_START: u64 = 0x0000_1000_0000_0000;

// The most regions that the list holds.
pub const MAX_REGIONS: usize = 256;

// The bytes of a list.
pub const MMAP_SIZE: usize = 16 + MAX_REGIONS * 24;

#[derive(Clone, Copy, Debug, Default, PartialEq, Eq)]
pub struct MappedRegion {
    pub start: u64,
    pub size: u64,
    pub prot: i32,
    pub flags: i32,
}

// The list as `slots` searches and changes it: its regions by their start.
pub struct Mmap;

impl SlotList for Mmap {
    type Slot = MappedRegion;

    ghost fit = { mmap_fit };

    ghost slots_in = { mmap_in };

    ghost beside = { next_in };

    ghost blank = { no_mapped_region };

    ghost key = { start_key };

    fn blank() -> MappedRegion {
        MappedRegion::default()
    }

    fn key(r: MappedRegion) -> u64 {
        r.start
    }

    fn count(list: &[u8]) -> usize {
        packed::word_at(list, 0) as usize
    }

    fn slot(list: &[u8], i: usize) -> MappedRegion {
        let at = i * 24 + 16;
        MappedRegion {
            start: packed::word_at(list, at),
            size: packed::word_at(list, at + 8),
            prot: packed::signed(packed::half_at(list, at + 16)),
            flags: packed::signed(packed::half_at(list, at + 20)),
        }
    }

    fn put(list: &mut [u8], i: usize, r: MappedRegion) {
        let at = i * 24 + 16;
        packed::put_word(list, at, r.start);
        packed::put_word(list, at + 8, r.size);
        let prot = packed::unsigned(r.prot);
        let flags = packed::unsigned(r.flags);
        packed::put_word(list, at + 16, prot + flags * 0x1_0000_0000);
    }

    fn put_count(list: &mut [u8], n: usize) {
        packed::put_word(list, 0, n as u64);
    }

    // The three numbers of a slot are moved as they stand.
    fn move_slot(list: &mut [u8], from: usize, to: usize) {
        let at = from * 24 + 16;
        let start = packed::word_at(list, at);
        let size = packed::word_at(list, at + 8);
        let rest = packed::word_at(list, at + 16);
        let there = to * 24 + 16;
        packed::put_word(list, there, start);
        packed::put_word(list, there + 8, size);
        packed::put_word(list, there + 16, rest);
    }

    ghost long = { λ bs. length_records mapped_in 256 (drop 16 bs) };
}

// Where the next search starts.
pub fn next_addr(list: &[u8]) -> u64
    requires { mmap_fit list.now ≡ true }
    ensures { result ≡ next_in list.now }
{
    packed::word_at(list, 8)
}

// The next search starts at `addr` then.
pub fn put_next(list: &mut [u8], addr: u64)
    requires { mmap_fit list.old ≡ true }
    ensures { MmapStands list.new (mmap_in list.old) addr }
{
    packed::put_word(list, 8, addr);
}

// A board's start: no region, and the fresh next_addr.
pub fn start(list: &mut [u8])
    requires { mmap_fit list.old ≡ true }
    ensures list_after { list.new ≡ mmap_out empty_slots user_start }
    ensures mmap_stands { MmapStands list.new empty_slots user_start }
{
    list.fill(0);
    put_next(list, USER_MMAP_START);
}
