// mmap of mmap.rs on the user's memory mappings, in document 01's order of checks.
#![tactic(auto)]

pub mod inner;

ghost use Rattle.std.specs.Prelude.{◌≡◌};
ghost use Rattle.paging.specs.Kept.{lent_memory};
ghost use Rattle.user_space.specs.Packed.{UserReads};
ghost use Rattle.mmap.specs.Calls.{mmap_of};
ghost use Rattle.mmap.specs.Packed.{opt_addr, mmap_on, mmapped};

use address::{Frame, VirtAddr};
use answer::Refusal;
use frame::{FrameAllocator, Marks};

// Where the last page starts: a fixed or hinted range ends there at most.
pub const LAST_PAGE: u64 = 0xFFFF_FFFF_FFFF_F000;

// An answer beside the frame record that the call leaves.
#[derive(Clone, Copy)]
pub struct Mmapped {
    pub answer: Result<VirtAddr, Refusal>,
    pub frames: FrameAllocator,
}

// The address where one is given.
pub fn opt_addr(given: bool, addr: u64) -> Option<u64>
    ensures { result ≡ opt_addr given addr }
{
    if given {
        return Some(addr);
    }
    None
}

pub fn mmap(
    words: &mut [u64],
    bitmap: &mut Marks,
    frames: FrameAllocator,
    root: Frame,
    list: &mut [u8],
    hint: Option<u64>,
    size: u64,
    prot: i32,
    flags: i32,
) -> Mmapped
    ensures list_after { mmapped result words.new bitmap.new list.new
        ≡ mmap_on (lent_memory words.old bitmap.old frames) list.old root.0 hint size prot flags }
    ensures user_reads { UserReads (λ s. mmap_of s root.0 hint size prot flags)
        (lent_memory words.old bitmap.old frames) list.old list.new }
{
    if !user_space::is_whole(words, bitmap, frames, root, list) {
        return inner::no_mapping(Refusal::BrokenRecord, frames);
    }
    if size == 0 {
        return inner::no_mapping(Refusal::SizeZero, frames);
    }
    match allocator::page_align_up(size) {
        Err(e) => inner::no_mapping(e, frames),
        Ok(n) => { inner::map_chosen(words, bitmap, frames, root, list, hint, n, prot, flags) }
    }
}
