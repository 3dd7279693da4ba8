// munmap of mmap.rs on the user's memory mappings, in document 01's order of checks.
#![tactic(auto)]

ghost use Rattle.std.specs.Prelude.{◌≡◌, true, ◌-◌};
ghost use Rattle.answer.specs.Outcomes.{as_answer};
ghost use Rattle.frame.specs.Found.{none_found};
ghost use Rattle.paging.specs.Kept.{lent_memory};
ghost use Rattle.mappings.specs.Packed.{mmap_fit};
ghost use Rattle.user_space.specs.User.{sound_user};
ghost use Rattle.user_space.specs.Packed.{lent_user, UserLeaves, UserReads};
ghost use Rattle.munmap.specs.Calls.{unmap_region, region_found, munmap_of};
ghost use Rattle.munmap.specs.Packed.{munmapped, munmap_on, munmap_found_on};

use address::{Frame, VirtAddr};
use answer::Refusal;
use frame::{FrameAllocator, Marks, Tally, tallies};

// An answer beside the frame record that the call leaves, with what the frames of its pages were found to be.
#[derive(Clone, Copy)]
pub struct Munmapped {
    pub answer: Result<(), Refusal>,
    pub found: Tally,
    pub frames: FrameAllocator,
}

pub fn not_unmapped(refusal: Refusal, frames: FrameAllocator) -> Munmapped
    ensures { result ≡ record { answer = Err refusal; found = none_found; frames = frames } }
{
    Munmapped {
        answer: Err(refusal),
        found: tallies::none(),
        frames,
    }
}

// The region of n bytes at `addr`: its pages unmapped and their frames freed, then its slot; 16 where there is none.
pub fn unmap_region(
    words: &mut [u64],
    bitmap: &mut Marks,
    frames: FrameAllocator,
    root: Frame,
    list: &mut [u8],
    addr: VirtAddr,
    n: u64,
) -> Munmapped
    requires list_value { mmap_fit list.old ≡ true }
    requires root_value { sound_user (lent_user words.old bitmap.old frames list.old) root.0 ≡ true }
    ensures user_leaves { UserLeaves as_answer (munmapped result words.new bitmap.new list.new)
        (unmap_region (frames.levels - 1) (lent_user words.old bitmap.old frames list.old) root.0 addr.0 n) }
    ensures found_value { result.found
        ≡ region_found (frames.levels - 1) (lent_user words.old bitmap.old frames list.old) root.0 addr.0 n }
{
    let Some(at) = mappings::list::find_sized(list, addr.0, n) else {
        return not_unmapped(Refusal::RegionNotFound, frames);
    };
    let up = frames.levels - 1;
    let given = freeing::free_pages(words, bitmap, frames, up, root, addr, n / 4096);
    let found = given.found;
    let left = given.frames;
    mappings::list::remove_at(list, at);
    Munmapped {
        answer: Ok(()),
        found,
        frames: left,
    }
}

pub fn munmap(
    words: &mut [u64],
    bitmap: &mut Marks,
    frames: FrameAllocator,
    root: Frame,
    list: &mut [u8],
    addr: VirtAddr,
    size: u64,
) -> Munmapped
    ensures list_after { munmapped result words.new bitmap.new list.new
        ≡ munmap_on (lent_memory words.old bitmap.old frames) list.old root.0 addr.0 size }
    ensures user_reads { UserReads (λ s. munmap_of s root.0 addr.0 size)
        (lent_memory words.old bitmap.old frames) list.old list.new }
    ensures found_value { result.found ≡ munmap_found_on (lent_memory words.old bitmap.old frames) list.old root.0 addr.0 size }
{
    if !user_space::is_whole(words, bitmap, frames, root, list) {
        return not_unmapped(Refusal::BrokenRecord, frames);
    }
    if size == 0 {
        return not_unmapped(Refusal::SizeZero, frames);
    }
    if addr.0 % 4096 != 0 {
        return not_unmapped(Refusal::Unaligned, frames);
    }
    match allocator::page_align_up(size) {
        Err(e) => not_unmapped(e, frames),
        Ok(n) => { unmap_region(words, bitmap, frames, root, list, addr, n) }
    }
}
