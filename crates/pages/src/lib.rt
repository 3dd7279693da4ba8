// Runs of pages on a record that was tested, shared by vmalloc, mmap and the faults: fresh frames mapped one page after the other, and pages unmapped.
#![tactic(auto)]

ghost use Rattle.std.specs.Prelude.{◌≡◌, List, ℕ, ◌+◌, ◌*◌, ◌^◌, ◌<◌, ◌≤◌};
ghost use Rattle.paging.specs.Walk.{WordsLent};
ghost use Rattle.paging.specs.Map.{out, RoomToTake};
ghost use Rattle.paging.specs.Pages.{ran, fresh_frame, or_failed, map_fresh, map_pages, clear_page, free_page, clear_pages};
ghost use Rattle.paging.specs.Found.{page_found};
ghost use Rattle.paging.specs.Levels.{most_above, most_levels};
ghost use Rattle.paging.specs.Kept.{lent_memory};
ghost use Rattle.pages.specs.Answers.{as_outcome};

use address::{Frame, PhysAddr, VirtAddr};
use answer::Refusal;
use entry::paging::PageTableEntry;
use frame::{FrameAllocator, GivenBack, Marks, tallies};
use paging::Entered;

// How far a run of pages came: `done` of them are mapped.
#[derive(Clone, Copy)]
pub struct Run {
    pub walked: Result<u64, Refusal>,
    pub done: u64,
    pub frames: FrameAllocator,
}

// The lowest free frame, zeroed.
#[tactic(auto, unfolding(paging::specs::Pages::fresh_frame))]
pub fn fresh_frame(words: &mut [u64], bitmap: &mut Marks, frames: FrameAllocator) -> Entered
    requires { RoomToTake (lent_memory words.old bitmap.old frames) 1 }
    ensures { out result.walked (lent_memory words.new bitmap.new result.frames)
        ≡ fresh_frame (lent_memory words.old bitmap.old frames) }
{
    let mut left = frames;
    match frame::inner::take_frame(bitmap, &mut left) {
        Err(n) => Entered {
            walked: Err(n),
            frames: left,
        },
        Ok(f) => {
            tables::zero_frame(words, walk::entry_place(frames.start, f.0, 0));
            Entered {
                walked: Ok(f.0),
                frames: left,
            }
        }
    }
}

// A page on a fresh frame: 11 where there is no frame, 13 where it cannot be mapped.
pub fn map_fresh(
    words: &mut [u64],
    bitmap: &mut Marks,
    frames: FrameAllocator,
    up: u64,
    root: Frame,
    virt: VirtAddr,
    writable: bool,
    user: bool,
) -> Entered
    requires room_to_take { RoomToTake (lent_memory words.old bitmap.old frames) most_levels }
    requires up_le_most_above { up ≤ most_above }
    ensures { out result.walked (lent_memory words.new bitmap.new result.frames)
        ≡ map_fresh up writable user (lent_memory words.old bitmap.old frames) root.0 virt.0 }
{
    let fresh = fresh_frame(words, bitmap, frames);
    let walked = fresh.walked;
    let left = fresh.frames;
    match walked {
        Err(n) => Entered {
            walked: Err(n),
            frames: left,
        },
        Ok(f) => {
            let e = PageTableEntry::set(PhysAddr(Frame(f).start_address()), writable, user);
            let mapped = mapper::inner::map_entry(
                words, bitmap, left, up, root, virt, up, user, e.0,
            );
            let answer = mapped.answer;
            let after = mapped.frames;
            Entered {
                walked: or_failed(answer),
                frames: after,
            }
        }
    }
}

// `done` pages of `n` from `virt` on are mapped, in order; it stops at the first page that cannot be had.
pub fn map_pages(
    words: &mut [u64],
    bitmap: &mut Marks,
    frames: FrameAllocator,
    up: u64,
    root: Frame,
    virt: VirtAddr,
    n: u64,
    writable: bool,
    user: bool,
) -> Run
    requires room_to_take { RoomToTake (lent_memory words.old bitmap.old frames) (n * most_levels) }
    requires n_bound { virt.0 + n * 4096 < 2 ^ 64 }
    requires up_le_most_above { up ≤ most_above }
    ensures { ran result.walked result.done (lent_memory words.new bitmap.new result.frames)
        ≡ map_pages up writable user (lent_memory words.old bitmap.old frames) root.0 virt.0 0 n }
{
    let mut left = frames;
    for i in 0..n {
        let r = map_fresh(
            words,
            bitmap,
            left,
            up,
            root,
            VirtAddr(virt.0 + i * 4096),
            writable,
            user,
        );
        let walked = r.walked;
        left = r.frames;
        match walked {
            Err(a) => {
                return Run {
                    walked: Err(a),
                    done: i,
                    frames: left,
                };
            }
            Ok(_) => {}
        }
    }
    Run {
        walked: Ok(0),
        done: n,
        frames: left,
    }
}

// A page's leaf, cleared; a page that is not mapped is passed over.
pub fn clear_page(words: &mut [u64], frames: FrameAllocator, up: u64, root: Frame, virt: VirtAddr)
    requires words_lent { WordsLent words.old frames.start frames.total }
    requires up_le_most_above { up ≤ most_above }
    ensures { (b : List ℕ) → lent_memory words.new b frames ≡ clear_page up (lent_memory words.old b frames) root.0 virt.0 }
{
    let _ = mapper::inner::unmap_leaf(words, frames.start, frames.total, up, root, virt);
}

// .. and its frame freed.
pub fn free_page(
    words: &mut [u64],
    bitmap: &mut Marks,
    frames: FrameAllocator,
    up: u64,
    root: Frame,
    virt: VirtAddr,
) -> GivenBack
    requires room_to_take { RoomToTake (lent_memory words.old bitmap.old frames) 0 }
    requires up_le_most_above { up ≤ most_above }
    ensures frames_after { lent_memory words.new bitmap.new result.frames
        ≡ free_page up (lent_memory words.old bitmap.old frames) root.0 virt.0 }
    ensures found_value { result.found ≡ page_found up (lent_memory words.old bitmap.old frames) root.0 virt.0 }
{
    match mapper::inner::unmap_leaf(words, frames.start, frames.total, up, root, virt) {
        Err(_) => GivenBack {
            found: tallies::none(),
            frames,
        },
        Ok(f) => {
            let mut left = frames;
            GivenBack {
                found: frame::inner::give_back(bitmap, &mut left, Frame(f)),
                frames: left,
            }
        }
    }
}

// The leaves of `n` pages from `virt` on, cleared.
pub fn clear_pages(
    words: &mut [u64],
    frames: FrameAllocator,
    up: u64,
    root: Frame,
    virt: VirtAddr,
    n: u64,
)
    requires words_lent { WordsLent words.old frames.start frames.total }
    requires n_bound { virt.0 + n * 4096 < 2 ^ 64 }
    requires up_le_most_above { up ≤ most_above }
    ensures { (b : List ℕ) → lent_memory words.new b frames ≡ clear_pages up (lent_memory words.old b frames) root.0 virt.0 n }
{
    for i in 0..n {
        clear_page(words, frames, up, root, VirtAddr(virt.0 + i * 4096));
    }
}

// 13 for whatever `map_page` was refused with.
fn or_failed(a: Result<(), Refusal>) -> Result<u64, Refusal>
    ensures { result ≡ or_failed (as_outcome a) }
{
    match a {
        Ok(()) => Ok(0),
        Err(_) => Err(Refusal::MapPageFailed),
    }
}
