// Runs of pages unmapped and their frames freed, on a record that was tested: page by page, span by span, or block by block, as their length asks for.
#![tactic(auto)]

mod blocks;

ghost use Rattle.std.specs.Prelude.{◌≡◌, ◌+◌, ◌*◌, ◌^◌, ◌≤◌, ◌<◌};
ghost use Rattle.paging.specs.Map.{RoomToTake};
ghost use Rattle.paging.specs.Pages.{free_pages};
ghost use Rattle.paging.specs.Found.{pages_found};
ghost use Rattle.paging.specs.Levels.{most_above};
ghost use Rattle.paging.specs.Kept.{lent_memory};

use address::{Frame, VirtAddr};
use frame::{FrameAllocator, GivenBack, Marks};

// Runs of so few pages are freed page by page.
const FEW: u64 = 4;

// n pages from `virt` on, by what is found at once. `free_blocks` is called from two places, so that the compiler leaves it a function of its own: it has 16 KB of counts, which
// would else be made room for on the stack of every call.
fn free_many(
    words: &mut [u64],
    bitmap: &mut Marks,
    frames: FrameAllocator,
    up: u64,
    root: Frame,
    virt: VirtAddr,
    n: u64,
) -> GivenBack
    requires room_to_take { RoomToTake (lent_memory words.old bitmap.old frames) 0 }
    requires n_bound { virt.0 + n * 4096 < 2 ^ 64 }
    requires up_le_most_above { up ≤ most_above }
    ensures frames_after { lent_memory words.new bitmap.new result.frames
        ≡ free_pages up (lent_memory words.old bitmap.old frames) root.0 virt.0 n }
    ensures found_value { result.found ≡ pages_found up (lent_memory words.old bitmap.old frames) root.0 virt.0 n }
{
    let most = spans::at_most(n, spans::all_pages(up));
    let mut empty: Marks = [0u8; 1024];
    if most < blocks::BLOCK {
        return freeing_runs::free_run(words, bitmap, &mut empty, frames, up, root, virt, most);
    }
    if up == frame::ABOVE_LAST {
        return blocks::free_blocks(
            words,
            bitmap,
            &mut empty,
            frames,
            frame::ABOVE_LAST,
            root,
            virt,
            most,
        );
    }
    blocks::free_blocks(words, bitmap, &mut empty, frames, up, root, virt, most)
}

// The same: few pages one after the other, more by what is found at once.
pub fn free_pages(
    words: &mut [u64],
    bitmap: &mut Marks,
    frames: FrameAllocator,
    up: u64,
    root: Frame,
    virt: VirtAddr,
    n: u64,
) -> GivenBack
    requires room_to_take { RoomToTake (lent_memory words.old bitmap.old frames) 0 }
    requires n_bound { virt.0 + n * 4096 < 2 ^ 64 }
    requires up_le_most_above { up ≤ most_above }
    ensures frames_after { lent_memory words.new bitmap.new result.frames
        ≡ free_pages up (lent_memory words.old bitmap.old frames) root.0 virt.0 n }
    ensures found_value { result.found ≡ pages_found up (lent_memory words.old bitmap.old frames) root.0 virt.0 n }
{
    if n <= FEW {
        return freeing_runs::free_few(words, bitmap, frames, up, root, virt, n);
    }
    free_many(words, bitmap, frames, up, root, virt, n)
}
