// Runs of pages unmapped and their frames freed, on a record that was tested: page by page, or span by span. A span is what is found at once: the leaves of one table, or
// the pages below an entry that is absent or leads outside.
#![tactic(auto)]

ghost use Rattle.std.specs.Prelude.{◌≡◌, true, ◌+◌, ◌-◌, ◌*◌, ◌^◌, ◌≤◌, ◌<◌};
ghost use Rattle.bitmap.specs.Bitmap.{marks_in};
ghost use Rattle.frame.specs.Frames.{inside};
ghost use Rattle.paging.specs.Map.{RoomToTake};
ghost use Rattle.paging.specs.Pages.{free_pages};
ghost use Rattle.paging.specs.Found.{pages_found, Tells};
ghost use Rattle.paging.specs.Levels.{most_above};
ghost use Rattle.paging.specs.Kept.{lent_memory};
ghost use Rattle.freeing_runs.specs.Freeing.{free_leaf, free_leaves, Blank};

use address::{Frame, VirtAddr};
use frame::{FrameAllocator, GivenBack, Marks, Tally, tallies};
use spans::Span;

// How many pages were gone through, and what their frames were found to be.
#[derive(Clone, Copy)]
pub struct Freed {
    pub done: u64,
    pub found: Tally,
    pub frames: FrameAllocator,
}

// The leaf at entry i of table t, cleared, and its frame freed.
fn free_leaf(
    words: &mut [u64],
    bitmap: &mut Marks,
    frames: FrameAllocator,
    t: u64,
    i: usize,
) -> GivenBack
    requires room_to_take { RoomToTake (lent_memory words.old bitmap.old frames) 0 }
    requires i_bound { i < 512 }
    ensures frames_after { lent_memory words.new bitmap.new result.frames
        ≡ free_leaf (lent_memory words.old bitmap.old frames) t i }
    ensures tells { Tells (lent_memory words.old bitmap.old frames)
        (lent_memory words.new bitmap.new result.frames) result.found }
{
    match mapper::inner::take_leaf(words, frames.start, frames.total, t, i) {
        Err(_) => GivenBack {
            found: tallies::none(),
            frames,
        },
        Ok(f) => {
            let mut left = frames;
            GivenBack {
                found: frame::inner::give_back(bitmap, &mut left, Frame(f)),
                frames: left,
            }
        }
    }
}

// The same of n leaves from entry i on.
fn free_leaves(
    words: &mut [u64],
    bitmap: &mut Marks,
    frames: FrameAllocator,
    t: u64,
    i: usize,
    n: u64,
) -> GivenBack
    requires room_to_take { RoomToTake (lent_memory words.old bitmap.old frames) 0 }
    requires n_bound { i + n ≤ 512 }
    ensures frames_after { lent_memory words.new bitmap.new result.frames
        ≡ free_leaves (lent_memory words.old bitmap.old frames) t i n }
    ensures tells { Tells (lent_memory words.old bitmap.old frames)
        (lent_memory words.new bitmap.new result.frames) result.found }
{
    let mut left = frames;
    let mut found = tallies::none();
    for j in 0..n {
        let leaf = free_leaf(words, bitmap, left, t, i + j as usize);
        let more = leaf.found;
        left = leaf.frames;
        found = tallies::and(found, more);
    }
    GivenBack {
        found,
        frames: left,
    }
}

// The same where `empty` marks tables without a present entry, which are passed over; a table that was gone through whole is one of them.
fn free_table(
    words: &mut [u64],
    bitmap: &mut Marks,
    empty: &mut Marks,
    frames: FrameAllocator,
    t: u64,
    i: usize,
    n: u64,
) -> GivenBack
    requires room_to_take { RoomToTake (lent_memory words.old bitmap.old frames) 0 }
    requires blank { Blank words.old (marks_in empty.old) }
    requires t_value { inside frames.start frames.total t ≡ true }
    requires n_bound { i + n ≤ 512 }
    ensures frames_after { lent_memory words.new bitmap.new result.frames
        ≡ free_leaves (lent_memory words.old bitmap.old frames) t i n }
    ensures tells { Tells (lent_memory words.old bitmap.old frames)
        (lent_memory words.new bitmap.new result.frames) result.found }
    ensures blank_2 { Blank words.new (marks_in empty.new) }
{
    let place = (t - frames.start) as usize;
    if bitmap::is_marked(empty, place) {
        return GivenBack {
            found: tallies::none(),
            frames,
        };
    }
    let left = free_leaves(words, bitmap, frames, t, i, n);
    if n == 512 {
        bitmap::mark(empty, place);
        return left;
    }
    left
}

// Some of n pages from `virt` on, at least one: those that are freed at once.
fn free_span(
    words: &mut [u64],
    bitmap: &mut Marks,
    empty: &mut Marks,
    frames: FrameAllocator,
    up: u64,
    root: Frame,
    virt: VirtAddr,
    n: u64,
) -> Freed
    requires room_to_take { RoomToTake (lent_memory words.old bitmap.old frames) 0 }
    requires blank { Blank words.old (marks_in empty.old) }
    requires n_nonzero { 0 < n }
    requires up_le_most_above { up ≤ most_above }
    ensures blank_2 { Blank words.new (marks_in empty.new) }
    ensures done_nonzero { 0 < result.done }
    ensures done_le_n { result.done ≤ n }
    ensures frames_after { lent_memory words.new bitmap.new result.frames
        ≡ free_pages up (lent_memory words.old bitmap.old frames) root.0 virt.0 result.done }
    ensures tells { Tells (lent_memory words.old bitmap.old frames)
        (lent_memory words.new bitmap.new result.frames) result.found }
{
    match spans::find_span(words, frames.start, frames.total, up, root, virt) {
        Span::Gap(k) => Freed {
            done: spans::at_most(k, n),
            found: tallies::none(),
            frames,
        },
        Span::Leaves(t, k) => {
            let i = entry::page_index(virt, 0);
            let done = spans::at_most(k, n);
            let table = free_table(words, bitmap, empty, frames, t, i, done);
            let found = table.found;
            let left = table.frames;
            Freed {
                done,
                found,
                frames: left,
            }
        }
    }
}

// n pages from `virt` on, span by span.
pub fn free_run(
    words: &mut [u64],
    bitmap: &mut Marks,
    empty: &mut Marks,
    frames: FrameAllocator,
    up: u64,
    root: Frame,
    virt: VirtAddr,
    n: u64,
) -> GivenBack
    requires room_to_take { RoomToTake (lent_memory words.old bitmap.old frames) 0 }
    requires blank { Blank words.old (marks_in empty.old) }
    requires n_bound { virt.0 + n * 4096 < 2 ^ 64 }
    requires up_le_most_above { up ≤ most_above }
    ensures blank_2 { Blank words.new (marks_in empty.new) }
    ensures frames_after { lent_memory words.new bitmap.new result.frames
        ≡ free_pages up (lent_memory words.old bitmap.old frames) root.0 virt.0 n }
    ensures tells { Tells (lent_memory words.old bitmap.old frames)
        (lent_memory words.new bitmap.new result.frames) result.found }
{
    let mut left = frames;
    let mut found = tallies::none();
    let mut done = 0;
    // Each turn goes on by as many pages as it dealt with.
    while done < n {
        let step = free_span(
            words,
            bitmap,
            empty,
            left,
            up,
            root,
            VirtAddr(virt.0 + done * 4096),
            n - done,
        );
        let more = step.found;
        left = step.frames;
        found = tallies::and(found, more);
        done = done + step.done;
    }
    GivenBack {
        found,
        frames: left,
    }
}

// n pages from `virt` on, one after the other.
pub fn free_few(
    words: &mut [u64],
    bitmap: &mut Marks,
    frames: FrameAllocator,
    up: u64,
    root: Frame,
    virt: VirtAddr,
    n: u64,
) -> GivenBack
    requires room_to_take { RoomToTake (lent_memory words.old bitmap.old frames) 0 }
    requires n_bound { virt.0 + n * 4096 < 2 ^ 64 }
    requires up_le_most_above { up ≤ most_above }
    ensures frames_after { lent_memory words.new bitmap.new result.frames
        ≡ free_pages up (lent_memory words.old bitmap.old frames) root.0 virt.0 n }
    ensures found_value { result.found ≡ pages_found up (lent_memory words.old bitmap.old frames) root.0 virt.0 n }
{
    let mut left = frames;
    let mut found = tallies::none();
    for i in 0..n {
        let page = pages::free_page(words, bitmap, left, up, root, VirtAddr(virt.0 + i * 4096));
        let one = page.found;
        left = page.frames;
        found = tallies::and(found, one);
    }
    GivenBack {
        found,
        frames: left,
    }
}
