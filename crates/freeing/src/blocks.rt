// Long runs of pages freed by blocks: entries that lead to no page are counted, and passed over where they are come by again.
ghost use Rattle.std.specs.Prelude.{◌≡◌, true, suc, ◌+◌, ◌-◌, ◌*◌, ◌^◌, ◌≤◌, ◌<◌, take};
ghost use Rattle.bitmap.specs.Bitmap.{marks_in};
ghost use Rattle.entry.specs.Entry.{indices};
ghost use Rattle.frame.specs.Frames.{inside};
ghost use Rattle.paging.specs.Walk.{WordsLent, reach};
ghost use Rattle.paging.specs.Map.{RoomToTake};
ghost use Rattle.paging.specs.Pages.{free_pages};
ghost use Rattle.paging.specs.Found.{Tells};
ghost use Rattle.paging.specs.Levels.{most_above};
ghost use Rattle.paging.specs.Kept.{lent_memory};
ghost use Rattle.freeing_runs.specs.Freeing.{Blank};
ghost use Rattle.freeing.specs.Blocks.{Barren};

use address::{Frame, VirtAddr};
use frame::{FrameAllocator, GivenBack, Marks, tallies};
use freeing_runs::Freed;
use spans::Span;

// The pages below a table with one level below it.
pub const BLOCK: u64 = 0x4_0000;

// A number of entries for each frame.
pub type Counts = [u16; 8192];

// How many pages from `virt` on a look tells of.
fn span_length(words: &[u64], start: u64, total: u64, up: u64, root: Frame, virt: VirtAddr) -> u64
    requires words_lent { WordsLent words.now start total }
    requires up_le_most_above { up ≤ most_above }
    ensures { 0 < result }
{
    match spans::find_span(words, start, total, up, root, virt) {
        Span::Gap(k) => k,
        Span::Leaves(_, k) => k,
    }
}

fn wide(x: u16) -> u64
    ensures { result ≡ x }
{
    x as u64
}

// Some of n pages from `virt` on, at least one, that lie below table t. `barren` counts the first entries of a table that lead to no page: their pages are passed
// over. Otherwise pages of one entry are freed; it is counted too once they all were, unless one of them was an entry on the way to t.
fn free_below(
    words: &mut [u64],
    bitmap: &mut Marks,
    empty: &mut Marks,
    barren: &mut Counts,
    frames: FrameAllocator,
    up: u64,
    root: Frame,
    virt: VirtAddr,
    t: u64,
    n: u64,
) -> Freed
    requires room_to_take { RoomToTake (lent_memory words.old bitmap.old frames) 0 }
    requires blank { Blank words.old (marks_in empty.old) }
    requires barren { Barren words.old frames.start frames.total barren.old }
    requires virt_value { reach words.old frames.start frames.total root.0 (take (up - 1) (indices (suc up) virt.0)) ≡ Ok t }
    requires t_value { inside frames.start frames.total t ≡ true }
    requires n_bound { virt.0 + n * 4096 < 2 ^ 64 }
    requires n_nonzero { 0 < n }
    requires le_up { 1 ≤ up }
    requires up_le_most_above { up ≤ most_above }
    ensures blank_2 { Blank words.new (marks_in empty.new) }
    ensures barren_2 { Barren words.new result.frames.start result.frames.total barren.new }
    ensures done_nonzero { 0 < result.done }
    ensures done_le_n { result.done ≤ n }
    ensures frames_after { lent_memory words.new bitmap.new result.frames
        ≡ free_pages up (lent_memory words.old bitmap.old frames) root.0 virt.0 result.done }
    ensures tells { Tells (lent_memory words.old bitmap.old frames)
        (lent_memory words.new bitmap.new result.frames) result.found }
{
    let place = (t - frames.start) as usize;
    let i = entry::page_index(virt, 1) as u64;
    let k = wide(barren[place]);
    if i < k {
        let done = spans::at_most(spans::to_end(virt, 2) - (512 - k) * 512, n);
        return Freed {
            done,
            found: tallies::none(),
            frames,
        };
    }
    let done = spans::at_most(spans::to_end(virt, 1), n);
    let pages = freeing_runs::free_run(words, bitmap, empty, frames, up, root, virt, done);
    let found = pages.found;
    let left = pages.frames;
    if i == k && done == 512 {
        match walk::find_above(words, left.start, left.total, up, root, virt) {
            Err(_) => {}
            Ok(_) => {
                barren[place] = (k + 1) as u16;
            }
        }
    }
    Freed {
        done,
        found,
        frames: left,
    }
}

// Some of n pages from `virt` on, at least one: below a table with one level below it, or those that a look tells of where there is no such table.
fn free_block(
    words: &mut [u64],
    bitmap: &mut Marks,
    empty: &mut Marks,
    barren: &mut Counts,
    frames: FrameAllocator,
    up: u64,
    root: Frame,
    virt: VirtAddr,
    n: u64,
) -> Freed
    requires room_to_take { RoomToTake (lent_memory words.old bitmap.old frames) 0 }
    requires blank { Blank words.old (marks_in empty.old) }
    requires barren { Barren words.old frames.start frames.total barren.old }
    requires n_bound { virt.0 + n * 4096 < 2 ^ 64 }
    requires n_nonzero { 0 < n }
    requires le_up { 1 ≤ up }
    requires up_le_most_above { up ≤ most_above }
    ensures blank_2 { Blank words.new (marks_in empty.new) }
    ensures barren_2 { Barren words.new result.frames.start result.frames.total barren.new }
    ensures done_nonzero { 0 < result.done }
    ensures done_le_n { result.done ≤ n }
    ensures frames_after { lent_memory words.new bitmap.new result.frames
        ≡ free_pages up (lent_memory words.old bitmap.old frames) root.0 virt.0 result.done }
    ensures tells { Tells (lent_memory words.old bitmap.old frames)
        (lent_memory words.new bitmap.new result.frames) result.found }
{
    match walk::find_above(words, frames.start, frames.total, up, root, virt) {
        Err(_) => {}
        Ok(t) => {
            if frame::inner::is_inside(frames.start, frames.total, t) {
                return free_below(words, bitmap, empty, barren, frames, up, root, virt, t, n);
            }
        }
    }
    let done = spans::at_most(
        span_length(words, frames.start, frames.total, up, root, virt),
        n,
    );
    let pages = freeing_runs::free_run(words, bitmap, empty, frames, up, root, virt, done);
    let found = pages.found;
    let left = pages.frames;
    Freed {
        done,
        found,
        frames: left,
    }
}

// The same as `free_run`, by blocks: the pages of one table with one level below it are passed over at once where it was gone through before. A lent record may lead
// from all entries of many tables to a few.
pub fn free_blocks(
    words: &mut [u64],
    bitmap: &mut Marks,
    empty: &mut Marks,
    frames: FrameAllocator,
    up: u64,
    root: Frame,
    virt: VirtAddr,
    n: u64,
) -> GivenBack
    requires room_to_take { RoomToTake (lent_memory words.old bitmap.old frames) 0 }
    requires blank { Blank words.old (marks_in empty.old) }
    requires n_bound { virt.0 + n * 4096 < 2 ^ 64 }
    requires le_up { 1 ≤ up }
    requires up_le_most_above { up ≤ most_above }
    ensures frames_after { lent_memory words.new bitmap.new result.frames
        ≡ free_pages up (lent_memory words.old bitmap.old frames) root.0 virt.0 n }
    ensures tells { Tells (lent_memory words.old bitmap.old frames)
        (lent_memory words.new bitmap.new result.frames) result.found }
{
    let mut barren: Counts = [0u16; 8192];
    let mut left = frames;
    let mut found = tallies::none();
    let mut done = 0;
    // Each turn goes on by as many pages as it dealt with.
    while done < n {
        let step = free_block(
            words,
            bitmap,
            empty,
            &mut barren,
            left,
            up,
            root,
            VirtAddr(virt.0 + done * 4096),
            n - done,
        );
        let more = step.found;
        left = step.frames;
        found = tallies::and(found, more);
        done = done + step.done;
    }
    GivenBack {
        found,
        frames: left,
    }
}
