// The tables along a path, made where there are none, on a record that was tested.
#![tactic(auto)]

ghost use Rattle.std.specs.Prelude.{◌≡◌, suc, ◌+◌, ◌<◌, ◌≤◌, length, take};
ghost use Rattle.entry.specs.Entry.{indices as indices_of};
ghost use Rattle.paging.specs.Map.{out, clear, create, enter as entered, make, RoomToTake};
ghost use Rattle.paging.specs.Levels.{most_above};
ghost use Rattle.paging.specs.Kept.{lent_memory};

use address::{Frame, PhysAddr, VirtAddr};
use answer::Refusal;
use entry::paging::PageTableEntry;
use frame::{FrameAllocator, Marks};

// All 512 words of a frame, from word `at` on.
pub fn zero_frame(words: &mut [u64], at: usize)
    requires { at + 512 ≤ length words.old }
    ensures { words.new ≡ clear words.old at 512 }
{
    for i in 0..512 {
        words[at + i] = 0;
    }
}

// A new table in the lowest free frame, entered at word `at`.
#[tactic(auto, unfolding(paging::specs::Map::create))]
fn create_table(
    words: &mut [u64],
    bitmap: &mut Marks,
    frames: &mut FrameAllocator,
    at: usize,
    user: bool,
) -> Result<u64, Refusal>
    requires room_to_take { RoomToTake (lent_memory words.old bitmap.old frames.old) 1 }
    requires at_in_bounds { at < length words.old }
    ensures { out result (lent_memory words.new bitmap.new frames.new)
        ≡ create user (lent_memory words.old bitmap.old frames.old) at }
{
    let start = frames.start;
    let f = frame::inner::take_frame(bitmap, frames)?;
    zero_frame(words, walk::entry_place(start, f.0, 0));
    words[at] = PageTableEntry::set(PhysAddr(f.start_address()), true, user).0;
    Ok(f.0)
}

// The table below entry i of table t, made if there is none.
#[tactic(auto, unfolding(paging::specs::Map::enter, paging::specs::Map::below))]
pub fn enter(
    words: &mut [u64],
    bitmap: &mut Marks,
    frames: &mut FrameAllocator,
    t: u64,
    i: usize,
    user: bool,
) -> Result<u64, Refusal>
    requires room_to_take { RoomToTake (lent_memory words.old bitmap.old frames.old) 1 }
    requires i_bound { i < 512 }
    ensures { out result (lent_memory words.new bitmap.new frames.new)
        ≡ entered user (lent_memory words.old bitmap.old frames.old) t i }
{
    if !frame::inner::is_inside(frames.start, frames.total, t) {
        return Err(Refusal::TableOutside);
    }
    let at = walk::entry_place(frames.start, t, i);
    let e = PageTableEntry(words[at]);
    if e.is_present() {
        return Ok(e.addr().0 >> 12);
    }
    create_table(words, bitmap, frames, at, user)
}

// The tables along the first k indices of an address, below `up` levels, made where there are none; it comes to the last one.
fn tables_below(
    words: &mut [u64],
    bitmap: &mut Marks,
    frames: &mut FrameAllocator,
    up: u64,
    root: Frame,
    virt: VirtAddr,
    k: u64,
    user: bool,
) -> Result<u64, Refusal>
    requires room_to_take { RoomToTake (lent_memory words.old bitmap.old frames.old) most_above }
    requires up_le_most_above { up ≤ most_above }
    requires k_le_up { k ≤ up }
    ensures { out result (lent_memory words.new bitmap.new frames.new)
        ≡ make user (lent_memory words.old bitmap.old frames.old) root.0
        (take k (indices_of (suc up) virt.0)) }
{
    let mut t = root.0;
    for done in 0..k {
        let i = entry::page_index(virt, up - done);
        t = enter(words, bitmap, frames, t, i, user)?;
    }
    Ok(t)
}

// The same. Where a page's tables are all there, which is most often so, they are only read.
pub fn make_tables(
    words: &mut [u64],
    bitmap: &mut Marks,
    frames: &mut FrameAllocator,
    up: u64,
    root: Frame,
    virt: VirtAddr,
    k: u64,
    user: bool,
) -> Result<u64, Refusal>
    requires room_to_take { RoomToTake (lent_memory words.old bitmap.old frames.old) most_above }
    requires up_le_most_above { up ≤ most_above }
    requires k_le_up { k ≤ up }
    ensures { out result (lent_memory words.new bitmap.new frames.new)
        ≡ make user (lent_memory words.old bitmap.old frames.old) root.0
        (take k (indices_of (suc up) virt.0)) }
{
    if k == up {
        if let Ok(t) = walk::find_table(words, frames.start, frames.total, up, root, virt) {
            return Ok(t);
        }
    }
    tables_below(words, bitmap, frames, up, root, virt, k, user)
}
