// Steps down the tables on a record that was tested.
ghost use Rattle.std.specs.Prelude.{◌≡◌, ◌<◌, ◌≤◌};
ghost use Rattle.bitmap.specs.Bitmap.{marks_in};
ghost use Rattle.paging.specs.Walk.{WordsLent};
ghost use Rattle.paging.specs.Map.{put_entry, take_leaf, RoomToTake};
ghost use Rattle.paging.specs.Calls.{as_changed, map_at, tables_above, unmap_at};
ghost use Rattle.paging.specs.Levels.{most_above};
ghost use Rattle.paging.specs.Kept.{lent_memory};
ghost use Rattle.answer.specs.Outcomes.{as_answer};

use address::{Frame, VirtAddr};
use answer::Refusal;
use entry::paging::PageTableEntry;
use frame::{Changed, FrameAllocator, Marks};
use paging::HugePageSize;

// The word e at entry i of table t.
pub fn put_entry(
    words: &mut [u64],
    start: u64,
    total: u64,
    t: u64,
    i: usize,
    e: u64,
) -> Result<u64, Refusal>
    requires words_lent { WordsLent words.old start total }
    requires i_bound { i < 512 }
    ensures value { result ≡ (put_entry words.old start total t i e).walked }
    ensures words_after { words.new ≡ (put_entry words.old start total t i e).words }
{
    if !frame::inner::is_inside(start, total, t) {
        return Err(Refusal::TableOutside);
    }
    let at = walk::entry_place(start, t, i);
    if PageTableEntry(words[at]).is_present() {
        return Err(Refusal::AlreadyMapped);
    }
    words[at] = e;
    Ok(0)
}

// Where a step came, as an answer.
pub fn as_answer(walked: Result<u64, Refusal>) -> Result<(), Refusal>
    ensures { result ≡ as_answer walked }
{
    match walked {
        Ok(_) => Ok(()),
        Err(n) => Err(n),
    }
}

// The tables that are passed on the way to a huge page's entry, below `up` levels.
pub fn tables_above(up: u64, size: HugePageSize) -> u64
    requires { 1 ≤ up }
    ensures { result ≡ tables_above up size }
{
    match size {
        HugePageSize::Size2MB => up,
        HugePageSize::Size1GB => up - 1,
    }
}

// The word e for an address, below k tables from the root on; absent tables are made.
pub fn map_entry(
    words: &mut [u64],
    bitmap: &mut Marks,
    frames: FrameAllocator,
    up: u64,
    root: Frame,
    virt: VirtAddr,
    k: u64,
    user: bool,
    e: u64,
) -> Changed
    requires room_to_take { RoomToTake (lent_memory words.old bitmap.old frames) most_above }
    requires up_le_most_above { up ≤ most_above }
    requires k_le_up { k ≤ up }
    ensures value { result ≡ as_changed (map_at up k user (lent_memory words.old bitmap.old frames) root.0 virt.0 e) }
    ensures words_after { words.new
        ≡ (map_at up k user (lent_memory words.old bitmap.old frames) root.0 virt.0 e).mem.words }
    ensures bitmap_after { marks_in bitmap.new
        ≡ (map_at up k user (lent_memory words.old bitmap.old frames) root.0 virt.0 e).mem.frames.bits }
{
    let mut left = frames;
    match tables::make_tables(words, bitmap, &mut left, up, root, virt, k, user) {
        Err(n) => Changed {
            answer: Err(n),
            frames: left,
        },
        Ok(t) => {
            let i = entry::page_index(virt, up - k);
            let put = put_entry(words, left.start, left.total, t, i, e);
            Changed {
                answer: as_answer(put),
                frames: left,
            }
        }
    }
}

// The leaf at entry i of table t, cleared; it comes to the frame that the leaf named.
pub fn take_leaf(
    words: &mut [u64],
    start: u64,
    total: u64,
    t: u64,
    i: usize,
) -> Result<u64, Refusal>
    requires words_lent { WordsLent words.old start total }
    requires i_bound { i < 512 }
    ensures value { result ≡ (take_leaf words.old start total t i).walked }
    ensures words_after { words.new ≡ (take_leaf words.old start total t i).words }
{
    if !frame::inner::is_inside(start, total, t) {
        return Err(Refusal::TableOutside);
    }
    let at = walk::entry_place(start, t, i);
    let e = words[at];
    if !PageTableEntry(e).is_present() {
        return Err(Refusal::NotMapped);
    }
    words[at] = 0;
    Ok(PageTableEntry(e).addr().0 >> 12)
}

// A page's leaf below `up` levels, cleared.
pub fn unmap_leaf(
    words: &mut [u64],
    start: u64,
    total: u64,
    up: u64,
    root: Frame,
    virt: VirtAddr,
) -> Result<u64, Refusal>
    requires words_lent { WordsLent words.old start total }
    requires up_le_most_above { up ≤ most_above }
    ensures value { result ≡ (unmap_at up words.old start total root.0 virt.0).walked }
    ensures words_after { words.new ≡ (unmap_at up words.old start total root.0 virt.0).words }
{
    let t = walk::find_table(words, start, total, up, root, virt)?;
    take_leaf(words, start, total, t, entry::page_index(virt, 0))
}
