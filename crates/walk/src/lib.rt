// Walks down the page tables, which only read: on frames lent as a slice of words, from a root that is a frame number.
#![tactic(auto)]

ghost use Rattle.std.specs.Prelude.{◌≡◌, true, suc, ◌-◌, ◌%◌, ◌^◌, ◌<◌, ◌≤◌, take};
ghost use Rattle.entry.specs.Entry.{indices as indices_of};
ghost use Rattle.paging.specs.Walk.{place, entry_at, reach, leaf, address, may_walk, WordsLent};
ghost use Rattle.paging.specs.Calls.{lent_walk, translate as translated};
ghost use Rattle.paging.specs.Working.{rows_below};
ghost use Rattle.paging.specs.User.{user_entry, user_rows, user_may};
ghost use Rattle.paging.specs.Levels.{most_above, most_levels};
ghost use Rattle.address.specs.Address.{as_phys};
ghost use Rattle.frame.specs.Frames.{inside};

use address::{Frame, PhysAddr, VirtAddr};
use answer::Refusal;
use entry::paging::PageTableEntry;
use paging::Leaf;

// The word number of entry i of table t, which is lent.
pub fn entry_place(start: u64, t: u64, i: usize) -> usize
    requires start_le_t { start ≤ t }
    requires start_bound { t - start < 8192 }
    requires i_bound { i < 512 }
    ensures { result ≡ place start t i }
{
    ((t - start) as usize) * 512 + i
}

// The present word at entry i of table t.
pub fn entry_at(words: &[u64], start: u64, total: u64, t: u64, i: usize) -> Result<u64, Refusal>
    requires words_lent { WordsLent words.now start total }
    requires i_bound { i < 512 }
    ensures { result ≡ entry_at words.now start total t i }
{
    if !frame::inner::is_inside(start, total, t) {
        return Err(Refusal::TableOutside);
    }
    let e = words[entry_place(start, t, i)];
    if PageTableEntry(e).is_present() {
        return Ok(e);
    }
    Err(Refusal::NotMapped)
}

// The entry that a translation ends at, of the levels from the root's on. They count from the bottom, 1 the last; only the last but one looks at HUGE.
fn leaf_below(
    words: &[u64],
    start: u64,
    total: u64,
    levels: u64,
    root: Frame,
    virt: VirtAddr,
) -> Result<Leaf, Refusal>
    requires words_lent { WordsLent words.now start total }
    requires levels_le_most_levels { levels ≤ most_levels }
    ensures { result ≡ leaf words.now start total root.0 (indices_of levels virt.0) }
{
    let mut t = root.0;
    for done in 0..levels {
        let level = levels - done;
        let e = entry_at(words, start, total, t, entry::page_index(virt, level - 1))?;
        if level == 1 {
            return Ok(Leaf::Page(e));
        }
        if level == 2 && PageTableEntry(e).is_huge() {
            return Ok(Leaf::Large(e));
        }
        t = PageTableEntry(e).addr().0 >> 12;
    }
    Err(Refusal::NotMapped)
}

// The table of level 4 on an address's way: the root on a board of four levels, what it names on one of five.
fn fourth_table(
    words: &[u64],
    start: u64,
    total: u64,
    levels: u64,
    root: Frame,
    virt: VirtAddr,
) -> Result<u64, Refusal>
    requires words_lent { WordsLent words.now start total }
    requires levels_le_most_levels { levels ≤ most_levels }
    ensures { result ≡ reach words.now start total root.0 (take (levels - 4) (indices_of 5 virt.0)) }
{
    if levels < 5 {
        return Ok(root.0);
    }
    let e = entry_at(words, start, total, root.0, entry::page_index(virt, 4))?;
    Ok(PageTableEntry(e).addr().0 >> 12)
}

// The same. Where there are four levels the loop's length is written out, for the compiler.
fn find_leaf(
    words: &[u64],
    start: u64,
    total: u64,
    levels: u64,
    root: Frame,
    virt: VirtAddr,
) -> Result<Leaf, Refusal>
    requires words_lent { WordsLent words.now start total }
    requires levels_le_most_levels { levels ≤ most_levels }
    ensures { result ≡ leaf words.now start total root.0 (indices_of levels virt.0) }
{
    if levels == frame::LEVELS {
        return leaf_below(words, start, total, frame::LEVELS, root, virt);
    }
    leaf_below(words, start, total, levels, root, virt)
}

// An address's place within a large page.
fn large_offset(virt: VirtAddr) -> u64
    ensures { result ≡ virt.0 % 2 ^ 21 }
{
    virt.0 & 0x1F_FFFF
}

// An address's physical one, by the entry that its translation ends at.
pub fn phys_at(end: Result<Leaf, Refusal>, virt: VirtAddr) -> Result<PhysAddr, Refusal>
    ensures { result ≡ as_phys (address virt.0 end) }
{
    match end? {
        Leaf::Page(e) => Ok(PhysAddr(PageTableEntry(e).addr().0 + virt.page_offset())),
        Leaf::Large(e) => Ok(PhysAddr(PageTableEntry(e).addr().0 + large_offset(virt))),
    }
}

// From a virtual address to the physical one, along so many levels.
pub fn walk(
    words: &[u64],
    start: u64,
    total: u64,
    levels: u64,
    root: Frame,
    virt: VirtAddr,
) -> Result<PhysAddr, Refusal>
    requires words_lent { WordsLent words.now start total }
    requires levels_le_most_levels { levels ≤ most_levels }
    ensures { result ≡ as_phys (address virt.0 (leaf words.now start total root.0 (indices_of levels virt.0))) }
{
    phys_at(find_leaf(words, start, total, levels, root, virt), virt)
}

// Whether an entry lets user code read, or write.
fn user_entry(e: PageTableEntry, write: bool) -> bool
    ensures { result ≡ user_entry write e.0 }
{
    if !e.is_user() {
        return false;
    }
    if write {
        return e.is_writable();
    }
    true
}

// Whether every entry from a lent table on lets user code read, or write, down to a 4 KiB page.
fn user_below(
    words: &[u64],
    start: u64,
    total: u64,
    levels: u64,
    root: Frame,
    virt: VirtAddr,
    write: bool,
) -> bool
    requires words_lent { WordsLent words.now start total }
    requires levels_le_most_levels { levels ≤ most_levels }
    requires root_value { inside start total root.0 ≡ true }
    ensures { result ≡ user_rows write (rows_below words.now start total root.0 (indices_of levels virt.0)) }
{
    let mut t = root.0;
    for done in 0..levels {
        let level = levels - done;
        let word = words[entry_place(start, t, entry::page_index(virt, level - 1))];
        let e = PageTableEntry(word);
        if !e.is_present() {
            return false;
        }
        if !user_entry(e, write) {
            return false;
        }
        if level == 1 {
            return true;
        }
        if level == 2 && e.is_huge() {
            return false;
        }
        t = e.addr().0 >> 12;
        if !frame::inner::is_inside(start, total, t) {
            return false;
        }
    }
    false
}

// The last table on the way to a page, below `up` levels.
fn table_below(
    words: &[u64],
    start: u64,
    total: u64,
    up: u64,
    root: Frame,
    virt: VirtAddr,
) -> Result<u64, Refusal>
    requires words_lent { WordsLent words.now start total }
    requires up_le_most_above { up ≤ most_above }
    ensures { result ≡ reach words.now start total root.0 (take up (indices_of (suc up) virt.0)) }
{
    let mut t = root.0;
    for done in 0..up {
        let e = entry_at(words, start, total, t, entry::page_index(virt, up - done))?;
        t = PageTableEntry(e).addr().0 >> 12;
    }
    Ok(t)
}

// The same. Where there are three levels above it the loop's length is written out, for the compiler.
pub fn find_table(
    words: &[u64],
    start: u64,
    total: u64,
    up: u64,
    root: Frame,
    virt: VirtAddr,
) -> Result<u64, Refusal>
    requires words_lent { WordsLent words.now start total }
    requires up_le_most_above { up ≤ most_above }
    ensures { result ≡ reach words.now start total root.0 (take up (indices_of (suc up) virt.0)) }
{
    if up == frame::ABOVE_LAST {
        return table_below(words, start, total, frame::ABOVE_LAST, root, virt);
    }
    table_below(words, start, total, up, root, virt)
}

// The table with one level below it on the way to a page: the last of a walk along the indices above the lowest. Shifted by 9, the address has at each level the
// page's index of the level above it, so that a walk of one level less takes the page's indices from the top one on.
pub fn find_above(
    words: &[u64],
    start: u64,
    total: u64,
    up: u64,
    root: Frame,
    virt: VirtAddr,
) -> Result<u64, Refusal>
    requires words_lent { WordsLent words.now start total }
    requires le_up { 1 ≤ up }
    requires up_le_most_above { up ≤ most_above }
    ensures { result ≡ reach words.now start total root.0 (take (up - 1) (indices_of (suc up) virt.0)) }
{
    find_table(words, start, total, up - 1, root, VirtAddr(virt.0 >> 9))
}

// Whether a walk can start: the frames lent are those of a record that is not broken.
pub fn is_lent(len: usize, start: u64, total: u64, root: Frame) -> bool
    ensures { result ≡ may_walk len start total root.0 }
{
    if total > frame::MAX_FRAMES {
        return false;
    }
    if (total as usize) * 512 > len {
        return false;
    }
    if start > frame::FRAMES_END - total {
        return false;
    }
    frame::inner::is_inside(start, total, root.0)
}

// The same with a number of levels, for the calls that are lent no frame record.
pub fn may_walk(len: usize, start: u64, total: u64, levels: u64, root: Frame) -> bool
    ensures { result ≡ lent_walk levels len start total root.0 }
{
    if !is_lent(len, start, total, root) {
        return false;
    }
    frame::is_levels(levels)
}

pub fn translate(
    words: &[u64],
    start: u64,
    total: u64,
    levels: u64,
    root: Frame,
    virt: VirtAddr,
) -> Result<PhysAddr, Refusal>
    ensures { result ≡ as_phys (translated levels words.now start total root.0 virt.0) }
{
    if !may_walk(words.len(), start, total, levels, root) {
        return Err(Refusal::BrokenRecord);
    }
    let t = fourth_table(words, start, total, levels, root, virt)?;
    phys_at(leaf_below(words, start, total, 4, Frame(t), virt), virt)
}

// Whether user code may read an address, or write it. The loop's length, four or five, is written out, for the compiler.
pub fn user_may(
    words: &[u64],
    start: u64,
    total: u64,
    levels: u64,
    root: Frame,
    virt: VirtAddr,
    write: bool,
) -> Result<bool, Refusal>
    ensures { result ≡ user_may levels words.now start total root.0 virt.0 write }
{
    if !may_walk(words.len(), start, total, levels, root) {
        return Err(Refusal::BrokenRecord);
    }
    if levels == frame::LEVELS {
        return Ok(user_below(words, start, total, frame::LEVELS, root, virt, write));
    }
    Ok(user_below(words, start, total, frame::MOST_LEVELS, root, virt, write))
}
