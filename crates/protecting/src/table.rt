// Pages below one table. What was gone through whole is remembered and passed over: a lent record may lead from many entries to one table.
ghost use Rattle.std.specs.Prelude.{◌≡◌, ◌+◌, ◌*◌, ◌^◌, ◌≤◌, ◌<◌};
ghost use Rattle.frame.specs.Frames.{frames_end};
ghost use Rattle.paging.specs.Walk.{WordsLent};
ghost use Rattle.paging.specs.Levels.{most_above};
ghost use Rattle.paging.specs.Protect.{protect_pages};
ghost use Rattle.protecting.specs.Protecting.{Remembered, Noted, is_done};

use address::VirtAddr;
use entry::paging::PageTableEntry;

// Of each frame lent a byte: bit d is set where it was gone through whole, as a table with d levels below it.
pub type Gone = [u8; 8192];

fn wide(x: u8) -> u64
    ensures value { result ≡ x }
    ensures upper_bound { result < 256 }
{
    x as u64
}

// Whether nothing is left to do below table t: it is not lent, or was gone through whole.
fn is_done(gone: &Gone, start: u64, total: u64, d: u64, t: u64) -> bool
    requires total_bound { total ≤ 8192 }
    requires total_bound_2 { start + total ≤ frames_end }
    requires d_le_most_above { d ≤ most_above }
    ensures { result ≡ is_done gone.now start total d t }
{
    if !frame::inner::is_inside(start, total, t) {
        return true;
    }
    let place = (t - start) as usize;
    wide(gone[place]) & (1 << d) != 0
}

// The frame at `place` was gone through whole, as a table with d levels below it.
fn remember(gone: &mut Gone, place: usize, d: u64)
    requires place_bound { place < 8192 }
    requires d_le_most_above { d ≤ most_above }
    ensures { Noted gone.old gone.new place d }
{
    let old = wide(gone[place]);
    gone[place] = (old | (1 << d)) as u8;
}

// n pages from `virt` on below table t, which has d levels below it and at least one, entry by entry.
#[cycle(protect_below_protect_entries)]
fn protect_entries(
    words: &mut [u64],
    gone: &mut Gone,
    start: u64,
    total: u64,
    d: u64,
    t: u64,
    virt: VirtAddr,
    n: u64,
    writable: bool,
)
    requires words_lent { WordsLent words.old start total }
    requires remembered { Remembered writable words.old start total gone.old }
    requires n_bound { virt.0 + n * 4096 < 2 ^ 64 }
    requires d_le_most_above { d ≤ most_above }
    requires d_nonzero { 0 < d }
    ensures words_after { words.new ≡ protect_pages d writable words.old start total t virt.0 n }
    ensures remembered_2 { Remembered writable words.new start total gone.new }
{
    let mut done = 0;
    // Each turn goes on by as many pages as it dealt with.
    while done < n {
        let at = VirtAddr(virt.0 + done * 4096);
        let part = spans::at_most(spans::to_end(at, d), n - done);
        match walk::entry_at(words, start, total, t, entry::page_index(at, d)) {
            Err(_) => {}
            Ok(e) => {
                let f = PageTableEntry(e).addr().0 >> 12;
                protect_below(words, gone, start, total, d - 1, f, at, part, writable);
            }
        }
        done = done + part;
    }
}

// The same with any number of levels below it, once: a table that was gone through whole is passed over, and is remembered then.
#[cycle(protect_below_protect_entries)]
pub fn protect_below(
    words: &mut [u64],
    gone: &mut Gone,
    start: u64,
    total: u64,
    d: u64,
    t: u64,
    virt: VirtAddr,
    n: u64,
    writable: bool,
)
    requires words_lent { WordsLent words.old start total }
    requires remembered { Remembered writable words.old start total gone.old }
    requires n_bound { virt.0 + n * 4096 < 2 ^ 64 }
    requires d_le_most_above { d ≤ most_above }
    ensures words_after { words.new ≡ protect_pages d writable words.old start total t virt.0 n }
    ensures remembered_2 { Remembered writable words.new start total gone.new }
{
    if is_done(gone, start, total, d, t) {
        return;
    }
    if d == 0 {
        crate::protect_leaves(words, start, total, t, virt, n, writable);
    } else {
        protect_entries(words, gone, start, total, d, t, virt, n, writable);
    }
    if n >= spans::all_pages(d) {
        remember(gone, (t - start) as usize, d);
    }
}
