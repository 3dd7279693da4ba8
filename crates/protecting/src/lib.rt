// WRITABLE made to follow a choice on runs of pages, on words that were tested: page by page, or table by table.
#![tactic(auto)]

mod table;

ghost use Rattle.std.specs.Prelude.{◌≡◌, ◌+◌, ◌*◌, ◌^◌, ◌≤◌, ◌<◌};
ghost use Rattle.paging.specs.Walk.{WordsLent};
ghost use Rattle.paging.specs.Levels.{most_above};
ghost use Rattle.paging.specs.Protect.{protect_page, protect_pages};

use address::{Frame, VirtAddr};
use entry::paging::PageTableEntry;

// Runs of fewer pages are gone through one last table after the other; of longer ones tables are remembered.
const MANY: u64 = 8192;

// The page of an address below its last table t.
fn protect_leaf(words: &mut [u64], start: u64, total: u64, t: u64, virt: VirtAddr, writable: bool)
    requires { WordsLent words.old start total }
    ensures { words.new ≡ protect_page 0 writable words.old start total t virt.0 }
{
    if !frame::inner::is_inside(start, total, t) {
        return;
    }
    let at = walk::entry_place(start, t, entry::page_index(virt, 0));
    let e = PageTableEntry(words[at]);
    if !e.is_present() {
        return;
    }
    words[at] = e.with_writable(writable).0;
}

// n pages from `virt` on, all below their last table t.
fn protect_leaves(
    words: &mut [u64],
    start: u64,
    total: u64,
    t: u64,
    virt: VirtAddr,
    n: u64,
    writable: bool,
)
    requires words_lent { WordsLent words.old start total }
    requires n_bound { virt.0 + n * 4096 < 2 ^ 64 }
    ensures { words.new ≡ protect_pages 0 writable words.old start total t virt.0 n }
{
    for i in 0..n {
        protect_leaf(
            words,
            start,
            total,
            t,
            VirtAddr(virt.0 + i * 4096),
            writable,
        );
    }
}

// n pages from `virt` on, below `up` levels: each last table is walked to once, and pages that have none are passed over.
fn protect_run(
    words: &mut [u64],
    start: u64,
    total: u64,
    up: u64,
    root: Frame,
    virt: VirtAddr,
    n: u64,
    writable: bool,
)
    requires words_lent { WordsLent words.old start total }
    requires n_bound { virt.0 + n * 4096 < 2 ^ 64 }
    requires up_le_most_above { up ≤ most_above }
    ensures { words.new ≡ protect_pages up writable words.old start total root.0 virt.0 n }
{
    let mut done = 0;
    // Each turn goes on by as many pages as it dealt with.
    while done < n {
        let at = VirtAddr(virt.0 + done * 4096);
        let part = spans::at_most(spans::to_end(at, 1), n - done);
        match walk::find_table(words, start, total, up, root, at) {
            Err(_) => {}
            Ok(t) => protect_leaves(words, start, total, t, at, part, writable),
        }
        done = done + part;
    }
}

// The same: long runs table by table, each table that is gone through whole once.
pub fn protect_pages(
    words: &mut [u64],
    start: u64,
    total: u64,
    up: u64,
    root: Frame,
    virt: VirtAddr,
    n: u64,
    writable: bool,
)
    requires words_lent { WordsLent words.old start total }
    requires n_bound { virt.0 + n * 4096 < 2 ^ 64 }
    requires up_le_most_above { up ≤ most_above }
    ensures { words.new ≡ protect_pages up writable words.old start total root.0 virt.0 n }
{
    if n < MANY {
        protect_run(words, start, total, up, root, virt, n, writable);
        return;
    }
    let mut gone: table::Gone = [0u8; 8192];
    let most = spans::at_most(n, spans::all_pages(up));
    table::protect_below(
        words, &mut gone, start, total, up, root.0, virt, most, writable,
    );
}
