// What a look at a page finds of the pages from it on: leaves of one table, or pages below an entry that is absent or leads outside.
#![tactic(auto)]

ghost use Rattle.std.specs.Prelude.{◌≡◌, ◌⊎◌, ℕ, suc, ◌+◌, ◌-◌, ◌*◌, ◌^◌, ◌≤◌, ◌<◌, min, get_or};
ghost use Rattle.entry.specs.Entry.{index as index_of};
ghost use Rattle.paging.specs.Walk.{WordsLent};
ghost use Rattle.paging.specs.Levels.{most_above};
ghost use Rattle.spans.specs.Spans.{to_end, Off, IsSpan};

use address::{Frame, VirtAddr};
use entry::paging::PageTableEntry;

// What there is at a page: so many leaves of its last table, or so many pages that are not mapped.
#[derive(Clone, Copy)]
pub enum Span {
    Leaves(u64, u64),
    Gap(u64),
}

// The pages from `virt` on to the end of the span of an entry with d levels below it.
pub fn to_end(virt: VirtAddr, d: u64) -> u64
    requires { d ≤ most_above }
    ensures { result ≡ to_end d virt.0 }
{
    let width = 1 << (9 * d);
    width - ((virt.0 >> 12) & (width - 1))
}

// All the pages that there are below `up` levels: what lies above the top index of an address is ignored.
pub fn all_pages(up: u64) -> u64
    requires { up ≤ most_above }
    ensures { result ≡ 2 ^ (9 * suc up) }
{
    1 << (9 * (up + 1))
}

pub fn at_most(n: u64, most: u64) -> u64
    ensures { result ≡ min n most }
{
    if n < most {
        return n;
    }
    most
}

// Where leaves from entry `from` to `end` have to stop if entry i of their table is on the way to it: past i.
fn stop_past(from: usize, end: usize, i: usize) -> usize
    requires { from < end }
    ensures lower_bound { from < result }
    ensures upper_bound { result ≤ end }
    ensures fact { (i < from) ⊎ (result ≤ i + 1) }
{
    if i < from {
        return end;
    }
    if i < end {
        return i + 1;
    }
    end
}

// The leaves from the last index on that can be cleared in one go: to the end of the table, or to the first that is an entry on the way to it.
fn leaves_apart(above: [u64; 4], up: u64, virt: VirtAddr, t: u64) -> u64
    requires { up ≤ most_above }
    ensures result_nonzero { 0 < result }
    ensures result_bound { index_of 0 virt.0 + result ≤ 512 }
    ensures by_index { (l : ℕ) → l < up → get_or above l 0 ≡ t → Off (index_of (up - l) virt.0) (index_of 0 virt.0) result }
{
    let from = entry::page_index(virt, 0);
    let mut end = 512;
    for passed in 0..up {
        if above[passed as usize] == t {
            end = stop_past(from, end, entry::page_index(virt, up - passed));
        }
    }
    (end - from) as u64
}

// What there is at page `virt`, below `up` levels. A root that is not lent has nothing below it.
fn span_below(words: &[u64], start: u64, total: u64, up: u64, root: Frame, virt: VirtAddr) -> Span
    requires words_lent { WordsLent words.now start total }
    requires up_le_most_above { up ≤ most_above }
    ensures { IsSpan words.now start total up root.0 virt.0 result }
{
    if !frame::inner::is_inside(start, total, root.0) {
        return Span::Gap(to_end(virt, up));
    }
    let mut above: [u64; 4] = [0; 4];
    let mut t = root.0;
    for passed in 0..up {
        above[passed as usize] = t;
        match walk::entry_at(words, start, total, t, entry::page_index(virt, up - passed)) {
            Err(_) => return Span::Gap(to_end(virt, up - passed)),
            Ok(e) => {
                t = PageTableEntry(e).addr().0 >> 12;
            }
        }
        if !frame::inner::is_inside(start, total, t) {
            return Span::Gap(to_end(virt, up - passed));
        }
    }
    Span::Leaves(t, leaves_apart(above, up, virt, t))
}

// The same. Where there are three levels above the last the loop's length is written out, for the compiler.
pub fn find_span(
    words: &[u64],
    start: u64,
    total: u64,
    up: u64,
    root: Frame,
    virt: VirtAddr,
) -> Span
    requires words_lent { WordsLent words.now start total }
    requires up_le_most_above { up ≤ most_above }
    ensures { IsSpan words.now start total up root.0 virt.0 result }
{
    if up == frame::ABOVE_LAST {
        return span_below(words, start, total, frame::ABOVE_LAST, root, virt);
    }
    span_below(words, start, total, up, root, virt)
}
