// The working of a translation: the entries that it reads, each with its verdict, and the result that the last of them gives.
#![tactic(auto)]

ghost use Rattle.std.specs.Prelude.{◌≡◌, true, ◌+◌, ◌*◌, ◌^◌, ◌<◌, ◌≤◌, []};
ghost use Rattle.std.proofs.lemmas.List.Edits.{sets};
ghost use Rattle.address.specs.Address.{as_phys};
ghost use Rattle.entry.specs.Entry.{indices as indices_of};
ghost use Rattle.frame.specs.Frames.{inside};
ghost use Rattle.paging.specs.Walk.{address, WordsLent};
ghost use Rattle.paging.specs.Levels.{most_levels};
ghost use Rattle.paging.specs.Working.{verdict_of, goes_on, rows_below, by_verdict, end_of, show_translate};
ghost use Rattle.working.specs.Rows.{verdict_number, row_numbers, shown_numbers};

use address::{Frame, PhysAddr, VirtAddr};
use answer::Refusal;
use entry::paging::PageTableEntry;
use paging::{Leaf, Row, Verdict};

// The count, and five numbers for each of at most five rows.
pub const SHOWN_NUMBERS: usize = 26;

// The verdict on an entry with so many levels below it.
fn entry_verdict(start: u64, total: u64, below: u64, e: PageTableEntry) -> Verdict
    requires { start + total ≤ 2 ^ 64 }
    ensures { result ≡ verdict_of start total below e.0 }
{
    if !e.is_present() {
        return Verdict::Absent;
    }
    if below == 0 {
        return Verdict::Last;
    }
    if below == 1 && e.is_huge() {
        return Verdict::LargePage;
    }
    if frame::inner::is_inside(start, total, e.addr().0 >> 12) {
        return Verdict::Followed;
    }
    Verdict::Outside
}

// Whether the walk goes on below an entry.
fn goes_on(verdict: Verdict) -> bool
    ensures { result ≡ goes_on verdict }
{
    matches!(verdict, Verdict::Followed)
}

// What a translation ends at, by its last row.
fn leaf_by(verdict: Verdict, e: u64) -> Result<Leaf, Refusal>
    ensures { result ≡ by_verdict verdict e }
{
    match verdict {
        Verdict::Last => Ok(Leaf::Page(e)),
        Verdict::LargePage => Ok(Leaf::Large(e)),
        Verdict::Outside => Err(Refusal::TableOutside),
        Verdict::Absent | Verdict::Followed => Err(Refusal::NotMapped),
    }
}

fn verdict_number(verdict: Verdict) -> u64
    ensures { result ≡ verdict_number verdict }
{
    verdict as u64
}

// The numbers of row k. One by one: an array of them that is copied over the five places costs a quarter more instructions a walk (docs/LOOK-BACK.md).
fn put_row(out: &mut [u64; SHOWN_NUMBERS], k: usize, row: Row)
    requires { k < 5 }
    ensures { out.new ≡ sets out.old (1 + k * 5) (row_numbers row) }
{
    let at = 1 + k * 5;
    out[at] = row.level;
    out[at + 1] = row.frame.0;
    out[at + 2] = row.index as u64;
    out[at + 3] = row.word;
    out[at + 4] = verdict_number(row.verdict);
}

// The rows from the root on, and the result. No walk comes past the last level: no entry there is followed.
fn show_rows(
    words: &[u64],
    start: u64,
    total: u64,
    levels: u64,
    root: Frame,
    virt: VirtAddr,
    out: &mut [u64; SHOWN_NUMBERS],
) -> Result<PhysAddr, Refusal>
    requires words_lent { WordsLent words.now start total }
    requires levels_nonzero { 0 < levels }
    requires levels_le_most_levels { levels ≤ most_levels }
    requires root_value { inside start total root.0 ≡ true }
    requires out_value { out.old ≡ shown_numbers [] }
    ensures value { result ≡ as_phys (address virt.0 (end_of (rows_below words.now start total root.0 (indices_of levels virt.0)))) }
    ensures out_after { out.new ≡ shown_numbers (rows_below words.now start total root.0 (indices_of levels virt.0)) }
{
    let mut t = root.0;
    for at in 0..levels {
        let level = levels - at;
        let i = entry::page_index(virt, level - 1);
        let e = words[walk::entry_place(start, t, i)];
        let verdict = entry_verdict(start, total, level - 1, PageTableEntry(e));
        let row = Row {
            level,
            frame: Frame(t),
            index: i,
            word: e,
            verdict,
        };
        put_row(out, at as usize, row);
        if !goes_on(verdict) {
            out[0] = at + 1;
            return walk::phys_at(leaf_by(verdict, e), virt);
        }
        t = PageTableEntry(e).addr().0 >> 12;
    }
    Err(Refusal::NotMapped)
}

// `translate` with its working, whose numbers are all written.
pub fn show_translate(
    words: &[u64],
    start: u64,
    total: u64,
    levels: u64,
    root: Frame,
    virt: VirtAddr,
    out: &mut [u64; SHOWN_NUMBERS],
) -> Result<PhysAddr, Refusal>
    ensures value { result ≡ as_phys (show_translate levels words.now start total root.0 virt.0).answer }
    ensures out_after { out.new ≡ shown_numbers (show_translate levels words.now start total root.0 virt.0).rows }
{
    *out = [0; SHOWN_NUMBERS];
    if !walk::may_walk(words.len(), start, total, levels, root) {
        return Err(Refusal::BrokenRecord);
    }
    show_rows(words, start, total, levels, root, virt, out)
}
