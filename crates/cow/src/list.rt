// The pages marked copy-on-write where they stand, as packed bytes: the count, then 256 addresses, the first `count` of them listed, rising.
// Steps on a list that was tested; a page is looked up by its place among the others.
ghost use Rattle.std.specs.Prelude.{◌≡◌, true, suc, ◌≤◌, take, drop};
ghost use Rattle.std.proofs.Math.Seq.{slice};
ghost use Rattle.bits.specs.Bit.{both};
ghost use Rattle.packed.proofs.Words.{length_unpack};
ghost use Rattle.slots.specs.Slots.{listed};
ghost use Rattle.slots.specs.Sorted.{rising_from, has_key, remove, found};
ghost use Rattle.cow.specs.Marked.{page_key, sound_marked, no_pages, store_pages};
ghost use Rattle.cow.specs.Packed.{marked_in, marked_out, marked_fit};

use crate::MAX_COW_PAGES;
use slots::SlotList;

// The bytes of the list: the count, and a number for each slot.
pub const MARKED_SIZE: usize = 8 + MAX_COW_PAGES * 8;

// The list as `slots` searches and changes it: its pages by themselves.
pub struct Marked;

impl SlotList for Marked {
    type Slot = u64;

    ghost fit = { marked_fit };

    ghost slots_in = { marked_in };

    ghost beside = { λ bs. 0 };

    ghost blank = { 0 };

    ghost key = { page_key };

    fn blank() -> u64 {
        0
    }

    fn key(page: u64) -> u64 {
        page
    }

    fn count(list: &[u8]) -> usize {
        packed::word_at(list, 0) as usize
    }

    fn slot(list: &[u8], i: usize) -> u64 {
        packed::word_at(list, i * 8 + 8)
    }

    fn put(list: &mut [u8], i: usize, page: u64) {
        packed::put_word(list, i * 8 + 8, page);
    }

    fn put_count(list: &mut [u8], n: usize) {
        packed::put_word(list, 0, n as u64);
    }

    fn move_slot(list: &mut [u8], from: usize, to: usize) {
        let page = Self::slot(list, from);
        Self::put(list, to, page);
    }

    ghost long = { λ bs. length_unpack 256 (drop 8 bs) };
}

// Whether the pages from i on, up to n, rise strictly from the one before them. By index, since packed slots have no iterator.
fn rest_rises(list: &[u8], i: usize, n: usize, before: u64) -> bool
    requires list_value { marked_fit list.now ≡ true }
    requires n_bound { n ≤ 256 }
    ensures { result ≡ rising_from page_key (suc before) (slice i n (marked_in list.now).slots) }
{
    let mut last = before;
    for j in i..n {
        let page = Marked::slot(list, j);
        if page <= last {
            return false;
        }
        last = page;
    }
    true
}

// Whether the first n pages rise strictly, four in a round: 48 ns for 255 pages, where one after the other took 76 (docs/DECISIONS.md).
fn pages_rise(list: &[u8], n: usize) -> bool
    requires list_value { marked_fit list.now ≡ true }
    requires n_bound { n ≤ 256 }
    ensures { result ≡ rising_from page_key 0 (take n (marked_in list.now).slots) }
{
    if n < 2 {
        return true;
    }
    let mut last = Marked::slot(list, 0);
    let mut i = 1;
    while i + 3 < n {
        let a = Marked::slot(list, i);
        let b = Marked::slot(list, i + 1);
        let c = Marked::slot(list, i + 2);
        let d = Marked::slot(list, i + 3);
        if a <= last {
            return false;
        }
        if b <= a {
            return false;
        }
        if c <= b {
            return false;
        }
        if d <= c {
            return false;
        }
        last = d;
        i += 4;
    }
    rest_rises(list, i, n, last)
}

// Whether the bytes stand for a list that is not broken. With `n <= MAX_COW_PAGES && ..` at its end is_cow of few pages is slower (docs/LOOK-BACK.md).
pub fn is_sound(list: &[u8]) -> bool
    ensures { result ≡ both (marked_fit list.now) (sound_marked (marked_in list.now)) }
{
    if list.len() != MARKED_SIZE {
        return false;
    }
    let n = Marked::count(list);
    if n > MAX_COW_PAGES {
        return false;
    }
    pages_rise(list, n)
}

// Where a page is listed, or where it would be put in.
pub fn find(list: &[u8], page: u64) -> Result<usize, usize>
    requires { both (marked_fit list.now) (sound_marked (marked_in list.now)) ≡ true }
    ensures { result ≡ found page_key page (listed (marked_in list.now)) }
{
    slots::find::<Marked>(list, page)
}

// Whether a page is listed. In an empty list none is, which is told without a search (docs/LOOK-BACK.md).
pub fn is_listed(list: &[u8], page: u64) -> bool
    requires { both (marked_fit list.now) (sound_marked (marked_in list.now)) ≡ true }
    ensures { result ≡ has_key page_key page (listed (marked_in list.now)) }
{
    Marked::count(list) > 0 && find(list, page).is_ok()
}

// The list without a page, which need not be listed.
pub fn unmark(list: &mut [u8], page: u64)
    requires { both (marked_fit list.old) (sound_marked (marked_in list.old)) ≡ true }
    ensures list_after { marked_in list.new ≡ store_pages (remove page_key page (listed (marked_in list.old))) (marked_in list.old) }
    ensures list_after_2 { marked_fit list.new ≡ true }
{
    if let Ok(at) = find(list, page) {
        slots::take_out::<Marked>(list, at);
    }
}

// No page is marked, and all slots are zero.
pub fn start(list: &mut [u8])
    requires { marked_fit list.old ≡ true }
    ensures list_after { list.new ≡ marked_out no_pages }
    ensures list_after_2 { marked_in list.new ≡ no_pages }
    ensures list_after_3 { marked_fit list.new ≡ true }
{
    list.fill(0);
}
