// Sorted lists of at most 256 slots with a count, lent as packed bytes: one search, one step that puts a slot in and one that takes a slot out, for every kind of slot.
#![tactic(auto)]

ghost use Rattle.std.specs.Prelude.{◌≡◌, ℕ, true, Bool, List, length, get_or, set, ◌+◌, ◌≤◌, ◌<◌};
ghost use Rattle.slots.specs.Slots.{Slots, slotted, listed, store};
ghost use Rattle.slots.specs.Shifts.{put_in, taken_out};
ghost use Rattle.slots.specs.Sorted.{rising_from, place_of, found};

// How a kind of list lies in bytes that fit it.
pub trait SlotList {
    type Slot: Copy;

    ghost fit: { List ℕ → Bool };

    ghost slots_in: { List ℕ → Slots Self.Slot };

    // What the bytes hold beside the slots, which these steps leave as it is.
    ghost beside: { List ℕ → ℕ };

    ghost blank: { Self.Slot };

    ghost key: { Self.Slot → ℕ };

    fn blank() -> Self::Slot
        ensures { result ≡ blank };

    fn key(slot: Self::Slot) -> u64
        ensures { result ≡ key slot };

    // How many slots are listed.
    fn count(list: &[u8]) -> usize
        requires { fit list.now ≡ true }
        ensures { result ≡ (slots_in list.now).count };

    fn slot(list: &[u8], i: usize) -> Self::Slot
        requires fits { fit list.now ≡ true }
        requires i_bound { i < 256 }
        ensures { result ≡ get_or (slots_in list.now).slots i blank };

    fn put(list: &mut [u8], i: usize, slot: Self::Slot)
        requires fits { fit list.old ≡ true }
        requires i_bound { i < 256 }
        ensures { (fit list.new ≡ true)
            × (slots_in list.new ≡ slotted (set (slots_in list.old).slots i slot) (slots_in list.old).count)
            × (beside list.new ≡ beside list.old) };

    fn put_count(list: &mut [u8], n: usize)
        requires { fit list.old ≡ true }
        ensures { (fit list.new ≡ true)
            × (slots_in list.new ≡ slotted (slots_in list.old).slots n)
            × (beside list.new ≡ beside list.old) };

    // Slot `to` is slot `from` then.
    fn move_slot(list: &mut [u8], from: usize, to: usize)
        requires fits { fit list.old ≡ true }
        requires bounds { (from < 256) × (to < 256) }
        ensures { (fit list.new ≡ true)
            × (slots_in list.new ≡ slotted (set (slots_in list.old).slots to (get_or (slots_in list.old).slots from blank)) (slots_in list.old).count)
            × (beside list.new ≡ beside list.old) };

    ghost long: { (bs : List ℕ) → length (slots_in bs).slots ≡ 256 };
}

// How many slots have a lower key. They rise, so that the place is found by halves.
fn place_of<L: SlotList>(list: &[u8], key: u64) -> usize
    requires fits { L.fit list.now ≡ true }
    requires few { (L.slots_in list.now).count ≤ 256 }
    requires rises { rising_from L.key 0 (listed (L.slots_in list.now)) ≡ true }
    ensures { result ≡ place_of L.key key (listed (L.slots_in list.now)) }
{
    // By hand: `binary_search` and `partition_point` want a slice of slots, and these are packed bytes (docs/LAYOUT.md).
    let mut low = 0;
    let mut high = L::count(list);
    while low < high {
        let mid = (low + high) / 2;
        if L::key(L::slot(list, mid)) < key {
            low = mid + 1;
        } else {
            high = mid;
        }
    }
    low
}

// Where the slot with a key stands, or where one would be put in, as `binary_search` tells it.
pub fn find<L: SlotList>(list: &[u8], key: u64) -> Result<usize, usize>
    requires fits { L.fit list.now ≡ true }
    requires few { (L.slots_in list.now).count ≤ 256 }
    requires rises { rising_from L.key 0 (listed (L.slots_in list.now)) ≡ true }
    ensures { result ≡ found L.key key (listed (L.slots_in list.now)) }
{
    let at = place_of::<L>(list, key);
    if at < L::count(list) && L::key(L::slot(list, at)) == key {
        return Ok(at);
    }
    Err(at)
}

// A slot put in at a place: those from it on are moved up by one.
pub fn put_in<L: SlotList>(list: &mut [u8], at: usize, slot: L::Slot)
    requires fits { L.fit list.old ≡ true }
    requires bounds { (at ≤ (L.slots_in list.old).count) × ((L.slots_in list.old).count < 256) }
    ensures { (L.fit list.new ≡ true)
        × (L.slots_in list.new ≡ store L.blank (put_in at slot (listed (L.slots_in list.old))) (L.slots_in list.old))
        × (L.beside list.new ≡ L.beside list.old) }
{
    let count = L::count(list);
    // Slot by slot: `copy_within` would need each kind's bytes before slot 0 and its slot size here, and is no plainer.
    for i in (at..count).rev() {
        L::move_slot(list, i, i + 1);
    }
    L::put(list, at, slot);
    L::put_count(list, count + 1);
}

// The slot at a place taken out: those behind it are moved down by one, and the slot that falls past them is blank.
pub fn take_out<L: SlotList>(list: &mut [u8], at: usize)
    requires fits { L.fit list.old ≡ true }
    requires bounds { (at < (L.slots_in list.old).count) × ((L.slots_in list.old).count ≤ 256) }
    ensures { (L.fit list.new ≡ true)
        × (L.slots_in list.new ≡ store L.blank (taken_out at (listed (L.slots_in list.old))) (L.slots_in list.old))
        × (L.beside list.new ≡ L.beside list.old) }
{
    let last = L::count(list) - 1;
    for i in at..last {
        L::move_slot(list, i + 1, i);
    }
    L::put(list, last, L::blank());
    L::put_count(list, last);
}
