// Steps of the call on what was tested.
ghost use Rattle.std.specs.Prelude.{◌≡◌, true, List, ◌⊎◌, length, ℕ, ◌+◌, ◌-◌, ◌*◌, ◌%◌, ◌^◌, ◌<◌, ◌≤◌};
ghost use Rattle.slots.specs.Slots.{listed};
ghost use Rattle.allocator.specs.Round.{last_page};
ghost use Rattle.address.specs.Address.{as_virt};
ghost use Rattle.paging.specs.Levels.{most_above};
ghost use Rattle.paging.specs.Walk.{WordsLent};
ghost use Rattle.paging.specs.Kept.{lent_memory};
ghost use Rattle.paging.specs.Map.{Memory};
ghost use Rattle.mappings.specs.Regions.{starts};
ghost use Rattle.mappings.specs.Packed.{mmap_in, next_in, mmap_fit, sound_list};
ghost use Rattle.free_range.specs.Search.{find_free};
ghost use Rattle.user_space.specs.User.{sound_user};
ghost use Rattle.user_space.specs.Packed.{user_in, lent_user, UserLeaves};
ghost use Rattle.mmap.specs.Calls.{fixed_at, hinted_at, chosen, full, leftover, map_region, chosen_region};
ghost use Rattle.mmap.specs.Packed.{mmapped};

use crate::Mmapped;
use address::{Frame, VirtAddr};
use answer::Refusal;
use frame::{FrameAllocator, Marks};
use mappings::{MappedRegion, Mmap};
use slots::SlotList;

pub fn no_mapping(refusal: Refusal, frames: FrameAllocator) -> Mmapped
    ensures { result ≡ record { answer = Err refusal; frames = frames } }
{
    Mmapped {
        answer: Err(refusal),
        frames,
    }
}

// MAP_FIXED: the address itself.
fn fixed_at(a: u64, n: u64) -> Result<u64, Refusal>
    requires { n ≤ last_page }
    ensures { result ≡ fixed_at a n }
{
    if a % 4096 != 0 {
        return Err(Refusal::Unaligned);
    }
    if a > crate::LAST_PAGE - n {
        return Err(Refusal::TooLarge);
    }
    Ok(a)
}

// Where the search ends.
fn search(list: &[u8], n: u64) -> Result<u64, Refusal>
    requires { sound_list list.now ≡ true }
    ensures { result ≡ find_free (listed (mmap_in list.now)) (next_in list.now) n }
{
    let found = free_range::find_free_region(list, n);
    found.outcome
}

// A hint: the address if it is aligned and nothing is in the way, else where the search ends.
fn hinted_at(list: &[u8], a: u64, n: u64) -> Result<u64, Refusal>
    requires list_value { sound_list list.now ≡ true }
    requires n_le_last_page { n ≤ last_page }
    ensures { result ≡ hinted_at (listed (mmap_in list.now)) (next_in list.now) a n }
{
    if a % 4096 != 0 {
        return search(list, n);
    }
    if a > crate::LAST_PAGE - n {
        return Err(Refusal::TooLarge);
    }
    match free_range::in_the_way(list, a, n) {
        None => Ok(a),
        Some(_) => search(list, n),
    }
}

// Where n bytes go.
fn choose(list: &[u8], hint: Option<u64>, n: u64, flags: i32) -> Result<u64, Refusal>
    requires list_value { sound_list list.now ≡ true }
    requires n_le_last_page { n ≤ last_page }
    ensures { (m : Memory) → result ≡ chosen (user_in m list.now) hint n flags }
{
    match hint {
        None => search(list, n),
        Some(a) => {
            if user_space::is_fixed(flags) {
                return fixed_at(a, n);
            }
            hinted_at(list, a, n)
        }
    }
}

// Whether a region at a has no slot: the list is full, and none there starts at a.
fn is_full(list: &[u8], a: u64) -> bool
    requires { sound_list list.now ≡ true }
    ensures { (m : Memory) → result ≡ full (user_in m list.now) a }
{
    Mmap::count(list) >= mappings::MAX_REGIONS && mappings::list::find(list, a).is_err()
}

// What a run that stopped leaves: after 13 the leaves that it made are cleared, after 11 they stay.
fn clear_after(
    words: &mut [u64],
    frames: FrameAllocator,
    up: u64,
    root: Frame,
    virt: VirtAddr,
    refusal: Refusal,
    done: u64,
)
    requires words_lent { WordsLent words.old frames.start frames.total }
    requires done_bound { virt.0 + done * 4096 < 2 ^ 64 }
    requires up_le_most_above { up ≤ most_above }
    ensures { (b : List ℕ) → lent_memory words.new b frames
        ≡ leftover up root.0 virt.0 refusal done (lent_memory words.old b frames) }
{
    if refusal != Refusal::MapPageFailed {
        return;
    }
    pages::clear_pages(words, frames, up, root, virt, done);
}

// A region of n bytes: its pages on fresh frames, then its slot.
fn map_region(
    words: &mut [u64],
    bitmap: &mut Marks,
    frames: FrameAllocator,
    root: Frame,
    list: &mut [u8],
    virt: VirtAddr,
    n: u64,
    prot: i32,
    flags: i32,
) -> Mmapped
    requires list_value { mmap_fit list.old ≡ true }
    requires root_value { sound_user (lent_user words.old bitmap.old frames list.old) root.0 ≡ true }
    requires fact { (length (listed (mmap_in list.old)) < 256) ⊎ (starts virt.0 (listed (mmap_in list.old)) ≡ true) }
    requires n_value { n % 4096 ≡ 0 }
    requires n_bound { virt.0 + n ≤ last_page }
    ensures { UserLeaves as_virt (mmapped result words.new bitmap.new list.new)
        (map_region (frames.levels - 1) (lent_user words.old bitmap.old frames list.old) root.0 virt.0 n prot flags) }
{
    let up = frames.levels - 1;
    let run = pages::map_pages(
        words,
        bitmap,
        frames,
        up,
        root,
        virt,
        n / 4096,
        user_space::is_writable(prot),
        true,
    );
    let walked = run.walked;
    let left = run.frames;
    match walked {
        Err(e) => {
            clear_after(words, left, up, root, virt, e, run.done);
            no_mapping(e, left)
        }
        Ok(_) => {
            let region = MappedRegion {
                start: virt.0,
                size: n,
                prot,
                flags,
            };
            mappings::list::insert(list, region);
            mappings::put_next(list, virt.0 + n);
            Mmapped {
                answer: Ok(virt),
                frames: left,
            }
        }
    }
}

// n bytes where the caller's address puts them: 2, 3 for the range, 15, 20.
pub fn map_chosen(
    words: &mut [u64],
    bitmap: &mut Marks,
    frames: FrameAllocator,
    root: Frame,
    list: &mut [u8],
    hint: Option<u64>,
    n: u64,
    prot: i32,
    flags: i32,
) -> Mmapped
    requires list_value { mmap_fit list.old ≡ true }
    requires root_value { sound_user (lent_user words.old bitmap.old frames list.old) root.0 ≡ true }
    requires n_value { n % 4096 ≡ 0 }
    requires n_le_last_page { n ≤ last_page }
    ensures { UserLeaves as_virt (mmapped result words.new bitmap.new list.new)
        (chosen_region (frames.levels - 1) (lent_user words.old bitmap.old frames list.old) root.0 hint n prot flags) }
{
    match choose(list, hint, n, flags) {
        Err(e) => no_mapping(e, frames),
        Ok(a) => {
            if is_full(list, a) {
                return no_mapping(Refusal::ListFull, frames);
            }
            map_region(
                words,
                bitmap,
                frames,
                root,
                list,
                VirtAddr(a),
                n,
                prot,
                flags,
            )
        }
    }
}
