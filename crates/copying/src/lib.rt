// The copy of a copy-on-write page, of page_fault.rs, on a record that was tested; `raw_frame` and `map_frame` serve demand paging too, and `raw_frame` the second path.
#![tactic(auto)]

ghost use Rattle.std.specs.Prelude.{◌≡◌, true, List, ℕ, ◌+◌, ◌*◌, ◌%◌, ◌<◌, ◌≤◌, length, take, drop, ◌^◌};
ghost use Rattle.std.proofs.lemmas.List.Edits.{sets};
ghost use Rattle.answer.specs.Outcomes.{and_then};
ghost use Rattle.frame.specs.Frames.{inside, RoomToCount};
ghost use Rattle.frame.specs.Found.{none_found};
ghost use Rattle.paging.specs.Walk.{WordsLent};
ghost use Rattle.paging.specs.Levels.{most_above};
ghost use Rattle.paging.specs.Map.{out, RoomToTake};
ghost use Rattle.paging.specs.Kept.{lent_memory};
ghost use Rattle.copying.specs.Copying.{out_of, raw_frame, map_frame, cleared_if_mapped, copy_words, copied_from, copy_page, remapped, copy_to, copy_on_write};
ghost use Rattle.copying.specs.Copying.{remap_found, copy_to_found, copy_found};

use address::{Frame, PhysAddr, VirtAddr};
use answer::Refusal;
use entry::paging::PageTableEntry;
use frame::{FrameAllocator, Marks, Tally, tallies};
use paging::Entered;

// The page through which a copy is made.
pub const TEMP_MAP_ADDR: u64 = 0xFFFF_FFFF_FFFF_0000;

// What a copy comes to, beside what the old frame was found to be and the record that is left.
#[derive(Clone, Copy)]
pub struct Copied {
    pub walked: Result<u64, Refusal>,
    pub found: Tally,
    pub frames: FrameAllocator,
}

// The lowest free frame, as it is.
#[tactic(auto, unfolding(crate::specs::Copying::raw_frame))]
pub fn raw_frame(bitmap: &mut Marks, frames: FrameAllocator) -> Entered
    requires { RoomToCount frames 1 }
    ensures { (ws : List ℕ) → out_of result ws bitmap.new ≡ raw_frame (lent_memory ws bitmap.old frames) }
{
    let mut left = frames;
    match frame::inner::take_frame(bitmap, &mut left) {
        Err(n) => Entered {
            walked: Err(n),
            frames: left,
        },
        Ok(f) => Entered {
            walked: Ok(f.0),
            frames: left,
        },
    }
}

// A page mapped to a frame: 18 where it cannot be.
pub fn map_frame(
    words: &mut [u64],
    bitmap: &mut Marks,
    frames: FrameAllocator,
    up: u64,
    root: Frame,
    virt: VirtAddr,
    f: u64,
    writable: bool,
    user: bool,
) -> Entered
    requires room_to_take { RoomToTake (lent_memory words.old bitmap.old frames) most_above }
    requires f_bound { f < 2 ^ 40 }
    requires up_le_most_above { up ≤ most_above }
    ensures { out_of result words.new bitmap.new
        ≡ map_frame up (lent_memory words.old bitmap.old frames) root.0 virt.0 f writable user }
{
    let e = PageTableEntry::set(PhysAddr(Frame(f).start_address()), writable, user);
    let mapped = mapper::inner::map_entry(words, bitmap, frames, up, root, virt, up, user, e.0);
    let answer = mapped.answer;
    let left = mapped.frames;
    match answer {
        Ok(()) => Entered {
            walked: Ok(0),
            frames: left,
        },
        Err(_) => Entered {
            walked: Err(Refusal::PageTableError),
            frames: left,
        },
    }
}

// All 512 words from one word on, copied to another on.
fn copy_words(words: &mut [u64], from: usize, to: usize)
    requires from_in_bounds { from + 512 ≤ length words.old }
    requires to_in_bounds { to + 512 ≤ length words.old }
    ensures { words.new ≡ copy_words words.old from to 512 }
{
    for i in 0..512 {
        words[to + i] = words[from + i];
    }
}

// A page unmapped where it is mapped.
fn clear_if_mapped(words: &mut [u64], frames: FrameAllocator, up: u64, root: Frame, virt: VirtAddr)
    requires words_lent { WordsLent words.old frames.start frames.total }
    requires up_le_most_above { up ≤ most_above }
    ensures { (b : List ℕ) → lent_memory words.new b frames
        ≡ cleared_if_mapped up (lent_memory words.old b frames) root.0 virt.0 }
{
    match walk::walk(words, frames.start, frames.total, up + 1, root, virt) {
        Ok(_) => {
            pages::clear_page(words, frames, up, root, virt);
        }
        Err(_) => {}
    }
}

// The frame that a page is mapped to, copied to frame f: 18 where it is not a lent one.
fn copy_from(
    words: &mut [u64],
    frames: FrameAllocator,
    up: u64,
    root: Frame,
    page: VirtAddr,
    f: u64,
) -> Result<u64, Refusal>
    requires words_lent { WordsLent words.old frames.start frames.total }
    requires f_value { inside frames.start frames.total f ≡ true }
    requires up_le_most_above { up ≤ most_above }
    ensures { (b : List ℕ) → out result (lent_memory words.new b frames)
        ≡ copied_from up (lent_memory words.old b frames) root.0 page.0 f }
{
    match walk::walk(words, frames.start, frames.total, up + 1, root, page) {
        Err(_) => Err(Refusal::PageTableError),
        Ok(a) => {
            let old = Frame::containing_address(a.0).0;
            if !frame::inner::is_inside(frames.start, frames.total, old) {
                return Err(Refusal::PageTableError);
            }
            let from = walk::entry_place(frames.start, old, 0);
            let to = walk::entry_place(frames.start, f, 0);
            copy_words(words, from, to);
            Ok(0)
        }
    }
}

// A page's words copied to frame f through the temporary page, which is unmapped in the end.
fn copy_page(
    words: &mut [u64],
    bitmap: &mut Marks,
    frames: FrameAllocator,
    up: u64,
    root: Frame,
    page: VirtAddr,
    f: u64,
) -> Entered
    requires room_to_take { RoomToTake (lent_memory words.old bitmap.old frames) most_above }
    requires f_value { inside frames.start frames.total f ≡ true }
    requires up_le_most_above { up ≤ most_above }
    ensures { out_of result words.new bitmap.new
        ≡ copy_page up (lent_memory words.old bitmap.old frames) root.0 page.0 f }
{
    let temp = VirtAddr(TEMP_MAP_ADDR);
    clear_if_mapped(words, frames, up, root, temp);
    let mapped = map_frame(words, bitmap, frames, up, root, temp, f, true, false);
    let walked = mapped.walked;
    let left = mapped.frames;
    match walked {
        Err(n) => Entered {
            walked: Err(n),
            frames: left,
        },
        Ok(_) => {
            let copied = copy_from(words, left, up, root, page, f);
            pages::clear_page(words, left, up, root, temp);
            Entered {
                walked: copied,
                frames: left,
            }
        }
    }
}

// A tally where the step was met, and none where it was refused.
fn if_met(walked: Result<u64, Refusal>, found: Tally) -> Tally
    ensures { result ≡ and_then walked (λ _. none_found) (λ _. found) }
{
    match walked {
        Err(_) => tallies::none(),
        Ok(_) => found,
    }
}

// A page mapped to frame f, its old frame freed.
fn remap_page(
    words: &mut [u64],
    bitmap: &mut Marks,
    frames: FrameAllocator,
    up: u64,
    root: Frame,
    page: VirtAddr,
    f: u64,
    user: bool,
) -> Copied
    requires room_to_take { RoomToTake (lent_memory words.old bitmap.old frames) most_above }
    requires f_bound { f < 2 ^ 40 }
    requires up_le_most_above { up ≤ most_above }
    ensures frames_after { out result.walked (lent_memory words.new bitmap.new result.frames)
        ≡ remapped up (lent_memory words.old bitmap.old frames) root.0 page.0 f user }
    ensures found_value { result.found ≡ remap_found up (lent_memory words.old bitmap.old frames) root.0 page.0 f user }
{
    let freed = pages::free_page(words, bitmap, frames, up, root, page);
    let found = freed.found;
    let left = freed.frames;
    let mapped = map_frame(words, bitmap, left, up, root, page, f, true, user);
    let walked = mapped.walked;
    let after = mapped.frames;
    Copied {
        walked,
        found: if_met(walked, found),
        frames: after,
    }
}

// A page that is written to gets a frame of its own, with its words.
pub fn copy_on_write(
    words: &mut [u64],
    bitmap: &mut Marks,
    frames: FrameAllocator,
    up: u64,
    root: Frame,
    page: VirtAddr,
    user: bool,
) -> Copied
    requires room_to_take { RoomToTake (lent_memory words.old bitmap.old frames) (1 + 2 * most_above) }
    requires up_le_most_above { up ≤ most_above }
    ensures frames_after { out result.walked (lent_memory words.new bitmap.new result.frames)
        ≡ copy_on_write up (lent_memory words.old bitmap.old frames) root.0 page.0 user }
    ensures found_value { result.found ≡ copy_found up (lent_memory words.old bitmap.old frames) root.0 page.0 user }
{
    let taken = raw_frame(bitmap, frames);
    let walked = taken.walked;
    let left = taken.frames;
    match walked {
        Err(n) => Copied {
            walked: Err(n),
            found: tallies::none(),
            frames: left,
        },
        Ok(f) => copy_to(words, bitmap, left, up, root, page, f, user),
    }
}

// The same with the new frame in hand.
fn copy_to(
    words: &mut [u64],
    bitmap: &mut Marks,
    frames: FrameAllocator,
    up: u64,
    root: Frame,
    page: VirtAddr,
    f: u64,
    user: bool,
) -> Copied
    requires room_to_take { RoomToTake (lent_memory words.old bitmap.old frames) (2 * most_above) }
    requires f_value { inside frames.start frames.total f ≡ true }
    requires up_le_most_above { up ≤ most_above }
    ensures frames_after { out result.walked (lent_memory words.new bitmap.new result.frames)
        ≡ copy_to up (lent_memory words.old bitmap.old frames) root.0 page.0 f user }
    ensures found_value { result.found ≡ copy_to_found up (lent_memory words.old bitmap.old frames) root.0 page.0 f user }
{
    let copied = copy_page(words, bitmap, frames, up, root, page, f);
    let walked = copied.walked;
    let left = copied.frames;
    match walked {
        Err(n) => Copied {
            walked: Err(n),
            found: tallies::none(),
            frames: left,
        },
        Ok(_) => remap_page(words, bitmap, left, up, root, page, f, user),
    }
}
