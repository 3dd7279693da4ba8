// The second path, of page_handler.rs: a page that was not present is mapped over whatever stands at its entry.
#![tactic(auto)]

ghost use Rattle.std.specs.Prelude.{◌≡◌, true, List, ℕ, ◌<◌, ◌≤◌};
ghost use Rattle.bitmap.specs.Bitmap.{marks_in};
ghost use Rattle.frame.specs.Frames.{inside};
ghost use Rattle.paging.specs.Walk.{WordsLent};
ghost use Rattle.paging.specs.Levels.{most_above, most_levels};
ghost use Rattle.paging.specs.Map.{out, RoomToTake};
ghost use Rattle.paging.specs.Kept.{lent_memory};
ghost use Rattle.paging.specs.Calls.{as_changed};
ghost use Rattle.copying.specs.Copying.{out_of};
ghost use Rattle.handler.specs.Handler.{refused, put_over, map_over, map_new, handled_second, handle_fault_second_of};

use address::{Frame, PhysAddr, VirtAddr};
use answer::Refusal;
use entry::paging::PageTableEntry;
use frame::{Changed, FrameAllocator, Marks};
use paging::Entered;

// The word e at entry i of table t, over what stands there, and frame f zeroed.
fn put_over(
    words: &mut [u64],
    frames: FrameAllocator,
    t: u64,
    i: usize,
    e: u64,
    f: u64,
) -> Result<u64, Refusal>
    requires words_lent { WordsLent words.old frames.start frames.total }
    requires i_bound { i < 512 }
    requires f_value { inside frames.start frames.total f ≡ true }
    ensures { (b : List ℕ) → out result (lent_memory words.new b frames) ≡ put_over (lent_memory words.old b frames) t i e f }
{
    if !frame::inner::is_inside(frames.start, frames.total, t) {
        return Err(Refusal::TableOutside);
    }
    let at = walk::entry_place(frames.start, t, i);
    words[at] = e;
    tables::zero_frame(words, walk::entry_place(frames.start, f, 0));
    Ok(0)
}

// A page mapped to frame f over whatever stands there, and the frame zeroed.
fn map_over(
    words: &mut [u64],
    bitmap: &mut Marks,
    frames: FrameAllocator,
    up: u64,
    root: Frame,
    virt: VirtAddr,
    f: u64,
    writable: bool,
    user: bool,
) -> Entered
    requires room_to_take { RoomToTake (lent_memory words.old bitmap.old frames) most_above }
    requires f_value { inside frames.start frames.total f ≡ true }
    requires up_le_most_above { up ≤ most_above }
    ensures { out_of result words.new bitmap.new
        ≡ map_over up (lent_memory words.old bitmap.old frames) root.0 virt.0 f writable user }
{
    let mut left = frames;
    match tables::make_tables(words, bitmap, &mut left, up, root, virt, up, user) {
        Err(n) => Entered {
            walked: Err(n),
            frames: left,
        },
        Ok(t) => {
            let e = PageTableEntry::set(PhysAddr(Frame(f).start_address()), writable, user);
            Entered {
                walked: put_over(words, left, t, entry::page_index(virt, 0), e.0, f),
                frames: left,
            }
        }
    }
}

// A page mapped to the lowest free frame.
fn map_page(
    words: &mut [u64],
    bitmap: &mut Marks,
    frames: FrameAllocator,
    up: u64,
    root: Frame,
    virt: VirtAddr,
    writable: bool,
    user: bool,
) -> Entered
    requires room_to_take { RoomToTake (lent_memory words.old bitmap.old frames) most_levels }
    requires up_le_most_above { up ≤ most_above }
    ensures { out_of result words.new bitmap.new
        ≡ map_new up (lent_memory words.old bitmap.old frames) root.0 virt.0 writable user }
{
    let taken = copying::raw_frame(bitmap, frames);
    let walked = taken.walked;
    let left = taken.frames;
    match walked {
        Err(n) => Entered {
            walked: Err(n),
            frames: left,
        },
        Ok(f) => map_over(words, bitmap, left, up, root, virt, f, writable, user),
    }
}

// The refusal of access that was denied to a page.
fn refusal(code: u64) -> Refusal
    ensures { result ≡ refused code }
{
    if error_code::is_write(code) {
        return Refusal::WriteToReadOnly;
    }
    error_code::denied(code)
}

// The second path, at a page.
fn handle(
    words: &mut [u64],
    bitmap: &mut Marks,
    frames: FrameAllocator,
    up: u64,
    root: Frame,
    page: VirtAddr,
    code: u64,
) -> Changed
    requires room_to_take { RoomToTake (lent_memory words.old bitmap.old frames) most_levels }
    requires up_le_most_above { up ≤ most_above }
    ensures value { result ≡ as_changed (handled_second up (lent_memory words.old bitmap.old frames) root.0 page.0 code) }
    ensures words_after { words.new
        ≡ (handled_second up (lent_memory words.old bitmap.old frames) root.0 page.0 code).mem.words }
    ensures bitmap_after { marks_in bitmap.new
        ≡ (handled_second up (lent_memory words.old bitmap.old frames) root.0 page.0 code).mem.frames.bits }
{
    if error_code::is_reserved(code) {
        return Changed {
            answer: Err(Refusal::ReservedBit),
            frames,
        };
    }
    if error_code::is_present(code) {
        return Changed {
            answer: Err(refusal(code)),
            frames,
        };
    }
    let writable = error_code::is_write(code);
    let user = error_code::is_user(code);
    let r = map_page(words, bitmap, frames, up, root, page, writable, user);
    let walked = r.walked;
    let left = r.frames;
    Changed {
        answer: mapper::inner::as_answer(walked),
        frames: left,
    }
}

// The second path. 10, 5; access that was denied is 17, 7 or 8; else the page is mapped.
pub fn handle_page_fault(
    words: &mut [u64],
    bitmap: &mut Marks,
    frames: FrameAllocator,
    root: Frame,
    addr: VirtAddr,
    code: u64,
) -> Changed
    ensures value { result ≡ as_changed (handle_fault_second_of (lent_memory words.old bitmap.old frames) root.0 addr.0 code) }
    ensures words_after { words.new
        ≡ (handle_fault_second_of (lent_memory words.old bitmap.old frames) root.0 addr.0 code).mem.words }
    ensures bitmap_after { marks_in bitmap.new
        ≡ (handle_fault_second_of (lent_memory words.old bitmap.old frames) root.0 addr.0 code).mem.frames.bits }
{
    if !mapper::is_whole(words, bitmap, frames, root) {
        return Changed {
            answer: Err(Refusal::BrokenRecord),
            frames,
        };
    }
    let up = frames.levels - 1;
    handle(words, bitmap, frames, up, root, cow::page_of(addr), code)
}
