// Steps of the first path on a record that was tested.
ghost use Rattle.std.specs.Prelude.{◌≡◌, true, ◌+◌, ◌*◌, ◌≤◌};
ghost use Rattle.bits.specs.Bit.{both};
ghost use Rattle.paging.specs.Levels.{most_above, most_levels};
ghost use Rattle.paging.specs.Map.{RoomToTake};
ghost use Rattle.paging.specs.Kept.{lent_memory};
ghost use Rattle.cow.specs.Marked.{sound_marked};
ghost use Rattle.cow.specs.Packed.{marked_in, marked_fit};
ghost use Rattle.error_code.specs.ErrorCode.{is_fetch};
ghost use Rattle.copying.specs.Copying.{out_of};
ghost use Rattle.fault.specs.Faults.{in_heap, valid, demand_page, protected as protected_by, handled, protected_found, handled_found};
ghost use Rattle.fault.specs.Packed.{on_pages, found_on_pages, faulted, FaultReads};

use crate::Faulted;
use address::{Frame, VirtAddr};
use answer::Refusal;
use frame::{FrameAllocator, Marks, tallies};
use paging::Entered;

// The kernel's heap, and the end of user space.
const HEAP_START: u64 = 0xFFFF_FF00_0000_0000;

const HEAP_END: u64 = 0xFFFF_FF80_0000_0000;

const USER_END: u64 = 0x0000_8000_0000_0000;

fn in_heap(v: u64) -> bool
    ensures { result ≡ in_heap v }
{
    if v < HEAP_START {
        return false;
    }
    v < HEAP_END
}

// Whether a page may be had on demand.
fn is_valid(v: u64) -> bool
    ensures { result ≡ valid v }
{
    if in_heap(v) {
        return true;
    }
    v < USER_END
}

// An instruction fetched from the heap.
fn is_heap_fetch(v: u64, code: u64) -> bool
    ensures { result ≡ both (is_fetch code) (in_heap v) }
{
    if !error_code::is_fetch(code) {
        return false;
    }
    in_heap(v)
}

// A page that was not present, mapped to a frame that is not zeroed.
fn demand_page(
    words: &mut [u64],
    bitmap: &mut Marks,
    frames: FrameAllocator,
    up: u64,
    root: Frame,
    page: VirtAddr,
    code: u64,
) -> Entered
    requires room_to_take { RoomToTake (lent_memory words.old bitmap.old frames) most_levels }
    requires up_le_most_above { up ≤ most_above }
    ensures { out_of result words.new bitmap.new
        ≡ demand_page up (lent_memory words.old bitmap.old frames) root.0 page.0 code }
{
    if !is_valid(page.0) {
        return Entered {
            walked: Err(Refusal::InvalidAddress),
            frames,
        };
    }
    if is_heap_fetch(page.0, code) {
        return Entered {
            walked: Err(Refusal::InstructionFetch),
            frames,
        };
    }
    let taken = copying::raw_frame(bitmap, frames);
    let walked = taken.walked;
    let left = taken.frames;
    match walked {
        Err(n) => Entered {
            walked: Err(n),
            frames: left,
        },
        Ok(f) => {
            let writable = error_code::is_write(code);
            let user = error_code::is_user(code);
            copying::map_frame(words, bitmap, left, up, root, page, f, writable, user)
        }
    }
}

// Access that was denied: a write to a marked page copies it and unmarks it.
fn protected(
    words: &mut [u64],
    bitmap: &mut Marks,
    frames: FrameAllocator,
    up: u64,
    root: Frame,
    marked: &mut [u8],
    page: VirtAddr,
    code: u64,
) -> Faulted
    requires room_to_take { RoomToTake (lent_memory words.old bitmap.old frames) (1 + 2 * most_above) }
    requires marked_value { both (marked_fit marked.old) (sound_marked (marked_in marked.old)) ≡ true }
    requires up_le_most_above { up ≤ most_above }
    ensures marked_after { faulted result words.new bitmap.new marked.new
        ≡ on_pages (λ s. protected_by up s root.0 page.0 code) (lent_memory words.old bitmap.old frames)
        marked.old }
    ensures fault_reads { FaultReads (λ s. protected_by up s root.0 page.0 code) (lent_memory words.old bitmap.old frames)
        marked.old marked.new }
    ensures found_value { result.found ≡ found_on_pages (λ s. protected_found up s root.0 page.0 code) (lent_memory words.old bitmap.old frames)
        marked.old }
{
    if !error_code::is_write(code) {
        return Faulted {
            answer: Err(error_code::denied(code)),
            found: tallies::none(),
            frames,
        };
    }
    if !cow::list::is_listed(marked, page.0) {
        return Faulted {
            answer: Err(Refusal::WriteToReadOnly),
            found: tallies::none(),
            frames,
        };
    }
    let user = error_code::is_user(code);
    let r = copying::copy_on_write(words, bitmap, frames, up, root, page, user);
    let walked = r.walked;
    let found = r.found;
    let left = r.frames;
    match walked {
        Err(n) => Faulted {
            answer: Err(n),
            found,
            frames: left,
        },
        Ok(_) => {
            cow::list::unmark(marked, page.0);
            Faulted {
                answer: Ok(()),
                found,
                frames: left,
            }
        }
    }
}

// The first path, at a page.
pub fn handle(
    words: &mut [u64],
    bitmap: &mut Marks,
    frames: FrameAllocator,
    up: u64,
    root: Frame,
    marked: &mut [u8],
    page: VirtAddr,
    code: u64,
) -> Faulted
    requires room_to_take { RoomToTake (lent_memory words.old bitmap.old frames) (1 + 2 * most_above) }
    requires marked_value { both (marked_fit marked.old) (sound_marked (marked_in marked.old)) ≡ true }
    requires up_le_most_above { up ≤ most_above }
    ensures marked_after { faulted result words.new bitmap.new marked.new
        ≡ on_pages (λ s. handled up s root.0 page.0 code) (lent_memory words.old bitmap.old frames)
        marked.old }
    ensures fault_reads { FaultReads (λ s. handled up s root.0 page.0 code) (lent_memory words.old bitmap.old frames)
        marked.old marked.new }
    ensures found_value { result.found ≡ found_on_pages (λ s. handled_found up s root.0 page.0 code) (lent_memory words.old bitmap.old frames)
        marked.old }
{
    if error_code::is_reserved(code) {
        return Faulted {
            answer: Err(Refusal::ReservedBit),
            found: tallies::none(),
            frames,
        };
    }
    if error_code::is_present(code) {
        return protected(words, bitmap, frames, up, root, marked, page, code);
    }
    let r = demand_page(words, bitmap, frames, up, root, page, code);
    let walked = r.walked;
    let left = r.frames;
    let none = tallies::none();
    Faulted {
        answer: mapper::inner::as_answer(walked),
        found: none,
        frames: left,
    }
}
