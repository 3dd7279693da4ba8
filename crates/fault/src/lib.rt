// Page faults: the first path, of page_fault.rs.
#![tactic(auto)]

pub mod inner;

ghost use Rattle.std.specs.Prelude.{◌≡◌};
ghost use Rattle.paging.specs.Kept.{lent_memory};
ghost use Rattle.fault.specs.Faults.{handle_fault_of};
ghost use Rattle.fault.specs.Packed.{fault_on, fault_found_on, faulted, FaultReads};

use address::{Frame, VirtAddr};
use answer::Refusal;
use frame::{FrameAllocator, Marks, Tally, tallies};

// The answer of the first path, beside what a copy's old frame was found to be and the frame record that is left.
#[derive(Clone, Copy)]
pub struct Faulted {
    pub answer: Result<(), Refusal>,
    pub found: Tally,
    pub frames: FrameAllocator,
}

// The first path. 10, 5; a page that was not present is mapped, and a write to a marked page gets a copy.
pub fn handle_page_fault(
    words: &mut [u64],
    bitmap: &mut Marks,
    frames: FrameAllocator,
    root: Frame,
    marked: &mut [u8],
    addr: VirtAddr,
    code: u64,
) -> Faulted
    ensures marked_after { faulted result words.new bitmap.new marked.new
        ≡ fault_on (lent_memory words.old bitmap.old frames) marked.old root.0 addr.0 code }
    ensures fault_reads { FaultReads (λ s. handle_fault_of s root.0 addr.0 code) (lent_memory words.old bitmap.old frames)
        marked.old marked.new }
    ensures found_value { result.found ≡ fault_found_on (lent_memory words.old bitmap.old frames) marked.old root.0 addr.0 code }
{
    if !mapper::is_whole(words, bitmap, frames, root) {
        return Faulted {
            answer: Err(Refusal::BrokenRecord),
            found: tallies::none(),
            frames,
        };
    }
    if !cow::list::is_sound(marked) {
        return Faulted {
            answer: Err(Refusal::BrokenRecord),
            found: tallies::none(),
            frames,
        };
    }
    inner::handle(
        words,
        bitmap,
        frames,
        frames.levels - 1,
        root,
        marked,
        cow::page_of(addr),
        code,
    )
}
