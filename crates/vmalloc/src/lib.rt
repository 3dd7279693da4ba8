// The kernel's virtual memory allocator of vmalloc.rs. Its list is lent as packed bytes.
#![tactic(auto)]

pub mod inner;

ghost use Rattle.std.specs.Prelude.{◌≡◌};
ghost use Rattle.paging.specs.Kept.{lent_memory};
ghost use Rattle.vmalloc.specs.Calls.{vmalloc_of, vfree_of, is_vmalloc_addr};
ghost use Rattle.vmalloc.specs.Packed.{vmalloc_on, vfree_on, vfree_found_on, vmalloced, vfreed, KernelReads, sound_lent};

use address::{Frame, VirtAddr};
use answer::Refusal;
use frame::{FrameAllocator, Marks, Tally, tallies};

// What a vmalloc answers, and the frame record that it leaves.
#[derive(Clone, Copy)]
pub struct Vmalloced {
    pub answer: Result<VirtAddr, Refusal>,
    pub frames: FrameAllocator,
}

// The same of a vfree, with what the frames of its pages were found to be.
#[derive(Clone, Copy)]
pub struct Vfreed {
    pub answer: Result<(), Refusal>,
    pub found: Tally,
    pub frames: FrameAllocator,
}

// Whether nothing that a call is lent is broken.
pub fn is_whole(
    words: &[u64],
    bitmap: &Marks,
    frames: FrameAllocator,
    root: Frame,
    list: &[u8],
) -> bool
    ensures { result ≡ sound_lent (lent_memory words.now bitmap.now frames) list.now root.0 }
{
    if !mapper::is_whole(words, bitmap, frames, root) {
        return false;
    }
    vm_list::is_sound(list)
}

pub fn vmalloc(
    words: &mut [u64],
    bitmap: &mut Marks,
    frames: FrameAllocator,
    root: Frame,
    list: &mut [u8],
    size: u64,
) -> Vmalloced
    ensures list_after { vmalloced result words.new bitmap.new list.new
        ≡ vmalloc_on (lent_memory words.old bitmap.old frames) list.old root.0 size }
    ensures kernel_reads { KernelReads (λ k. vmalloc_of k root.0 size)
        (lent_memory words.old bitmap.old frames) list.old list.new }
{
    if !is_whole(words, bitmap, frames, root, list) {
        return Vmalloced {
            answer: Err(Refusal::BrokenRecord),
            frames,
        };
    }
    if size == 0 {
        return Vmalloced {
            answer: Err(Refusal::SizeZero),
            frames,
        };
    }
    match allocator::page_align_up(size) {
        Err(n) => Vmalloced {
            answer: Err(n),
            frames,
        },
        Ok(n) => inner::allocate(words, bitmap, frames, root, list, n),
    }
}

pub fn vfree(
    words: &mut [u64],
    bitmap: &mut Marks,
    frames: FrameAllocator,
    root: Frame,
    list: &mut [u8],
    addr: VirtAddr,
) -> Vfreed
    ensures list_after { vfreed result words.new bitmap.new list.new
        ≡ vfree_on (lent_memory words.old bitmap.old frames) list.old root.0 addr.0 }
    ensures kernel_reads { KernelReads (λ k. vfree_of k root.0 addr.0)
        (lent_memory words.old bitmap.old frames) list.old list.new }
    ensures found_value { result.found ≡ vfree_found_on (lent_memory words.old bitmap.old frames) list.old root.0 addr.0 }
{
    if !is_whole(words, bitmap, frames, root, list) {
        return Vfreed {
            answer: Err(Refusal::BrokenRecord),
            found: tallies::none(),
            frames,
        };
    }
    if addr.0 == 0 {
        return Vfreed {
            answer: Err(Refusal::RegionNotFound),
            found: tallies::none(),
            frames,
        };
    }
    inner::free(words, bitmap, frames, root, list, addr)
}

pub fn is_vmalloc_addr(addr: u64) -> bool
    ensures { result ≡ is_vmalloc_addr addr }
{
    if addr < regions::VMALLOC_START {
        return false;
    }
    addr < regions::VMALLOC_END
}
