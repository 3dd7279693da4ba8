// The calls on records that were tested.
ghost use Rattle.std.specs.Prelude.{◌≡◌, true};
ghost use Rattle.answer.specs.Outcomes.{as_answer};
ghost use Rattle.address.specs.Address.{as_virt};
ghost use Rattle.paging.specs.Kept.{lent_memory};
ghost use Rattle.vmalloc.specs.Packed.{kept_kernel, vmalloced, vfreed, KernelStands, sound_lent, placed_on, released_on, released_found_on};

use crate::{Vfreed, Vmalloced};
use address::{Frame, VirtAddr};
use answer::Refusal;
use frame::{FrameAllocator, Marks, tallies};

// `size` bytes at the first free region large enough, its pages mapped; 15 where there is none. The region of a refused call is free, with its size cut.
pub fn allocate(
    words: &mut [u64],
    bitmap: &mut Marks,
    frames: FrameAllocator,
    root: Frame,
    list: &mut [u8],
    size: u64,
) -> Vmalloced
    requires { sound_lent (lent_memory words.old bitmap.old frames) list.old root.0 ≡ true }
    ensures list_after { vmalloced result words.new bitmap.new list.new
        ≡ kept_kernel as_virt (placed_on (lent_memory words.old bitmap.old frames) list.old root.0 size) }
    ensures kernel_stands { KernelStands (placed_on (lent_memory words.old bitmap.old frames) list.old root.0 size)
        list.new }
{
    let n = vm_list::count(list);
    let Some(i) = vm_list::first_fit(list, n, size) else {
        return Vmalloced {
            answer: Err(Refusal::NoRegion),
            frames,
        };
    };
    let r = vm_list::slot(list, i);
    let start = VirtAddr(r.start);
    let up = frames.levels - 1;
    let run = pages::map_pages(
        words,
        bitmap,
        frames,
        up,
        root,
        start,
        size / 4096,
        true,
        false,
    );
    let walked = run.walked;
    let left = run.frames;
    match walked {
        Err(e) => {
            vm_list::take_region(list, n, i, size, false);
            Vmalloced {
                answer: Err(e),
                frames: left,
            }
        }
        Ok(_) => {
            vm_list::take_region(list, n, i, size, true);
            Vmalloced {
                answer: Ok(start),
                frames: left,
            }
        }
    }
}

// The used region at an address free, its pages unmapped and their frames freed; 16 where there is none.
pub fn free(
    words: &mut [u64],
    bitmap: &mut Marks,
    frames: FrameAllocator,
    root: Frame,
    list: &mut [u8],
    addr: VirtAddr,
) -> Vfreed
    requires { sound_lent (lent_memory words.old bitmap.old frames) list.old root.0 ≡ true }
    ensures list_after { vfreed result words.new bitmap.new list.new
        ≡ kept_kernel as_answer (released_on (lent_memory words.old bitmap.old frames) list.old root.0 addr.0) }
    ensures kernel_stands { KernelStands (released_on (lent_memory words.old bitmap.old frames) list.old root.0 addr.0)
        list.new }
    ensures found_value { result.found ≡ released_found_on (lent_memory words.old bitmap.old frames) list.old root.0 addr.0 }
{
    let n = vm_list::count(list);
    let Some(i) = vm_list::find_used(list, n, addr.0) else {
        return Vfreed {
            answer: Err(Refusal::RegionNotFound),
            found: tallies::none(),
            frames,
        };
    };
    let r = vm_list::slot(list, i);
    let up = frames.levels - 1;
    let given = freeing::free_pages(words, bitmap, frames, up, root, addr, r.size / 4096);
    let found = given.found;
    let left = given.frames;
    vm_list::free_region(list, n, i);
    Vfreed {
        answer: Ok(()),
        found,
        frames: left,
    }
}
