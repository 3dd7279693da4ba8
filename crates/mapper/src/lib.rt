// The mapper of paging.rs, on frames lent as a slice of words. The root is a frame number; flushes are left out.
#![tactic(auto)]

pub mod inner;

ghost use Rattle.std.specs.Prelude.{◌≡◌};
ghost use Rattle.bitmap.specs.Bitmap.{marks_in};
ghost use Rattle.paging.specs.Calls.{as_changed, whole, map_page_of, map_huge_of, unmap_page};
ghost use Rattle.paging.specs.Kept.{lent_memory};
ghost use Rattle.address.specs.Address.{as_frame};

use address::{Frame, PhysAddr, VirtAddr};
use answer::Refusal;
use entry::paging::PageTableEntry;
use frame::{Changed, FrameAllocator, Marks};
use paging::HugePageSize;

// Whether all that a call which takes frames is lent is sound: what a walk needs, and the frame record.
pub fn is_whole(words: &[u64], bitmap: &Marks, frames: FrameAllocator, root: Frame) -> bool
    ensures { result ≡ whole (lent_memory words.now bitmap.now frames) root.0 }
{
    if !walk::is_lent(words.len(), frames.start, frames.total, root) {
        return false;
    }
    frames.is_sound(bitmap)
}

pub fn map_page(
    words: &mut [u64],
    bitmap: &mut Marks,
    frames: FrameAllocator,
    root: Frame,
    virt: VirtAddr,
    phys: PhysAddr,
    writable: bool,
    user: bool,
) -> Changed
    ensures value { result ≡ as_changed (map_page_of (lent_memory words.old bitmap.old frames) root.0 virt.0 phys.0 writable user) }
    ensures words_after { words.new
        ≡ (map_page_of (lent_memory words.old bitmap.old frames) root.0 virt.0 phys.0 writable user).mem.words }
    ensures bitmap_after { marks_in bitmap.new
        ≡ (map_page_of (lent_memory words.old bitmap.old frames) root.0 virt.0 phys.0 writable user).mem.frames.bits }
{
    if !is_whole(words, bitmap, frames, root) {
        return Changed {
            answer: Err(Refusal::BrokenRecord),
            frames,
        };
    }
    let e = PageTableEntry::set(phys, writable, user);
    let up = frames.levels - 1;
    inner::map_entry(words, bitmap, frames, up, root, virt, up, user, e.0)
}

// A 1 GiB entry at the last level but one, a 2 MiB entry at the last.
pub fn map_huge_page(
    words: &mut [u64],
    bitmap: &mut Marks,
    frames: FrameAllocator,
    root: Frame,
    virt: VirtAddr,
    phys: PhysAddr,
    size: HugePageSize,
    writable: bool,
    user: bool,
) -> Changed
    ensures value { result ≡ as_changed (map_huge_of (lent_memory words.old bitmap.old frames) root.0 virt.0 phys.0 size writable user) }
    ensures words_after { words.new
        ≡ (map_huge_of (lent_memory words.old bitmap.old frames) root.0 virt.0 phys.0 size writable user).mem.words }
    ensures bitmap_after { marks_in bitmap.new
        ≡ (map_huge_of (lent_memory words.old bitmap.old frames) root.0 virt.0 phys.0 size writable user).mem.frames.bits }
{
    if !is_whole(words, bitmap, frames, root) {
        return Changed {
            answer: Err(Refusal::BrokenRecord),
            frames,
        };
    }
    let align = size.alignment();
    if !virt.is_aligned(align) {
        return Changed {
            answer: Err(Refusal::HugeUnaligned),
            frames,
        };
    }
    if !phys.is_aligned(align) {
        return Changed {
            answer: Err(Refusal::HugeUnaligned),
            frames,
        };
    }
    let e = PageTableEntry::set_huge(phys, writable, user);
    let up = frames.levels - 1;
    let k = inner::tables_above(up, size);
    inner::map_entry(words, bitmap, frames, up, root, virt, k, user, e.0)
}

pub fn unmap_page(
    words: &mut [u64],
    start: u64,
    total: u64,
    levels: u64,
    root: Frame,
    virt: VirtAddr,
) -> Result<Frame, Refusal>
    ensures value { result ≡ as_frame (unmap_page levels words.old start total root.0 virt.0).walked }
    ensures words_after { words.new ≡ (unmap_page levels words.old start total root.0 virt.0).words }
{
    if !walk::may_walk(words.len(), start, total, levels, root) {
        return Err(Refusal::BrokenRecord);
    }
    Ok(Frame(inner::unmap_leaf(words, start, total, levels - 1, root, virt)?))
}
