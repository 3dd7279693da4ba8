// mprotect on the user's memory mappings (document 02, slip 1), in munmap's order of checks.
#![tactic(auto)]

ghost use Rattle.std.specs.Prelude.{◌≡◌, true, length};
ghost use Rattle.bits.specs.Bit.{both};
ghost use Rattle.paging.specs.Calls.{lent_walk};
ghost use Rattle.mappings.specs.Packed.{mmap_in, next_in, sound_list};
ghost use Rattle.mprotect.specs.Calls.{protect_region};
ghost use Rattle.mprotect.specs.Packed.{protect_kept, kept_protected, mprotect_on};

use address::{Frame, VirtAddr};
use answer::Refusal;

// Whether nothing that the call is lent is broken.
fn is_whole(words: &[u64], start: u64, total: u64, levels: u64, root: Frame, list: &[u8]) -> bool
    ensures { result ≡ both (lent_walk levels (length words.now) start total root.0) (sound_list list.now) }
{
    if !walk::may_walk(words.len(), start, total, levels, root) {
        return false;
    }
    mappings::list::is_sound(list)
}

// The region of n bytes at `addr`: its pages, then its slot; 16 where there is none.
fn protect_region(
    words: &mut [u64],
    start: u64,
    total: u64,
    levels: u64,
    root: Frame,
    list: &mut [u8],
    addr: VirtAddr,
    n: u64,
    prot: i32,
) -> Result<(), Refusal>
    requires root_value { lent_walk levels (length words.old) start total root.0 ≡ true }
    requires list_value { sound_list list.old ≡ true }
    ensures { protect_kept result words.new list.new
        ≡ kept_protected (protect_region levels words.old start total root.0 (mmap_in list.old) addr.0 n prot) (next_in list.old) }
{
    let Some(at) = mappings::list::find_sized(list, addr.0, n) else {
        return Err(Refusal::RegionNotFound);
    };
    let writable = user_space::is_writable(prot);
    protecting::protect_pages(
        words,
        start,
        total,
        levels - 1,
        root,
        addr,
        n / 4096,
        writable,
    );
    mappings::list::set_prot(list, at, addr.0, prot);
    Ok(())
}

pub fn mprotect(
    words: &mut [u64],
    start: u64,
    total: u64,
    levels: u64,
    root: Frame,
    list: &mut [u8],
    addr: VirtAddr,
    size: u64,
    prot: i32,
) -> Result<(), Refusal>
    ensures { protect_kept result words.new list.new
        ≡ mprotect_on levels words.old start total root.0 list.old addr.0 size prot }
{
    if !is_whole(words, start, total, levels, root, list) {
        return Err(Refusal::BrokenRecord);
    }
    if size == 0 {
        return Err(Refusal::SizeZero);
    }
    if addr.0 % 4096 != 0 {
        return Err(Refusal::Unaligned);
    }
    let n = allocator::page_align_up(size)?;
    protect_region(words, start, total, levels, root, list, addr, n, prot)
}
