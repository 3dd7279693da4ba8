// mmap, munmap, the search by itself and mprotect: the frames are lent as words; the frame record, its bitmap and the list with next_addr are packed bytes.
ghost use Rattle.std.specs.Prelude.{◌≡◌};
ghost use Rattle.mmap.specs.Packed.{opt_addr};
ghost use Rattle.frame.specs.Found.{key_line, tally_of};
ghost use Rattle.layout.specs.Left.{left, Unchanged, no_leftovers, region_leftovers};
ghost use Rattle.layout.specs.Memory.{list_parts};
ghost use Rattle.desk_regions.specs.Regions.{packed_mmap, packed_munmap, packed_munmap_found, packed_find_free, search_leftovers, protect_parts, packed_mprotect};

use address::{Frame, VirtAddr};
use answer::Line;
use frame::{Marks, TallyLine, tallies};
use layout::parts;

#[unsafe(no_mangle)]
pub extern "C" fn gadulnos_mmap(
    words: &mut [u64],
    fields: &mut [u8],
    bits: &mut Marks,
    root: u64,
    list: &mut [u8],
    given: bool,
    addr: u64,
    size: u64,
    prot: i32,
    flags: i32,
) -> Line
    ensures list_after { left result (list_parts words.new fields.new bits.new list.new)
        ≡ packed_mmap (list_parts words.old fields.old bits.old list.old) root (opt_addr given addr) size prot flags }
    ensures refused { Unchanged region_leftovers (list_parts words.old fields.old bits.old list.old)
        (left result (list_parts words.new fields.new bits.new list.new)) }
{
    if fields.len() != parts::FIELDS_SIZE {
        return parts::broken();
    }
    let hint = mmap::opt_addr(given, addr);
    let did = mmap::mmap(
        words,
        bits,
        parts::get_fields(fields),
        Frame(root),
        list,
        hint,
        size,
        prot,
        flags,
    );
    let left = did.frames;
    let a = did.answer;
    parts::put_fields(fields, left);
    answer::line_of(a)
}

#[unsafe(no_mangle)]
pub extern "C" fn gadulnos_munmap(
    words: &mut [u64],
    fields: &mut [u8],
    bits: &mut Marks,
    root: u64,
    list: &mut [u8],
    addr: u64,
    size: u64,
) -> TallyLine
    ensures list_after { left (key_line result) (list_parts words.new fields.new bits.new list.new)
        ≡ packed_munmap (list_parts words.old fields.old bits.old list.old) root addr size }
    ensures result_value { tally_of result
        ≡ packed_munmap_found (list_parts words.old fields.old bits.old list.old) root addr size }
    ensures refused { Unchanged no_leftovers (list_parts words.old fields.old bits.old list.old)
        (left (key_line result) (list_parts words.new fields.new bits.new list.new)) }
{
    if fields.len() != parts::FIELDS_SIZE {
        return parts::broken_tally();
    }
    let did = munmap::munmap(
        words,
        bits,
        parts::get_fields(fields),
        Frame(root),
        list,
        VirtAddr(addr),
        size,
    );
    let left = did.frames;
    let a = did.answer;
    let found = did.found;
    parts::put_fields(fields, left);
    tallies::tally_line(a, found)
}

// The search of mmap.rs by itself, the size as it stands.
#[unsafe(no_mangle)]
pub extern "C" fn gadulnos_find_free_region(list: &[u8], size: u64, compared: &mut u64) -> Line
    ensures compared_after { left result compared.new ≡ packed_find_free list.now size compared.old }
    ensures refused { Unchanged search_leftovers compared.old (left result compared.new) }
{
    if !mappings::list::is_sound(list) {
        return parts::broken();
    }
    let found = free_range::find_free_region(list, size);
    let outcome = found.outcome;
    *compared = found.compared as u64;
    answer::line_of(outcome)
}

// WRITABLE on a region's pages and its prot: of the frame record the start, the total and the levels are read.
#[unsafe(no_mangle)]
pub extern "C" fn gadulnos_mprotect(
    words: &mut [u64],
    start: u64,
    total: u64,
    levels: u64,
    root: u64,
    list: &mut [u8],
    addr: u64,
    size: u64,
    prot: i32,
) -> Line
    ensures list_after { left result (protect_parts words.new list.new)
        ≡ packed_mprotect (protect_parts words.old list.old) start total levels root addr size prot }
    ensures refused { Unchanged no_leftovers (protect_parts words.old list.old)
        (left result (protect_parts words.new list.new)) }
{
    answer::line_of(mprotect::mprotect(
        words,
        start,
        total,
        levels,
        Frame(root),
        list,
        VirtAddr(addr),
        size,
        prot,
    ))
}
