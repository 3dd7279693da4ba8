// vmalloc and vfree: the frames are lent as words; the frame record, its bitmap and the list are packed bytes.
ghost use Rattle.std.specs.Prelude.{◌≡◌};
ghost use Rattle.vmalloc.specs.Calls.{is_vmalloc_addr};
ghost use Rattle.frame.specs.Found.{key_line, tally_of};
ghost use Rattle.layout.specs.Memory.{list_parts};
ghost use Rattle.layout.specs.Left.{left, Unchanged, no_leftovers, region_leftovers};
ghost use Rattle.desk_regions.specs.Regions.{packed_vmalloc, packed_vfree, packed_vfree_found};

use address::{Frame, VirtAddr};
use answer::Line;
use frame::{Marks, TallyLine, tallies};
use layout::parts;

#[unsafe(no_mangle)]
pub extern "C" fn gadulnos_vmalloc(
    words: &mut [u64],
    fields: &mut [u8],
    bits: &mut Marks,
    root: u64,
    list: &mut [u8],
    size: u64,
) -> Line
    ensures list_after { left result (list_parts words.new fields.new bits.new list.new)
        ≡ packed_vmalloc (list_parts words.old fields.old bits.old list.old) root size }
    ensures refused { Unchanged region_leftovers (list_parts words.old fields.old bits.old list.old)
        (left result (list_parts words.new fields.new bits.new list.new)) }
{
    if fields.len() != parts::FIELDS_SIZE {
        return parts::broken();
    }
    let did = vmalloc::vmalloc(
        words,
        bits,
        parts::get_fields(fields),
        Frame(root),
        list,
        size,
    );
    let left = did.frames;
    let a = did.answer;
    parts::put_fields(fields, left);
    answer::line_of(a)
}

#[unsafe(no_mangle)]
pub extern "C" fn gadulnos_vfree(
    words: &mut [u64],
    fields: &mut [u8],
    bits: &mut Marks,
    root: u64,
    list: &mut [u8],
    addr: u64,
) -> TallyLine
    ensures list_after { left (key_line result) (list_parts words.new fields.new bits.new list.new)
        ≡ packed_vfree (list_parts words.old fields.old bits.old list.old) root addr }
    ensures result_value { tally_of result
        ≡ packed_vfree_found (list_parts words.old fields.old bits.old list.old) root addr }
    ensures refused { Unchanged no_leftovers (list_parts words.old fields.old bits.old list.old)
        (left (key_line result) (list_parts words.new fields.new bits.new list.new)) }
{
    if fields.len() != parts::FIELDS_SIZE {
        return parts::broken_tally();
    }
    let did = vmalloc::vfree(
        words,
        bits,
        parts::get_fields(fields),
        Frame(root),
        list,
        VirtAddr(addr),
    );
    let left = did.frames;
    let a = did.answer;
    let found = did.found;
    parts::put_fields(fields, left);
    tallies::tally_line(a, found)
}

#[unsafe(no_mangle)]
pub extern "C" fn gadulnos_is_vmalloc_addr(addr: u64) -> bool
    ensures { result ≡ is_vmalloc_addr addr }
{
    vmalloc::is_vmalloc_addr(addr)
}
