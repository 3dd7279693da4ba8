// Copy-on-write pages and both fault paths: the frames are lent as words; the frame record, its bitmap and the marked pages are packed bytes.
ghost use Rattle.std.specs.Prelude.{◌≡◌};
ghost use Rattle.frame.specs.Found.{key_line, tally_of};
ghost use Rattle.layout.specs.Left.{left, Unchanged, no_leftovers, fault_leftovers, second_leftovers};
ghost use Rattle.layout.specs.Memory.{list_parts, memory_parts};
ghost use Rattle.desk_faults.specs.Faults.{packed_mark_cow, packed_unmark_cow, packed_is_cow, packed_fault, packed_fault_found, packed_fault_second};

use address::{Frame, VirtAddr};
use answer::Line;
use frame::{Marks, TallyLine, tallies};
use layout::parts;

#[unsafe(no_mangle)]
pub extern "C" fn gadulnos_mark_cow(marked: &mut [u8], addr: u64) -> Line
    ensures marked_after { left result marked.new
        ≡ packed_mark_cow marked.old addr }
    ensures refused { Unchanged no_leftovers marked.old
        (left result marked.new) }
{
    answer::line_of(cow::mark_cow(marked, VirtAddr(addr)))
}

#[unsafe(no_mangle)]
pub extern "C" fn gadulnos_unmark_cow(marked: &mut [u8], addr: u64) -> Line
    ensures marked_after { left result marked.new
        ≡ packed_unmark_cow marked.old addr }
    ensures refused { Unchanged no_leftovers marked.old
        (left result marked.new) }
{
    answer::line_of(cow::unmark_cow(marked, VirtAddr(addr)))
}

#[unsafe(no_mangle)]
pub extern "C" fn gadulnos_is_cow(marked: &[u8], addr: u64) -> Line
    ensures { result ≡ packed_is_cow marked.now addr }
{
    answer::line_of(cow::is_cow(marked, VirtAddr(addr)))
}

// The first path.
#[unsafe(no_mangle)]
pub extern "C" fn gadulnos_handle_page_fault(
    words: &mut [u64],
    fields: &mut [u8],
    bits: &mut Marks,
    root: u64,
    marked: &mut [u8],
    addr: u64,
    code: u64,
) -> TallyLine
    ensures marked_after { left (key_line result) (list_parts words.new fields.new bits.new marked.new)
        ≡ packed_fault (list_parts words.old fields.old bits.old marked.old) root addr code }
    ensures result_value { tally_of result
        ≡ packed_fault_found (list_parts words.old fields.old bits.old marked.old) root addr code }
    ensures refused { Unchanged fault_leftovers (list_parts words.old fields.old bits.old marked.old)
        (left (key_line result) (list_parts words.new fields.new bits.new marked.new)) }
{
    if fields.len() != parts::FIELDS_SIZE {
        return parts::broken_tally();
    }
    let frames = parts::get_fields(fields);
    let did = fault::handle_page_fault(
        words,
        bits,
        frames,
        Frame(root),
        marked,
        VirtAddr(addr),
        code,
    );
    let left = did.frames;
    let a = did.answer;
    let found = did.found;
    parts::put_fields(fields, left);
    tallies::tally_line(a, found)
}

// The second path.
#[unsafe(no_mangle)]
pub extern "C" fn gadulnos_handle_page_fault_second(
    words: &mut [u64],
    fields: &mut [u8],
    bits: &mut Marks,
    root: u64,
    addr: u64,
    code: u64,
) -> Line
    ensures bits_after { left result (memory_parts words.new fields.new bits.new)
        ≡ packed_fault_second (memory_parts words.old fields.old bits.old) root addr code }
    ensures refused { Unchanged second_leftovers (memory_parts words.old fields.old bits.old)
        (left result (memory_parts words.new fields.new bits.new)) }
{
    if fields.len() != parts::FIELDS_SIZE {
        return parts::broken();
    }
    let frames = parts::get_fields(fields);
    let did = handler::handle_page_fault(words, bits, frames, Frame(root), VirtAddr(addr), code);
    let left = did.frames;
    let a = did.answer;
    parts::put_fields(fields, left);
    answer::line_of(a)
}
