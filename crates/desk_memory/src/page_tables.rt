// The mapper's calls, on lent words; the frame record and the bitmap are packed bytes.
ghost use Rattle.std.specs.Prelude.{◌≡◌};
ghost use Rattle.paging.specs.Calls.{size_of};
ghost use Rattle.layout.specs.Left.{left, Unchanged, no_leftovers, table_leftovers};
ghost use Rattle.layout.specs.Memory.{memory_parts};
ghost use Rattle.desk_memory.specs.Memory.{huge_of, line_translate, left_show, line_user_may, packed_map_page, packed_map_huge, left_unmap};

use address::{Frame, PhysAddr, VirtAddr};
use answer::Line;
use frame::Marks;
use layout::parts;
use paging::HugePageSize;

#[unsafe(no_mangle)]
pub extern "C" fn gadulnos_translate(
    words: &[u64],
    start: u64,
    total: u64,
    levels: u64,
    root: u64,
    virt: u64,
) -> Line
    ensures { result ≡ line_translate words.now start total levels root virt }
{
    answer::line_of(walk::translate(words, start, total, levels, Frame(root), VirtAddr(virt)))
}

#[unsafe(no_mangle)]
pub extern "C" fn gadulnos_show_translate(
    words: &[u64],
    start: u64,
    total: u64,
    levels: u64,
    root: u64,
    virt: u64,
    out: &mut [u64; working::SHOWN_NUMBERS],
) -> Line
    ensures { left result out.new ≡ left_show words.now start total levels root virt }
{
    let found = working::show_translate(
        words,
        start,
        total,
        levels,
        Frame(root),
        VirtAddr(virt),
        out,
    );
    answer::line_of(found)
}

#[unsafe(no_mangle)]
pub extern "C" fn gadulnos_user_may(
    words: &[u64],
    start: u64,
    total: u64,
    levels: u64,
    root: u64,
    virt: u64,
    write: bool,
) -> Line
    ensures { result ≡ line_user_may words.now start total levels root virt write }
{
    answer::line_of(walk::user_may(
        words,
        start,
        total,
        levels,
        Frame(root),
        VirtAddr(virt),
        write,
    ))
}

#[unsafe(no_mangle)]
pub extern "C" fn gadulnos_map_page(
    words: &mut [u64],
    fields: &mut [u8],
    bits: &mut Marks,
    root: u64,
    virt: u64,
    phys: u64,
    writable: bool,
    user: bool,
) -> Line
    ensures bits_after { left result (memory_parts words.new fields.new bits.new)
        ≡ packed_map_page (memory_parts words.old fields.old bits.old) root virt phys writable user }
    ensures refused { Unchanged table_leftovers (memory_parts words.old fields.old bits.old)
        (left result (memory_parts words.new fields.new bits.new)) }
{
    if fields.len() != parts::FIELDS_SIZE {
        return parts::broken();
    }
    let frames = parts::get_fields(fields);
    let did = mapper::map_page(
        words,
        bits,
        frames,
        Frame(root),
        VirtAddr(virt),
        PhysAddr(phys),
        writable,
        user,
    );
    let left = did.frames;
    let a = did.answer;
    parts::put_fields(fields, left);
    answer::line_of(a)
}

fn huge_size(gigabyte: bool) -> HugePageSize
    ensures { result ≡ huge_of gigabyte }
{
    if gigabyte {
        return HugePageSize::Size1GB;
    }
    HugePageSize::Size2MB
}

#[unsafe(no_mangle)]
pub extern "C" fn gadulnos_huge_size(gigabyte: bool) -> u64
    ensures { result ≡ size_of (huge_of gigabyte) }
{
    huge_size(gigabyte).size()
}

#[unsafe(no_mangle)]
pub extern "C" fn gadulnos_huge_alignment(gigabyte: bool) -> u64
    ensures { result ≡ size_of (huge_of gigabyte) }
{
    huge_size(gigabyte).alignment()
}

#[unsafe(no_mangle)]
pub extern "C" fn gadulnos_map_huge_page(
    words: &mut [u64],
    fields: &mut [u8],
    bits: &mut Marks,
    root: u64,
    virt: u64,
    phys: u64,
    gigabyte: bool,
    writable: bool,
    user: bool,
) -> Line
    ensures bits_after { left result (memory_parts words.new fields.new bits.new)
        ≡ packed_map_huge (memory_parts words.old fields.old bits.old) root virt phys (huge_of gigabyte) writable user }
    ensures refused { Unchanged table_leftovers (memory_parts words.old fields.old bits.old)
        (left result (memory_parts words.new fields.new bits.new)) }
{
    if fields.len() != parts::FIELDS_SIZE {
        return parts::broken();
    }
    let frames = parts::get_fields(fields);
    let size = huge_size(gigabyte);
    let did = mapper::map_huge_page(
        words,
        bits,
        frames,
        Frame(root),
        VirtAddr(virt),
        PhysAddr(phys),
        size,
        writable,
        user,
    );
    let left = did.frames;
    let a = did.answer;
    parts::put_fields(fields, left);
    answer::line_of(a)
}

#[unsafe(no_mangle)]
pub extern "C" fn gadulnos_unmap_page(
    words: &mut [u64],
    start: u64,
    total: u64,
    levels: u64,
    root: u64,
    virt: u64,
) -> Line
    ensures words_after { left result words.new
        ≡ left_unmap words.old start total levels root virt }
    ensures refused { Unchanged no_leftovers words.old
        (left result words.new) }
{
    answer::line_of(mapper::unmap_page(words, start, total, levels, Frame(root), VirtAddr(virt)))
}
