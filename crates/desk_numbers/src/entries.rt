// Rounding, entries, flags and indices.
ghost use Rattle.std.specs.Prelude.{◌≡◌};
ghost use Rattle.bits.specs.Bit.{flag};
ghost use Rattle.answer.specs.Numbers.{count_line};
ghost use Rattle.allocator.specs.Round.{align_down, align_up, rounded};
ghost use Rattle.entry.specs.Entry.{addr_of, entry_of, huge_entry_of, indices, entry_of_table};
ghost use Rattle.entry.specs.Flags.{bits_of, flags_of, flag_entry_of};
ghost use Rattle.desk_numbers.specs.Line.{entry_line, ten_flags};

use address::{PhysAddr, VirtAddr};
use answer::{Line, Refusal};
use entry::page_handler;
use entry::paging::PageTableEntry;

#[unsafe(no_mangle)]
pub extern "C" fn gadulnos_align_down(addr: u64, align: u64) -> u64
    ensures { result ≡ align_down addr align }
{
    allocator::align_down(addr, align)
}

#[unsafe(no_mangle)]
pub extern "C" fn gadulnos_align_up(addr: u64, align: u64) -> Line
    ensures { result ≡ count_line (align_up addr align) }
{
    answer::line_of(allocator::align_up(addr, align))
}

#[unsafe(no_mangle)]
pub extern "C" fn gadulnos_page_align_up(size: u64) -> Line
    ensures { result ≡ count_line (rounded size) }
{
    answer::line_of(allocator::page_align_up(size))
}

#[unsafe(no_mangle)]
pub extern "C" fn gadulnos_entry_set(phys: u64, writable: bool, user: bool) -> u64
    ensures { result ≡ entry_of phys writable user }
{
    PageTableEntry::set(PhysAddr(phys), writable, user).0
}

#[unsafe(no_mangle)]
pub extern "C" fn gadulnos_entry_set_huge(phys: u64, writable: bool, user: bool) -> u64
    ensures { result ≡ huge_entry_of phys writable user }
{
    PageTableEntry::set_huge(PhysAddr(phys), writable, user).0
}

#[unsafe(no_mangle)]
pub extern "C" fn gadulnos_entry_addr(entry: u64) -> u64
    ensures { result ≡ addr_of entry }
{
    PageTableEntry(entry).addr().0
}

#[unsafe(no_mangle)]
pub extern "C" fn gadulnos_entry_present(entry: u64) -> bool
    ensures { result ≡ flag 0 entry }
{
    PageTableEntry(entry).is_present()
}

#[unsafe(no_mangle)]
pub extern "C" fn gadulnos_entry_writable(entry: u64) -> bool
    ensures { result ≡ flag 1 entry }
{
    PageTableEntry(entry).is_writable()
}

#[unsafe(no_mangle)]
pub extern "C" fn gadulnos_entry_user(entry: u64) -> bool
    ensures { result ≡ flag 2 entry }
{
    PageTableEntry(entry).is_user()
}

#[unsafe(no_mangle)]
pub extern "C" fn gadulnos_entry_huge(entry: u64) -> bool
    ensures { result ≡ flag 7 entry }
{
    PageTableEntry(entry).is_huge()
}

// The bits of ten flags, in the order of the fields.
#[unsafe(no_mangle)]
pub extern "C" fn gadulnos_flags_to_bits(
    present: bool,
    writable: bool,
    user: bool,
    write_through: bool,
    cache_disabled: bool,
    accessed: bool,
    dirty: bool,
    huge: bool,
    global: bool,
    no_execute: bool,
) -> u64
    ensures { result ≡ bits_of (ten_flags present writable user write_through cache_disabled accessed dirty huge global no_execute) }
{
    let flags = page_handler::PageFlags {
        present,
        writable,
        user,
        write_through,
        cache_disabled,
        accessed,
        dirty,
        huge,
        global,
        no_execute,
    };
    flags.to_bits()
}

// A word's flags, taken apart and joined again.
#[unsafe(no_mangle)]
pub extern "C" fn gadulnos_flags(bits: u64) -> u64
    ensures { result ≡ bits_of (flags_of bits) }
{
    page_handler::PageFlags::from_bits(bits).to_bits()
}

// The second fault path's entry, with the flags of a word.
#[unsafe(no_mangle)]
pub extern "C" fn gadulnos_handler_entry(phys: u64, bits: u64) -> u64
    ensures { result ≡ flag_entry_of phys (flags_of bits) }
{
    page_handler::PageTableEntry::set(phys, page_handler::PageFlags::from_bits(bits)).entry
}

#[unsafe(no_mangle)]
pub extern "C" fn gadulnos_handler_present(word: u64) -> bool
    ensures { result ≡ flag 0 word }
{
    let e = page_handler::PageTableEntry { entry: word };
    e.is_present()
}

#[unsafe(no_mangle)]
pub extern "C" fn gadulnos_handler_addr(word: u64) -> u64
    ensures { result ≡ addr_of word }
{
    let e = page_handler::PageTableEntry { entry: word };
    e.physical_address()
}

#[unsafe(no_mangle)]
pub extern "C" fn gadulnos_handler_flags(word: u64) -> u64
    ensures { result ≡ bits_of (flags_of word) }
{
    let e = page_handler::PageTableEntry { entry: word };
    e.flags().to_bits()
}

#[unsafe(no_mangle)]
pub extern "C" fn gadulnos_get_entry(table: &[u64; 512], index: usize) -> Line
    ensures { result ≡ entry_line (entry_of_table table.now index) }
{
    answer::line_of(entry::get_entry(table, index))
}

#[unsafe(no_mangle)]
pub extern "C" fn gadulnos_page_indices(virt: u64, out: &mut [usize; 4])
    ensures { out.new ≡ indices 4 virt }
{
    *out = entry::page_indices(VirtAddr(virt));
}
