// Addresses and frame numbers.
ghost use Rattle.std.specs.Prelude.{◌≡◌, ◌*◌, ◌/◌, ◌%◌, ◌^◌};
ghost use Rattle.address.specs.Address.{aligned, zone_of};
ghost use Rattle.desk_numbers.specs.Line.{zone_number};

use address::{Frame, PhysAddr, VirtAddr};

#[unsafe(no_mangle)]
pub extern "C" fn gadulnos_is_aligned(addr: u64, align: u64) -> bool
    ensures { result ≡ aligned addr align }
{
    VirtAddr(addr).is_aligned(align)
}

#[unsafe(no_mangle)]
pub extern "C" fn gadulnos_page_offset(virt: u64) -> u64
    ensures { result ≡ virt % 2 ^ 12 }
{
    VirtAddr(virt).page_offset()
}

#[unsafe(no_mangle)]
pub extern "C" fn gadulnos_page_number(virt: u64) -> u64
    ensures { result ≡ virt / 2 ^ 12 }
{
    VirtAddr(virt).page_number()
}

// 0 for DMA, 1 for normal, 2 for high memory.
#[unsafe(no_mangle)]
pub extern "C" fn gadulnos_zone(phys: u64) -> u64
    ensures { result ≡ zone_number (zone_of phys) }
{
    PhysAddr(phys).zone() as u64
}

// The number of the frame that holds a physical address.
#[unsafe(no_mangle)]
pub extern "C" fn gadulnos_containing_address(phys: u64) -> u64
    ensures { result ≡ phys / 2 ^ 12 }
{
    Frame::containing_address(phys).0
}

// A frame's first address: the low 64 bits of 4096 times its number.
#[unsafe(no_mangle)]
pub extern "C" fn gadulnos_start_address(frame: u64) -> u64
    ensures { result ≡ frame * 2 ^ 12 % 2 ^ 64 }
{
    Frame(frame).start_address()
}
