// Virtual and physical addresses and frame numbers: three number types that do not mix.
#![tactic(auto)]

ghost use Rattle.std.specs.Prelude.{◌≡◌, ◌*◌, ◌/◌, ◌%◌, ◌^◌};
ghost use Rattle.allocator.specs.Round.{align_down};
ghost use Rattle.address.specs.Address.{aligned, virt_up, phys_up, zone_of};

use answer::{Refusal, Shown};

#[derive(Clone, Copy)]
pub struct VirtAddr(pub u64);

#[derive(Clone, Copy)]
pub struct PhysAddr(pub u64);

// The frame with this number: its memory starts at 4096 times the number.
#[derive(Clone, Copy)]
pub struct Frame(pub u64);

// An address or a frame that a call hands back is printed by its number.
impl Shown for VirtAddr {
    ghost shown = { λ a. a.0 };

    fn value(self) -> u64 {
        self.0
    }
}

impl Shown for PhysAddr {
    ghost shown = { λ a. a.0 };

    fn value(self) -> u64 {
        self.0
    }
}

impl Shown for Frame {
    ghost shown = { λ f. f.0 };

    fn value(self) -> u64 {
        self.0
    }
}

// The zones of physical memory: below 16 MiB, below 896 MiB, and above.
#[derive(Clone, Copy)]
pub enum MemoryZone {
    Dma,
    Normal,
    High,
}

// Whether x is a multiple of align; of 0 only 0 is.
fn is_multiple_of(x: u64, align: u64) -> bool
    ensures { result ≡ aligned x align }
{
    if align == 0 {
        return x == 0;
    }
    x % align == 0
}

impl VirtAddr {
    pub fn new(addr: u64) -> Self
        ensures { result.0 ≡ addr }
    {
        VirtAddr(addr)
    }

    pub fn as_u64(self) -> u64
        ensures { result ≡ self.0 }
    {
        self.0
    }

    pub fn align_down(self, align: u64) -> Self
        ensures { result.0 ≡ align_down self.0 align }
    {
        VirtAddr(allocator::align_down(self.0, align))
    }

    pub fn align_up(self, align: u64) -> Result<VirtAddr, Refusal>
        ensures { result ≡ virt_up self.0 align }
    {
        Ok(VirtAddr(allocator::align_up(self.0, align)?))
    }

    pub fn is_aligned(self, align: u64) -> bool
        ensures { result ≡ aligned self.0 align }
    {
        is_multiple_of(self.0, align)
    }

    pub fn page_offset(self) -> u64
        ensures { result ≡ self.0 % 2 ^ 12 }
    {
        self.0 & 0xFFF
    }

    pub fn page_number(self) -> u64
        ensures { result ≡ self.0 / 2 ^ 12 }
    {
        self.0 >> 12
    }
}

impl PhysAddr {
    pub fn new(addr: u64) -> Self
        ensures { result.0 ≡ addr }
    {
        PhysAddr(addr)
    }

    pub fn as_u64(self) -> u64
        ensures { result ≡ self.0 }
    {
        self.0
    }

    pub fn align_down(self, align: u64) -> Self
        ensures { result.0 ≡ align_down self.0 align }
    {
        PhysAddr(allocator::align_down(self.0, align))
    }

    pub fn align_up(self, align: u64) -> Result<PhysAddr, Refusal>
        ensures { result ≡ phys_up self.0 align }
    {
        Ok(PhysAddr(allocator::align_up(self.0, align)?))
    }

    pub fn is_aligned(self, align: u64) -> bool
        ensures { result ≡ aligned self.0 align }
    {
        is_multiple_of(self.0, align)
    }

    pub fn zone(self) -> MemoryZone
        ensures { result ≡ zone_of self.0 }
    {
        if self.0 <= 0xFF_FFFF {
            return MemoryZone::Dma;
        }
        if self.0 <= 0x37FF_FFFF {
            return MemoryZone::Normal;
        }
        MemoryZone::High
    }
}

impl Frame {
    pub fn containing_address(addr: u64) -> Frame
        ensures { result.0 ≡ addr / 2 ^ 12 }
    {
        Frame(addr >> 12)
    }

    // A frame's address has 64 bits: those of a number past 2^52 fall off the top, as in the source without overflow checks.
    pub fn start_address(self) -> u64
        ensures { result ≡ self.0 * 2 ^ 12 % 2 ^ 64 }
    {
        self.0 << 12
    }

    pub fn number(self) -> u64
        ensures { result ≡ self.0 }
    {
        self.0
    }
}
