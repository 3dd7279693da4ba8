// The entry of paging.rs. page_handler.rs has one of its own, with other fields and names: docs/API.md gives the functions of both, so that they stay two types.
ghost use Rattle.std.specs.Prelude.{◌≡◌, ◌+◌, ◌*◌};
ghost use Rattle.bits.specs.Bit.{one, flag};
ghost use Rattle.entry.specs.Entry.{addr_of, entry_of, huge_entry_of, with_writable};

use crate::power_if;
use address::PhysAddr;
use answer::Shown;

#[derive(Clone, Copy, Debug, Default, PartialEq, Eq)]
pub struct PageTableEntry(pub u64);

// A word that a call hands back is printed as it is.
impl Shown for PageTableEntry {
    ghost shown = { λ e. e.0 };

    fn value(self) -> u64 {
        self.0
    }
}

impl PageTableEntry {
    pub const PRESENT: u64 = 1 << 0;

    pub const WRITABLE: u64 = 1 << 1;

    pub const USER: u64 = 1 << 2;

    pub const HUGE: u64 = 1 << 7;

    pub const ADDR_MASK: u64 = 0x000F_FFFF_FFFF_F000;

    pub fn new() -> Self
        ensures { result.0 ≡ 0 }
    {
        Self::default()
    }

    pub fn is_present(self) -> bool
        ensures { result ≡ flag 0 self.0 }
    {
        (self.0 & Self::PRESENT) != 0
    }

    pub fn is_writable(self) -> bool
        ensures { result ≡ flag 1 self.0 }
    {
        (self.0 & Self::WRITABLE) != 0
    }

    pub fn is_user(self) -> bool
        ensures { result ≡ flag 2 self.0 }
    {
        (self.0 & Self::USER) != 0
    }

    pub fn is_huge(self) -> bool
        ensures { result ≡ flag 7 self.0 }
    {
        (self.0 & Self::HUGE) != 0
    }

    pub fn addr(self) -> PhysAddr
        ensures { result.0 ≡ addr_of self.0 }
    {
        PhysAddr(self.0 & Self::ADDR_MASK)
    }

    // The word with WRITABLE as it is asked for, every other bit as it stands.
    pub fn with_writable(self, writable: bool) -> Self
        ensures { result.0 ≡ with_writable writable self.0 }
    {
        let rest = self.0 & !Self::WRITABLE;
        let chosen = power_if(writable, Self::WRITABLE);
        PageTableEntry(rest + chosen)
    }

    // PRESENT and the two choices, a sum of one power of two for each true flag.
    fn flag_sum(writable: bool, user: bool) -> u64
        ensures { result ≡ 1 + 2 * one writable + 4 * one user }
    {
        Self::PRESENT + power_if(writable, Self::WRITABLE) + power_if(user, Self::USER)
    }

    // The word that maps an address.
    pub fn set(addr: PhysAddr, writable: bool, user: bool) -> Self
        ensures { result.0 ≡ entry_of addr.0 writable user }
    {
        PageTableEntry((addr.0 & Self::ADDR_MASK) | Self::flag_sum(writable, user))
    }

    // The word that maps a huge page.
    pub fn set_huge(addr: PhysAddr, writable: bool, user: bool) -> Self
        ensures { result.0 ≡ huge_entry_of addr.0 writable user }
    {
        PageTableEntry((addr.0 & Self::ADDR_MASK) | (Self::HUGE + Self::flag_sum(writable, user)))
    }
}
