// The entry and the flags of page_handler.rs.
ghost use Rattle.std.specs.Prelude.{◌≡◌};
ghost use Rattle.bits.specs.Bit.{flag};
ghost use Rattle.entry.specs.Entry.{addr_of};
ghost use Rattle.entry.specs.Flags.{no_flags, bits_of, flags_of, flag_entry_of};

use crate::power_if;

#[derive(Clone, Copy, Debug, Default, PartialEq, Eq)]
pub struct PageFlags {
    pub present: bool,
    pub writable: bool,
    pub user: bool,
    pub write_through: bool,
    pub cache_disabled: bool,
    pub accessed: bool,
    pub dirty: bool,
    pub huge: bool,
    pub global: bool,
    pub no_execute: bool,
}

impl PageFlags {
    pub fn new() -> Self
        ensures { result ≡ no_flags }
    {
        Self::default()
    }

    // A sum of one power of two for each true flag.
    pub fn to_bits(self) -> u64
        ensures { result ≡ bits_of self }
    {
        power_if(self.present, 1 << 0)
            + power_if(self.writable, 1 << 1)
            + power_if(self.user, 1 << 2)
            + power_if(self.write_through, 1 << 3)
            + power_if(self.cache_disabled, 1 << 4)
            + power_if(self.accessed, 1 << 5)
            + power_if(self.dirty, 1 << 6)
            + power_if(self.huge, 1 << 7)
            + power_if(self.global, 1 << 8)
            + power_if(self.no_execute, 1 << 63)
    }

    pub fn from_bits(bits: u64) -> Self
        ensures { result ≡ flags_of bits }
    {
        Self {
            present: (bits & (1 << 0)) != 0,
            writable: (bits & (1 << 1)) != 0,
            user: (bits & (1 << 2)) != 0,
            write_through: (bits & (1 << 3)) != 0,
            cache_disabled: (bits & (1 << 4)) != 0,
            accessed: (bits & (1 << 5)) != 0,
            dirty: (bits & (1 << 6)) != 0,
            huge: (bits & (1 << 7)) != 0,
            global: (bits & (1 << 8)) != 0,
            no_execute: (bits & (1 << 63)) != 0,
        }
    }
}

#[derive(Clone, Copy, Debug, Default, PartialEq, Eq)]
pub struct PageTableEntry {
    pub entry: u64,
}

impl PageTableEntry {
    pub const PRESENT: u64 = 1 << 0;

    pub const ADDR_MASK: u64 = 0x000F_FFFF_FFFF_F000;

    pub fn new() -> Self
        ensures { result.entry ≡ 0 }
    {
        Self::default()
    }

    pub fn is_present(self) -> bool
        ensures { result ≡ flag 0 self.entry }
    {
        (self.entry & Self::PRESENT) != 0
    }

    pub fn physical_address(self) -> u64
        ensures { result ≡ addr_of self.entry }
    {
        self.entry & Self::ADDR_MASK
    }

    pub fn flags(self) -> PageFlags
        ensures { result ≡ flags_of self.entry }
    {
        PageFlags::from_bits(self.entry)
    }

    pub fn set(phys: u64, flags: PageFlags) -> Self
        ensures { result.entry ≡ flag_entry_of phys flags }
    {
        Self {
            entry: (phys & Self::ADDR_MASK) | flags.to_bits(),
        }
    }
}
