// The list of vmalloc.rs: 256 region records and a count.
#![tactic(auto)]

pub mod lent;

ghost use Rattle.std.specs.Prelude.{◌≡◌};
ghost use Rattle.regions.specs.Regions.{well_placed};

pub const VMALLOC_START: u64 = 0xFFFF_FFC0_0000_0000;

pub const VMALLOC_END: u64 = 0xFFFF_FFE0_0000_0000;

// The most regions that the list holds.
pub const MAX_VM_REGIONS: usize = 256;

// Lists of so many regions at most go through a small array: 1.5 KB to fill instead of 6.
pub const FEW_REGIONS: usize = 64;

// A slot that holds no region is all zero, as the default.
#[derive(Clone, Copy, Default)]
pub struct VMRegion {
    pub start: u64,
    pub size: u64,
    pub used: bool,
}

// Whether a recorded region is aligned, not empty, and ends at most where the last page starts. Numbers of whole pages whose sum does not wrap end there, so that two
// tests are enough.
pub fn is_well_placed(start: u64, size: u64) -> bool
    ensures { result ≡ well_placed start size }
{
    start % 4096 + size % 4096 == 0 && start < start.wrapping_add(size)
}
