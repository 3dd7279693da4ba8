// Rounding, as allocator.rs has it: one function for every size and every alignment.
#![tactic(auto)]

ghost use Rattle.std.specs.Prelude.{◌≡◌, ◌-◌};
ghost use Rattle.allocator.specs.Round.{align_down, align_up, rounded};

use answer::Refusal;

// The alignment's low bits: an alignment of 0 counts as 1.
fn low_bits(align: u64) -> u64
    ensures { result ≡ align - 1 }
{
    if align == 0 {
        return 0;
    }
    align - 1
}

pub fn align_down(addr: u64, align: u64) -> u64
    ensures { result ≡ align_down addr align }
{
    addr & !low_bits(align)
}

pub fn align_up(addr: u64, align: u64) -> Result<u64, Refusal>
    ensures { result ≡ align_up addr align }
{
    let low = low_bits(align);
    if addr > 0xFFFF_FFFF_FFFF_FFFF - low {
        return Err(Refusal::TooLarge);
    }
    Ok(align_down(addr + low, align))
}

// A size in whole pages, in bytes: the rounding of every size in the project.
pub fn page_align_up(size: u64) -> Result<u64, Refusal>
    ensures { result ≡ rounded size }
{
    align_up(size, 4096)
}
