// Page-table entries: 64-bit words of a masked address joined with flag bits.
#![tactic(auto)]

pub mod page_handler;
pub mod paging;

ghost use Rattle.std.specs.Prelude.{◌≡◌, ℕ, ◌<◌, ◌≤◌, ◌*◌, get_or};
ghost use Rattle.bits.specs.Bit.{one};
ghost use Rattle.entry.specs.Entry.{index as index_of, indices, entry_of_table};

use address::VirtAddr;
use answer::Refusal;
use paging::PageTableEntry;

// A flag's power of two if it is set, for a sum of flags.
fn power_if(set: bool, power: u64) -> u64
    ensures value { result ≡ one set * power }
    ensures upper_bound { result ≤ power }
{
    if set { power } else { 0 }
}

// A page address's index at an entry that has d levels below it.
pub fn page_index(virt: VirtAddr, d: u64) -> usize
    requires { d ≤ 4 }
    ensures value { result ≡ index_of d virt.0 }
    ensures upper_bound { result < 512 }
{
    ((virt.0 >> (12 + 9 * d)) & 0x1FF) as usize
}

// A page address's indices on a board of four levels, the top level's first: bits 47-39, 38-30, 29-21, 20-12.
pub fn page_indices(virt: VirtAddr) -> [usize; 4]
    ensures value { result ≡ indices 4 virt.0 }
    ensures by_index { (k : ℕ) → get_or result k 0 < 512 }
{
    [
        page_index(virt, 3),
        page_index(virt, 2),
        page_index(virt, 1),
        page_index(virt, 0),
    ]
}

// A table's entry by index.
pub fn get_entry(table: &[u64; 512], index: usize) -> Result<PageTableEntry, Refusal>
    ensures { result ≡ entry_of_table table.now index }
{
    match table.get(index) {
        Some(&word) => Ok(PageTableEntry(word)),
        None => Err(Refusal::NotMapped),
    }
}
