// The pages marked copy-on-write, of page_fault.rs, as packed bytes, and the three calls on them.
#![tactic(auto)]

pub mod list;

ghost use Rattle.answer.specs.declared.Refusal.TheVariants.{BrokenRecord};
ghost use Rattle.std.specs.Prelude.{◌≡◌};
ghost use Rattle.bits.specs.Bit.{unless};
ghost use Rattle.cow.specs.Marked.{page_of, mark_cow, unmark_cow, is_cow};
ghost use Rattle.cow.specs.Packed.{marked_in, marked_fit, marked_bytes, on_marked, MarkedReads};

use address::VirtAddr;
use answer::Refusal;
use list::Marked;
use slots::SlotList;

// The most pages that are marked copy-on-write.
pub const MAX_COW_PAGES: usize = 256;

// Clears an address's place in its page.
pub const PAGE_MASK: u64 = 0xFFFF_FFFF_FFFF_F000;

// The page that an address lies in.
pub fn page_of(addr: VirtAddr) -> VirtAddr
    ensures { result.0 ≡ page_of addr.0 }
{
    VirtAddr(addr.0 & PAGE_MASK)
}

// Marks a page copy-on-write: 20 where 256 others are.
pub fn mark_cow(marked: &mut [u8], addr: VirtAddr) -> Result<(), Refusal>
    ensures marked_after { marked_bytes result marked.new ≡ on_marked (λ s. mark_cow s addr.0) marked.old }
    ensures marked_reads { MarkedReads (λ s. mark_cow s addr.0) marked.old marked.new }
{
    if !list::is_sound(marked) {
        return Err(Refusal::BrokenRecord);
    }
    let page = page_of(addr).0;
    match list::find(marked, page) {
        Ok(_) => Ok(()),
        Err(_) if Marked::count(marked) >= MAX_COW_PAGES => Err(Refusal::ListFull),
        Err(at) => {
            slots::put_in::<Marked>(marked, at, page);
            Ok(())
        }
    }
}

// Met also where the page is not marked.
pub fn unmark_cow(marked: &mut [u8], addr: VirtAddr) -> Result<(), Refusal>
    ensures marked_after { marked_bytes result marked.new ≡ on_marked (λ s. unmark_cow s addr.0) marked.old }
    ensures marked_reads { MarkedReads (λ s. unmark_cow s addr.0) marked.old marked.new }
{
    if !list::is_sound(marked) {
        return Err(Refusal::BrokenRecord);
    }
    list::unmark(marked, page_of(addr).0);
    Ok(())
}

pub fn is_cow(marked: &[u8], addr: VirtAddr) -> Result<bool, Refusal>
    ensures { result ≡ unless (marked_fit marked.now) (Err BrokenRecord) (is_cow (marked_in marked.now) addr.0) }
{
    if !list::is_sound(marked) {
        return Err(Refusal::BrokenRecord);
    }
    Ok(list::is_listed(marked, page_of(addr).0))
}
