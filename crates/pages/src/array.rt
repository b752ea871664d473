//! Arrays of pages, as what stands on them sees them.
ghost use Rattle.std.specs.Prelude.{◌≡◌, ◌≢◌, ◌⊎◌, ◌↔◌, ◌∷◌, [], ℕ, ◌<◌, List, None, IsTrue, IsSome, OnOk, IfOk, IfErr};
ghost use Rattle.storage_sizes.specs.Sizes.{max_pages};
ghost use Rattle.pages.specs.declared.array.PageFault.{PageFault as Fault};
ghost use Rattle.pages.specs.declared.array.PageFault.TheVariants as faults;
ghost use Rattle.page_nodes.specs.Views.{bytes_of};
ghost use Rattle.pages.specs.State.{PagesState, OnlyReads, Writes, Takes, Frees, OwnPages, GetOwn, HasNoOwn};

use page_nodes::PageView;
use std::alloc::AllocError;
use storage_sizes::PAGE_SIZE;

/// Why a call on pages failed.
#[derive(Clone, Copy, Drop, PartialEq, Eq)]
pub enum PageFault {
    /// No page is left.
    Full,
    /// An allocation failed.
    Memory,
    /// The device below failed.
    Device,
    /// The page is not in use; of a tree, also: what was read is no node.
    Malformed,
}

impl From<AllocError> for PageFault {
    ghost from_gives = { λ _ fault. fault ≡ faults.Memory };

    fn from(_refused: AllocError) -> PageFault {
        PageFault::Memory
    }
}

/// An array of logical pages, each in use or not. After a fault of `write`, `new_page` or
/// `free_page` nothing is known of the array: the caller abandons its changes. Where a call
/// succeeds, no call of a device below has failed, in it or before.
pub trait Pages {
    /// The array, and the premise of all promises on it.
    ghost state: { Self → PagesState };

    /// The bytes of the page that was fetched last.
    ghost fetched: { Self → List ℕ };

    /// What no call ever touches, between a state and a later one.
    ghost preserved: { Self → Self → Type 0 };

    /// Where no call is made, it is preserved.
    ghost preserved_same: { (p : Self) → preserved p p };

    /// What two runs of calls leave alone, both together do.
    ghost preserved_joined: { (p q r : Self) → preserved p q → preserved q r → preserved p r };

    /// Why the last call between a state and a later one failed.
    ghost failed_with: { Self → Self → Fault → Type 0 };

    /// The reason of a fault is also one since an earlier state.
    ghost failed_with_later: { (p q r : Self) (f : Fault)
        → preserved p q → failed_with q r f → failed_with p r f };

    /// The page below that a logical page has for its own: the call that took it for the logical page can be given up, and
    /// then it is free again.
    ghost own: { Self → OwnPages };

    /// No call of a device below has failed.
    ghost works: { Self → Type 0 };

    /// Nothing below is written between a state and a later one.
    ghost writes_nothing: { Self → Self → Type 0 };

    /// Where nothing is written in two runs of calls, nothing is in both together.
    ghost writes_nothing_joined: { (p q r : Self) → preserved p q
        → writes_nothing p q → writes_nothing q r → writes_nothing p r };

    /// A page in use has a number of 16 bits.
    ghost numbered: { (p : Self) (l : ℕ)
        → (state p).sound → IsSome ((state p).array l) → l < max_pages };

    /// Whether a page is in use. No call below is made.
    fn is_used(&self, page: u32) -> bool
        ensures { (state self.now).sound
            → (IsTrue result ↔ IsSome ((state self.now).array page)) };

    /// Fetches a page, which `fetched` lends until the next call. Malformed: it is not in use. The array stays as it is,
    /// also after a fault, and nothing below is written.
    fn fetch(&mut self, page: u32) -> Result<(), PageFault>
        ensures preserved { preserved self.old self.new }
        ensures writes_nothing { writes_nothing self.old self.new }
        ensures works { OnOk result (works self.new) }
        ensures only_reads { (state self.old).sound → OnlyReads (state self.old) (state self.new) }
        ensures found { (state self.old).sound
            → OnOk result ((state self.old).array page ≡ Some (fetched self.new)) }
        ensures malformed { (state self.old).sound → result ≡ Err PageFault.Malformed
            → (state self.old).array page ≡ None }
        ensures cause { (state self.old).sound
            → IfErr result (λ f. failed_with self.old self.new f) }
        ensures faults { IfErr result
            (λ f. (f ≡ PageFault.Malformed) ⊎ (f ≡ PageFault.Device)) }
        ensures own { OnOk result (GetOwn [] (own self.old) (own self.new)) };

    /// The page that was fetched last, where no other call came since.
    fn fetched(&self) -> PageView<'_>
        ensures { bytes_of result ≡ fetched self.now };

    /// Reads a page. Malformed: it is not in use. The array stays as it is, also after a fault,
    /// after which nothing is promised of `bytes`, and nothing below is written.
    fn read(&mut self, page: u32, bytes: &mut [u8; PAGE_SIZE]) -> Result<(), PageFault>
        ensures preserved { preserved self.old self.new }
        ensures writes_nothing { writes_nothing self.old self.new }
        ensures works { OnOk result (works self.new) }
        ensures only_reads { (state self.old).sound → OnlyReads (state self.old) (state self.new) }
        ensures found { (state self.old).sound
            → OnOk result ((state self.old).array page ≡ Some bytes.new) }
        ensures malformed { (state self.old).sound → result ≡ Err PageFault.Malformed
            → (state self.old).array page ≡ None }
        ensures cause { (state self.old).sound
            → IfErr result (λ f. failed_with self.old self.new f) }
        ensures faults { IfErr result
            (λ f. (f ≡ PageFault.Malformed) ⊎ (f ≡ PageFault.Device)) }
        ensures own { OnOk result (GetOwn [] (own self.old) (own self.new)) };

    /// Writes a page that is in use. Malformed: it is not.
    fn write(&mut self, page: u32, bytes: &[u8; PAGE_SIZE]) -> Result<(), PageFault>
        ensures preserved { preserved self.old self.new }
        ensures works { OnOk result (works self.new) }
        ensures used { (state self.old).sound → OnOk result (IsSome ((state self.old).array page)) }
        ensures written { (state self.old).sound → IsSome ((state self.old).array page)
            → OnOk result (Writes page bytes.now (state self.old) (state self.new)) }
        ensures malformed { (state self.old).sound → result ≡ Err PageFault.Malformed
            → (state self.old).array page ≡ None }
        ensures cause { (state self.old).sound
            → IfErr result (λ f. failed_with self.old self.new f) }
        ensures own { OnOk result (GetOwn (page ∷ []) (own self.old) (own self.new)) }
        ensures full { IfErr result (λ f. f ≡ PageFault.Full
            → GetOwn [] (own self.old) (own self.new) × HasNoOwn page (own self.new)) };

    /// Takes a page that is not in use, and writes it.
    fn new_page(&mut self, bytes: &[u8; PAGE_SIZE]) -> Result<u32, PageFault>
        ensures preserved { preserved self.old self.new }
        ensures works { OnOk result (works self.new) }
        ensures taken { (state self.old).sound
            → IfOk result (λ page. Takes page bytes.now (state self.old) (state self.new)) }
        ensures malformed { (state self.old).sound → result ≢ Err PageFault.Malformed }
        ensures cause { (state self.old).sound
            → IfErr result (λ f. failed_with self.old self.new f) }
        ensures own { IfOk result (λ page. GetOwn (page ∷ []) (own self.old) (own self.new)) }
        ensures full { IfErr result (λ f. f ≡ PageFault.Full
            → GetOwn [] (own self.old) (own self.new)) };

    /// Gives back a page that is in use. Malformed: it is not.
    fn free_page(&mut self, page: u32) -> Result<(), PageFault>
        ensures preserved { preserved self.old self.new }
        ensures works { OnOk result (works self.new) }
        ensures used { (state self.old).sound → OnOk result (IsSome ((state self.old).array page)) }
        ensures freed { (state self.old).sound → IsSome ((state self.old).array page)
            → OnOk result (Frees page (state self.old) (state self.new)) }
        ensures malformed { (state self.old).sound → result ≡ Err PageFault.Malformed
            → (state self.old).array page ≡ None }
        ensures cause { (state self.old).sound
            → IfErr result (λ f. failed_with self.old self.new f) }
        ensures faults { IfErr result
            (λ f. (f ≡ PageFault.Malformed) ⊎ (f ≡ PageFault.Device)) }
        ensures own { OnOk result (GetOwn [] (own self.old) (own self.new)) };

    /// Whether a write of a page leaves the last so many free pages below alone: the page has one of its own there, or more
    /// than so many are free. A caller that may choose asks it; no promise rests on the answer.
    fn spares(&self, page: u32, last: u32) -> bool;

    /// Where no call is made, nothing is written.
    ghost writes_nothing_same: { (p : Self) → writes_nothing p p };
}
