//! What is kept of the accesses of work-groups.

ghost use Rattle.std.specs.Prelude.{◌≡◌, ◌+◌, ◌<◌, ◌≤◌, ◌∷◌, ◌^◌, [], ℕ, List, None, length, false, true, IfOk, OnOk, OnErr};
ghost use Rattle.clmodel.specs.Cells.{byte_count};
ghost use Rattle.clmodel.specs.declared.access.Access.{Access as TheAccess};
ghost use Rattle.clmodel.specs.declared.access.Region.TheVariants as region;
ghost use Rattle.joining.specs.Memory.{wrote};
ghost use Rattle.shadow.specs.Lasting.{Absorbed};
ghost use Rattle.shadow.specs.Seen.{cell, buffer_cells, OfOthers, met_at};

use crate::pages::Pages;
use crate::seen::{Meeting, is_written};
use clmodel::access::{Access, Region};
use std::alloc::{AllocError, Global};

/// What is kept of the accesses of work-groups so far to each byte of the launch's buffers: the first access, and the
/// first of another kind, or of a store that left another byte. It is kept of whole words of four bytes, 32 bytes a
/// word, and of each byte of a word, some 100 more, where an access to a part of the word or a third store told
/// something new. An access to whole words that are kept so costs some steps for each word, and any other some for each
/// byte; memory grows by pages of 64 words that were touched.
#[derive(Drop)]
pub struct Footprint {
    buffers: Vec<Pages>,
}

/// Places for a buffer of a number, and for those below.
#[tactic(auto, using(crate::proofs::Cells::one_more))]
fn make_room(alloc: Global, buffers: &mut Vec<Pages>, number: usize) -> Result<(), AllocError>
    requires { number < 2 ^ 32 }
    ensures long { OnOk result (number < length buffers.new.items) }
    ensures same { (n byte : ℕ) → cell (buffer_cells buffers.new.items) n byte ≡ cell (buffer_cells buffers.old.items) n byte }
{
    while buffers.len() <= number {
        buffers.push(Pages::new(alloc))?;
    }
    Ok(())
}

impl Footprint {
    ghost use Rattle.shadow.specs.Seen.{IsFootprint};

    /// No accesses yet. It takes no memory.
    pub fn new(alloc: Global) -> Self
        ensures { IsFootprint result [] }
    {
        Footprint {
            buffers: Vec::new(alloc),
        }
    }

    /// Whether an access of another group's item is seen to conflict with none of these, in a launch that is uniform or
    /// not. False: `meeting` tells. No conflict is given, since room for one would be cleared for each access.
    #[inline(always)]
    pub fn is_clear(&self, uniform: bool, x: &Access) -> bool
        requires { x.now.first + byte_count x.now.width < 2 ^ 64 }
        ensures { result ≡ true → (log : List TheAccess) → IsFootprint self.now log → OfOthers x.now.item log → met_at uniform x.now.region x.now log ≡ None }
    {
        let Region::Buffer(number) = x.region else {
            return true;
        };
        match self.buffers.get(number as usize) {
            None => true,
            Some(pages) => pages.is_clear(uniform, x),
        }
    }

    /// The conflict of an access of another group's item with these, on its lowest byte that has one, with the earliest
    /// access there (OpenCL 1.2, section 3.3.1). `None` where it has none, and for each access of a local object, which
    /// no other group shares (section 6.5.2). `uniform` is the launch's: there stores that leave the same byte don't
    /// conflict. What is kept doesn't depend on it.
    pub fn meeting(&self, uniform: bool, x: &Access) -> Option<Meeting>
        requires { x.now.first + byte_count x.now.width < 2 ^ 64 }
        ensures { (log : List TheAccess) → IsFootprint self.now log → OfOthers x.now.item log → result ≡ met_at uniform x.now.region x.now log }
    {
        let Region::Buffer(number) = x.region else {
            return None;
        };
        match self.buffers.get(number as usize) {
            None => None,
            Some(pages) => pages.meeting(uniform, x),
        }
    }

    /// Whether an access wrote a byte of a buffer.
    pub fn is_written(&self, number: u32, byte: u64) -> bool
        ensures { (log : List TheAccess) → IsFootprint self.now log → result ≡ wrote log (region.Buffer number) byte }
    {
        match self.buffers.get(number as usize) {
            None => false,
            Some(pages) => is_written(pages.cell(byte as usize)),
        }
    }

    /// Adds an access. The answer is `false` where it tells nothing new: it is of a local object, or what is kept of
    /// each of its bytes stays. Where memory is refused nothing is added.
    pub fn add(&mut self, alloc: Global, x: &Access) -> Result<bool, AllocError>
        requires { x.now.first + byte_count x.now.width < 2 ^ 64 }
        ensures added { OnOk result ((log : List TheAccess) → IsFootprint self.old log → IsFootprint self.new (x.now ∷ log)) }
        ensures news { IfOk result (λ news. news ≡ false → (log : List TheAccess) → IsFootprint self.old log → Absorbed log x.now) }
        ensures told { IfOk result (λ news. news ≡ true → (log : List TheAccess) → IsFootprint self.old log → Absorbed log x.now → ⊥) }
        ensures same { OnErr result ((log : List TheAccess) → IsFootprint self.old log → IsFootprint self.new log) }
    {
        let Region::Buffer(number) = x.region else {
            return Ok(false);
        };
        make_room(alloc, &mut self.buffers, number as usize)?;
        self.buffers[number as usize].add(alloc, x)
    }
}
