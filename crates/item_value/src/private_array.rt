//! Private arrays.
#![tactic(auto)]

ghost use Rattle.std.specs.Prelude.{◌≡◌, ◌<◌, ◌≤◌, [], length, map, replicate, slice_set, take, IfOk};
ghost use Rattle.item_value.specs.Arrays.{all_present, keeping};

use std::alloc::{AllocError, Global};
use std::marker::Model;

/// A private array of an item: of each element the low bits of its number, if it is set. It has room for the longest
/// that is declared there.
#[derive(Drop)]
pub struct PrivateArray {
    elements: Vec<Option<u64>>,
    count: usize,
}

impl Model for PrivateArray {
    ghost use Rattle.std.specs.Prelude.{length, take, ◌≤◌};
    ghost use Rattle.item_value.specs.Arrays.{Elements, keeping};

    ghost Value = { Elements };

    ghost view = { λ a. keeping (take a.count a.elements.items) (length a.elements.items) };

    ghost invariant = { λ a. a.count ≤ length a.elements.items };
}

impl PrivateArray {
    /// An array without elements that has room for n.
    pub(crate) fn new(alloc: Global, most: u32) -> Result<Self, AllocError>
        ensures { IfOk result (λ array. array ≡ keeping [] most) }
    {
        let mut elements = Vec::with_capacity(alloc, most as usize)?;
        elements.resize(most as usize, None)?;
        Ok(PrivateArray { elements, count: 0 })
    }

    /// Its elements.
    pub(crate) fn as_slice(&self) -> &[Option<u64>]
        ensures { result.now ≡ self.now.present }
    {
        &self.elements[..self.count]
    }

    /// It is declared: it has n elements, and none is set (OpenCL 1.2, section 6.5.4; C99 6.2.4).
    pub fn unset(&mut self, count: usize)
        requires { count ≤ self.old.most }
        ensures { self.new ≡ keeping (replicate count None) self.old.most }
    {
        clear(&mut self.elements, count);
        self.count = count;
    }

    /// An element gets the low bits of a number.
    pub fn set(&mut self, place: usize, bits: u64)
        requires { place < length self.old.present }
        ensures { self.new ≡ keeping (slice_set self.old.present place (Some bits)) self.old.most }
    {
        self.elements[place] = Some(bits);
    }
}

/// The first n elements are made unset.
fn clear(elements: &mut Vec<Option<u64>>, count: usize)
    requires { count ≤ length elements.old.items }
    ensures kept { length elements.new.items ≡ length elements.old.items }
    ensures unset { take count elements.new.items ≡ replicate count None }
{
    for i in 0..count {
        elements[i] = None;
    }
}

/// An array for each of these lengths, none with elements.
pub fn arrays_of(alloc: Global, lengths: &[u32]) -> Result<Vec<PrivateArray>, AllocError>
    ensures empty { IfOk result (λ arrays. all_present arrays.items ≡ replicate (length lengths.now) []) }
    ensures roomy { IfOk result (λ arrays. map (λ a. a.most) arrays.items ≡ lengths.now) }
{
    let mut arrays = Vec::new(alloc);
    for i in 0..lengths.len() {
        let array = PrivateArray::new(alloc, lengths[i])?;
        arrays.push(array)?;
    }
    Ok(arrays)
}
