//! Spaces that can only be read.

ghost use Rattle.std.specs.Prelude.{◌≡◌, true, false};

use crate::space::{Space, SpaceFault};
use clmodel::access::{Class, FetchOp, Width};

/// A lent space, read as constant memory: it answers every store, update and fetch by `ReadOnly` (OpenCL 1.2, section
/// 6.5.3).
#[derive(Drop)]
pub struct ConstView<'a, S: Space> {
    inner: &'a S,
}

impl<'a, S: Space> ConstView<'a, S> {
    /// A view of a space.
    pub fn new(inner: &'a S) -> Self
        ensures { result.inner.now ≡ inner.now }
    {
        ConstView { inner }
    }
}

impl<S: Space> Space for ConstView<'_, S> {
    ghost bytes = { λ view. S.bytes view.inner.now };

    ghost read_only = { true };

    ghost may_want = { false };

    fn size(&self) -> u64 {
        self.inner.size()
    }

    fn load(&self, at: u64, width: Width) -> Result<u64, SpaceFault> {
        self.inner.load(at, width)
    }

    fn store(&mut self, _at: u64, _width: Width, _value: u64) -> Result<(), SpaceFault> {
        Err(SpaceFault::ReadOnly)
    }

    fn update(&mut self, _at: u64, _class: Class, _operand: u32) -> Result<(), SpaceFault> {
        Err(SpaceFault::ReadOnly)
    }

    fn fetch(&mut self, _at: u64, _op: FetchOp, _operand: u32) -> Result<u32, SpaceFault> {
        Err(SpaceFault::ReadOnly)
    }
}
