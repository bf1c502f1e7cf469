//! What running or replaying a launch asks of it.

ghost use Rattle.std.specs.Prelude.{◌≡◌, ◌<◌, ℕ, IfOk, List};
ghost use Rattle.clmodel.specs.declared.action.Answer.{Answer};
ghost use Rattle.item_step.specs.Running.{Running, action_of};

use crate::described::Described;
use item_step::Item;
use std::alloc::{AllocError, Global};

/// A launch whose items can be started (OpenCL 1.2, section 3.2).
pub trait Runnable: Described {
    ghost started: { Self → ℕ → Running };

    /// How many items a group has.
    fn group_size(&self) -> u32
        ensures value { result ≡ (Self.launch self.now).group_size }
        ensures some { 0 < result };

    /// How many bytes each local object has.
    fn local_sizes(&self) -> &[u64]
        ensures { result.now ≡ (Self.launch self.now).local_sizes };

    /// An item before its first action. An error is out of memory.
    fn start(&self, alloc: Global, item: u32) -> Result<Item<'_>, AllocError>
        ensures acts { IfOk result (λ machine. (answers : List Answer) → action_of machine answers ≡ (Self.launch self.now).next item answers) }
        ensures starts { IfOk result (λ machine. machine ≡ Self.started self.now item) };
}
