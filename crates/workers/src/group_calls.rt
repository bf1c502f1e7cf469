//! What is called around the groups of a round.

use workers_draw::gate::Gate;

/// What a worker calls before and after each group that it runs. A gate may be shared by threads besides, and the impl
/// of a trait can't pass on what asks for that.
pub(crate) trait GroupCalls {
    fn before(&self, group: u32);

    fn after(&self, group: u32);
}

/// The calls of a gate.
#[derive(Drop)]
pub(crate) struct GateCalls<'g, G> {
    pub(crate) gate: &'g G,
}

impl<G: Gate> GroupCalls for GateCalls<'_, G> {
    fn before(&self, group: u32) {
        self.gate.enter(group);
    }

    fn after(&self, group: u32) {
        self.gate.leave(group);
    }
}
