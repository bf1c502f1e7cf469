//! What clients ask a machine, and what they keep of its replies.

use std::alloc::{AllocError, Global};

/// What clients ask a machine.
pub trait Questions<C, R> {
    /// What the client of a number asks at a place.
    fn question(alloc: Global, number: u8, place: u32) -> Result<C, AllocError>;

    /// What that adds, and the sum that the reply says: nothing where the reply is wrong.
    fn sum(number: u8, place: u32, reply: R) -> Option<(u32, u32)>;
}

/// Adds what a question adds, and tells whether the reply is there and says the sum.
pub fn adds_up<D: Questions<C, R>, C, R>(
    total: &mut u32,
    number: u8,
    place: u32,
    reply: Option<R>,
) -> bool {
    let Some(reply) = reply else {
        return false;
    };
    let Some((add, sum)) = D::sum(number, place, reply) else {
        return false;
    };
    *total = total.wrapping_add(add);
    sum == *total
}
