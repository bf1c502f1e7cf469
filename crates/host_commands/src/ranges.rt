//! Which index spaces a launch may have (OpenCL 1.2, section 5.8).
#![tactic(auto)]

ghost use Rattle.std.specs.Prelude.{◌≡◌, ◌<◌, ◌≤◌, ◌%◌, ◌^◌, ◌+◌, ◌-◌, ◌==◌, ◌||◌, not, nat_lt, All};
ghost use Rattle.std.specs.List.{list_any, zip};
ghost use Rattle.clmodel.specs.Setup.{item_count, group_items};
ghost use Rattle.host_commands.specs.Ranges.{is_bad_dimension, is_bad_group, is_too_many, IsLaunchable};

use clmodel::setup::Range;
use limits::Limits;

/// Whether in a dimension the offset and the global size pass 2^64 - 1 together (OpenCL 1.2, section 5.8).
fn any_passes(offset: &[u64], global: &[u64]) -> bool
    ensures { result ≡ list_any (λ p. nat_lt (2 ^ 64 - 1) (p.0 + p.1)) (zip offset.now global.now) }
{
    offset.iter().zip(global).any(|(o, g)| *o > u64::MAX - *g)
}

/// Whether a size is 0 or a global size isn't divisible by the local size of its dimension (OpenCL 1.2, section 5.8).
fn any_uneven(global: &[u64], local: &[u64]) -> bool
    ensures { result ≡ list_any (λ p. (p.0 == 0) || (p.1 == 0) || not (p.0 % p.1 == 0)) (zip global.now local.now) }
{
    global
        .iter()
        .zip(local)
        .any(|(g, l)| *g == 0 || *l == 0 || *g % *l != 0)
}

/// Whether there are not 1 to 3 dimensions, or lists of unequal length, or an offset and a size pass 2^64 - 1 together.
pub fn is_bad_dimension(range: &Range) -> bool
    ensures { result ≡ is_bad_dimension range.now }
{
    let global = range.global.as_slice();
    let local = range.local.as_slice();
    let offset = range.offset.as_slice();
    global.is_empty()
        || global.len() > 3
        || local.len() != global.len()
        || offset.len() != global.len()
        || any_passes(offset, global)
}

/// Whether a size is 0, a global size isn't divisible by its local size, or a group has more items than a device of
/// these limits allows.
pub fn is_bad_group(limits: &Limits, range: &Range) -> bool
    ensures { result ≡ is_bad_group limits.now range.now }
{
    let global = range.global.as_slice();
    let local = range.local.as_slice();
    any_uneven(global, local) || range.local.product() > limits.group_items
}

/// Whether there are more items in all groups together, the product of the global sizes, than a device of these limits
/// allows.
pub fn is_too_many(limits: &Limits, range: &Range) -> bool
    ensures { result ≡ is_too_many limits.now range.now }
{
    range.global.product() > limits.items
}

/// How many items a group has, at least 1: the product of the local sizes. The launch's items are a multiple of it.
#[tactic(auto, using(crate::proofs::Sizes::sizes))]
pub fn group_items(limits: &Limits, range: &Range) -> u32
    requires { IsLaunchable limits.now range.now }
    ensures count { result ≡ group_items range.now }
    ensures positive { 0 < result }
    ensures few { result ≤ limits.now.group_items }
    ensures whole { item_count range.now % result ≡ 0 }
    ensures few_items { item_count range.now ≤ limits.now.items }
    ensures sized { All (λ size. 0 < size) range.now.local }
{
    range.local.product() as u32
}
