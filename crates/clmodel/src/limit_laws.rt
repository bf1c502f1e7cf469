//! What holds of the limits of each device, as the contract of a function that does nothing.

ghost use Rattle.clmodel.specs.Typing.Greatest.{AllWithinGreatest};

/// The limits of a device are at most the greatest ones: what is typed within the limits of some device has at most the
/// greatest number of loops, bytes, nodes and elements.
pub fn limits_are_within()
    ensures { AllWithinGreatest }
{}
