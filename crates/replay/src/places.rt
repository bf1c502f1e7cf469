//! Whether a launch's names are those that a fault tells.

ghost use Rattle.std.specs.Prelude.{◌≡◌, IfOk};
ghost use Rattle.std.specs.Bool.{Decides};
ghost use Rattle.clmodel.specs.Launch.{location_of};
ghost use Rattle.clmodel.specs.Law.{fault_of};
ghost use Rattle.clmodel.specs.declared.action.Cause.TheVariants as cause;
ghost use Rattle.clmodel.specs.declared.fault.Fault.TheVariants as faults;

use clmodel::access::Region;
use clmodel::action::Cause;
use clmodel::fault::{Fault, Location};
use clmodel::text::Name;
use launches::Described;
use std::alloc::AllocError;

/// Whether two names are one.
pub fn same_name(name: &Name, other: &Name) -> bool
    ensures { Decides result (name.now ≡ other.now) }
{
    name == other
}

/// Whether two locations are one.
pub fn same_location(location: &Location, other: &Location) -> bool
    ensures { Decides result (location.now ≡ other.now) }
{
    match (location, other) {
        (Location::Buffer(name), Location::Buffer(other)) => same_name(name, other),
        (
            Location::Local { group, name },
            Location::Local {
                group: other_group,
                name: other,
            },
        ) => *group == *other_group && same_name(name, other),
        _ => false,
    }
}

/// Whether a region lies where a fault tells. An error is out of memory.
pub fn is_at<D: Described>(
    launch: &D,
    region: Region,
    location: &Location,
) -> Result<bool, AllocError>
    ensures { IfOk result (λ yes. Decides yes (location_of (D.launch launch.now) region ≡ location.now)) }
{
    match (region, location) {
        (Region::Buffer(number), Location::Buffer(told)) => {
            let name = launch.buffer_name(number)?;
            Ok(same_name(&name, told))
        }
        (
            Region::Local { group, number },
            Location::Local {
                group: told_group,
                name: told,
            },
        ) => {
            let name = launch.local_name(number)?;
            Ok(group == *told_group && same_name(&name, told))
        }
        _ => Ok(false),
    }
}

/// Whether a fault is that of an item that can do nothing more for this cause. An error is out of memory.
pub fn is_fault_of<D: Described>(
    launch: &D,
    item: u32,
    cause: Cause,
    fault: &Fault,
) -> Result<bool, AllocError>
    ensures { IfOk result (λ yes. Decides yes (fault_of (D.launch launch.now) item cause ≡ fault.now)) }
{
    match (cause, fault) {
        (
            Cause::PrivateBounds { array, element },
            Fault::PrivateBounds {
                item: told_item,
                array: told,
                element: told_element,
            },
        )
        | (
            Cause::UnsetElement { array, element },
            Fault::UnsetElement {
                item: told_item,
                array: told,
                element: told_element,
            },
        ) => {
            let name = launch.source_name(array)?;
            Ok(item == *told_item && element == *told_element && same_name(&name, told))
        }
        (
            Cause::UnsetVariable { variable },
            Fault::UnsetVariable {
                item: told_item,
                variable: told,
            },
        ) => {
            let name = launch.source_name(variable)?;
            Ok(item == *told_item && same_name(&name, told))
        }
        (Cause::DivideByZero, Fault::DivideByZero { item: told })
        | (Cause::DivideOverflow, Fault::DivideOverflow { item: told })
        | (Cause::Budget, Fault::Budget { item: told }) => Ok(item == *told),
        _ => Ok(false),
    }
}
