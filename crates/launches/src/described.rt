//! What a program tells of a launch in reports.

ghost use Rattle.std.specs.Prelude.{◌≡◌, [], IfOk, slice_index_or};
ghost use Rattle.clmodel.specs.Launch.{Launch, location_of};

use clmodel::access::Region;
use clmodel::fault::Location;
use clmodel::text::Name;
use std::alloc::AllocError;

/// A launch (OpenCL 1.2, section 3.2) with the names that reports use. Errors are out of memory.
pub trait Described {
    ghost launch: { Self → Launch };

    /// Whether two stores that leave the same byte may meet in it.
    fn uniform(&self) -> bool
        ensures { result ≡ (launch self.now).uniform };

    /// A copy of a buffer's name.
    fn buffer_name(&self, number: u32) -> Result<Name, AllocError>
        ensures { IfOk result (λ name. name ≡ slice_index_or (launch self.now).buffer_names number []) };

    /// A copy of a local object's name.
    fn local_name(&self, number: u32) -> Result<Name, AllocError>
        ensures { IfOk result (λ name. name ≡ slice_index_or (launch self.now).local_names number []) };

    /// A copy of what the source names by a number.
    fn source_name(&self, number: u32) -> Result<Name, AllocError>
        ensures { IfOk result (λ name. name ≡ slice_index_or (launch self.now).source_names number []) };
}

/// Where a region lies, as a reply names it.
pub fn location_of<D: Described>(launch: &D, region: Region) -> Result<Location, AllocError>
    ensures { IfOk result (λ location. location ≡ location_of (D.launch launch.now) region) }
{
    match region {
        Region::Buffer(number) => Ok(Location::Buffer(launch.buffer_name(number)?)),
        Region::Local { group, number } => Ok(Location::Local {
            group,
            name: launch.local_name(number)?,
        }),
    }
}
