//! The law of faults that are in their kernels.
#![tactic(auto)]

ghost use Rattle.wide_faults.specs.Faults.{FaultsAreInKernel};

use device::laws::launches_once;

/// Where the reply to a launch holds for all bytes of its buffers and all numbers of its arguments, and is a fault, the
/// fault is in the kernel: with any other bytes, as many, and any other numbers, on any machine, the reply to the
/// launch is this fault with this schedule, and no other (OpenCL 1.2, sections 3.2 and 3.3.1).
pub fn faults_are_in_kernel()
    ensures { FaultsAreInKernel }
{
    launches_once();
}
