//! What a device allows a program to ask of it (OpenCL 1.2, table 4.3; the numbers are this project's own).
//!
//! `Limits` are what refusals compare with, and `Configuration` is what a device is made with: its limits, and the
//! ticks of a work-item. There are two values of `Limits` with a name, `profile` and `large`; what is proved of a
//! device holds for all that `Limits` can be. No sum of a launch passes its type within them: the number of an item has
//! 32 bits, and so have its ticks. So have the places of a source, and those of the code of a kernel, which has some
//! instructions a node. A group whose items are answered more than 2^32 times is out of memory.
#![tactic(auto)]

ghost use Rattle.std.specs.Prelude.{◌≡◌, ◌≤◌, ◌^◌};

/// The limits of a device.
#[derive(Clone, Copy, Debug, PartialEq, Eq)]
pub struct Limits {
    /// The most work-items of a launch, up to 2^26
    pub items: u64,
    /// The most work-items of a work-group (`CL_DEVICE_MAX_WORK_GROUP_SIZE`), up to 1,024
    pub group_items: u64,
    /// The most buffers that are there at a time
    pub buffers: usize,
    /// The most bytes of a buffer (`CL_DEVICE_MAX_MEM_ALLOC_SIZE`)
    pub buffer_bytes: u64,
    /// The most ticks that a device may give a work-item, up to 1,000,000,000
    pub ticks: u32,
    /// The ticks of a work-item where none are asked for
    pub default_ticks: u32,
    /// The most bytes of a source, up to 2^22
    pub source_bytes: usize,
    /// How deep blocks, brackets and operators of a source may be nested, up to 256
    pub nesting: u32,
    /// How deep the loops of a kernel may be nested, up to 32
    pub loops: u32,
    /// The most nodes of the body of a kernel, with the bodies of its helpers in place of their calls, up to 1,000,000
    pub nodes: u32,
    /// The most bytes of the private arrays of a kernel, up to 65,536
    pub private_bytes: u32,
    /// The most elements of an array, up to 65,536
    pub elements: u64,
    /// The most bytes of the local objects of a launch (`CL_DEVICE_LOCAL_MEM_SIZE`), up to 65,536
    pub local_bytes: u64,
    pub ghost few_items: { items ≤ 2 ^ 26 },
    pub ghost small_groups: { group_items ≤ 1024 },
    pub ghost few_ticks: { ticks ≤ 1000000000 },
    pub ghost enough_ticks: { default_ticks ≤ ticks },
    pub ghost short_sources: { source_bytes ≤ 4194304 },
    pub ghost flat: { nesting ≤ 256 },
    pub ghost few_loops: { loops ≤ 32 },
    pub ghost few_nodes: { nodes ≤ 1000000 },
    pub ghost few_private_bytes: { private_bytes ≤ 65536 },
    pub ghost few_elements: { elements ≤ 65536 },
    pub ghost few_local_bytes: { local_bytes ≤ 65536 },
}

impl Limits {
    ghost use Rattle.limits.specs.Limits.{profile, large};

    /// The limits of the profile: those of a device for which no others are asked.
    pub fn profile() -> Limits
        ensures { result ≡ profile }
    {
        Limits {
            items: 65_536,
            group_items: 256,
            buffers: 64,
            buffer_bytes: 1_048_576,
            ticks: 1_000_000,
            default_ticks: 100_000,
            source_bytes: 65_536,
            nesting: 64,
            loops: 8,
            nodes: 20_000,
            private_bytes: 4_096,
            elements: 32_768,
            local_bytes: 32_768,
        }
    }

    /// Limits for programs as people write them.
    pub fn large() -> Limits
        ensures { result ≡ large }
    {
        Limits {
            items: 67_108_864,
            group_items: 1024,
            buffers: 4096,
            buffer_bytes: 1_073_741_824,
            ticks: 1_000_000_000,
            default_ticks: 10_000_000,
            source_bytes: 4_194_304,
            nesting: 256,
            loops: 32,
            nodes: 1_000_000,
            private_bytes: 65_536,
            elements: 65_536,
            local_bytes: 65_536,
        }
    }
}

/// What a device is made with.
#[derive(Clone, Copy, Debug, PartialEq, Eq)]
pub struct Configuration {
    pub limits: Limits,
    /// The most ticks of a work-item of a launch: its accesses, barriers and turns of loops
    pub budget: u32,
    pub ghost limited: { budget ≤ limits.ticks },
}

impl Configuration {
    /// These limits, with the ticks that they give where none are asked for.
    pub fn of(limits: Limits) -> Configuration
        ensures limits { result.limits ≡ limits }
        ensures budget { result.budget ≡ limits.default_ticks }
    {
        Configuration {
            limits,
            budget: limits.default_ticks,
        }
    }
}
