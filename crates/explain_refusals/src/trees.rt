//! The kernels and the parameters of a program, whose source is built once more.
#![tactic(auto)]

use crate::names::{Made, names_there};
use crate::reasons::Refusing;
use clmodel::text::Name;
use clmodel::tree::{Function, Parameter, Tree};
use cltypes::Checked;
use explanation::ParameterFacts;
use host_commands::build::{NotBuilt, build};
use host_commands::command::Command;
use launch_facts::type_text;
use refused_commands::NameKind;
use std::alloc::{AllocError, Global};

/// What is there of a name, if it is of this kind.
pub(crate) fn made_of<'a>(there: &[Made<'a>], name: &Name, kind: NameKind) -> Option<Made<'a>> {
    for made in there {
        if made.name == name && made.kind == kind {
            return Some(*made);
        }
    }
    None
}

/// The source of the program of a name.
fn source_of<'a>(refusing: &Refusing<'a>, there: &[Made<'a>], program: &Name) -> Option<&'a [u8]> {
    let made = made_of(there, program, NameKind::Program)?;
    match refusing.before.get(made.number) {
        Some(Command::Program { source, .. }) => Some(source.as_slice()),
        _ => None,
    }
}

/// The program of a name, built once more.
fn program_of(refusing: &Refusing<'_>, program: &Name) -> Result<Option<Checked>, AllocError> {
    let there = names_there(refusing.alloc, refusing.before)?;
    let Some(source) = source_of(refusing, there.as_slice(), program) else {
        return Ok(None);
    };
    match build(refusing.alloc, refusing.limits, source) {
        Ok(checked) => Ok(Some(checked)),
        Err(NotBuilt::Fault(_)) => Ok(None),
        Err(NotBuilt::OutOfMemory) => Err(AllocError),
    }
}

/// The name of a number, as text.
fn name_text(alloc: Global, tree: &Tree, number: u32) -> Result<String, AllocError> {
    match tree.names.get(number as usize) {
        Some(name) => String::from_utf8_lossy(alloc, name.as_slice()),
        None => Ok(String::new(alloc)),
    }
}

/// The names of the kernels of a program.
pub(crate) fn kernels_of(
    refusing: &Refusing<'_>,
    program: &Name,
) -> Result<Vec<String>, AllocError> {
    let mut names = Vec::new(refusing.alloc);
    let Some(checked) = program_of(refusing, program)? else {
        return Ok(names);
    };
    for function in checked.tree.functions.as_slice() {
        if function.is_kernel {
            names.push(name_text(refusing.alloc, &checked.tree, function.name)?)?;
        }
    }
    Ok(names)
}

/// The program and the function of a kernel that is there.
pub(crate) fn kernel_parts<'a>(
    refusing: &Refusing<'a>,
    kernel: &Made<'a>,
) -> Option<(&'a Name, &'a Name)> {
    match refusing.before.get(kernel.number) {
        Some(
            Command::Kernel {
                program,
                function,
                ..
            },
        ) => Some((program, function)),
        _ => None,
    }
}

/// A program, and the name of one of its kernels' functions.
#[derive(Drop)]
pub(crate) struct KernelTree<'a> {
    pub checked: Checked,
    pub function: &'a Name,
}

impl KernelTree<'_> {
    /// The function of the kernel.
    pub(crate) fn function(&self) -> Option<&Function> {
        let found = self.checked.kernel(self.function.as_slice())?;
        Some(found.function)
    }

    /// The parameters of the kernel.
    pub(crate) fn parameters(&self) -> &[Parameter] {
        match self.function() {
            Some(function) => function.parameters.as_slice(),
            None => &[],
        }
    }

    /// A parameter by its index, as data.
    pub(crate) fn told_parameter(
        &self,
        alloc: Global,
        index: usize,
        parameter: &Parameter,
    ) -> Result<ParameterFacts, AllocError> {
        Ok(ParameterFacts {
            index,
            name: name_text(alloc, &self.checked.tree, parameter.name)?,
            type_name: type_text(alloc, parameter.kind)?,
            element: None,
        })
    }
}

/// The program of a kernel that is there, built once more.
pub(crate) fn tree_of<'a>(
    refusing: &Refusing<'a>,
    kernel: &Made<'a>,
) -> Result<Option<KernelTree<'a>>, AllocError> {
    let Some((program, function)) = kernel_parts(refusing, kernel) else {
        return Ok(None);
    };
    match program_of(refusing, program)? {
        Some(checked) => Ok(Some(KernelTree { checked, function })),
        None => Ok(None),
    }
}
