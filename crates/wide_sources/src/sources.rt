//! The sources of the kernels of a script, for the places that are told.
#![tactic(auto)]

ghost use Rattle.std.specs.Prelude.{◌<◌, vec_len, OnOk};

use clmodel::text::Name;
use clmodel::tree::{Expression, Statement};
use cltypes::Checked;
use explanation::{Code, NodeKind};
use host_commands::build::{NotBuilt, build};
use host_commands::command::{Command, Reply};
use host_commands::kernel::parameters_of;
use limits::Limits;
use origins::{Node, origin_of};
use placed_scripts::PlacedScript;
use source_spots::{Source, code_of, expression_kind, statement_kind, target_kind};
use spaces::Table;
use std::alloc::{AllocError, Global};
use widening::Why;

/// The function that a kernel runs: the number of the command that made its program, and its name.
#[derive(Drop)]
struct Function {
    program: usize,
    name: Name,
}

/// The sources of a script, as far as its commands were gone over.
#[derive(Drop)]
pub struct Sources<'a> {
    alloc: Global,
    limits: Limits,
    commands: &'a [Command],
    /// The text by which it is told
    told: PlacedScript<'a>,
    /// The number of the command that made each program
    programs: Table<usize>,
    kernels: Table<Function>,
    /// The tree of each program that was built for a place, by the number of its command
    trees: Vec<Option<Checked>>,
}

/// What is told of a launch's source.
#[derive(Clone, Copy)]
pub struct LaunchSource<'a> {
    checked: &'a Checked,
    /// The number of the kernel's name
    kernel: u32,
    text: &'a [u8],
    first_line: usize,
    /// The name of the file in which it stands, where that is another one than the script's
    file: Option<&'a [u8]>,
}

/// Puts a value at a name, over an earlier one. An error is out of memory.
fn put<T: Drop>(
    alloc: Global,
    table: &mut Table<T>,
    name: &Name,
    value: T,
) -> Result<(), AllocError> {
    if table.get(name).is_some() {
        table.replace(name, value);
        Ok(())
    } else {
        table.insert(name.copied(alloc)?, value)
    }
}

/// Places for the trees of the programs up to that of a command. An error is out of memory.
fn make_room(trees: &mut Vec<Option<Checked>>, program: usize) -> Result<(), AllocError>
    ensures { OnOk result (program < vec_len trees.new) }
{
    while trees.len() <= program {
        trees.push(None)?;
    }
    Ok(())
}

/// What stands at a node.
fn kind_of(node: Node<'_>) -> NodeKind {
    match node {
        Node::Expression(expression) => expression_kind(expression),
        Node::Target(target) => target_kind(target),
        Node::Statement(statement) => statement_kind(statement),
        Node::Function(_) => NodeKind::Function,
    }
}

/// The condition that a statement tests, if it tests one.
fn condition_of(statement: &Statement) -> Option<&Expression> {
    match statement {
        Statement::If { condition, .. }
        | Statement::IfElse { condition, .. }
        | Statement::While { condition, .. }
        | Statement::DoWhile { condition, .. } => Some(condition),
        Statement::For {
            condition: Some(condition),
            ..
        } => Some(condition),
        _ => None,
    }
}

/// The node that is told of one where a source decides, with what stands there: of a branch the condition, as far as
/// the text goes.
fn told_node(node: Node<'_>, why: Why) -> (NodeKind, u32) {
    match (node, why) {
        (Node::Statement(statement), Why::Branch) => match condition_of(statement) {
            Some(condition) => (NodeKind::Statement, Node::Expression(condition).at()),
            None => (statement_kind(statement), node.at()),
        },
        (Node::Expression(_), Why::Branch) => (NodeKind::Statement, node.at()),
        _ => (kind_of(node), node.at()),
    }
}

impl<'a> Sources<'a> {
    /// No command was gone over yet of a script that is told by this text.
    pub fn new(
        alloc: Global,
        limits: Limits,
        commands: &'a [Command],
        told: PlacedScript<'a>,
    ) -> Self {
        Sources {
            alloc,
            limits,
            commands,
            told,
            programs: Table::new(alloc),
            kernels: Table::new(alloc),
            trees: Vec::new(alloc),
        }
    }

    /// Goes over a command that was done. An error is out of memory.
    pub fn pass(&mut self, number: usize) -> Result<(), AllocError> {
        match self.commands.get(number) {
            Some(Command::Program { name, .. }) => {
                put(self.alloc, &mut self.programs, name, number)
            }
            Some(
                Command::Kernel {
                    name,
                    program,
                    function,
                },
            ) => {
                let Some(program) = self.programs.get(program).copied() else {
                    return Ok(());
                };
                let name_of = function.copied(self.alloc)?;
                put(
                    self.alloc,
                    &mut self.kernels,
                    name,
                    Function {
                        program,
                        name: name_of,
                    },
                )
            }
            _ => Ok(()),
        }
    }

    /// Goes over a command with this reply, if it was done. An error is out of memory.
    pub fn pass_done(&mut self, number: usize, reply: &Reply) -> Result<(), AllocError> {
        match reply {
            Reply::Refused(_) => Ok(()),
            _ => self.pass(number),
        }
    }

    /// Builds the program of a command, if it isn't built yet. An error is out of memory.
    fn build_once(&mut self, program: usize, source: &[u8]) -> Result<(), AllocError> {
        make_room(&mut self.trees, program)?;
        if self.trees[program].is_none() {
            self.trees[program] = match build(self.alloc, self.limits, source) {
                Ok(checked) => Some(checked),
                Err(NotBuilt::OutOfMemory) => return Err(AllocError),
                Err(NotBuilt::Fault(_)) => None,
            };
        }
        Ok(())
    }

    /// The source of a kernel, with its tree. An error is out of memory.
    pub fn of(&mut self, kernel: &Name) -> Result<Option<LaunchSource<'_>>, AllocError> {
        let Some(function) = self.kernels.get(kernel) else {
            return Ok(None);
        };
        let program = function.program;
        let name = function.name.copied(self.alloc)?;
        let (Some(Command::Program { source, .. }), Some(place)) = (
            self.commands.get(program),
            self.told.places.get(program),
        ) else {
            return Ok(None);
        };
        self.build_once(program, source.as_slice())?;
        let Some(Some(checked)) = self.trees.get(program) else {
            return Ok(None);
        };
        let Some(found) = checked.kernel(name.as_slice()) else {
            return Ok(None);
        };
        Ok(Some(LaunchSource {
            checked,
            kernel: found.function.name,
            text: source.as_slice(),
            first_line: place.source_line,
            file: self.told.file(program),
        }))
    }
}

impl LaunchSource<'_> {
    /// The name of the parameter of an index. An error is out of memory.
    pub(crate) fn parameter(&self, alloc: Global, index: usize) -> Result<String, AllocError> {
        let parameters = parameters_of(&self.checked.tree, self.kernel);
        let Some(parameter) = parameters.get(index) else {
            return Ok(String::new(alloc));
        };
        match self.checked.tree.names.get(parameter.name as usize) {
            Some(name) => String::from_utf8_lossy(alloc, name.as_slice()),
            None => Ok(String::new(alloc)),
        }
    }

    /// The name of the file in which it stands, where that is another one than the script's. An error is out of memory.
    pub(crate) fn file(&self, alloc: Global) -> Result<Option<String>, AllocError> {
        match self.file {
            Some(name) => Ok(Some(String::from_utf8_lossy(alloc, name)?)),
            None => Ok(None),
        }
    }

    /// Where a source decides, at a place of the code, if that can be told. An error is out of memory.
    pub(crate) fn code(
        &self,
        alloc: Global,
        place: usize,
        why: Why,
    ) -> Result<Option<Code>, AllocError> {
        let (text, first_line) = (self.text, self.first_line);
        if text.len() >= 4294967296 || first_line >= 4294967296 || first_line == 0 {
            return Ok(None);
        }
        let source = Source {
            text,
            first_line,
            functions: self.checked.tree.functions.as_slice(),
        };
        match origin_of(alloc, &self.checked.tree, self.kernel, place)? {
            Some(origin) => {
                let (kind, at) = told_node(origin.node, why);
                Ok(Some(code_of(alloc, &source, kind, at)?))
            }
            None => Ok(None),
        }
    }
}
