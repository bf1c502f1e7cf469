//! What is known of a launch: its source, its tree, its commands.
#![tactic(auto)]

ghost use Rattle.std.specs.Prelude.{◌≡◌, None, Some, IfNone, IfOk, IfSome, option_copied};
ghost use Rattle.clmodel.specs.Setup.{kernel_in};
ghost use Rattle.item_step.specs.Launches.{setup_of};
ghost use Rattle.origins.specs.Finding.{IsOriginIn};
ghost use Rattle.source_spots.specs.Spots.{HaveTurns};
ghost use Rattle.explain_items.specs.Marked.{CodeIsMarked, CodeIsMarked-prop};
ghost use Rattle.explain_items.specs.Spotted.{BeginsAt, HasNoSpot, HasSpot, StandsInside, IsSpotted, IsTellable};

use clmodel::text::Name;
use explanation::{Code, NodeKind, Spot};
use fault_play::Stand;
use host_commands::command::Command;
use item_step::Launch;
use launch_facts::ProgramSource;
use origins::{Node, Origin, origin_of};
use source_spots::{Source, code_of, expression_kind, spot_of, statement_kind, target_kind};
use std::alloc::{AllocError, Global};

/// A launch with its source, and what led to it. The code that it runs is that of the tree whose nodes are told.
#[derive(Clone, Copy)]
pub struct Context<'a> {
    pub alloc: Global,
    pub launch: &'a Launch<'a>,
    pub program: ProgramSource<'a>,
    pub commands: &'a [Command],
    pub done: &'a [bool],
    pub kernel: &'a Name,
    pub ghost marked: { CodeIsMarked launch.now } by { CodeIsMarked-prop launch.now },
}

/// What stands at a node.
fn kind_of(node: Node<'_>) -> NodeKind {
    match node {
        Node::Expression(expression) => expression_kind(expression),
        Node::Target(target) => target_kind(target),
        Node::Statement(statement) => statement_kind(statement),
        Node::Function(_) => NodeKind::Function,
    }
}

/// The place of an origin in a source, with the loops round it in these turns. An error is out of memory.
fn spot_in(
    alloc: Global,
    source: &Source<'_>,
    origin: &Origin<'_>,
    turns: &[u32],
) -> Result<Spot, AllocError>
    ensures begins { IfOk result (BeginsAt source.now.text.now source.now.first_line origin.now) }
    ensures turns { IfOk result (λ spot. HaveTurns turns.now spot.loops.items) }
{
    let node = origin.node;
    let through = origin.through.as_slice();
    spot_of(alloc, source, kind_of(node), node.at(), through, turns)
}

impl<'a> Context<'a> {
    /// The source of the launch, if it isn't longer than a checked one is.
    fn source(&self) -> Option<Source<'a>>
        ensures text { IfSome result (λ source. source.text.now ≡ self.now.program.text.now) }
        ensures first { IfSome result (λ source. source.first_line ≡ self.now.program.first_line) }
        ensures none { IfNone result (IsTellable self.now.program.text.now self.now.program.first_line → ⊥) }
    {
        let text = self.program.text;
        let first_line = self.program.first_line;
        if text.len() >= 4294967296 || first_line >= 4294967296 || first_line == 0 {
            return None;
        }
        Some(Source {
            text,
            first_line,
            functions: self.launch.tree().functions.as_slice(),
        })
    }

    /// The origin of the instruction at a place of the code. An error is out of memory.
    pub fn origin(&self, place: usize) -> Result<Option<Origin<'a>>, AllocError>
        ensures origin { IfOk result (IsOriginIn (setup_of self.now.launch.now).program.functions (setup_of self.now.launch.now).kernel place) }
        ensures none { IfOk result (λ found. kernel_in (setup_of self.now.launch.now).program.functions (setup_of self.now.launch.now).kernel ≡ None → found ≡ None) }
    {
        origin_of(self.alloc, self.launch.tree(), self.launch.kernel(), place)
    }

    /// Where an item stands in the source. An error is out of memory.
    fn spot_at(&self, stand: &Stand) -> Result<Option<Spot>, AllocError>
        ensures none { IfOk result (λ found. IfNone found (StandsInside self.now.launch.now stand.now → IsTellable self.now.program.text.now self.now.program.first_line → ⊥)) }
        ensures spotted { IfOk result (λ found. IfSome found (IsSpotted self.now.launch.now stand.now self.now.program.text.now self.now.program.first_line)) }
    {
        let Some(source) = self.source() else {
            return Ok(None);
        };
        match self.origin(stand.place)? {
            Some(origin) => {
                let turns = stand.turns.as_slice();
                Ok(Some(spot_in(self.alloc, &source, &origin, turns)?))
            }
            None => Ok(None),
        }
    }

    /// The same, if the item stands anywhere. An error is out of memory.
    pub fn spot(&self, stand: Option<&Stand>) -> Result<Option<Spot>, AllocError>
        ensures none { IfOk result (λ found. IfNone found (HasNoSpot self.now.program.text.now self.now.program.first_line (λ s. (option_copied stand.entry ≡ Some s) × StandsInside self.now.launch.now s))) }
        ensures spotted { IfOk result (λ found. IfSome found (HasSpot self.now.launch.now self.now.program.text.now self.now.program.first_line (λ s. (option_copied stand.entry ≡ Some s) × StandsInside self.now.launch.now s))) }
    {
        match stand {
            Some(stand) => self.spot_at(stand),
            None => Ok(None),
        }
    }

    /// The same in short.
    pub fn code(&self, stand: Option<&Stand>) -> Result<Option<Code>, AllocError> {
        let (Some(stand), Some(source)) = (stand, self.source()) else {
            return Ok(None);
        };
        match self.origin(stand.place)? {
            Some(origin) => {
                let (kind, at) = (kind_of(origin.node), origin.node.at());
                Ok(Some(code_of(self.alloc, &source, kind, at)?))
            }
            None => Ok(None),
        }
    }
}
