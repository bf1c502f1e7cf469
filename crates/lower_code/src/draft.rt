//! Code that is written from its end, with the bodies of helpers left out: so a jump is written when the length of what
//! it passes is known.
#![tactic(auto, using(crate::proofs::Drafts::draft_whole, crate::proofs::Drafts::part_whole, crate::proofs::Drafts::part_length, crate::proofs::Drafts::draft_length, crate::proofs::Growth::unchanged, crate::proofs::Growth::before, crate::proofs::Growth::one_before))]

ghost use Rattle.std.specs.Prelude.{◌≡◌, ◌-◌, ◌+◌, ◌<◌, ◌^◌, [], ◌∷◌, ◌++◌, length, min, reverse, OnOk, OnErr};
ghost use Rattle.lower_code.specs.Growth.{GrowsBefore};
ghost use Rattle.lower_code.specs.Parts.{hole_code, whole, HoleKnown, AllKnown};

use crate::holes::{CodePart, Hole};
use regcode::Instruction;
use std::alloc::{AllocError, Global};
use std::marker::Model;

/// Code, kept with its last part first: what is put goes before what is there. A body that is left out counts as if it
/// were there. Its length is counted up to 2^64 - 1.
#[derive(Drop)]
pub struct Draft<'a> {
    alloc: Global,
    parts: Vec<CodePart<'a>>,
    len: usize,
}

impl<'a> Model for Draft<'a> {
    ghost use Rattle.std.specs.Prelude.{◌≡◌, ◌-◌, ◌^◌, List, length, min, reverse};
    ghost use Rattle.regcode.specs.declared.instruction.Instruction.{Instruction};
    ghost use Rattle.lower_code.specs.Parts.{whole, AllKnown};

    ghost Value = { List Instruction };

    ghost view = { λ d. whole (reverse d.parts.items) };

    ghost invariant = { λ d. (d.len ≡ min (length (whole (reverse d.parts.items))) (2 ^ 64 - 1)) × AllKnown d.parts.items };
}

impl<'a> Draft<'a> {
    /// No code.
    pub fn new(alloc: Global) -> Self
        ensures { result ≡ [] }
    {
        Draft {
            alloc,
            parts: Vec::new(alloc),
            len: 0,
        }
    }

    /// Where its memory comes from.
    pub fn allocator(&self) -> Global {
        self.alloc
    }

    /// How many instructions there are.
    pub fn len(&self) -> usize
        requires { length self.now < 2 ^ 64 }
        ensures { result ≡ length self.now }
    {
        self.len
    }

    /// How many instructions there are more than `before`.
    pub fn added(&self, before: usize) -> u32
        requires { length self.now < 2 ^ 32 }
        ensures { result ≡ length self.now - before }
    {
        self.len().saturating_sub(before) as u32
    }

    /// One more than that.
    pub fn past(&self, before: usize) -> u32
        requires { length self.now + 1 < 2 ^ 32 }
        ensures { result ≡ length self.now - before + 1 }
    {
        self.added(before) + 1
    }

    /// Puts parts before the code, the last first, which have `count` instructions, or more if that is 2^64 - 1.
    fn put_parts(&mut self, parts: &[CodePart<'a>], count: usize) -> Result<(), AllocError>
        requires count { count ≡ min (length (whole (reverse parts.now))) (2 ^ 64 - 1) }
        requires known { AllKnown parts.now }
        ensures code { OnOk result (self.new ≡ whole (reverse parts.now) ++ self.old) }
        ensures longer { OnErr result (GrowsBefore self.old self.new) }
    {
        self.parts.extend_from_slice(parts)?;
        self.len = self.len.saturating_add(count);
        Ok(())
    }

    /// Puts an instruction before the code.
    pub fn put(&mut self, instruction: Instruction) -> Result<(), AllocError>
        ensures code { OnOk result (self.new ≡ instruction ∷ self.old) }
        ensures longer { OnErr result (GrowsBefore self.old self.new) }
    {
        self.put_parts(&[CodePart::Own(instruction)], 1)
    }

    /// Puts the body of a helper before the code, and leaves it out. It has `count` instructions: where these are none,
    /// nothing is put.
    pub fn leave(&mut self, hole: Hole<'a>, count: usize) -> Result<(), AllocError>
        requires count { count ≡ length (hole_code hole) }
        requires known { HoleKnown hole }
        ensures code { OnOk result (self.new ≡ hole_code hole.entry ++ self.old) }
        ensures longer { OnErr result (GrowsBefore self.old self.new) }
    {
        if count == 0 {
            return Ok(());
        }
        self.put_parts(&[CodePart::Left(hole)], count)
    }

    /// Puts other code before the code.
    pub fn put_all(&mut self, code: Vec<Instruction>) -> Result<(), AllocError>
        ensures code { OnOk result (self.new ≡ code.items ++ self.old) }
        ensures longer { OnErr result (GrowsBefore self.old self.new) }
    {
        for i in 0..code.len() {
            self.put(code[code.len() - 1 - i])?;
        }
        Ok(())
    }

    /// Puts another draft before the code.
    pub fn put_draft(&mut self, draft: Draft<'a>) -> Result<(), AllocError>
        ensures code { OnOk result (self.new ≡ draft.entry ++ self.old) }
        ensures longer { OnErr result (GrowsBefore self.old self.new) }
    {
        self.put_parts(&draft.parts, draft.len)
    }

    /// Its parts, the last first.
    pub fn into_parts(self) -> Vec<CodePart<'a>>
        ensures code { whole (reverse result.items) ≡ self.entry }
        ensures known { AllKnown result.items }
    {
        self.parts
    }
}
