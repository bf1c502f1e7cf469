//! A work-item of a launch as it runs, where its launch and its number are given to each call.

ghost use Rattle.std.specs.Prelude.{◌≡◌, ℕ, [], ◌∷◌, ◌++◌, List, replicate, IfOk, OnOk};
ghost use Rattle.clmodel.specs.Launch.{Launch};
ghost use Rattle.clmodel.specs.declared.action.Action.TheVariants as action;
ghost use Rattle.clmodel.specs.declared.action.Answer.{Answer};
ghost use Rattle.item_step.specs.BriefActions.{action_from};
ghost use Rattle.item_step.specs.Running.{Running};
ghost use Rattle.item_step.specs.declared.brief_action.BriefAction.TheVariants as brief;
ghost use Rattle.launches.specs.Items.{acts_of, IsAsked, Runs, Stands};
ghost use Rattle.launches.specs.Turns.{turns_of};
ghost use Rattle.launches.specs.declared.slot.Slot.TheVariants as slot;

use crate::runnable::Runnable;
use clmodel::action::{Action, Answer};
use item_step::{BriefAction, Item};
use std::alloc::{AllocError, Global};

/// A work-item as it runs (OpenCL 1.2, section 3.2). It is started when it is first asked, and one that has ended keeps
/// no memory. Its launch and its number are given to each call.
#[derive(Drop)]
pub enum Slot<'a> {
    /// It wasn't asked yet.
    Waiting,
    /// It is under way.
    Running(Item<'a>),
    /// It is at its end.
    Ended,
}

/// Items that weren't asked yet. An error is out of memory.
pub fn waiting_items<'a>(alloc: Global, count: u32) -> Result<Vec<Slot<'a>>, AllocError>
    ensures { IfOk result (λ items. items.items ≡ replicate count slot.Waiting) }
{
    let mut items = Vec::with_capacity(alloc, count as usize)?;
    for _ in 0..count {
        // There is room: `push` would move each item once more, in case that it can't be kept.
        items.push_reserved(Slot::Waiting);
    }
    Ok(items)
}

impl<'a> Slot<'a> {
    /// Starts the item where it wasn't asked yet. It is no part of those that call it, where each access would have to
    /// make room for an item. An error is out of memory.
    #[inline(never)]
    fn begin<D: Runnable>(
        &mut self,
        alloc: Global,
        launch: &'a D,
        item: u32,
    ) -> Result<(), AllocError>
        ensures same { (answers : List Answer) → acts_of (D.launch launch.now) item self.new answers ≡ acts_of (D.launch launch.now) item self.old answers }
        ensures asked { OnOk result (IsAsked self.new) }
        ensures runs { (answers : List Answer) → Runs (D.started launch.now item) answers self.old → Runs (D.started launch.now item) answers self.new }
    {
        if let Slot::Waiting = *self {
            // No `?`: it would move an item once more.
            match launch.start(alloc, item) {
                Ok(started) => *self = Slot::Running(started),
                Err(error) => return Err(error),
            }
        }
        Ok(())
    }

    /// Starts the item where it wasn't asked yet. An error is out of memory.
    // A call would cost each access more than the look at the slot that it comes to.
    #[inline(always)]
    pub fn start<D: Runnable>(
        &mut self,
        alloc: Global,
        launch: &'a D,
        item: u32,
    ) -> Result<(), AllocError>
        ensures same { (answers : List Answer) → acts_of (D.launch launch.now) item self.new answers ≡ acts_of (D.launch launch.now) item self.old answers }
        ensures asked { OnOk result (IsAsked self.new) }
        ensures runs { (answers : List Answer) → Runs (D.started launch.now item) answers self.old → Runs (D.started launch.now item) answers self.new }
    {
        match *self {
            Slot::Waiting => self.begin(alloc, launch, item),
            Slot::Running(_) => Ok(()),
            Slot::Ended => Ok(()),
        }
    }

    /// Gives the item's memory back, at its end. It is no part of `goes_on_brief`, which mostly finds another action.
    #[inline(never)]
    fn end(&mut self)
        ensures { self.new ≡ slot.Ended }
    {
        *self = Slot::Ended;
    }

    /// What the item does next, once it was asked.
    #[inline(always)]
    pub fn goes_on_brief(&mut self) -> BriefAction
        requires { IsAsked self.old }
        ensures action { (launch : Launch) (item : ℕ) → action_from result (turns_of self.new) ≡ acts_of launch item self.old [] }
        ensures same { (launch : Launch) (item : ℕ) (answers : List Answer) → acts_of launch item self.new answers ≡ acts_of launch item self.old answers }
        ensures asked { IsAsked self.new }
        ensures ended { result ≡ brief.End → self.new ≡ slot.Ended }
        ensures stands { Stands self.new (action_from result (turns_of self.new)) }
        ensures runs { (start : Running) (answers : List Answer) → Runs start answers self.old → Runs start answers self.new }
    {
        let Slot::Running(running) = self else {
            return BriefAction::End;
        };
        let action = running.next_brief();
        if let BriefAction::End = action {
            self.end();
        }
        action
    }

    /// The action that the item makes next, once it was asked.
    #[inline(always)]
    pub fn goes_on(&mut self) -> Action
        requires { IsAsked self.old }
        ensures action { (launch : Launch) (item : ℕ) → result ≡ acts_of launch item self.old [] }
        ensures same { (launch : Launch) (item : ℕ) (answers : List Answer) → acts_of launch item self.new answers ≡ acts_of launch item self.old answers }
        ensures asked { IsAsked self.new }
        ensures ended { result ≡ action.End → self.new ≡ slot.Ended }
        ensures stands { Stands self.new result }
        ensures runs { (start : Running) (answers : List Answer) → Runs start answers self.old → Runs start answers self.new }
    {
        let action = self.goes_on_brief();
        match self {
            Slot::Running(running) => running.whole_action(action),
            _ => Action::End,
        }
    }

    /// What the item does next. An error is out of memory.
    #[inline(always)]
    pub fn next_brief<D: Runnable>(
        &mut self,
        alloc: Global,
        launch: &'a D,
        item: u32,
    ) -> Result<BriefAction, AllocError>
        ensures action { IfOk result (λ action. action_from action (turns_of self.new) ≡ acts_of (D.launch launch.now) item self.old []) }
        ensures same { (answers : List Answer) → acts_of (D.launch launch.now) item self.new answers ≡ acts_of (D.launch launch.now) item self.old answers }
        ensures asked { OnOk result (IsAsked self.new) }
        ensures ended { IfOk result (λ made. made ≡ brief.End → self.new ≡ slot.Ended) }
        ensures stands { IfOk result (λ action. Stands self.new (action_from action (turns_of self.new))) }
        ensures runs { (answers : List Answer) → Runs (D.started launch.now item) answers self.old → Runs (D.started launch.now item) answers self.new }
    {
        self.start(alloc, launch, item)?;
        Ok(self.goes_on_brief())
    }

    /// The action that the item makes next. An error is out of memory.
    #[inline(always)]
    pub fn next<D: Runnable>(
        &mut self,
        alloc: Global,
        launch: &'a D,
        item: u32,
    ) -> Result<Action, AllocError>
        ensures action { IfOk result (λ action. action ≡ acts_of (D.launch launch.now) item self.old []) }
        ensures same { (answers : List Answer) → acts_of (D.launch launch.now) item self.new answers ≡ acts_of (D.launch launch.now) item self.old answers }
        ensures asked { OnOk result (IsAsked self.new) }
        ensures ended { IfOk result (λ made. made ≡ action.End → self.new ≡ slot.Ended) }
        ensures stands { IfOk result (Stands self.new) }
        ensures runs { (answers : List Answer) → Runs (D.started launch.now item) answers self.old → Runs (D.started launch.now item) answers self.new }
    {
        self.start(alloc, launch, item)?;
        Ok(self.goes_on())
    }

    /// The numbers of the turns that its loops have made, the outermost loop first. An item that isn't under way has
    /// none.
    #[inline(always)]
    pub fn turns(&self) -> &[u32]
        ensures { result.now ≡ turns_of self.now }
    {
        match self {
            Slot::Running(running) => running.turns(),
            _ => &[],
        }
    }

    /// The next action of the item, which was asked, is answered.
    #[inline(always)]
    pub fn answer(&mut self, answer: Answer)
        requires { IsAsked self.old }
        ensures answered { (launch : Launch) (item : ℕ) (answers : List Answer) → acts_of launch item self.new answers ≡ acts_of launch item self.old (answer ∷ answers) }
        ensures asked { IsAsked self.new }
        ensures runs { (start : Running) (answers : List Answer) → Runs start answers self.old → Runs start (answers ++ answer ∷ []) self.new }
    {
        if let Slot::Running(running) = self {
            running.answer(answer);
        }
    }
}
