//! The names that are known at a place of a program.
#![tactic(auto)]

ghost use Rattle.std.specs.Prelude.{◌≡◌, ◌&&◌, not, [], ◌∷◌, true, None, reverse, is_some, OnOk, OnErr};
ghost use Rattle.std.specs.List.{find};
ghost use Rattle.std.specs.Option.{option_copied};
ghost use Rattle.clmodel.specs.Typing.Context as typing;
ghost use Rattle.clmodel.specs.Typing.Context.{declared, variable, function_meaning, meaning, is_free, is_outermost, is_reserved, bind, enter};
ghost use Rattle.cltypes_scope.specs.Names as spec;
ghost use Rattle.cltypes_scope.specs.Names.{signature_of, meaning_of, nowhere, with_function, begun, ended, with_loop, left, no_signature};

use crate::meaning::{Meaning, Signature};
use clmodel::barrier::is_barrier;
use clmodel::declaration::Declaration;
use clmodel::setup::{built_in_named, is_reserved};
use clnum::IntType;
use indexmap::{IndexMap, IndexSet};
use limits::Limits;
use std::alloc::{AllocError, Global};
use std::marker::Model;
use std::mem::replace;

/// What a scope declares, in the order of the text.
type Scope = IndexMap<u32, Declaration>;

/// The last of these scopes that declares this name.
fn last_holder(scopes: &[Scope], name: u32) -> Option<&Scope>
    ensures { option_copied result ≡ find (λ scope. is_some (declared scope.entries name)) (reverse scopes.now) }
{
    scopes.iter().rev().find(|scope| scope.contains_key(&name))
}

/// What is known at a place of a program: the limits of the device, the names of all its functions, the functions
/// before this one, this function, whether the place is in a loop, and the variables of each scope around it. Names are
/// their places in a tree's table of names.
#[derive(Drop)]
pub struct Context {
    alloc: Global,
    limits: Limits,
    all: IndexSet<u32>,
    before: IndexMap<u32, Signature>,
    current: u32,
    signature: Signature,
    in_loop: bool,
    inner: Scope,
    outer: Vec<Scope>,
}

impl Model for Context {
    ghost use Rattle.std.specs.Prelude.{map, reverse};
    ghost use Rattle.clmodel.specs.Typing.Context.{Context};
    ghost use Rattle.cltypes_scope.specs.Names.{signature_of};

    ghost Value = { Context };

    ghost view = { λ c. record {
      limits = c.limits;
      all = c.all.keys;
      before = map (λ e. (e.0, signature_of e.1)) c.before.entries;
      current = c.current;
      signature = signature_of c.signature;
      in_loop = c.in_loop;
      inner = c.inner.entries;
      outer = map (λ scope. scope.entries) (reverse c.outer.items);
    } };
}

/// The signature of no function.
fn no_signature(alloc: Global) -> Signature
    ensures { signature_of result ≡ no_signature }
{
    Signature {
        is_kernel: false,
        result: None,
        parameters: Vec::new(alloc),
    }
}

impl Context {
    /// Before the first function, where nothing is known but the limits of the device.
    pub fn new(alloc: Global, limits: Limits) -> Context
        ensures { result ≡ nowhere limits }
    {
        Context {
            alloc,
            limits,
            all: IndexSet::new(alloc),
            before: IndexMap::new(alloc),
            current: 0,
            signature: no_signature(alloc),
            in_loop: false,
            inner: IndexMap::new(alloc),
            outer: Vec::new(alloc),
        }
    }

    /// Notes that the text has a function of this name. Err where memory is wanting: nothing changes then.
    pub fn add_function(&mut self, name: u32) -> Result<(), AllocError>
        ensures added { OnOk result (self.new ≡ with_function self.old name) }
        ensures err { OnErr result (self.new ≡ self.old) }
    {
        self.all.insert(name)?;
        Ok(())
    }

    /// Begins the text of a function, in its outermost scope with no variables and outside loops.
    pub fn begin(&mut self, name: u32, signature: Signature)
        ensures { self.new ≡ begun self.old name (signature_of signature) }
    {
        self.current = name;
        self.signature = signature;
        self.in_loop = false;
        self.inner.clear();
        self.outer.clear();
    }

    /// Ends the text of the function, which no function before it has the name of: those behind it can call it. Err
    /// where memory is wanting: nothing changes then but the signature of this function, which is lost.
    pub fn end(&mut self) -> Result<(), AllocError>
        requires { typing.signature_of self.old.before self.old.current ≡ None }
        ensures ended { OnOk result (self.new ≡ ended self.old) }
        ensures err { OnErr result (self.new ≡ record self.old { signature = spec.no_signature }) }
    {
        let signature = replace(&mut self.signature, no_signature(self.alloc));
        self.before.insert(self.current, signature)?;
        Ok(())
    }

    /// The limits of the device.
    pub fn limits(&self) -> Limits
        ensures { result ≡ self.now.limits }
    {
        self.limits
    }

    /// The type of the value that the function gives, if it gives one.
    pub fn result(&self) -> Option<IntType>
        ensures { result ≡ self.now.signature.result }
    {
        self.signature.result
    }

    /// Whether the place is in a loop of the function.
    pub fn is_in_loop(&self) -> bool
        ensures { result ≡ self.now.in_loop }
    {
        self.in_loop
    }

    /// Whether the place is the outermost block of a kernel.
    pub fn is_outermost(&self) -> bool
        ensures { result ≡ is_outermost self.now }
    {
        self.signature.is_kernel && self.outer.is_empty()
    }

    /// Says whether the place is in a loop of the function.
    pub fn set_in_loop(&mut self, in_loop: bool)
        ensures { self.new ≡ with_loop self.old in_loop }
    {
        self.in_loop = in_loop;
    }

    /// What the innermost scope that declares a name declares it as.
    fn variable(&self, name: u32) -> Option<Declaration>
        ensures { result ≡ variable (self.now.inner ∷ self.now.outer) name }
    {
        if let Some(declared) = self.inner.get(&name) {
            return Some(*declared);
        }
        match last_holder(&self.outer, name) {
            Some(scope) => scope.get(&name).copied(),
            None => None,
        }
    }

    /// What a name stands for that no variable has: a function of the text, a built-in function, or the barrier.
    fn function_meaning(&self, name: u32) -> Meaning<'_>
        ensures { meaning_of result ≡ function_meaning self.now name }
    {
        if name == self.current {
            return Meaning::Current(&self.signature);
        }
        if let Some(signature) = self.before.get(&name) {
            return Meaning::Callable(signature);
        }
        match built_in_named(name) {
            Some(function) => Meaning::BuiltInFunction(function),
            None => if is_barrier(name) {
                Meaning::Barrier
            } else {
                Meaning::Unknown
            },
        }
    }

    /// What a name stands for here: the variable of the innermost scope that has one of this name, or a function.
    pub fn meaning(&self, name: u32) -> Meaning<'_>
        ensures { meaning_of result ≡ meaning self.now name }
    {
        match self.variable(name) {
            Some(declared) => Meaning::Bound(declared),
            None => self.function_meaning(name),
        }
    }

    /// Whether a variable of this name may be declared here: neither the innermost scope has one, nor has a function of
    /// the text, a built-in one or a fence this name.
    pub fn is_free(&self, name: u32) -> bool
        ensures { result ≡ is_free self.now name }
    {
        !is_reserved(name) && !self.inner.contains_key(&name) && !self.all.contains(&name)
    }

    /// Whether a function of this name may begin.
    pub fn is_new(&self, name: u32) -> bool
        ensures { result ≡ (not (is_reserved name) && not (is_some (typing.signature_of self.now.before name))) }
    {
        !is_reserved(name) && !self.before.contains_key(&name)
    }

    /// Declares a variable or an array in the innermost scope, where its name is free. Err where memory is wanting:
    /// nothing changes then.
    pub fn bind(&mut self, name: u32, declared: Declaration) -> Result<(), AllocError>
        requires { is_free self.old name ≡ true }
        ensures bound { OnOk result (self.new ≡ bind self.old name declared) }
        ensures err { OnErr result (self.new ≡ self.old) }
    {
        self.inner.insert(name, declared)?;
        Ok(())
    }

    /// Enters a block: a new scope with no variables, inside the others. Err where memory is wanting: nothing changes
    /// then.
    pub fn enter(&mut self) -> Result<(), AllocError>
        ensures entered { OnOk result (self.new ≡ enter self.old) }
        ensures err { OnErr result (self.new ≡ self.old) }
    {
        self.outer.reserve(1)?;
        let scope = replace(&mut self.inner, IndexMap::new(self.alloc));
        self.outer.push(scope)?;
        Ok(())
    }

    /// Leaves a block: the variables of the innermost scope are forgotten, and the scope around it is the innermost
    /// one.
    pub fn leave(&mut self)
        ensures { self.new ≡ left self.old }
    {
        match self.outer.pop() {
            Some(scope) => self.inner = scope,
            None => self.inner.clear(),
        }
    }
}
