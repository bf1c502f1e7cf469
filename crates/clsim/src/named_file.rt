//! A file, or standard input, that is opened when it is read.
#![tactic(auto)]

ghost use Rattle.std.specs.Prelude.{◌≡◌, None};

use crate::looks::{Looks, looks_of};
use byte_io::Input;
use cli::{Read, ReadFault};
use std::alloc::Global;
use std::io::Read as _;
use std::rt::Files;
use std::{fs, io};

/// The name that stands for standard input.
pub(crate) const STANDARD_INPUT: &str = "-";

/// Opens the file at a path and reads it whole. The fault is `Failed` also where it can't be opened.
pub(crate) fn read_path<R: Files>(rt: &R, alloc: Global, path: &str) -> Result<Vec<u8>, ReadFault> {
    let Ok(file) = fs::open(rt, path) else {
        return Err(ReadFault::Failed);
    };
    Input::new(file).read_all(alloc)
}

/// A file that is opened when it is read, and read whole; by the name `-` it is standard input. Where that fails, the
/// failure is counted. It notes what the text that was read looks like, and keeps a copy of it where that is asked.
#[derive(Drop)]
pub(crate) struct NamedFile<'a, R> {
    rt: &'a R,
    path: &'a str,
    failures: u64,
    looks: Looks,
    keeps: bool,
    kept: Option<Vec<u8>>,
}

impl<'a, R: Files + io::Input> NamedFile<'a, R> {
    /// The file at a path, of which no read failed so far.
    pub(crate) fn new(rt: &'a R, path: &'a str) -> Self {
        NamedFile {
            rt,
            path,
            failures: 0,
            looks: Looks::Unknown,
            keeps: false,
            kept: None,
        }
    }

    /// The same, of which a copy is kept or not.
    pub(crate) fn keeping(mut self, keeps: bool) -> Self {
        self.keeps = keeps;
        self
    }

    /// The text that was read, where a copy is kept.
    pub(crate) fn kept(&self) -> Option<&[u8]> {
        match &self.kept {
            Some(text) => Some(text.as_slice()),
            None => None,
        }
    }

    /// The file, as it was named.
    pub(crate) fn path(&self) -> &'a str {
        self.path
    }

    /// What the text that was read looks like.
    pub(crate) fn looks(&self) -> Looks {
        self.looks
    }

    /// Notes what a text that was read looks like, and keeps a copy of it where that is asked and memory is left.
    fn note(&mut self, alloc: Global, text: &[u8])
        ensures { self.new.failures ≡ self.old.failures }
    {
        self.looks = looks_of(text);
        if self.keeps {
            self.kept = text.to_vec(alloc).ok();
        }
    }

    /// Reads the file whole.
    fn read(&self, alloc: Global) -> Result<Vec<u8>, ReadFault> {
        if self.path == STANDARD_INPUT {
            return Input::new(self.rt.reader()).read_all(alloc);
        }
        read_path(self.rt, alloc, self.path)
    }
}

impl<R: Files + io::Input> Read for NamedFile<'_, R> {
    ghost rest = { λ _. None };

    ghost failures = { λ file. file.failures };

    fn read_all(&mut self, alloc: Global) -> Result<Vec<u8>, ReadFault> {
        let outcome = self.read(alloc);
        match &outcome {
            Ok(text) => self.note(alloc, text.as_slice()),
            Err(ReadFault::Failed) => self.failures = self.failures.saturating_add(1),
            Err(ReadFault::OutOfMemory) => {}
        }
        outcome
    }
}

/// Why a file can't be read, where the system says it again. Of standard input nothing is said.
pub(crate) fn reason_of<R: Files>(rt: &R, path: &str) -> Option<io::Error> {
    if path == STANDARD_INPUT {
        return None;
    }
    match fs::open(rt, path) {
        Ok(mut file) => {
            let mut byte = [0u8; 1];
            file.read(&mut byte).err()
        }
        Err(error) => Some(error),
    }
}
