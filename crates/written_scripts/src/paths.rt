//! The files that a script names.
#![tactic(auto)]

ghost use Rattle.std.specs.Prelude.{◌≡◌, ◌≤◌, ◌++◌, map, length, IfOk, IfSome, OnOk};
ghost use Rattle.written_scripts.specs.Paths.{listed, names_at, path_of, paths_from, paths_of, taken_by};

use crate::lines::{first_end, lines_of};
use crate::telling::said_of;
use clmodel::text::Bytes;
use script_lines::{LineSays, is_version_line};
use std::alloc::{AllocError, Global};

/// How many of the lines behind it a line takes that says this, where they are there.
fn taken_by(alloc: Global, said: &LineSays, behind: &[&[u8]]) -> Result<Option<usize>, AllocError>
    ensures value { IfOk result (λ taken. taken ≡ taken_by said.now (map (λ line. line.now) behind.now)) }
    ensures within { IfOk result (λ taken. IfSome taken (λ n. n ≤ length behind.now)) }
{
    match said {
        LineSays::SourceLines { count, .. } if *count <= behind.len() as u64 => Ok(Some(
            *count as usize,
        )),
        LineSays::SourceLines { .. } => Ok(None),
        LineSays::SourceUntil { word, .. } => match first_end(alloc, word.as_slice(), behind)? {
            Some(count) => Ok(Some(count + 1)),
            None => Ok(None),
        },
        _ => Ok(Some(0)),
    }
}

/// The path that a line names which says this.
fn path_of(said: LineSays) -> Option<Bytes>
    ensures { result ≡ path_of said }
{
    match said {
        LineSays::SourceFile { path, .. } => Some(path),
        _ => None,
    }
}

/// The path that a line names, if it names one, and how many of the lines behind it it takes.
#[tactic(auto, unfolding(crate::specs::Paths::names_at))]
fn names_at(
    alloc: Global,
    line: &[u8],
    behind: &[&[u8]],
) -> Result<Option<(Option<Bytes>, usize)>, AllocError>
    ensures value { IfOk result (λ named. named ≡ names_at line.now (map (λ l. l.now) behind.now)) }
    ensures within { IfOk result (λ named. IfSome named (λ n. n.1 ≤ length behind.now)) }
{
    let Some(said) = said_of(alloc, line)? else {
        return Ok(None);
    };
    let Some(taken) = taken_by(alloc, &said, behind)? else {
        return Ok(None);
    };
    Ok(Some((path_of(said), taken)))
}

/// Adds a path, where there is one.
fn put_path(path: Option<Bytes>, paths: &mut Vec<Bytes>) -> Result<(), AllocError>
    ensures { OnOk result (paths.new.items ≡ paths.old.items ++ listed path) }
{
    if let Some(path) = path {
        paths.push(path)?;
    }
    Ok(())
}

/// The paths that the lines behind the first one name, up to a bad one.
fn paths_behind(alloc: Global, lines: &[&[u8]]) -> Result<Vec<Bytes>, AllocError>
    ensures { IfOk result (λ paths. paths.items ≡ paths_from (length lines.now) (map (λ line. line.now) lines.now)) }
{
    let mut paths = Vec::new(alloc);
    let mut at = 0;
    while at < lines.len() {
        let Some((path, taken)) = names_at(alloc, lines[at], &lines[at + 1..])? else {
            return Ok(paths);
        };
        put_path(path, &mut paths)?;
        at += 1 + taken;
    }
    Ok(paths)
}

/// The paths that a script of version 3 names, in their order, up to its first bad line: none where a text isn't of
/// version 3. No file is read.
pub fn files_of(alloc: Global, script: &[u8]) -> Result<Vec<Bytes>, AllocError>
    ensures { IfOk result (λ paths. paths.items ≡ paths_of script.now) }
{
    let lines = lines_of(alloc, script)?;
    let Some((first, behind)) = lines.as_slice().split_first() else {
        return Ok(Vec::new(alloc));
    };
    if !is_version_line(alloc, first)? {
        return Ok(Vec::new(alloc));
    }
    paths_behind(alloc, behind)
}
