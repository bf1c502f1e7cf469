//! The script of a file as a plain text: one of version 3 is read with the files that it names, which stand beside it,
//! and turned into a plain one. Any other text stays as it is.
#![tactic(auto)]

ghost use Rattle.std.specs.Prelude.{◌≡◌, None, Some, IfOk, IfErr, map, is_some};
ghost use Rattle.clsim.specs.OwnLines.{AreLent, AreNamed, IsOwnOf};
ghost use Rattle.clsim.specs.Plain.{IsPlainOf, Unturned};

use crate::named_file::{NamedFile, STANDARD_INPUT, read_path};
use crate::own_lines::{OwnLines, Written, own_places};
use crate::reporting::{Place, Told};
use crate::shows::{ReplyStyle, text_shows, written_shows};
use cli::{Read, ReadFault};
use clmodel::text::Bytes;
use placed_scripts::PlacedScript;
use showing::Shown;
use simfile::faults::RunFault;
use std::alloc::{AllocError, AllocFailed, Global};
use std::rt::Files;
use std::{io, str};
use written_scripts::{
    NamedFile as SourceFile, PlainScript, Turned, WrittenPlace, files_of, plain_script,
};

/// Why a script has no plain text.
#[derive(Drop)]
enum NoPlainText {
    /// The script can't be read
    Script,
    /// This file, which it names, can't be read
    File(String),
    /// A line is bad
    Bad(Place),
    /// No memory is left
    OutOfMemory,
}

impl From<AllocError> for NoPlainText {
    ghost use Rattle.std.specs.Prelude.{◌≡◌};
    ghost use Rattle.clsim.specs.declared.written_file.NoPlainText.TheVariants as no_text;

    ghost from_gives = { λ _ made. made ≡ no_text.OutOfMemory };

    fn from(_: AllocError) -> Self {
        NoPlainText::OutOfMemory
    }
}

impl<T: Drop> From<AllocFailed<T>> for NoPlainText {
    ghost use Rattle.std.specs.Prelude.{◌≡◌};
    ghost use Rattle.clsim.specs.declared.written_file.NoPlainText.TheVariants as no_text;

    ghost from_gives = { λ _ made. made ≡ no_text.OutOfMemory };

    fn from(_: AllocFailed<T>) -> Self {
        NoPlainText::OutOfMemory
    }
}

/// The folder of a script, where its path names one. Standard input has none.
fn folder_of(path: &str) -> Option<&str> {
    let (folder, _) = path.rsplit_once('/')?;
    Some(folder)
}

/// The name by which a file is opened that a script in a folder names, or in the working folder. A file named `-` is
/// no standard input here.
fn name_beside(alloc: Global, folder: Option<&str>, path: &str) -> Result<String, AllocError> {
    if path.starts_with('/') {
        return path.to_string(alloc);
    }
    match folder {
        Some(folder) => format!(in alloc; "{folder}/{path}"),
        None if path == STANDARD_INPUT => "./-".to_string(alloc),
        None => path.to_string(alloc),
    }
}

/// A file that a script in a folder names, read whole.
fn file_beside<R: Files>(
    rt: &R,
    alloc: Global,
    folder: Option<&str>,
    path: Bytes,
) -> Result<SourceFile, NoPlainText> {
    let Ok(text) = str::from_utf8(path.as_slice()) else {
        let name = String::from_utf8_lossy(alloc, path.as_slice())?;
        return Err(NoPlainText::File(name));
    };
    let name = name_beside(alloc, folder, text)?;
    match read_path(rt, alloc, name.as_str()) {
        Ok(text) => Ok(SourceFile {
            path,
            text: Bytes::new(text),
        }),
        Err(ReadFault::Failed) => Err(NoPlainText::File(name)),
        Err(ReadFault::OutOfMemory) => Err(NoPlainText::OutOfMemory),
    }
}

/// The files that a script in a folder names, in their order.
fn files_beside<R: Files>(
    rt: &R,
    alloc: Global,
    folder: Option<&str>,
    script: &[u8],
) -> Result<Vec<SourceFile>, NoPlainText> {
    let mut files = Vec::new(alloc);
    for path in files_of(alloc, script)? {
        files.push(file_beside(rt, alloc, folder, path)?)?;
    }
    Ok(files)
}

/// Whether a byte of a line is a blank.
fn is_blank(byte: u8) -> bool {
    matches!(byte, b' ' | b'\t' | b'\r')
}

/// The column of the first byte of a line that is no blank, from 1.
fn column_of(line: &[u8]) -> usize {
    match line.iter().position(|byte| !is_blank(*byte)) {
        Some(at) => at.saturating_add(1),
        None => 1,
    }
}

/// Where a line of a script begins to say something: its number, from 1, and the column.
fn place_in(script: &[u8], number: usize) -> Place
    ensures { result.line ≡ number }
{
    let mut lines = script.split(|byte| *byte == b'\n');
    let column = match lines.nth(number.saturating_sub(1)) {
        Some(line) => column_of(line),
        None => 1,
    };
    Place {
        line: number,
        column,
    }
}

/// The plain text of a script, and of a script of version 3 where its commands stand, and the script itself.
#[derive(Drop)]
struct PlainText {
    text: Vec<u8>,
    places: Option<Vec<WrittenPlace>>,
    own: Option<OwnLines>,
}

/// A text that is given as it is.
fn as_it_is(text: Vec<u8>) -> PlainText
    ensures { result ≡ record { text = text; places = None; own = None } }
{
    PlainText {
        text,
        places: None,
        own: None,
    }
}

/// The name of the file that has the source of a command, where its line names one, which is in the script's folder.
fn file_of(
    alloc: Global,
    folder: Option<&str>,
    place: &WrittenPlace,
) -> Result<Option<Bytes>, AllocError>
    ensures { IfOk result (λ file. is_some file ≡ is_some place.now.file) }
{
    let Some(path) = &place.file else {
        return Ok(None);
    };
    let Ok(text) = str::from_utf8(path.as_slice()) else {
        return Ok(Some(Bytes::copy_of(alloc, path.as_slice())?));
    };
    let name = name_beside(alloc, folder, text)?;
    Ok(Some(Bytes::copy_of(alloc, name.as_bytes())?))
}

/// The names of the files that have the sources of commands, where their lines name one.
fn files_at(
    alloc: Global,
    folder: Option<&str>,
    places: &[WrittenPlace],
) -> Result<Vec<Option<Bytes>>, AllocError>
    ensures { IfOk result (λ files. AreNamed places.now files.items) }
{
    let mut files = Vec::new(alloc);
    for place in places {
        files.push(file_of(alloc, folder, place)?)?;
    }
    Ok(files)
}

/// A plain text, with the script of version 3 in a folder of which it was made.
fn with_own(
    alloc: Global,
    folder: Option<&str>,
    script: Vec<u8>,
    plain: PlainScript,
) -> Result<PlainText, AllocError>
    ensures text { IfOk result (λ made. made.text ≡ plain.text) }
    ensures places { IfOk result (λ made. made.places ≡ Some plain.places) }
    ensures own { IfOk result (λ made. IsOwnOf script.items plain.places.items made.own) }
{
    let places = own_places(alloc, script.as_slice(), plain.places.as_slice())?;
    let files = files_at(alloc, folder, plain.places.as_slice())?;
    Ok(PlainText {
        text: plain.text,
        places: Some(plain.places),
        own: Some(OwnLines {
            text: script,
            places,
            files,
        }),
    })
}

/// The plain text of a script in a folder, with its files. Of a script with a bad line the error is the lowest one.
fn plain_of(
    alloc: Global,
    folder: Option<&str>,
    script: Vec<u8>,
    files: &[SourceFile],
) -> Result<PlainText, NoPlainText>
    ensures plain { IfOk result (IsPlainOf files.now script.items) }
    ensures unturned { IfErr result (Unturned files.now script.items) }
{
    match plain_script(alloc, script.as_slice(), files)? {
        Turned::Plain(plain) => Ok(with_own(alloc, folder, script, plain)?),
        Turned::BadLine(number) => Err(NoPlainText::Bad(place_in(script.as_slice(), number))),
        Turned::Other => Ok(as_it_is(script)),
    }
}

/// A script that is opened when it is read, and given as a plain text. What it lacks is noted, and of one of version 3
/// where its commands stand.
#[derive(Drop)]
pub(crate) struct WrittenFile<'a, R> {
    rt: &'a R,
    file: NamedFile<'a, R>,
    is_source: bool,
    failures: u64,
    missing: Option<String>,
    bad: Option<Place>,
    places: Option<Vec<WrittenPlace>>,
    own: Option<OwnLines>,
}

impl<'a, R: Files + io::Input> WrittenFile<'a, R> {
    /// The script at a path.
    pub(crate) fn new(rt: &'a R, path: &'a str) -> Self {
        WrittenFile {
            rt,
            file: NamedFile::new(rt, path),
            is_source: false,
            failures: 0,
            missing: None,
            bad: None,
            places: None,
            own: None,
        }
    }

    /// The file at a path that is explained: a script, or by its name a source, which is given as it is.
    pub(crate) fn explained(rt: &'a R, path: &'a str) -> Self {
        let mut file = WrittenFile::new(rt, path);
        file.is_source = path.ends_with(".cl");
        file
    }

    /// Whether it is a source by its name.
    pub(crate) fn is_source(&self) -> bool {
        self.is_source
    }

    /// How the replies to the commands of the text that was read are shown: by the places of a script of version 3, or
    /// else by those of the text.
    pub(crate) fn shows(
        &self,
        alloc: Global,
        text: &[u8],
        style: ReplyStyle,
    ) -> Result<Vec<Shown>, RunFault> {
        match &self.places {
            Some(places) => Ok(written_shows(alloc, places.as_slice(), style)?),
            None => text_shows(alloc, text, style),
        }
    }

    /// The file that is told: one that is missing, or else the script's.
    fn named(&self) -> &str {
        match &self.missing {
            Some(name) => name.as_str(),
            None => self.file.path(),
        }
    }

    /// What is told of a command that read it, where the reader of the command's output is gone or not.
    pub(crate) fn told(&self, gone: bool) -> Told<'_> {
        Told {
            file: self.named(),
            looks: self.file.looks(),
            gone,
            bad: self.bad,
        }
    }

    /// Reads the script and its files, and turns it.
    fn read(&mut self, alloc: Global) -> Result<PlainText, NoPlainText>
        ensures { self.new.failures ≡ self.old.failures }
    {
        let script = match self.file.read_all(alloc) {
            Ok(script) => script,
            Err(ReadFault::Failed) => return Err(NoPlainText::Script),
            Err(ReadFault::OutOfMemory) => return Err(NoPlainText::OutOfMemory),
        };
        if self.is_source {
            return Ok(as_it_is(script));
        }
        let folder = folder_of(self.file.path());
        let files = files_beside(self.rt, alloc, folder, script.as_slice())?;
        plain_of(alloc, folder, script, files.as_slice())
    }
}

impl<R: Files + io::Input> Read for WrittenFile<'_, R> {
    ghost rest = { λ _. None };

    ghost failures = { λ file. file.failures };

    fn read_all(&mut self, alloc: Global) -> Result<Vec<u8>, ReadFault> {
        match self.read(alloc) {
            Ok(plain) => {
                self.places = plain.places;
                self.own = plain.own;
                return Ok(plain.text);
            }
            Err(NoPlainText::OutOfMemory) => return Err(ReadFault::OutOfMemory),
            Err(NoPlainText::Script) => {}
            Err(NoPlainText::File(name)) => self.missing = Some(name),
            Err(NoPlainText::Bad(place)) => self.bad = Some(place),
        }
        self.failures = self.failures.saturating_add(1);
        Err(ReadFault::Failed)
    }
}

impl<R: Files + io::Input> Written for WrittenFile<'_, R> {
    ghost lines = { λ file. file.own };

    fn written(&self) -> Option<PlacedScript<'_>> {
        match &self.own {
            Some(own) => Some(own.lent()),
            None => None,
        }
    }
}
