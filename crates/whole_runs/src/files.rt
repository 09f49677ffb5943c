//! Files of a shelf in memory.

use crate::transcripts::schedule_of;
use call_rows::text_at;
use do_base::{FileList, NamedFile, Text, Values};
use do_generate::generate;
use do_woven::schedule_text;
use std::alloc::{AllocError, Global};
use std::fs;
use std::test::Fail;

/// The bytes of a file as it is stored.
pub(crate) fn stored(rt: &HostRuntime, name: &Text) -> Result<Text, Fail> {
    let bytes = fs::read(rt, str::from_utf8(name.as_slice())?)?;
    Ok(Text::from_vec(rt.alloc(), bytes)?)
}

/// Adds a file of a name.
fn add(files: &mut FileList, name: &[u8], bytes: Text) -> Result<(), AllocError> {
    let name = Text::from_slice(files.allocator(), name)?;
    files.push(NamedFile { name, bytes })
}

/// Adds a file for each two arguments, its name and its bytes.
fn add_given(files: &mut FileList, args: &Values) -> Result<(), Fail> {
    for at in 0..args.len() / 2 {
        let name = text_at(args, at * 2)?;
        let bytes = text_at(args, at * 2 + 1)?.clone()?;
        add(files, name.as_slice(), bytes)?;
    }
    Ok(())
}

/// A file for each two arguments, its name and its bytes.
pub(crate) fn given_files(args: &Values) -> Result<FileList, Fail> {
    let mut files = FileList::new(args.allocator());
    add_given(&mut files, args)?;
    Ok(files)
}

/// Adds the files of these names as they are stored.
fn add_stored(rt: &HostRuntime, files: &mut FileList, names: &Values) -> Result<(), Fail> {
    for at in 0..names.len() {
        let name = text_at(names, at)?;
        add(files, name.as_slice(), stored(rt, name)?)?;
    }
    Ok(())
}

/// The files of these names as they are stored.
pub(crate) fn stored_files(rt: &HostRuntime, names: &Values) -> Result<FileList, Fail> {
    let mut files = FileList::new(rt.alloc());
    add_stored(rt, &mut files, names)?;
    Ok(files)
}

/// Adds the file of a world, of which a built-in one has none.
fn add_world(rt: &HostRuntime, files: &mut FileList, world: &Text) -> Result<(), Fail> {
    if world.as_slice().starts_with(b":") {
        return Ok(());
    }
    Ok(add(files, world.as_slice(), stored(rt, world)?)?)
}

/// The file of a world, and the schedule of a transcript in the file `s`.
pub(crate) fn replayed_files(
    rt: &HostRuntime,
    world: &Text,
    transcript: &Text,
) -> Result<FileList, Fail> {
    let mut files = FileList::new(rt.alloc());
    add(&mut files, b"s", schedule_of(transcript)?)?;
    add_world(rt, &mut files, world)?;
    Ok(files)
}

/// One file.
fn one_file(name: &[u8], bytes: Text) -> Result<FileList, AllocError> {
    let mut files = FileList::new(bytes.allocator());
    add(&mut files, name, bytes)?;
    Ok(files)
}

/// A file of as many bytes `x`.
pub(crate) fn long_file(alloc: Global, name: &Text, count: usize) -> Result<FileList, AllocError> {
    let bytes = Text::from_vec(alloc, vec![in alloc; b'x'; count]?)?;
    one_file(name.as_slice(), bytes)
}

/// Adds a line so many times, and the line of the end.
fn push_repeated(text: &mut Text, count: u16, line: &Text) -> Result<(), AllocError> {
    for _line in 0..count {
        text.push_bytes(line.as_slice())?;
    }
    text.push_bytes(b"end\n")
}

/// Starts of a line so many times.
fn repeated(count: u16, line: &Text) -> Result<Text, AllocError> {
    let mut text = Text::from_slice(line.allocator(), b"starts 1\n")?;
    push_repeated(&mut text, count, line)?;
    Ok(text)
}

/// A file of starts, of a line so many times.
pub(crate) fn starts_file(name: &Text, count: u16, line: &Text) -> Result<FileList, AllocError> {
    one_file(name.as_slice(), repeated(count, line)?)
}

/// The schedule that a number generates, of as many lines, in the file `s`.
pub(crate) fn generated_file(
    alloc: Global,
    number: u16,
    lines: u16,
) -> Result<FileList, AllocError> {
    let lines = generate(alloc, u64::from(number), u64::from(lines))?;
    one_file(b"s", schedule_text(alloc, &lines)?)
}
