//! What commands run over, and what the last one came to.

mod changing;
mod running;

use crate::links::LinkCalls;
pub(crate) use crate::outside::running::{WAYS, Way};
use crate::spawners::good_children;
use crate::words::{line_of_words, words_of};
use call_rows::Part;
use do_base::{CallList, FileList, MemShelf, MemSink, Sink, Text, Value, Values};
use do_lab::MemSpawner;
use do_node::{Status, run};
use std::alloc::{AllocError, Global};
use std::test::Fail;

/// Files, a link, children and the puts that fail; what the link was made of; and what the last
/// command came to and wrote.
#[derive(Drop)]
pub(crate) struct Outside {
    alloc: Global,
    shelf: MemShelf,
    links: LinkCalls,
    script: Values,
    spawn: MemSpawner,
    puts: CallList,
    status: Status,
    written: Text,
}

impl Outside {
    /// No file, a link that does not listen, and children that all end with 0.
    pub(crate) fn new(alloc: Global) -> Result<Outside, AllocError> {
        Ok(Outside {
            alloc,
            shelf: MemShelf::new(alloc, FileList::new(alloc), CallList::new(alloc))?,
            links: LinkCalls::new(alloc)?,
            script: Values::new(alloc),
            spawn: good_children(alloc)?,
            puts: CallList::new(alloc),
            status: Status::Ok,
            written: Text::new(alloc),
        })
    }

    /// What the last command wrote.
    pub(crate) fn written(&self) -> &Text {
        &self.written
    }

    /// The files.
    pub(crate) fn shelf(&mut self) -> &mut MemShelf {
        &mut self.shelf
    }

    /// Takes other files, none of whose fetches fails.
    pub(crate) fn set_files(&mut self, files: FileList) -> Result<Value, Fail> {
        self.shelf = MemShelf::new(self.alloc, files, CallList::new(self.alloc))?;
        Ok(Value::Nil)
    }

    /// Runs a line of words, and writes to an output.
    fn run_over<K: Sink>(&mut self, line: &[u8], out: &mut K) -> Result<(), AllocError> {
        let words = words_of(self.alloc, line)?;
        self.status = run(
            self.alloc,
            words.as_slice(),
            &mut self.shelf,
            out,
            self.links.link(),
            &mut self.spawn,
        );
        Ok(())
    }

    /// Keeps what was written.
    fn keep(&mut self, written: &Text) -> Result<(), AllocError> {
        self.written.clear();
        self.written.push_bytes(written.as_slice())
    }

    /// Runs a line of words over an output of which the puts fail that are said to.
    fn run_once(&mut self, line: &[u8]) -> Result<(), AllocError> {
        let mut out = MemSink::new(self.alloc, self.puts.clone()?)?;
        self.run_over(line, &mut out)?;
        self.keep(out.bytes())
    }

    /// Takes a link of the same script anew.
    fn link_again(&mut self) -> Result<(), Fail> {
        if !self.script.is_empty() {
            self.links.call(b"link", &self.script)?;
        }
        Ok(())
    }

    /// Runs a line of words again for which memory ran out. What was written then must be the front
    /// of what is written now.
    fn run_again(&mut self, line: &[u8]) -> Result<(), Fail> {
        let front = self.written.clone()?;
        self.link_again()?;
        self.run_once(line)?;
        if !self.written.as_slice().starts_with(front.as_slice()) {
            return Err(Fail::from("no front"));
        }
        Ok(())
    }

    /// Runs a line of words, twice where memory ran out.
    pub(crate) fn run(&mut self, line: &[u8]) -> Result<(), Fail> {
        self.run_once(line)?;
        match &self.status {
            Status::Memory => self.run_again(line),
            _ => Ok(()),
        }
    }

    /// Runs a form of a world and a schedule in the file `s`, which must be written whole.
    pub(crate) fn run_form(&mut self, form: &[u8], world: &Text) -> Result<(), Fail> {
        let line = line_of_words(self.alloc, &[form, world.as_slice(), b"s"])?;
        self.run(line.as_slice())?;
        match &self.status {
            Status::Ok => Ok(()),
            _ => Err(Fail::from("not whole")),
        }
    }
}
