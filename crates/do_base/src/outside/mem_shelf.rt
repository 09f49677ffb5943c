//! A shelf whose files stand in memory, and whose faults are listed beforehand.
ghost use Rattle.std.specs.Prelude.{◌≡◌, ◌<◌, ◌≤◌, [], ◌^◌, ◌↔◌, ◌⊎◌, ℕ, List, Some, None, Ok};
ghost use Rattle.std.specs.{Prelude.IsErrOf, Option.option_map};
ghost use Rattle.do_base.specs.outside.{Causes.next_count, Files.{file_named, FetchCause}};
ghost use Rattle.do_base.specs.outside.InMemory.{FailsNext, after_fetch};

use crate::outside::shelf::{FetchFail, FileList, Shelf};
use crate::outside::sink::CallList;
use crate::values::text::Text;
use std::alloc::{AllocError, Global};
use std::marker::Model;

/// A shelf in memory, whose listed fetches fail.
///
/// It tells all its files. Contracts see it as its files, the numbers of the fetches that fail,
/// counted from 1, and the counts of fetches and of faults so far. The form is this project's own.
#[derive(Debug, Drop)]
pub struct MemShelf {
    alloc: Global,
    files: FileList,
    fail: CallList,
    calls: u64,
    faults: u64,
}

impl Model for MemShelf {
    ghost use Rattle.do_base.specs.outside.InMemory.{ShelfState};

    ghost Value = { ShelfState };

    ghost view = { λ s.
        record { files = s.files; fail = s.fail; calls = s.calls; faults = s.faults } };
}

fn find<'a>(files: &'a FileList, name: &Text) -> Option<&'a Text>
    ensures { option_map (λ t. t.now) result ≡ file_named name.now files.now }
{
    for file in files.as_slice() {
        if file.name.is(name.as_slice()) {
            return Some(&file.bytes);
        }
    }
    None
}

impl MemShelf {
    /// A shelf of these files, before its first fetch. Of two files of one name the first counts.
    ///
    /// It takes the lists over, and no memory of its own so far.
    pub fn new(alloc: Global, files: FileList, fail: CallList) -> Result<MemShelf, AllocError>
        ensures { result ≡ Ok (record { files = files; fail = fail; calls = 0; faults = 0 }) }
    {
        Ok(MemShelf {
            alloc,
            files,
            fail,
            calls: 0,
            faults: 0,
        })
    }
}

impl Shelf for MemShelf {
    ghost files = { λ s. Some s.files };

    ghost faults = { λ s. s.faults };

    /// Gives a copy of the file of that name.
    ///
    /// `Failed` comes exactly where this fetch is listed, or where there is no file of that name,
    /// which is no fault. A fetch that memory ran out in is not counted, and leaves all as it was.
    fn fetch(&mut self, name: &Text, limit: u64) -> Result<Text, FetchFail>
        requires { limit < 2 ^ 63 }
        ensures cause { FetchCause (Some self.old.files)
            self.old.faults self.new.faults name.now limit result }
        ensures same { Some self.new.files ≡ Some self.old.files }
        ensures later { self.old.faults ≤ self.new.faults }

        // One more fetch, unless memory ran out, and the rest of the shelf stays.
        ensures counted { ¬ (IsErrOf result FetchFail.Memory)
            → self.new ≡ after_fetch self.old self.new.faults }
        ensures memory { IsErrOf result FetchFail.Memory → self.new ≡ self.old }

        // It fails exactly where it is listed or there is no such file; the first alone is a fault.
        ensures failed { IsErrOf result FetchFail.Failed
            ↔ (FailsNext self.old.fail self.old.calls
            ⊎ (file_named name.now self.old.files ≡ None)) }
        ensures fault { FailsNext self.old.fail self.old.calls
            → self.new.faults ≡ next_count self.old.faults }
        ensures no_fault { ¬ (FailsNext self.old.fail self.old.calls)
            → self.new.faults ≡ self.old.faults }
    {
        let calls = self.calls.saturating_add(1);
        if self.fail.contains(&calls) {
            self.calls = calls;
            self.faults = self.faults.saturating_add(1);
            return Err(FetchFail::Failed);
        }
        let Some(bytes) = find(&self.files, name) else {
            self.calls = calls;
            return Err(FetchFail::Failed);
        };
        if bytes.len() as u64 > limit {
            self.calls = calls;
            return Err(FetchFail::Long {
                read: limit + 1,
                limit,
            });
        }
        let text = Text::from_slice(self.alloc, bytes.as_slice())?;
        self.calls = calls;
        Ok(text)
    }
}
