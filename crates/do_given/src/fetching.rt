ghost use Rattle.do_given.specs.declared.status.Status as declared;
ghost use Rattle.std.specs.Prelude.{◌≡◌, ◌<◌, ◌≤◌, ◌^◌, ℕ, List, Ok, Err, IfOk, IfErr, Some};
ghost use Rattle.do_base.specs.declared.outside.shelf.NamedFile.{NamedFile};
ghost use Rattle.do_given.specs.{Files.{IsFile, IsLong, IsUnread}, Reading.{OrUnread, Stops}};

use crate::status::Status;
use do_base::{FetchFail, Shelf, Text, Word};

/// The bytes of the file of this name, of at most `limit` bytes.
pub fn fetch_within<H: Shelf>(name: &Word, limit: u64, shelf: &mut H) -> Result<Text, Status>
    requires { limit < 2 ^ 63 }
    ensures file { IfOk result (IsFile (H.files shelf.old) name.now limit) }
    ensures stopped { IfErr result (Stops
        (IsUnread (H.files shelf.old) (H.faults shelf.old) (H.faults shelf.new) name.now) ⊥
        (IsLong (H.files shelf.old) name.now limit)) }
    ensures fits { (files : List NamedFile) (bytes : List ℕ) → H.files shelf.old ≡ Some files
        → IsFile (Some files) name.now limit bytes → OrUnread (Ok bytes) result }
    ensures long { (files : List NamedFile) (status : declared.Status)
        → H.files shelf.old ≡ Some files
        → IsLong (Some files) name.now limit status → OrUnread (Err status) result }
    ensures same { H.files shelf.new ≡ H.files shelf.old }
    ensures later { H.faults shelf.old ≤ H.faults shelf.new }
{
    match shelf.fetch(name, limit) {
        Ok(bytes) => Ok(bytes),
        Err(FetchFail::Failed) => Err(Status::ReadFault),
        Err(FetchFail::Long { read, limit }) => Err(Status::TooLong { read, limit }),
        Err(FetchFail::Memory) => Err(Status::Memory),
    }
}
