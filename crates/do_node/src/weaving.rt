ghost use Rattle.do_given.specs.declared.status.Status as declared;
ghost use Rattle.std.specs.Prelude.{◌≡◌, ◌≤◌, ℕ, List, Ok, Err, IfOk, IfErr, OnOk, Some, length};
ghost use Rattle.do_base.specs.declared.outside.shelf.NamedFile.{NamedFile};
ghost use Rattle.do_sched.specs.Schedule.{most_steps};
ghost use Rattle.do_woven.specs.Steps.{steps_in};
ghost use Rattle.do_world.specs.Sound.{IsSound};
ghost use Rattle.do_given.specs.Reading.{OrMemory, OrUnread, Stops};
ghost use Rattle.do_node.specs.{Orders.TellsAltered, Weaving.{Contradicts, HasUnreadPart, IsWoven}};
ghost use Rattle.do_node.specs.Weaving.{RefusesWeaving, WeavesTo, told_of_weaving};
ghost use Rattle.do_node.specs.Within.{GivesBounded};

use crate::networks::world_net;
use crate::records::records_given;
use crate::woven_net::WovenNet;
use do_base::{Shelf, Text, Word};
use do_cli::Words;
use do_given::{Status, world_given};
use do_native::Native;
use do_net::Hosted;
use do_record::Records;
use do_weave::{WeaveFault, weave};
use do_world::World;
use do_woven::schedule_text;
use std::alloc::Global;

/// What is told of records that are not woven.
fn told_of_weaving(fault: WeaveFault) -> Status
    ensures { result ≡ told_of_weaving fault }
{
    match fault {
        WeaveFault::Contradiction { index, line } => Status::Contradiction { index, line },
        WeaveFault::Memory => Status::Memory,
    }
}

/// The schedule that records are woven to over the network of a world, as a text.
fn woven_text<S: Hosted<Acts = Native>>(
    alloc: Global,
    world: World,
    records: &Records,
) -> Result<Text, Status>
    requires sound { IsSound world }
    requires steps { steps_in records.now ≤ most_steps }
    ensures says { IfOk result (WeavesTo world records.now) }
    ensures stopped { IfErr result (Stops ⊥ ⊥ (Contradicts world records.now)) }
    ensures accepts { (text : List ℕ) → WeavesTo world records.now text
        → OrMemory (Ok text) result }
    ensures refuses { (status : declared.Status) → Contradicts world records.now status
        → OrMemory (Err status) result }
{
    let net = world_net::<S>(alloc, world)?;
    let mut machine = WovenNet { net };
    match weave(&mut machine, records) {
        Ok(lines) => Ok(schedule_text(alloc, &lines)?),
        Err(fault) => Err(told_of_weaving(fault)),
    }
}

/// The schedule that the records in files are woven to over the world that a word gives, as a text.
pub(crate) fn woven_given<S: Hosted<Acts = Native>, H: Shelf>(
    alloc: Global,
    word: &Word,
    names: &Words,
    shelf: &mut H,
) -> Result<Text, Status>
    requires { length names.now ≤ 64 }
    ensures says { IfOk result (IsWoven (H.files shelf.old) word.now names.now) }
    ensures stopped { IfErr result (Stops
        (HasUnreadPart (H.files shelf.old) (H.faults shelf.old) (H.faults shelf.new)
        word.now names.now) ⊥
        (RefusesWeaving (H.files shelf.old) word.now names.now)) }
    ensures accepts { (files : List NamedFile) (text : List ℕ) → H.files shelf.old ≡ Some files
        → IsWoven (Some files) word.now names.now text → OrUnread (Ok text) result }
    ensures refuses { (files : List NamedFile) (status : declared.Status)
        → H.files shelf.old ≡ Some files
        → RefusesWeaving (Some files) word.now names.now status
        → OrUnread (Err status) result }
    ensures altered { IfErr result (TellsAltered (H.files shelf.old) word.now names.now) }
    ensures bounded { OnOk result (GivesBounded (H.files shelf.old) word.now) }
    ensures same { H.files shelf.new ≡ H.files shelf.old }
    ensures later { H.faults shelf.old ≤ H.faults shelf.new }
{
    let world = match world_given(alloc, word, shelf) {
        Ok(world) => world,
        Err(status) => return Err(status),
    };
    let none = Records::new(alloc);
    let records = match records_given(alloc, &world.nodes, none, names.as_slice(), shelf) {
        Ok(records) => records,
        Err(status) => return Err(status),
    };
    woven_text::<S>(alloc, world, &records)
}
