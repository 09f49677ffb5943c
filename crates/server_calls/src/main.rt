//! Plays rows of calls of servers, and compares each answer with the one that stands beside the
//! call. The rows are of tables by name, and of the cores of servers of names, of pasteboards, of
//! servers of services and of notification centres. They are of the acts of classes of each kind,
//! scripts and checkers among them, place by place, and of the calls that the acts share.
//!
//! It stands on the crates of the servers, of which do_native decides the acts of each kind, and
//! calls public functions alone. The rows are files;
//! what they expect was worked out by hand or by another program. A row whose answer is another one
//! is printed with it; at the end of each file stands how many rows it has.
#![tactic(auto)]

mod acts;
mod behaviours;
mod bench;
mod boards;
mod centers;
mod classes;
mod names;
mod services;
mod shared;
mod tables;

use crate::acts::ActCalls;
use crate::boards::BoardCalls;
use crate::centers::CenterCalls;
use crate::names::NameCalls;
use crate::services::ServiceCalls;
use crate::shared::SharedCalls;
use crate::tables::TableCalls;
use call_rows::play_file;
use do_base::Text;
use do_class_kinds::Kind;
use std::io::Write;
use std::test::Fail;

/// Plays the rows of the cores.
fn play_cores(rt: &HostRuntime, report: &mut Text) -> Result<(), Fail> {
    let alloc = rt.alloc();
    play_file(rt, "tables.rows", TableCalls::new(alloc), report)?;
    play_file(rt, "names.rows", NameCalls::new(alloc), report)?;
    play_file(rt, "boards.rows", BoardCalls::new(alloc), report)?;
    play_file(rt, "services.rows", ServiceCalls::new(alloc), report)?;
    play_file(rt, "centers.rows", CenterCalls::new(alloc), report)
}

/// Each file of acts, and the kind of the class whose acts they are.
const ACTS: [(&str, Kind); 6] = [
    ("script_acts.rows", Kind::Script),
    ("name_acts.rows", Kind::Names),
    ("board_acts.rows", Kind::Pasteboard),
    ("service_acts.rows", Kind::Services),
    ("center_acts.rows", Kind::Center),
    ("checker_acts.rows", Kind::Checker),
];

/// Plays the rows of what acts share, and those of acts.
fn play_acts(rt: &HostRuntime, report: &mut Text) -> Result<(), Fail> {
    let alloc = rt.alloc();
    play_file(rt, "shared.rows", SharedCalls::new(alloc)?, report)?;
    for (name, kind) in ACTS {
        play_file(rt, name, ActCalls::new(alloc, kind)?, report)?;
    }
    Ok(())
}

fn main(rt: HostRuntime) -> Result<(), Fail> {
    let mut report = Text::new(rt.alloc());
    play_cores(&rt, &mut report)?;
    play_acts(&rt, &mut report)?;
    rt.stdout().write_all(report.as_slice())?;
    Ok(())
}
