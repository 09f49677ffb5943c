//! Plays rows of calls of what reads and writes texts, and compares each answer with the one that
//! stands beside the call.
//!
//! The texts are words and types, methods with the acts that they come to, schedules, starts and
//! plans, blocks of a transcript, a grammar of our own, worlds, and what a person is told. It
//! stands on the crates of texts, do_behave, do_lines, do_world and do_advice, and calls public
//! functions alone. The rows are files; what they expect was worked out by hand. The texts of types
//! with sizes are what clang gives, and generated lines are by another program. A row whose answer
//! is another one is printed with it; at the end of each file stands how many rows it has.
#![tactic(auto)]

mod advice;
mod base;
mod blocks;
mod pairs;
mod plans;
mod repeated;
mod scripts;
mod words;
mod worlds;

use crate::advice::AdviceCalls;
use crate::base::BaseCalls;
use crate::blocks::BlockCalls;
use crate::pairs::PairCalls;
use crate::plans::play_plans;
use crate::scripts::play_scripts;
use crate::words::play_words;
use crate::worlds::play_worlds;
use call_rows::play_file;
use do_base::Text;
use std::io::Write;
use std::test::Fail;

fn main(rt: HostRuntime) -> Result<(), Fail> {
    let alloc = rt.alloc();
    let mut report = Text::new(alloc);
    play_file(&rt, "base.rows", BaseCalls::new(alloc), &mut report)?;
    play_words(&rt, &mut report)?;
    play_scripts(&rt, &mut report)?;
    play_plans(&rt, &mut report)?;
    play_file(&rt, "blocks.rows", BlockCalls::new(alloc)?, &mut report)?;
    play_file(&rt, "pairs.rows", PairCalls::new(alloc), &mut report)?;
    play_worlds(&rt, &mut report)?;
    play_file(&rt, "advice.rows", AdviceCalls::new(alloc), &mut report)?;
    rt.stdout().write_all(report.as_slice())?;
    Ok(())
}
