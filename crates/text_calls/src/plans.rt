//! Rows of what a run goes by: schedules, starts and plans.

mod answers;
mod generated;
mod plan;
mod schedules;
mod starts;

use crate::plans::generated::GeneratedCalls;
use crate::plans::plan::PlanCalls;
use crate::plans::schedules::ScheduleCalls;
use crate::plans::starts::StartCalls;
use call_rows::play_file;
use do_base::Text;
use std::test::Fail;

/// Plays the rows of schedules, those that are generated among them, of starts and of plans.
pub(crate) fn play_plans(rt: &HostRuntime, report: &mut Text) -> Result<(), Fail> {
    let alloc = rt.alloc();
    play_file(rt, "schedules.rows", ScheduleCalls::new(alloc), report)?;
    play_file(rt, "generated.rows", GeneratedCalls::new(alloc), report)?;
    play_file(rt, "starts.rows", StartCalls::new(alloc), report)?;
    play_file(rt, "plans.rows", PlanCalls::new(alloc), report)
}
