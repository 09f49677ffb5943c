//! A plan's children, started, waited for and told of.
ghost use Rattle.std.specs.Prelude.{◌≡◌, ◌≤◌, ◌<◌, ◌+◌, ◌^◌, ◌++◌, length, OnOk, IfOk};
ghost use Rattle.do_lab.specs.Children.{end_word, end_line, end_lines, lab_text, first_failed};
ghost use Rattle.do_lab.specs.{Children.{TellsLab, HasChildCause}, Running.HaveRun};

use crate::children::{ChildEnd, ChildEnds, LabEnd};
use crate::parts::split;
use crate::spawner::Spawner;
use crate::starting::{start_all, wait_all};
use do_base::{PutFail, Sink, Text, write_all};
use do_grammar::{push_dec, push_int};
use do_plan::{Plan, PlanLine};
use std::alloc::{AllocError, Global};

/// Adds a status, or `failed`.
fn push_end(out: &mut Text, end: &ChildEnd) -> Result<(), AllocError>
    ensures { OnOk result (out.new ≡ out.old ++ end_word end.now) }
{
    match end {
        ChildEnd::Status(status) => push_int(out, i64::from(*status)),
        ChildEnd::NotStarted | ChildEnd::NotWaited => out.push_bytes(b"failed"),
    }
}

/// Adds the line of a child.
fn push_line(out: &mut Text, line: &PlanLine, end: &ChildEnd) -> Result<(), AllocError>
    ensures { OnOk result (out.new ≡ out.old ++ end_line line.now end.now) }
{
    out.push_bytes(b"node ")?;
    push_dec(out, u64::from(line.port.port()))?;
    out.push(b' ')?;
    push_end(out, end)?;
    out.push(b'\n')
}

/// Adds the lines of children.
fn push_lines(out: &mut Text, lines: &[PlanLine], ends: &[ChildEnd]) -> Result<(), AllocError>
    ensures { OnOk result (out.new ≡ out.old ++ end_lines lines.now ends.now) }
{
    let [line, lines @ ..] = lines else {
        return Ok(());
    };
    let [end, ends @ ..] = ends else {
        return Ok(());
    };
    push_line(out, line, end)?;
    push_lines(out, lines, ends)
}

/// All that is written of the children of a plan.
fn text_of(alloc: Global, plan: &Plan, ends: &ChildEnds) -> Result<Text, AllocError>
    ensures { IfOk result (λ text. text ≡ lab_text plan.now ends.now) }
{
    let mut text = Text::from_slice(alloc, b"lab 1\n")?;
    push_lines(&mut text, plan.as_slice(), ends.as_slice())?;
    text.push_bytes(b"end\n")?;
    Ok(text)
}

/// The first child, counted on from a number, that did not end with status 0.
fn first_failed(ends: &[ChildEnd], index: u64) -> LabEnd
    requires { index + length ends.now < 2 ^ 64 }
    ensures { result ≡ first_failed index ends.now }
{
    let Some((end, others)) = split(ends) else {
        return LabEnd::Done;
    };
    match end {
        ChildEnd::Status(status) if *status == 0 => first_failed(others, index + 1),
        _ => LabEnd::ChildFailed { index, end: *end },
    }
}

/// Starts the children of a plan, in order, and waits for those that started.
fn run_all<P: Spawner>(alloc: Global, plan: &Plan, spawn: &mut P) -> Result<ChildEnds, AllocError>
    ensures ok { IfOk result (λ ends. HaveRun plan.now ends (P.told spawn.old)
        (P.told spawn.new) (P.faults spawn.old) (P.faults spawn.new)) }
    ensures later { P.faults spawn.old ≤ P.faults spawn.new }
{
    let children = start_all(alloc, plan.as_slice(), spawn)?;
    let ends = wait_all(alloc, children.as_slice(), spawn)?;
    Ok(ends)
}

/// Runs the children of a plan, and writes how each ended.
///
/// Each is started in order, with the words `node PORT WORLD STARTS TURNS` of its line, and then
/// each that started is waited for, in order. One that could not be started does not stop the
/// others. Then `lab 1`, a line `node PORT STATUS` for each child, with `failed` in place of a
/// status where there is none, and `end` are written; if memory runs out before, nothing is.
pub fn lab<P: Spawner, K: Sink>(alloc: Global, plan: &Plan, spawn: &mut P, out: &mut K) -> LabEnd
    ensures tells { TellsLab plan.now (P.told spawn.old) (P.told spawn.new)
        (K.written out.old) (K.written out.new) (K.faults out.old) (K.faults out.new) result }
    ensures cause { HasChildCause (P.faults spawn.old) (P.faults spawn.new) result }
    ensures later { P.faults spawn.old ≤ P.faults spawn.new }
    ensures written { K.faults out.old ≤ K.faults out.new }
{
    let Ok(ends) = run_all(alloc, plan, spawn) else {
        return LabEnd::Memory;
    };
    let Ok(text) = text_of(alloc, plan, &ends) else {
        return LabEnd::Memory;
    };
    match write_all(out, text.as_slice()) {
        Ok(()) => first_failed(ends.as_slice(), 1),
        Err(PutFail::Failed) => LabEnd::WriteFault,
        Err(PutFail::Memory) => LabEnd::Memory,
    }
}
