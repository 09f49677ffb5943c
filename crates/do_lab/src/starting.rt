//! The starts and the waits of a plan.
ghost use Rattle.std.specs.Prelude.{◌≡◌, ◌≤◌, ℕ, IfOk, decimal};
ghost use Rattle.do_base.specs.outside.Causes.{Rose};
ghost use Rattle.do_output.specs.Told.{TellsMore};
ghost use Rattle.do_lab.specs.{Children.{line_words, waits_for, Fits}, Running.{Runs, AllRun}};
ghost use Rattle.do_lab.specs.Running.{IsNot, Rises, HasStarted, HaveStarted, HaveWaited};

use crate::children::{ChildEnd, ChildEnds};
use crate::parts::split;
use crate::spawner::{ChildId, SpawnFail, Spawner};
use do_base::{Items, Text, Texts};
use do_grammar::push_dec;
use do_plan::PlanLine;
use std::alloc::{AllocError, Global};

/// Children, or none where a start failed, in the order of the plan.
pub type Children = Items<Option<ChildId>>;

/// A number as it is written.
fn number(alloc: Global, n: u64) -> Result<Text, AllocError>
    ensures { IfOk result (λ text. text ≡ decimal n) }
{
    let mut text = Text::new(alloc);
    push_dec(&mut text, n)?;
    Ok(text)
}

/// The words of a line's child.
fn words_of(alloc: Global, line: &PlanLine) -> Result<Texts, AllocError>
    ensures { IfOk result (λ words. words ≡ line_words line.now) }
{
    let mut words = Texts::new(alloc);
    words.push(Text::from_slice(alloc, b"node")?)?;
    words.push(number(alloc, u64::from(line.port.port()))?)?;
    words.push(line.world.clone()?)?;
    words.push(line.starts.clone()?)?;
    words.push(number(alloc, line.turns)?)?;
    Ok(words)
}

/// Starts the child of a line.
fn start_one<P: Spawner>(
    alloc: Global,
    line: &PlanLine,
    spawn: &mut P,
) -> Result<Option<ChildId>, AllocError>
    ensures ok { IfOk result (λ child. HasStarted line.now child (P.told spawn.old)
        (P.told spawn.new) (P.next_child spawn.old) (P.next_child spawn.new)
        (P.is_running spawn.new) (P.faults spawn.old) (P.faults spawn.new)) }
    ensures others { (n : ℕ) → P.is_running spawn.old n → P.is_running spawn.new n }
    ensures later { P.faults spawn.old ≤ P.faults spawn.new }
{
    let words = words_of(alloc, line)?;
    match spawn.start(words.as_slice()) {
        Ok(child) => Ok(Some(child)),
        Err(SpawnFail::Failed) => Ok(None),
        Err(SpawnFail::Memory) => Err(AllocError),
    }
}

/// Starts the child of each line, in order.
pub(crate) fn start_all<P: Spawner>(
    alloc: Global,
    lines: &[PlanLine],
    spawn: &mut P,
) -> Result<Children, AllocError>
    ensures ok { IfOk result (λ children. HaveStarted lines.now children (P.told spawn.old)
        (P.told spawn.new) (P.next_child spawn.old) (P.is_running spawn.new)
        (P.faults spawn.old) (P.faults spawn.new)) }
    ensures others { (n : ℕ) → P.is_running spawn.old n → P.is_running spawn.new n }
    ensures later { P.faults spawn.old ≤ P.faults spawn.new }
{
    let Some((line, others)) = split(lines) else {
        return Ok(Children::new(alloc));
    };
    let child = start_one(alloc, line, spawn)?;
    let mut children = start_all(alloc, others, spawn)?;
    children.insert(0, child)?;
    Ok(children)
}

/// Waits for a child, where there is one.
fn wait_one<P: Spawner>(child: &Option<ChildId>, spawn: &mut P) -> ChildEnd
    requires { Runs (P.is_running spawn.old) child.now }
    ensures calls { TellsMore (P.told spawn.old) (P.told spawn.new) (waits_for child.now result) }
    ensures fits { Fits child.now result }
    ensures others { (n : ℕ) → IsNot n child.now
        → P.is_running spawn.old n → P.is_running spawn.new n }
    ensures later { P.faults spawn.old ≤ P.faults spawn.new }
    ensures cause { result ≡ ChildEnd.NotWaited → Rose (P.faults spawn.old) (P.faults spawn.new) }
{
    let Some(child) = child else {
        return ChildEnd::NotStarted;
    };
    match spawn.ended(*child) {
        Ok(status) => ChildEnd::Status(status),
        Err(_) => ChildEnd::NotWaited,
    }
}

/// Waits for each child that started, in order.
pub(crate) fn wait_all<P: Spawner>(
    alloc: Global,
    children: &[Option<ChildId>],
    spawn: &mut P,
) -> Result<ChildEnds, AllocError>
    requires rises { Rises 0 children.now }
    requires run { AllRun (P.is_running spawn.old) children.now }
    ensures ok { IfOk result (λ ends. HaveWaited children.now ends (P.told spawn.old)
        (P.told spawn.new) (P.faults spawn.old) (P.faults spawn.new)) }
    ensures later { P.faults spawn.old ≤ P.faults spawn.new }
{
    let Some((child, others)) = split(children) else {
        return Ok(ChildEnds::new(alloc));
    };
    let end = wait_one(child, spawn);
    let mut ends = wait_all(alloc, others, spawn)?;
    ends.insert(0, end)?;
    Ok(ends)
}
