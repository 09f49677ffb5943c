ghost use Rattle.do_sched.specs.declared.fault.SchedFault as fault;
ghost use Rattle.do_plan.specs.declared.plan.PlanLine as line;
ghost use Rattle.std.specs.Prelude.{◌≡◌, List as Listed, Ok, Err, IfOk};
ghost use Rattle.do_cli.specs.Forms.{names_file, names_builtin};
ghost use Rattle.do_sched.specs.Answers.{AnswersWith};
ghost use Rattle.do_plan.specs.{Form.{IsText, IsFault}, Reading.Tells, Plan.{is_one_word, is_file}};
ghost use Rattle.do_plan.specs.Plan.{is_world, served_at, node_at, plan_at, plan_form};
ghost use Rattle.do_grammar.specs.Words.{word, ◌>>?◌};

use crate::form::LineForm;
use crate::plan::{Plan, PlanLine};
use crate::reading::lines_of;
use do_base::{NodeId, Text};
use do_grammar::{dec_of, is_text};
use do_sched::{SchedFault, node_of, word_in};
use std::alloc::{AllocError, Global};

/// The most bytes of a file's name.
const MAX_NAME: usize = 4096;

/// The most turns of a node.
const MAX_TURNS: u64 = 1_099_511_627_776;

/// The lines of a plan between its first line `plan 1` and `end`: 1 to 64.
///
/// Every line, the last one too, is closed by a line feed, one space parts its words, and there is
/// no second way to write it: `node PORT WORLD STARTS TURNS`. The words are as on the command line;
/// a file's name holds no space. Where the bytes are no plan, the first line at fault is told; an
/// `end` with no line before it is at fault in line 2, and `TooMany` is the 65th of these lines.
pub fn read_plan(alloc: Global, bytes: &[u8]) -> Result<Plan, SchedFault>
    ensures exact { Tells plan_form bytes.now result }
    ensures accepts { (lines : Listed line.PlanLine) → IsText plan_form bytes.now lines
        → AnswersWith (Ok lines) result }
    ensures refuses { (fault : fault.SchedFault) → IsFault plan_form bytes.now fault
        → AnswersWith (Err fault) result }
{
    lines_of(alloc, bytes)
}

impl LineForm for PlanLine {
    ghost use Rattle.do_plan.specs.Plan.{plan_form, plan_at};

    ghost form = { plan_form };

    ghost line_at = { plan_at };

    fn header() -> &'static [u8] {
        b"plan 1"
    }

    fn least() -> usize {
        1
    }

    fn most() -> usize {
        64
    }

    fn line_from(alloc: Global, text: &[u8]) -> Result<Option<PlanLine>, AllocError> {
        plan_line(alloc, text)
    }
}

/// Whether neither a space nor a line feed stands in a text.
fn is_one_word(text: &[u8]) -> bool
    ensures { result ≡ is_one_word text.now }
{
    !text.contains(&b' ') && !text.contains(&b'\n')
}

/// Whether a text names a file.
fn names_file(text: &[u8]) -> bool
    ensures { result ≡ names_file text.now }
{
    match text {
        [] => false,
        [first, ..] => text.len() <= MAX_NAME && *first != b'-' && *first != b':',
    }
}

/// Whether a text names a file and is one word.
fn is_file(text: &[u8]) -> bool
    ensures { result ≡ is_file text.now }
{
    names_file(text) && is_one_word(text)
}

/// Whether a text is a built-in world or a file's name.
fn is_world(text: &[u8]) -> bool
    ensures { result ≡ is_world text.now }
{
    is_text(text, b":counter") || is_text(text, b":mesh") || is_file(text)
}

/// A node and a world with what stands behind them: the name of a file and a number of turns.
fn served_line(
    alloc: Global,
    port: NodeId,
    world: &[u8],
    rest: &[u8],
) -> Result<Option<PlanLine>, AllocError>
    ensures { IfOk result (λ line. line ≡ (word 32 rest.now >>? served_at port world.now)) }
{
    let Some((starts, turns)) = word_in(rest) else {
        return Ok(None);
    };
    if !is_file(starts) {
        return Ok(None);
    }
    let Some(turns) = dec_of(turns, 1, MAX_TURNS) else {
        return Ok(None);
    };
    let world = Text::from_slice(alloc, world)?;
    let starts = Text::from_slice(alloc, starts)?;
    Ok(Some(PlanLine {
        port,
        world,
        starts,
        turns,
    }))
}

/// What stands behind `node `.
fn node_line(alloc: Global, bytes: &[u8]) -> Result<Option<PlanLine>, AllocError>
    ensures { IfOk result (λ line. line ≡ (word 32 bytes.now >>? node_at)) }
{
    let Some((digits, files)) = word_in(bytes) else {
        return Ok(None);
    };
    let Some(port) = node_of(digits) else {
        return Ok(None);
    };
    let Some((world, rest)) = word_in(files) else {
        return Ok(None);
    };
    if !is_world(world) {
        return Ok(None);
    }
    served_line(alloc, port, world, rest)
}

/// The line that a text without its line feed spells, if it spells one.
#[tactic(auto, unfolding(crate::specs::Plan::plan_at))]
fn plan_line(alloc: Global, text: &[u8]) -> Result<Option<PlanLine>, AllocError>
    ensures { IfOk result (λ line. line ≡ plan_at text.now) }
{
    let Some((first, rest)) = word_in(text) else {
        return Ok(None);
    };
    if !is_text(first, b"node") {
        return Ok(None);
    }
    node_line(alloc, rest)
}
