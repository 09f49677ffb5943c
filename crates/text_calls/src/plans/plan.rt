//! Calls of the reader of plans.

use crate::plans::answers::{fault_value, repeated_at};
use call_rows::{Part, count_value, list_value, no_call, text_at};
use do_base::{Value, Values};
use do_grammar::is_text;
use do_plan::{Plan, PlanLine, read_plan};
use std::alloc::Global;
use std::test::Fail;

/// Nothing but where answers are made.
#[derive(Drop)]
pub(crate) struct PlanCalls {
    alloc: Global,
}

/// A line of a plan: its port, its files and its turns.
fn line_value(alloc: Global, line: &PlanLine) -> Result<Value, Fail> {
    let port = Value::Num(i64::from(line.port.port()));
    let turns = Value::Num(i64::try_from(line.turns)?);
    let world = Value::Text(line.world.clone()?);
    let starts = Value::Text(line.starts.clone()?);
    Ok(list_value(vec![in alloc; port, world, starts, turns]?))
}

/// The lines of a plan, at the end of a list.
fn push_lines(answer: &mut Values, plan: &Plan) -> Result<(), Fail> {
    for line in plan.as_slice() {
        answer.push(line_value(answer.allocator(), line)?)?;
    }
    Ok(())
}

/// The lines of a plan.
fn plan_value(alloc: Global, plan: &Plan) -> Result<Value, Fail> {
    let mut answer = Values::new(alloc);
    push_lines(&mut answer, plan)?;
    Ok(Value::List(answer))
}

impl PlanCalls {
    /// Calls whose answers are made there.
    pub(crate) fn new(alloc: Global) -> PlanCalls {
        PlanCalls { alloc }
    }

    /// Reads a plan, and gives its lines.
    fn plan(&self, args: &Values) -> Result<Value, Fail> {
        match read_plan(self.alloc, text_at(args, 0)?.as_slice()) {
            Ok(plan) => plan_value(self.alloc, &plan),
            Err(fault) => fault_value(self.alloc, fault),
        }
    }

    /// Reads a plan, and gives how many lines it has.
    fn count_plan(&self, args: &Values) -> Result<Value, Fail> {
        let text = repeated_at(args)?;
        match read_plan(self.alloc, text.as_slice()) {
            Ok(plan) => count_value(plan.len()),
            Err(fault) => fault_value(self.alloc, fault),
        }
    }
}

impl Part for PlanCalls {
    fn call(&mut self, word: &[u8], args: &Values) -> Result<Value, Fail> {
        if is_text(word, b"plan") {
            return self.plan(args);
        }
        if is_text(word, b"many_nodes") {
            return self.count_plan(args);
        }
        no_call()
    }
}
