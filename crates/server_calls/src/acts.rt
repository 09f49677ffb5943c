//! Acts of the methods of a class.

use crate::behaviours::behaviour_of;
use crate::bench::Bench;
use call_rows::{Part, count_at};
use do_base::{Value, Values};
use do_behave::act_in_place;
use do_class_kinds::Kind;
use do_grammar::is_text;
use do_native::Native;
use std::alloc::Global;
use std::test::Fail;

/// An invocation and slots, and what decides their acts.
#[derive(Drop)]
pub(crate) struct ActCalls {
    behaviour: Native,
    bench: Bench,
}

impl ActCalls {
    /// An invocation of a method without arguments, of an object without slots, whose class is of a
    /// kind.
    pub(crate) fn new(alloc: Global, kind: Kind) -> Result<ActCalls, Fail> {
        let bench = Bench::new(alloc)?;
        Ok(ActCalls {
            behaviour: behaviour_of(alloc, kind)?,
            bench,
        })
    }

    /// Does the next act.
    fn act(&mut self) -> Result<Value, Fail> {
        let bench = &mut self.bench;
        let act = act_in_place(
            &self.behaviour,
            &bench.table,
            &mut bench.inv,
            &mut bench.slots,
        )?;
        bench.shown(act)
    }

    /// Does the first act of the method as often, and shows the last.
    fn repeat(&mut self, args: &Values) -> Result<Value, Fail> {
        let mut last = Value::Nil;
        for _act in 0..count_at(args, 0)? {
            self.bench.inv.pc = 0;
            last = self.act()?;
        }
        Ok(last)
    }
}

impl Part for ActCalls {
    fn call(&mut self, word: &[u8], args: &Values) -> Result<Value, Fail> {
        if is_text(word, b"act") {
            return self.act();
        }
        if is_text(word, b"repeat") {
            return self.repeat(args);
        }
        self.bench.call(word, args)
    }
}
