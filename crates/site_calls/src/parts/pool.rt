//! Calls of a pool of queues.
ghost use Rattle.std.specs.Prelude.{◌≡◌, length};

use crate::parts::arguments::amount_at;
use call_rows::{Part, call_of, count_at, no_call, number_at, number_or_nil};
use do_base::{Value, Values};
use do_native_acts::as_number;
use do_pool::Cells;
use std::alloc::{AllocError, Global};
use std::test::Fail;

/// What a row calls.
#[derive(Clone, Copy)]
enum Call {
    New,
    Post,
    Take,
    Reserve,
    HasRoom,
}

/// The words of the calls.
const CALLS: [(&[u8], Call); 5] = [
    (b"new", Call::New),
    (b"post", Call::Post),
    (b"take", Call::Take),
    (b"reserve", Call::Reserve),
    (b"has_room", Call::HasRoom),
];

/// Queues of numbers, and how many queues there are.
#[derive(Drop)]
pub(crate) struct PoolCalls {
    cells: Cells<i64>,
    queues: usize,
    alloc: Global,
    ghost count: { length cells.queues ≡ queues },
}

impl PoolCalls {
    /// As many empty queues.
    pub(crate) fn new(alloc: Global, queues: usize) -> Result<PoolCalls, AllocError> {
        let cells = Cells::new(alloc, queues)?;
        Ok(PoolCalls {
            cells,
            queues,
            alloc,
        })
    }

    /// Posts an item, and tells whether it did: there is such a queue, and room.
    fn post(&mut self, queue: usize, item: i64) -> bool {
        if queue >= self.queues || self.cells.spare() == 0 {
            return false;
        }
        self.cells.post(queue, item);
        true
    }

    /// The oldest item of a queue. None where there is no such queue.
    fn take(&mut self, queue: usize) -> Option<i64> {
        if queue >= self.queues {
            return None;
        }
        self.cells.take(queue)
    }

    /// Begins anew with as many queues.
    fn begin(&mut self, args: &Values) -> Result<Value, Fail> {
        let queues = usize::from(count_at(args, 0)?);
        *self = PoolCalls::new(self.alloc, queues)?;
        Ok(Value::Nil)
    }

    /// Posts a number to a queue.
    fn post_at(&mut self, args: &Values) -> Result<Value, Fail> {
        let queue = usize::from(count_at(args, 0)?);
        let item = number_at(args, 1)?;
        Ok(as_number(self.post(queue, item)))
    }

    /// Takes the oldest of a queue.
    fn take_at(&mut self, args: &Values) -> Result<Value, Fail> {
        let queue = usize::from(count_at(args, 0)?);
        Ok(number_or_nil(self.take(queue)))
    }

    /// Makes room for more items.
    fn reserve(&mut self, args: &Values) -> Result<Value, Fail> {
        let more = amount_at(args, 0)?;
        self.cells.reserve(more)?;
        Ok(Value::Nil)
    }

    /// Whether there is room for more items.
    fn has_room(&self, args: &Values) -> Result<Value, Fail> {
        let more = amount_at(args, 0)?;
        Ok(as_number(self.cells.spare() >= more))
    }
}

impl Part for PoolCalls {
    fn call(&mut self, word: &[u8], args: &Values) -> Result<Value, Fail> {
        match call_of(&CALLS, word) {
            Some(Call::New) => self.begin(args),
            Some(Call::Post) => self.post_at(args),
            Some(Call::Take) => self.take_at(args),
            Some(Call::Reserve) => self.reserve(args),
            Some(Call::HasRoom) => self.has_room(args),
            None => no_call(),
        }
    }
}
