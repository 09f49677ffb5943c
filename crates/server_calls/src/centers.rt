//! Calls of the core of a notification centre.

mod parts;
mod told;

use crate::centers::parts::{good_note, good_registration, label_at, note_of, numbered_note};
use call_rows::{Part, call_of, count_at, count_value, list_at, number_at, object_at, refused};
use do_base::{Oid, Value, Values};
use do_center::{Center, Deliveries};
use do_native_acts::{CoreFault, as_number};
use std::alloc::Global;
use std::test::Fail;

/// What a row calls.
#[derive(Clone, Copy)]
enum Call {
    Add,
    Remove,
    Suspend,
    Resume,
    Post,
    New,
    Fill,
    PostNumbers,
    Read,
    Slots,
    KeepSlots,
    HasKeptSlots,
}

/// The words of the calls.
const CALLS: [(&[u8], Call); 12] = [
    (b"add", Call::Add),
    (b"remove", Call::Remove),
    (b"suspend", Call::Suspend),
    (b"resume", Call::Resume),
    (b"post", Call::Post),
    (b"new", Call::New),
    (b"fill", Call::Fill),
    (b"post_numbers", Call::PostNumbers),
    (b"read", Call::Read),
    (b"slots", Call::Slots),
    (b"keep_slots", Call::KeepSlots),
    (b"has_kept_slots", Call::HasKeptSlots),
];

/// A centre, the deliveries of the last call that had any, and slots that were kept.
#[derive(Drop)]
pub(crate) struct CenterCalls {
    center: Center,
    sent: Deliveries,
    kept: Values,
    alloc: Global,
}

/// Adds a registration to a centre and suspends its observer.
fn add_suspended(center: &mut Center, observer: Oid, args: &Values) -> Result<(), Fail> {
    center.add(good_registration(observer, args)?)?;
    let _none = center.suspend(observer, true)?;
    Ok(())
}

/// Posts the number of a notification, and tells how many deliveries come of it.
fn post_number(center: &mut Center, alloc: Global, number: u16) -> Result<usize, Fail> {
    let note = good_note(numbered_note(alloc, number)?)?;
    Ok(center.post(&note, false)?.len())
}

impl CenterCalls {
    /// A centre without registrations.
    pub(crate) fn new(alloc: Global) -> CenterCalls {
        CenterCalls {
            center: Center::new(alloc),
            sent: Deliveries::new(alloc),
            kept: Values::new(alloc),
            alloc,
        }
    }

    /// Keeps the deliveries of a call, and tells how many they are.
    fn keep(&mut self, sent: Result<Deliveries, CoreFault>) -> Result<Value, Fail> {
        match sent {
            Ok(sent) => {
                let count = count_value(sent.len())?;
                self.sent = sent;
                Ok(count)
            }
            Err(fault) => refused(self.alloc, fault),
        }
    }

    /// Adds a registration.
    fn add(&mut self, args: &Values) -> Result<Value, Fail> {
        let registration = good_registration(object_at(args, 0)?, args)?;
        match self.center.add(registration) {
            Ok(()) => Ok(Value::Nil),
            Err(fault) => refused(self.alloc, fault),
        }
    }

    /// Takes out registrations.
    fn remove(&mut self, args: &Values) -> Result<Value, Fail> {
        let name = label_at(args, 1)?;
        let object = label_at(args, 2)?;
        self.center.remove(object_at(args, 0)?, name, object)?;
        Ok(Value::Nil)
    }

    /// Posts a notification, immediately where the last argument is 1.
    fn post(&mut self, args: &Values) -> Result<Value, Fail> {
        let immediate = number_at(args, 3)? == 1;
        let note = good_note(note_of(args)?)?;
        let sent = self.center.post(&note, immediate);
        self.keep(sent)
    }

    /// Registers as many observers, of which the first is told last, and suspends each.
    fn fill(&mut self, args: &Values) -> Result<Value, Fail> {
        let mut observer = object_at(args, 5)?;
        for _observer in 0..count_at(args, 0)? {
            add_suspended(&mut self.center, observer, args)?;
            observer.serial = observer.serial.saturating_add(1);
        }
        Ok(Value::Nil)
    }

    /// Posts the numbers from the first to one below the second, and tells how many deliveries come
    /// of all.
    fn post_numbers(&mut self, args: &Values) -> Result<Value, Fail> {
        let (first, end) = (count_at(args, 0)?, count_at(args, 1)?);
        let mut count: usize = 0;
        for number in first..end {
            count = count.saturating_add(post_number(&mut self.center, self.alloc, number)?);
        }
        count_value(count)
    }

    /// Takes the core whose slots these are, and tells whether there is one.
    fn read(&mut self, args: &Values) -> Result<Value, Fail> {
        let Some(center) = Center::from_slots(list_at(args, 0)?)? else {
            return Ok(as_number(false));
        };
        self.center = center;
        Ok(as_number(true))
    }

    /// Begins anew without registrations.
    fn begin(&mut self) -> Value {
        self.center = Center::new(self.alloc);
        Value::Nil
    }

    /// Suspends or resumes an observer.
    fn suspend(&mut self, args: &Values, suspended: bool) -> Result<Value, Fail> {
        let observer = object_at(args, 0)?;
        let sent = self.center.suspend(observer, suspended);
        self.keep(sent)
    }

    /// The slots that keep the centre.
    fn slots(&self) -> Result<Value, Fail> {
        Ok(Value::List(self.center.to_slots()?))
    }

    /// Keeps these slots.
    fn keep_slots(&mut self) -> Result<Value, Fail> {
        self.kept = self.center.to_slots()?;
        Ok(Value::Nil)
    }

    /// Whether the slots are those that were kept.
    fn has_kept_slots(&self) -> Result<Value, Fail> {
        let slots = self.center.to_slots()?;
        Ok(as_number(slots == self.kept))
    }
}

impl Part for CenterCalls {
    fn call(&mut self, word: &[u8], args: &Values) -> Result<Value, Fail> {
        match call_of(&CALLS, word) {
            Some(Call::Add) => self.add(args),
            Some(Call::Remove) => self.remove(args),
            Some(Call::Suspend) => self.suspend(args, true),
            Some(Call::Resume) => self.suspend(args, false),
            Some(Call::Post) => self.post(args),
            Some(Call::New) => Ok(self.begin()),
            Some(Call::Fill) => self.fill(args),
            Some(Call::PostNumbers) => self.post_numbers(args),
            Some(Call::Read) => self.read(args),
            Some(Call::Slots) => self.slots(),
            Some(Call::KeepSlots) => self.keep_slots(),
            Some(Call::HasKeptSlots) => self.has_kept_slots(),
            None => self.tell(word, args),
        }
    }
}
