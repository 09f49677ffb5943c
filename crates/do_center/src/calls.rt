//! The calls of a core, as one type.
ghost use Rattle.std.specs.Prelude.{◌≡◌, ◌∷◌, List, IfOk, IfErr, OnOk, OnErr, Some};
ghost use Rattle.do_center.specs.{Calls.{IsCall, Refused, does, limit_of}, History.after};
ghost use Rattle.do_center.specs.declared.calls.Call.{Call};

use crate::center::Center;
use crate::notes::{Deliveries, Note};
use crate::registrations::Registration;
use do_base::{Oid, Text};
use do_native_acts::CoreFault;

/// A call of a core.
#[derive(Debug, Drop)]
pub enum Call {
    /// Adds a registration.
    Add(Registration),
    /// Takes out an observer's registrations with this name and this object, where none stands for
    /// any.
    Remove {
        observer: Oid,
        name: Option<Text>,
        object: Option<Text>,
    },
    /// Suspends an observer, or resumes it.
    Suspend {
        observer: Oid,
        on: bool,
    },
    /// Posts a notification, perhaps to be delivered immediately.
    Post {
        note: Note,
        immediate: bool,
    },
}

impl Center {
    /// Does a call, and gives its deliveries.
    // What calls in a row come to is proved once, at the one return of `perform`, and not at each
    // arm here.
    fn answer(&mut self, call: Call) -> Result<Deliveries, CoreFault>
        requires { IsCall call }
        ensures done { IfOk result (λ sent. does self.old call ≡ Some (self.new, sent)) }
        ensures fault { IfErr result (Refused (limit_of call) (does self.old call)) }
        ensures err { OnErr result (self.new ≡ self.old) }
    {
        let alloc = self.allocator();
        match call {
            Call::Add(registration) => match self.add(registration) {
                Ok(()) => Ok(Deliveries::new(alloc)),
                Err(fault) => Err(fault),
            },
            Call::Remove {
                observer,
                name,
                object,
            } => match self.remove(observer, name, object) {
                Ok(()) => Ok(Deliveries::new(alloc)),
                Err(_) => Err(CoreFault::Memory),
            },
            Call::Suspend { observer, on } => self.suspend(observer, on),
            Call::Post { note, immediate } => self.post(&note, immediate),
        }
    }

    /// Does a call, and gives its deliveries, in order. On any error the core is unchanged.
    pub fn perform(&mut self, call: Call) -> Result<Deliveries, CoreFault>
        requires { IsCall call }
        ensures done { IfOk result (λ sent. does self.old call ≡ Some (self.new, sent)) }
        ensures fault { IfErr result (Refused (limit_of call) (does self.old call)) }
        ensures history { (h : List Call) → self.old ≡ after h
            → OnOk result (self.new ≡ after (call ∷ h)) }
        ensures err { OnErr result (self.new ≡ self.old) }
    {
        self.answer(call)
    }
}
