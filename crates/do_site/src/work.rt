//! What the steps of a site change.
//!
//! Where a call gives a plan, a ruling or a change, it stands behind `let Ok(x) = .. else`, and
//! what fails returns `Err(AllocError)`. `?` moves the value that it takes out of the result,
//! and these are of 100 to 250 bytes. Counted by callgrind, a value of such a size is not moved
//! where the pattern takes it. There is one error, so nothing is told less.
mod acting;
mod answering;
mod closing;
mod releasing;
mod running;
mod settling;
mod starting;
mod taking;

ghost use Rattle.std.specs.Prelude.{◌≡◌, ◌≤◌, OnOk, length};
ghost use Rattle.do_effects.specs.{Doing.{cleared, doing, moved}, Tidy.IsTidy};
ghost use Rattle.do_site.specs.{Kept.StaysBut, Room.{CanSettle, HasPlace, HasPlaceToLeave}};
ghost use Rattle.do_site.specs.Steps.{IsSame};

use crate::needs::Needs;
use crate::room::make_room;
use crate::told::Told;
use do_effects::Core;
use std::alloc::AllocError;

/// What the steps of a site change.
#[derive(Drop)]
pub struct Work {
    /// What the node has of its own, and what waits to be fetched.
    pub core: Core,
    /// The lists into which a step tells what it freed, left and settled.
    pub told: Told,
}

impl Work {
    /// Makes room for a step. An error means that memory ran out, or that the numbers are too
    /// great; nothing but room changed then.
    pub(crate) fn make_room(&mut self, needs: &Needs) -> Result<(), AllocError>
        ensures same { IsSame self.old.core self.new.core }
        ensures stays { StaysBut self.old self.new }
        ensures places { CanSettle self.old → CanSettle self.new }
        ensures room { OnOk result (HasPlace needs.now self.new.core self.new.told) }
    {
        make_room(&mut self.core, &mut self.told, needs)
    }

    /// No more than 64 ends are open, and room is places with no frame in them.
    pub(crate) fn has_few(&self)
        ensures ends { length self.now.core.part.own.node.open_to ≤ 64 }
        ensures most { self.now.core.streams.room ≤ self.now.core.streams.bare }
    {
        self.core.part.ends_are_few();
        let _told = self.core.streams.is_told();
    }

    /// Frees what nothing holds any more, and leaves what the node no longer refers to.
    fn leave(&mut self)
        requires tidy { IsTidy self.old.core.part.own }
        requires place { HasPlaceToLeave self.old.core self.old.told }
        ensures moved { doing self.new.core
            ≡ moved (doing self.old.core) (cleared self.old.core.part.own) }
        ensures tidy { IsTidy self.new.core.part.own }
        ensures stays { StaysBut self.old self.new }
        ensures places { CanSettle self.new }
    {
        self.core.leave(&mut self.told.freed, &mut self.told.left);
    }
}
