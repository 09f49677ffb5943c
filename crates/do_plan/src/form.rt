//! Both texts are one form, lines between a first line and `end`, whose reader is written and
//! proved once over a trait of lines (`Form`, `lines_of`). Schedules could join it once each
//! line counts by a number of its own, and the form stands below do_sched; until then do_sched
//! has its own.

ghost use Rattle.std.specs.{Prelude.{◌≡◌, ℕ, IfOk, List as Listed}, declared.option.Option.Option};
ghost use Rattle.do_plan.specs.Form.{Form};

use std::alloc::{AllocError, Global};

/// Lines that stand between the first line of a text and `end`, and how one is read.
pub(crate) trait LineForm: Drop + Sized {
    ghost form: { Form Self };

    ghost line_at: { Listed ℕ → Option Self };

    /// The first line, without its line feed.
    fn header() -> &'static [u8]
        ensures { result.now ≡ form.header };

    /// The least number of lines.
    fn least() -> usize
        ensures { result ≡ form.least };

    /// The most lines.
    fn most() -> usize
        ensures { result ≡ form.most };

    /// The line that a text without its line feed spells, if it spells one.
    fn line_from(alloc: Global, text: &[u8]) -> Result<Option<Self>, AllocError>
        ensures { IfOk result (λ line. line ≡ line_at text.now) };
}
