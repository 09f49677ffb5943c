//! A summary as a text.
ghost use Rattle.std.specs.Prelude.{◌≡◌, ◌++◌, OnOk};
ghost use Rattle.do_make.specs.Text.{counted, done_text, left_text, summary_text};

use crate::counts::Summary;
use do_base::Text;
use do_grammar::push_dec;
use std::alloc::AllocError;

/// Adds the line of a number.
fn push_counted(out: &mut Text, name: &[u8], n: u64) -> Result<(), AllocError>
    ensures { OnOk result (out.new ≡ out.old ++ counted name.now n) }
{
    out.push_bytes(name)?;
    out.push(b' ')?;
    push_dec(out, n)?;
    out.push(b'\n')
}

/// Adds the lines of what was done and shown.
fn push_done(out: &mut Text, sum: &Summary) -> Result<(), AllocError>
    ensures { OnOk result (out.new ≡ out.old ++ done_text sum.now) }
{
    push_counted(out, b"lines", sum.lines)?;
    push_counted(out, b"skips", sum.skips)?;
    push_counted(out, b"says", sum.says)?;
    push_counted(out, b"frees", sum.frees)
}

/// Adds the lines of what the last check lists, and of what was sent.
fn push_left(out: &mut Text, sum: &Summary) -> Result<(), AllocError>
    ensures { OnOk result (out.new ≡ out.old ++ left_text sum.now) }
{
    push_counted(out, b"objects", sum.objects)?;
    push_counted(out, b"entries", sum.entries)?;
    push_counted(out, b"frames", sum.frames)?;
    push_counted(out, b"bytes", sum.bytes)
}

/// Adds a summary: a line `make 1`, a line for each number with its name, and a line `end`.
///
/// If memory runs out, a part of it may have been added.
pub fn push_summary(out: &mut Text, sum: &Summary) -> Result<(), AllocError>
    ensures { OnOk result (out.new ≡ out.old ++ summary_text sum.now) }
{
    out.push_bytes(b"make 1\n")?;
    push_done(out, sum)?;
    push_left(out, sum)?;
    out.push_bytes(b"end\n")
}
