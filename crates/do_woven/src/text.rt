//! The text of a schedule.
ghost use Rattle.std.specs.{Prelude.{◌≡◌, ◌++◌, IfOk, OnOk}, List.flat_map};
ghost use Rattle.do_sched.specs.Spelling.{fed, line_spelling, spelling};
ghost use Rattle.do_sched.specs.declared.version.Version.TheVariants.{Second};

use do_base::Text;
use do_sched::{Line, Lines, push_line};
use std::alloc::{AllocError, Global};

/// Adds a line with its line feed.
fn push_fed(out: &mut Text, line: &Line) -> Result<(), AllocError>
    ensures { OnOk result (out.new ≡ out.old ++ fed (line_spelling line.now)) }
{
    push_line(out, line)?;
    out.push(b'\n')
}

/// Adds lines, each with its line feed.
fn push_lines(out: &mut Text, lines: &Lines) -> Result<(), AllocError>
    ensures { OnOk result
        (out.new ≡ out.old ++ flat_map (λ l. fed (line_spelling l)) lines.now) }
{
    for line in lines.as_slice() {
        push_fed(out, line)?;
    }
    Ok(())
}

/// The schedule of these lines, in the second version. The one error is that memory ran out.
pub fn schedule_text(alloc: Global, lines: &Lines) -> Result<Text, AllocError>
    ensures { IfOk result (λ text. text ≡ spelling Second lines.now) }
{
    let mut text = Text::from_slice(alloc, b"schedule 2\n")?;
    push_lines(&mut text, lines)?;
    text.push_bytes(b"end\n")?;
    Ok(text)
}
