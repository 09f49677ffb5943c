//! Records, read line by line.
//!
//! The grammar speaks of bytes and not of cut lines. That a line has its line feed, that
//! nothing stands behind the last line, and that a line is at fault are then said by one
//! equation each. How the text is cut is left to the proof.
ghost use Rattle.do_record.specs.declared.parts.Record as parts;
ghost use Rattle.std.specs.Prelude.{◌≡◌, ◌++◌, ◌∷◌, [], ℕ, Err, IfOk, Ok, OnOk};
ghost use Rattle.do_sched.specs.Answers.{AnswersWith};
ghost use Rattle.do_sched.specs.declared.fault.SchedFault.TheVariants.{BadLine};
ghost use Rattle.do_record.specs.Grammar.{IsFaultAt, IsRecord, TellsRecord};
ghost use Rattle.do_record.specs.Recorded.{HasShown, record_of, with_shown};

use crate::line::{RecordText, first_port, text_of};
use crate::parts::{Block, Blocks, Record, RecordLine};
use do_base::Text;
use do_grammar::line_of;
use do_sched::SchedFault;
use std::alloc::{AllocError, Global};

/// Begins a block with an input, which shows nothing yet.
fn begin_block(blocks: &mut Blocks, line: u64, input: RecordLine) -> Result<(), AllocError>
    ensures { OnOk result (blocks.new ≡ blocks.old
        ++ record { line = line; input = input; shown = [] } ∷ []) }
{
    let shown = Text::new(blocks.allocator());
    blocks.push(Block { line, input, shown })
}

/// Adds a line to what the last block shows. False where there is no block.
#[tactic(auto, using(crate::proofs::records::Showing::shown_last))]
fn add_shown(blocks: &mut Blocks, line: &[u8]) -> Result<bool, AllocError>
    ensures { IfOk result (λ added.
        HasShown (with_shown (line.now ++ 10 ∷ []) blocks.old) added blocks.new) }
{
    let Some(mut block) = blocks.pop() else {
        return Ok(false);
    };
    block.shown.push_bytes(line)?;
    block.shown.push(b'\n')?;
    blocks.push(block)?;
    Ok(true)
}

/// The record that bytes are.
///
/// Every line, the last one too, is closed by a line feed. Where the bytes are no record, `BadLine`
/// has the first line at fault: all before it are lines of a record of one node, and it is none
/// that may stand there. No other fault comes but that memory ran out. The form is this project's
/// own.
pub fn read_record(alloc: Global, bytes: &[u8]) -> Result<Record, SchedFault>
    ensures exact { TellsRecord bytes.now result }
    ensures accepts { (r : parts.Record) → IsRecord bytes.now r → AnswersWith (Ok r) result }
    ensures refuses { (line : ℕ) → IsFaultAt bytes.now line
        → AnswersWith (Err (BadLine line)) result }
    ensures computed { AnswersWith (record_of bytes.now) result }
{
    record_in(alloc, bytes)
}

/// The record that bytes are, or their first faulty line.
fn record_in(alloc: Global, bytes: &[u8]) -> Result<Record, SchedFault>
    ensures { AnswersWith (record_of bytes.now) result }
{
    let Some((text, fed, behind)) = line_of(bytes) else {
        return Err(SchedFault::BadLine(1));
    };
    let Some(port) = first_port(text, fed) else {
        return Err(SchedFault::BadLine(1));
    };
    let mut blocks = Blocks::new(alloc);
    let mut number: u64 = 1;
    let mut rest = behind;
    while let Some((text, fed, after)) = line_of(rest) {
        number += 1;
        match text_of(alloc, port, text, fed)? {
            RecordText::Bad => return Err(SchedFault::BadLine(number)),
            RecordText::End => {
                if after.is_empty() {
                    return Ok(Record {
                        port,
                        blocks,
                        whole: true,
                    });
                }
                return Err(SchedFault::BadLine(number + 1));
            }
            RecordText::Input(input) => begin_block(&mut blocks, number, input)?,
            RecordText::Shown => {
                if !add_shown(&mut blocks, text)? {
                    return Err(SchedFault::BadLine(number));
                }
            }
        }
        rest = after;
    }
    Ok(Record {
        port,
        blocks,
        whole: false,
    })
}
