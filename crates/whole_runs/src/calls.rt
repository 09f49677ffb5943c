//! Calls of commands, and of what they write beside files.

use crate::counts::counts_of;
use crate::files::{generated_file, replayed_files, stored, stored_files};
use crate::machine::is_alike;
use crate::outside::{Outside, WAYS};
use crate::told::told;
use crate::transcripts::{record_of, without_wires};
use call_rows::{Part, call_of, count_at, text_at};
use do_base::{Text, Value, Values};
use do_grammar::part_of;
use do_native_acts::as_number;
use do_node::Status;
use std::alloc::AllocError;
use std::test::Fail;

/// What a row calls.
#[derive(Clone, Copy)]
enum Call {
    Compare(Comparison),
    Stored,
    Generated,
    Writes,
    Records,
    Alike,
    Memory,
}

/// What is compared with the transcript in a file, or taken from it.
#[derive(Clone, Copy)]
enum Comparison {
    Replays,
    Shows,
    Counts,
    Schedule,
}

/// The words of the calls.
const CALLS: [(&[u8], Call); 10] = [
    (b"replays", Call::Compare(Comparison::Replays)),
    (b"shows", Call::Compare(Comparison::Shows)),
    (b"counts", Call::Compare(Comparison::Counts)),
    (b"schedule", Call::Compare(Comparison::Schedule)),
    (b"stored", Call::Stored),
    (b"generated", Call::Generated),
    (b"writes", Call::Writes),
    (b"records", Call::Records),
    (b"alike", Call::Alike),
    (b"memory", Call::Memory),
];

/// What commands run over, and the files as they are stored.
#[derive(Drop)]
pub(crate) struct RunCalls {
    rt: HostRuntime,
    outside: Outside,
}

impl RunCalls {
    /// An outside without files.
    pub(crate) fn new(rt: HostRuntime) -> Result<RunCalls, AllocError> {
        let outside = Outside::new(rt.alloc())?;
        Ok(RunCalls { rt, outside })
    }

    /// Takes the files of these names as they are stored.
    fn set_stored(&mut self, names: &Values) -> Result<Value, Fail> {
        let files = stored_files(&self.rt, names)?;
        self.outside.set_files(files)
    }

    /// Takes the file of a world, and the schedule of a transcript in the file `s`.
    fn set_replayed(&mut self, world: &Text, transcript: &Text) -> Result<Value, Fail> {
        let files = replayed_files(&self.rt, world, transcript)?;
        self.outside.set_files(files)
    }

    /// Takes the schedule that a number generates, of as many lines, in the file `s`.
    fn set_generated(&mut self, args: &Values) -> Result<Value, Fail> {
        let (number, lines) = (count_at(args, 0)?, count_at(args, 1)?);
        let files = generated_file(self.rt.alloc(), number, lines)?;
        self.outside.set_files(files)
    }

    /// Whether a line of words writes what a file has.
    fn writes(&mut self, args: &Values) -> Result<Value, Fail> {
        let wanted = stored(&self.rt, text_at(args, 1)?)?;
        self.outside.run(text_at(args, 0)?.as_slice())?;
        self.outside
            .told_number(as_number(self.outside.written().is(wanted.as_slice())))
    }

    /// Whether the schedule of a transcript is replayed over a world with this transcript.
    fn replays(&mut self, world: &Text, transcript: &Text) -> Result<Value, Fail> {
        self.set_replayed(world, transcript)?;
        self.outside.run_form(b"replay", world)?;
        Ok(as_number(self.outside.written().is(transcript.as_slice())))
    }

    /// The same, without what is sent.
    fn shows(&mut self, world: &Text, transcript: &Text) -> Result<Value, Fail> {
        self.set_replayed(world, transcript)?;
        self.outside.run_form(b"replay", world)?;
        let plain = without_wires(self.outside.written())?;
        Ok(as_number(plain.is(transcript.as_slice())))
    }

    /// Whether the network and the one machine come to the same over the schedule in the file `s`.
    fn alike(&mut self, args: &Values) -> Result<Value, Fail> {
        let world = text_at(args, 0)?;
        Ok(as_number(is_alike(&mut self.outside, world)?))
    }

    /// How many acts each node of a world is asked for over the schedule of a transcript.
    fn counts(&self, world: &Text, transcript: &Text) -> Result<Value, Fail> {
        counts_of(&stored(&self.rt, world)?, transcript)
    }

    /// Compares with the transcript in a file, or takes its schedule.
    fn compare(&mut self, comparison: Comparison, args: &Values) -> Result<Value, Fail> {
        let world = text_at(args, 0)?;
        let transcript = stored(&self.rt, text_at(args, 1)?)?;
        match comparison {
            Comparison::Replays => self.replays(world, &transcript),
            Comparison::Shows => self.shows(world, &transcript),
            Comparison::Counts => self.counts(world, &transcript),
            Comparison::Schedule => self.set_replayed(world, &transcript),
        }
    }

    /// What is told where memory ran out.
    fn told_memory(&self) -> Result<Value, Fail> {
        Ok(Value::List(told(self.rt.alloc(), &Status::Memory)?))
    }

    /// Makes a call that runs no line of words.
    fn call_beside(&mut self, word: &[u8], args: &Values) -> Result<Value, Fail> {
        match call_of(&CALLS, word) {
            Some(Call::Compare(comparison)) => self.compare(comparison, args),
            Some(Call::Stored) => self.set_stored(args),
            Some(Call::Generated) => self.set_generated(args),
            Some(Call::Writes) => self.writes(args),
            Some(Call::Records) => self.records(args),
            Some(Call::Alike) => self.alike(args),
            Some(Call::Memory) => self.told_memory(),
            None => self.outside.call(word, args),
        }
    }

    /// Whether this record, in the file `PORT.record`, is that of its node in a transcript.
    fn has_record(&self, transcript: &Text, name: &Text) -> Result<bool, Fail> {
        let (port, _) = part_of(name.as_slice(), b'.');
        let record = record_of(transcript, port)?;
        Ok(record.is(stored(&self.rt, name)?.as_slice()))
    }

    /// Adds for each of these records whether a transcript has it.
    fn push_records(
        &self,
        transcript: &Text,
        names: &Values,
        answer: &mut Values,
    ) -> Result<(), Fail> {
        for at in 0..names.len() {
            answer.push(as_number(self.has_record(transcript, text_at(names, at)?)?))?;
        }
        Ok(())
    }

    /// For each of these records whether the last transcript that was written has it.
    fn records(&self, names: &Values) -> Result<Value, Fail> {
        let transcript = without_wires(self.outside.written())?;
        let mut answer = Values::new(self.rt.alloc());
        self.push_records(&transcript, names, &mut answer)?;
        Ok(Value::List(answer))
    }
}

impl Part for RunCalls {
    fn call(&mut self, word: &[u8], args: &Values) -> Result<Value, Fail> {
        match call_of(&WAYS, word) {
            Some(way) => self.outside.run_by(way, args),
            None => self.call_beside(word, args),
        }
    }
}
