//! What a person is told on standard error.
use do_advice::{push_nodes, push_raised, push_unheard};
use do_base::{NodeId, Peers, Text, Word};
use do_given::world_given;
use do_host::FileShelf;
use do_node::Status;
use do_sockets::connect_once;
use std::alloc::AllocError;

/// The words, of those on the command line, that name a world and files.
fn files_in(words: &[Word]) -> &[Word] {
    match words {
        [name, _, files @ .., _] if name.is(b"node") => files,
        [_, files @ ..] => files,
        [] => &[],
    }
}

/// The words, of those that name a world and files, of which a status speaks.
fn concerned<'a>(status: &Status, files: &'a [Word]) -> &'a [Word] {
    match (status, files) {
        (Status::ReadFault | Status::TooLong { .. }, files) => files,
        (Status::BadWorld(_), [world, ..]) => std::slice::from_ref(world),
        (Status::BadSchedule(_), [.., lines]) => std::slice::from_ref(lines),
        (Status::BadRecord { index, .. }, [_, records @ ..]) => nth(records, *index),
        (Status::Contradiction { index, .. }, [_, records @ ..]) => nth(records, *index),
        _ => &[],
    }
}

/// The word of this number, counted from 1, or none.
fn nth(words: &[Word], number: u64) -> &[Word] {
    match usize::try_from(number) {
        Ok(last) if 0 < last && last <= words.len() => &words[last - 1..last],
        _ => &[],
    }
}

/// Whether a word names a file: one that begins with `:` names a world that is built in.
fn is_file(word: &Word) -> bool {
    !matches!(word.as_slice(), [b':', ..])
}

/// Prints the name of a file, if it is text.
fn tell_file(rt: &HostRuntime, name: &Word) {
    if let Ok(name) = std::str::from_utf8(name.as_slice()) {
        let _ = eprintln!(rt; "file {name}");
    }
}

/// Prints lines, if memory sufficed for them and they are text.
fn tell_lines(rt: &HostRuntime, lines: Result<Text, AllocError>) {
    if let Ok(lines) = lines
        && let Ok(lines) = std::str::from_utf8(lines.as_slice())
    {
        let _ = eprint!(rt; "{lines}");
    }
}

/// The port that a word is.
fn port_of(word: &Word) -> Option<NodeId> {
    let text = std::str::from_utf8(word.as_slice()).ok()?;
    NodeId::new(text.parse::<u16>().ok()?)
}

/// The line of a port that could not be listened at.
fn unheard(rt: &HostRuntime, port: NodeId) -> Result<Text, AllocError> {
    let mut line = Text::new(rt.alloc());
    push_unheard(&mut line, port, connect_once(rt, port).is_some())?;
    Ok(line)
}

/// The ports of the world that a word gives, as it lists its nodes; none where it gives no world.
fn ports_given(rt: &HostRuntime, word: &Word) -> Option<Peers> {
    let mut shelf = FileShelf::new(rt.alloc(), *rt);
    let world = world_given(rt.alloc(), word, &mut shelf).ok()?;
    let mut ports = Peers::new(rt.alloc());
    for seat in world.nodes.as_slice() {
        ports.push(seat.node).ok()?;
    }
    Some(ports)
}

/// The line of a port that has no node in a world, and of those that have one.
fn lacking(rt: &HostRuntime, port: NodeId, ports: &Peers) -> Result<Text, AllocError> {
    let mut line = Text::new(rt.alloc());
    push_nodes(&mut line, port, ports.as_slice())?;
    Ok(line)
}

/// Prints which nodes a world has, where it was good and the node that was asked for is none.
fn tell_nodes(rt: &HostRuntime, words: &[Word]) {
    if let [name, port, world, ..] = words
        && name.is(b"node")
        && let Some(port) = port_of(port)
        && let Some(ports) = ports_given(rt, world)
    {
        tell_lines(rt, lacking(rt, port, &ports));
    }
}

/// Prints at which port the node could not listen.
fn tell_port(rt: &HostRuntime, words: &[Word]) {
    if let [_, port, ..] = words
        && let Some(port) = port_of(port)
    {
        tell_lines(rt, unheard(rt, port));
    }
}

/// Prints what a person can do about a status, where it is more than the status says.
fn tell_remedy(rt: &HostRuntime, status: &Status, words: &[Word]) {
    match status {
        Status::Usage(_) => {
            let _ = eprintln!(rt; "`--help` shows the forms of the words");
        }
        Status::BadWorld(fault) => {
            let _ = eprintln!(rt; "{fault}");
            tell_nodes(rt, words);
        }
        Status::LinkFault => tell_port(rt, words),
        Status::ChildFailed { .. } => {
            let _ = eprintln!(rt;
                "the output has the status of each child, and what it told stands above"
            );
        }
        Status::BadSchedule(1) => {
            let _ = eprintln!(rt;
                "a schedule that begins with `schedule 1` is written anew by `upgrade SCHEDULE`"
            );
        }
        _ => {}
    }
}

/// The line of starts that an exception ended.
fn raised(rt: &HostRuntime, count: u64) -> Result<Text, AllocError> {
    let mut line = Text::new(rt.alloc());
    push_raised(&mut line, count)?;
    Ok(line)
}

/// Tells how many starts of a node an exception ended, if any.
pub fn tell_raised(rt: &HostRuntime, count: u64) {
    if count > 0 {
        tell_lines(rt, raised(rt, count));
    }
}

/// Tells what the program came to: the text of the status on a line of its own, then the files that
/// it speaks of, then what helps.
pub fn tell(rt: &HostRuntime, status: &Status, words: &[Word]) {
    let _ = eprintln!(rt; "{status}");
    for name in concerned(status, files_in(words)) {
        if is_file(name) {
            tell_file(rt, name);
        }
    }
    tell_remedy(rt, status, words);
}
