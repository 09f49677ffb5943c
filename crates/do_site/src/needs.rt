//! How much room a step takes.
ghost use Rattle.std.specs.Prelude.{◌≡◌, ◌≤◌, ◌+◌, IfSome, length};
ghost use Rattle.do_effects.specs.Room.{both};
ghost use Rattle.do_site.specs.Room.{needed};

/// How much a step puts into a site: objects, invocations, names and entries into what the node has
/// of its own, and frames and lines behind those that wait.
#[derive(Clone, Copy, Debug)]
pub struct Needs {
    /// How many objects.
    pub objects: u64,
    /// How many invocations.
    pub invocations: u64,
    /// How many names of objects.
    pub names: u64,
    /// How many entries of peers: of objects that are named to a peer or by one.
    pub entries: u64,
    /// How many frames and lines.
    pub waiting: u64,
}

impl Needs {
    /// So many frames and lines, and nothing else.
    pub fn to_tell(waiting: u64) -> Needs
        ensures { result ≡ record {
          objects = 0;
          invocations = 0;
          names = 0;
          entries = 0;
          waiting = waiting;
        } }
    {
        Needs {
            objects: 0,
            invocations: 0,
            names: 0,
            entries: 0,
            waiting,
        }
    }

    /// So many names to keep, and nothing else.
    pub fn to_keep(names: u64) -> Needs
        ensures { result ≡ record {
          objects = 0;
          invocations = 0;
          names = names;
          entries = 0;
          waiting = 0;
        } }
    {
        Needs {
            objects: 0,
            invocations: 0,
            names,
            entries: 0,
            waiting: 0,
        }
    }

    /// One invocation with so many names, and nothing else.
    pub(crate) fn to_push(names: u64) -> Needs
        ensures { result ≡ record {
          objects = 0;
          invocations = 1;
          names = names;
          entries = 0;
          waiting = 0;
        } }
    {
        Needs {
            objects: 0,
            invocations: 1,
            names,
            entries: 0,
            waiting: 0,
        }
    }

    /// One frame that names so many objects to a peer.
    pub fn to_send(names: u64) -> Needs
        ensures { result ≡ record {
          objects = 0;
          invocations = 0;
          names = names;
          entries = names;
          waiting = 1;
        } }
    {
        Needs {
            objects: 0,
            invocations: 0,
            names,
            entries: names,
            waiting: 1,
        }
    }
}
