//! Calls of imports, each made only where there is room for it.
use do_base::{NodeId, Oid, Token};
use do_class::ClassId;
use do_import::Imports;

/// Counts an object as received, and tells whether it did: there is room.
pub(crate) fn got(imports: &mut Imports, oid: Oid, class: ClassId) -> bool {
    if imports.links() == 0 || imports.received(oid) == u64::MAX {
        return false;
    }
    imports.got(oid, class);
    true
}

/// Counts one use more, and tells whether it did: there is room.
pub(crate) fn refer(imports: &mut Imports, oid: Oid) -> bool {
    if imports.spare() == 0 || imports.uses(oid) == u64::MAX {
        return false;
    }
    imports.refer(oid);
    true
}

/// Counts one use less, and tells whether it did: there is one.
pub(crate) fn unrefer(imports: &mut Imports, oid: Oid) -> bool {
    if imports.uses(oid) == 0 {
        return false;
    }
    imports.unrefer(oid);
    true
}

/// Keeps a lend, and tells its token. None where there is no room.
pub(crate) fn lend(imports: &mut Imports, oid: Oid, borrower: NodeId) -> Option<Token> {
    if imports.spare() == 0 || imports.links() == 0 || imports.next_token() >= 1 << 62 {
        return None;
    }
    if imports.uses(oid) == u64::MAX || imports.names(oid) == u64::MAX {
        return None;
    }
    Some(imports.lend(oid, borrower))
}

/// Keeps an ask, and tells whether it is new. None where there is no room.
pub(crate) fn keep_ask(
    imports: &mut Imports,
    oid: Oid,
    class: ClassId,
    token: Token,
) -> Option<bool> {
    if imports.spare() == 0 || imports.links() == 0 || imports.uses(oid) == u64::MAX {
        return None;
    }
    if imports.names(oid) == u64::MAX || imports.asks(oid) == u64::MAX {
        return None;
    }
    Some(imports.ask(oid, class, token))
}

/// Ends an ask that was granted, and tells whether it was kept. None where there is no room.
pub(crate) fn end_granted(imports: &mut Imports, oid: Oid, token: Token) -> Option<bool> {
    if imports.links() == 0 || imports.received(oid) == u64::MAX {
        return None;
    }
    Some(imports.granted(oid, token))
}
