//! What sweeping until None leaves.
ghost use Rattle.std.specs.Prelude.{ℕ, List};
ghost use Rattle.do_store.specs.{Names.Stored, Kept.{Swept, NoneIdle, LeavesKept}};

/// A law alone: `sweep` until None leaves the greatest set that holds itself up.
pub fn sweeping_leaves_kept()
    ensures { (node : ℕ) (first left : List Stored) → Swept node first left → NoneIdle node left
        → LeavesKept node first left }
{}
