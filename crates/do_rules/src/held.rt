//! What a node frees and leaves.
pub(crate) mod entered;
pub(crate) mod kept;
pub(crate) mod leaving;
