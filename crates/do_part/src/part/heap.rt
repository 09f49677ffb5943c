//! What happens to the objects of a part and to its root.
mod creating;
mod filling;
mod rooting;
mod writing;
