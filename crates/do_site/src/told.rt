//! Lists that a step fills.
use do_base::{Oid, Token};
use std::alloc::Global;

/// The lists into which a step tells what it freed, left and settled. They are kept between steps,
/// so that a step takes no memory for them once it has begun.
#[derive(Drop)]
pub struct Told {
    /// The serials of the own objects that were freed.
    pub freed: Vec<u64>,
    /// The foreign objects that were left, each with the number of times that it was received.
    pub left: Vec<(Oid, u64)>,
    /// The tokens of lends that are over.
    pub settled: Vec<Token>,
}

impl Told {
    /// The lists with nothing in them, for which no memory is taken.
    pub fn new(alloc: Global) -> Told {
        Told {
            freed: Vec::new(alloc),
            left: Vec::new(alloc),
            settled: Vec::new(alloc),
        }
    }
}
