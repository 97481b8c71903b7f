use history::{MOST_PLACES, PLACE_BYTES, Rack, Strip};
use std::alloc::{AllocError, Global};

/// A history that a program can make without knowing whether it is a rack or a strip.
pub trait Made {
    /// An empty history of so many places, at most `MOST_PLACES`. `AllocError` where there is no memory for it.
    fn made(heap: Global, places: usize) -> Result<Self, AllocError>;
}

impl Made for Rack {
    fn made(heap: Global, places: usize) -> Result<Rack, AllocError> {
        Rack::new(heap, places)
    }
}

impl Made for Strip {
    fn made(heap: Global, places: usize) -> Result<Strip, AllocError> {
        let memory = vec![in heap; 0; PLACE_BYTES * places.min(MOST_PLACES)]?;
        Ok(Strip::new(memory))
    }
}
