//! Places of open connections.

use std::sync::atomic::{AtomicU64, Ordering};
use std::sync::{Arc, Wait};
use trace_types::Memory;

/// One of a number of places. It is free again once it is dropped.
pub(crate) struct Place {
    free: Arc<AtomicU64>,
}

impl Place {
    /// Takes a place, and waits until one is free. Returns `Memory` if the count of shares is full.
    pub(crate) fn take<R: Wait>(rt: &R, free: &Arc<AtomicU64>) -> Result<Place, Memory> {
        let free = Arc::try_clone(free)?;
        free.wait_and_decrement(rt);
        Ok(Place { free })
    }
}

impl Drop for Place {
    fn drop(self) {
        let Place { free } = self;
        free.fetch_add(1, Ordering::SeqCst);
    }
}
