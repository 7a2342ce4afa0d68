//! Room on the stack for walks over deep trees.
ghost use Rattle.std.specs.Prelude.{◌≤◌};

use std::alloc::{AllocError, Global};

/// For walks over how deep trees the stack has room.
///
/// The system makes the stack longer as it is used, and ends the program by a signal if it has no memory for that. So the memory
/// is asked for before such a walk begins, and the stack is made as long as it may have to be.
#[derive(Drop)]
pub struct Stack {
    /// For trees of fewer levels than these.
    levels: usize,
}

/// No tree has more levels.
const MOST_LEVELS: usize = 2048;

/// The bytes that a walk over the deepest trees takes for each of their levels.
const BYTES_OF_LEVEL: usize = 260;

/// The bytes beside those of the levels, for the calls around a walk.
const BYTES_AROUND: usize = 16384;

const PAGE: usize = 4096;

impl Stack {
    /// How many levels of a tree the stack has room for from the start.
    pub const LEVELS: usize = 400;

    /// The stack with which a program begins.
    pub fn new() -> Stack {
        Stack {
            levels: Stack::LEVELS,
        }
    }

    /// Makes room for walks over trees of so many levels, if there may be too little.
    ///
    /// Returns an `AllocError` if the memory for it is refused. Then the stack is as long as it was.
    #[inline(always)]
    pub fn make_room(&mut self, alloc: Global, levels: usize) -> Result<(), AllocError> {
        if levels < self.levels {
            return Ok(());
        }
        self.grow(alloc, levels)
    }

    /// Makes the stack long enough for trees of an eighth more levels, or for the deepest ones.
    #[inline(never)]
    fn grow(&mut self, alloc: Global, levels: usize) -> Result<(), AllocError> {
        let levels = levels.min(MOST_LEVELS);
        let levels = (levels + levels / 8).min(MOST_LEVELS);
        let bytes = levels * BYTES_OF_LEVEL + BYTES_AROUND;
        let block: Vec<u8> = Vec::with_capacity(alloc, bytes)?;
        drop(block);
        // What it gives says nothing.
        let _ = touch(bytes / PAGE);
        self.levels = if levels == MOST_LEVELS {
            usize::MAX
        } else {
            levels
        };
        Ok(())
    }
}

/// Uses so many pages of the stack, by a call for each. What it gives says nothing, and is there so that no page is left out.
#[inline(never)]
fn touch(pages: usize) -> u8
    requires { pages ≤ 1024 }
{
    let mut page = [0u8; PAGE];
    page[pages] = 1;
    let below = if pages == 0 { 0 } else { touch(pages - 1) };
    below.max(page[below as usize])
}
