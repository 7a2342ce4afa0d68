//! The lists that a view put together, in proofs alone.
ghost use Rattle.std.specs.Prelude.{◌≡◌, [], ◌∷◌};

use crate::row_log::Front;
use std::marker::Model;
use std::snapshot::Snapshot;

/// Two lists that were put together, and those before them. One is made to be shown to a proof, and is not kept.
#[derive(Drop)]
struct Together {
    told: Front,
    seen: Front,
    before: Option<Snapshot<Together>>,
}

impl Model for Together {
    ghost use Rattle.std.specs.Prelude.{Some, None, [], ◌∷◌, List, length};
    ghost use Rattle.std.proofs.Common.{arith};
    ghost use Rattle.trace_types.specs.declared.row.Row.{Row};

    ghost Value = { List (List Row) };

    ghost view = { λ t. t.told.rows ∷ t.seen.rows ∷ elim t.before [ None ↦ [] | Some shown ↦ shown.value ] };

    ghost size = { length };

    ghost size_decreases = { λ a h. Prim.grind arith };
}

/// The lists, the last ones first. They take no memory.
#[derive(Drop)]
pub(crate) struct Met {
    lists: Option<Snapshot<Together>>,
}

impl Model for Met {
    ghost use Rattle.std.specs.Prelude.{Some, None, [], List};
    ghost use Rattle.trace_types.specs.declared.row.Row.{Row};

    ghost Value = { List (List Row) };

    ghost view = { λ m. elim m.lists [ None ↦ [] | Some shown ↦ shown.value ] };
}

impl Met {
    /// No lists.
    pub(crate) fn new() -> Met
        ensures { result ≡ [] }
    {
        Met { lists: None }
    }

    /// Puts the two lists together.
    pub(crate) fn put(&mut self, told: &Front, seen: &Front)
        ensures { self.new ≡ told.now.rows ∷ seen.now.rows ∷ self.old }
    {
        let together = Together {
            told: told.again(),
            seen: seen.again(),
            before: self.lists.take(),
        };
        self.lists = Some(Snapshot::of(&together));
    }

    /// Forgets the lists, as a list was entered.
    pub(crate) fn clear(&mut self)
        ensures { self.new ≡ [] }
    {
        self.lists = None;
    }
}
