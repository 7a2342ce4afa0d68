//! What ids mean, point by point. Each law is the contract of a function that does nothing.
ghost use Rattle.std.specs.Prelude.{◌≡◌, ◌≢◌, ◌||◌};
ghost use Rattle.trace_types.specs.clock.Points.{Point};
ghost use Rattle.trace_types.specs.clock.Id.{Id, Zero, Pair, owns, AreDisjoint, IsNormalId};
ghost use Rattle.id_tree.specs.Laws.{SharesOut, OwnTheSame};
ghost use Rattle.trace_types.specs.clock.IdOperations.{norm_id, split, sum};

use crate::IdTree;

/// Every `IdTree` is normal.
pub fn each_tree_is_normal(id: &IdTree)
    ensures { IsNormalId id.now }
{
    // The contract of `parts` tells the prover that the id is normal.
    let _parts = id.parts();
}

/// If an id owns a point, exactly one part of its split owns the point. Neither part owns any other point.
pub fn split_shares_out_the_points()
    ensures { (id : Id) → SharesOut id (split id).0 (split id).1 }
{}

/// The parts of a split are disjoint, so they may be summed.
pub fn split_parts_are_disjoint()
    ensures { (id : Id) → AreDisjoint (split id).0 (split id).1 }
{}

/// The sum of the parts of a split is the id that was split.
pub fn sum_undoes_split()
    ensures { (id : Id) → IsNormalId id → sum (split id).0 (split id).1 ≡ id }
{}

/// An id that owns a point is split into two ids that each own one.
pub fn split_gives_each_part_some()
    ensures { (id : Id) → id ≢ Zero → ((split id).0 ≢ Zero) × ((split id).1 ≢ Zero) }
{}

/// The parts of a normal id are normal.
pub fn split_is_normal()
    ensures { (id : Id) → IsNormalId id → IsNormalId (split id).0 × IsNormalId (split id).1 }
{}

/// A sum owns what either id owns.
pub fn sum_owns_what_either_owns()
    ensures { (a b : Id) (point : Point) → owns (sum a b) point ≡ (owns a point || owns b point) }
{}

/// The sum of normal ids is normal.
pub fn sum_is_normal()
    ensures { (a b : Id) → IsNormalId a → IsNormalId b → IsNormalId (sum a b) }
{}

/// The normal form of a pair owns what the pair owns.
pub fn norm_owns_what_the_pair_owns()
    ensures { (left right : Id) → OwnTheSame (norm_id left right) (Pair left right) }
{}

/// The normal form of normal halves is normal.
pub fn norm_is_normal()
    ensures { (left right : Id) → IsNormalId left → IsNormalId right → IsNormalId (norm_id left right) }
{}

/// Normal ids that own the same points are the same id.
pub fn normal_ids_are_unique()
    ensures { (a b : Id) → IsNormalId a → IsNormalId b → OwnTheSame a b → a ≡ b }
{}
