//! Laws of the definitions that the contracts cite. Each law is the contract of a function that does nothing.
ghost use Rattle.std.specs.Prelude.{◌≡◌, ◌≢◌, ◌↔◌, ℕ, IsTrue, List, [], ◌∷◌, ◌++◌, Option, Some, All, Contains};
ghost use Rattle.std.specs.List.Sorted.{IsStrictlyIncreasing};
ghost use Rattle.trace_types.specs.text.Lines.{lines, without_return};
ghost use Rattle.trace_types.specs.text.Name.{is_name, is_same};
ghost use Rattle.trace_types.specs.tenant.Reachability.{Reaches, reaches, cut_of, IsLastToReach, HasOneOfTask};
ghost use Rattle.trace_types.specs.tenant.Rows.{is_event};
ghost use Rattle.trace_types.specs.text.Reading.{request_of, addressed_by};
ghost use Rattle.trace_types.specs.text.Text.{Spells, CanBeWritten, request_text};
ghost use Rattle.trace_types.specs.declared.request.Request.{Request};
ghost use Rattle.trace_types.specs.declared.row.Row.{Row};

/// The test `is_same` holds of two texts exactly if they are equal.
pub fn names()
    ensures { (a b : List ℕ) → IsTrue (is_same a b) ↔ (a ≡ b) }
{}

/// Walking back from one event finds another exactly if a path of predecessors leads there.
pub fn reachability()
    ensures { (history : List Row) (a b : ℕ) → IsTrue (reaches history a b) ↔ Reaches history a b }
{}

/// The cut of an event has exactly the events that are each the last of its task to reach the event. Each task that has
/// such an event has exactly one in the cut. The event itself is in its cut, and the events increase.
pub fn cut()
    ensures members { (history : List Row) (event other : ℕ) → Contains (cut_of history event) other ↔ IsLastToReach history event other }
    ensures every_task { (history : List Row) (event other : ℕ) → IsTrue (is_event history other) → Reaches history other event
        → HasOneOfTask history other (cut_of history event) }
    ensures itself { (history : List Row) (event : ℕ) → IsTrue (is_event history event) → Contains (cut_of history event) event }
    ensures increasing { (history : List Row) (event : ℕ) → IsStrictlyIncreasing (cut_of history event) }
{}

/// The request that is read from a line is exactly the one that the line spells.
pub fn requests()
    ensures { (line : List ℕ) (request : Request) → (request_of line ≡ Some request) ↔ Spells line request }
{}

/// The tenant and the request that are read from a line are exactly those that the line spells.
pub fn addressed()
    ensures { (line tenant : List ℕ) (request : Request) → (addressed_by line ≡ Some (tenant, Some request))
        ↔ (IsTrue (is_name tenant) × CanBeWritten request × (line ≡ tenant ++ 32 ∷ request_text request)) }
{}

/// The bytes before an end of line are a line, without one carriage return at their end. The bytes behind the last end of
/// line are a line as they stand, if there are any.
pub fn lines()
    ensures ended { (text rest : List ℕ) → All (λ byte. byte ≢ 10) text → lines (text ++ 10 ∷ rest) ≡ without_return text ∷ lines rest }
    ensures rest { (text : List ℕ) → All (λ byte. byte ≢ 10) text → text ≢ [] → lines text ≡ text ∷ [] }
    ensures none { lines [] ≡ [] }
{}
