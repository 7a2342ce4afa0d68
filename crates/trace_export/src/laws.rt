//! What the definitions of this crate mean. Each law is the contract of a function that does nothing.
ghost use Rattle.std.specs.Prelude.{◌≡◌, ◌++◌, ◌↔◌, ℕ, List, codes, length};
ghost use Rattle.trace_types.specs.clock.EventTree.{EventTree};
ghost use Rattle.trace_types.specs.clock.Id.{Id};
ghost use Rattle.trace_types.specs.text.Lines.{lines};
ghost use Rattle.trace_types.specs.text.StampText.{stamp_text};
ghost use Rattle.trace_types.specs.declared.row.Row.{Row};
ghost use Rattle.trace_export.specs.DueLine.{IsSpelled, due_line, due_text};
ghost use Rattle.trace_export.specs.Edges.{Placing};
ghost use Rattle.trace_export.specs.Export.{listed_row};
ghost use Rattle.trace_export.specs.Heading.{BeginsWithNoHeader};
ghost use Rattle.trace_export.specs.Laws.{IsGoodExport, TellsVersion};
ghost use Rattle.trace_export.specs.Listing.{listed_line};
ghost use Rattle.trace_export.specs.Loading.{IsLoaded};
ghost use Rattle.trace_export.specs.Loads.{IsExportOfRun};
ghost use Rattle.trace_export.specs.declared.loaded.Loaded.TheVariants.{Done};
ghost use Rattle.trace_export.specs.Verdict.{IsVerdict, IsVerdictOnEvents};
ghost use Rattle.trace_export.specs.declared.reason.Reason.TheVariants.{NoEvent};
ghost use Rattle.trace_export.specs.declared.verdict.Verdict.{Verdict};
ghost use Rattle.trace_export.specs.declared.verdict.Verdict.TheVariants.{Yes, No};

/// At a yes every line is right: each but a header lists its event. For every two events, the one's tree is nowhere above
/// the other's exactly if the one reaches the other along the listed edges.
pub fn yes()
    ensures { (bytes : List ℕ) (count : ℕ) → IsVerdict bytes (Yes count)
        → (placing : Placing) × IsGoodExport (lines bytes) placing × (count ≡ length placing) }
{}

/// An export of version 1, which has no header, has the verdict of its lines of events. If they are all right, the first
/// of them is no header.
pub fn version_1()
    ensures same { (bytes : List ℕ) (verdict : Verdict) → BeginsWithNoHeader (lines bytes)
        → IsVerdict bytes verdict ↔ IsVerdictOnEvents 0 (lines bytes) verdict }
    ensures right { (bytes : List ℕ) (count : ℕ) → IsVerdictOnEvents 0 (lines bytes) (Yes count) → IsVerdict bytes (Yes count) }
{}

/// A first line that is an object with the key `version`, and yet no header, is faulty because it lists no event. This
/// holds if the line is not too long.
pub fn spoilt_header()
    ensures { (bytes : List ℕ) → TellsVersion (lines bytes) → BeginsWithNoHeader (lines bytes) → IsVerdict bytes (No 1 NoEvent) }
{}

/// Bytes that are loaded whole are the export of the rows that their requests make: these requests, run from nothing, are
/// all accepted and leave the rows, and each line lists its row and its stamp. So, by the clock theorem, a check of the
/// bytes says yes.
pub fn loaded()
    ensures { (bytes : List ℕ) (count : ℕ) (rows : List Row) → IsLoaded bytes (Done count) rows → IsExportOfRun bytes count rows }
{}

/// The line of an event is written as JSON, and a line is compared with it piece by piece. Both are the same bytes, but for
/// the end of the line, if the words of the event are names and its numbers fit 64 bits.
pub fn line_of_event()
    ensures written { (event : ℕ) (row : Row) (id : Id) (tree : EventTree)
        → listed_line (listed_row event row (stamp_text id tree)) ≡ due_line event row id tree ++ codes "\n" }
    ensures compared { (event : ℕ) (row : Row) (id : Id) (tree : EventTree) → IsSpelled event row tree
        → due_line event row id tree ≡ due_text event row (stamp_text id tree) }
{}
