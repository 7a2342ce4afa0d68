//! Texts of stamps.
ghost use Rattle.std.specs.Prelude.{◌≡◌, ◌<◌, ◌≤◌, IfOk, List, length};
ghost use Rattle.std.specs.Str.{IsUtf8};
ghost use Rattle.trace_types.specs.text.Name.{Text};
ghost use Rattle.trace_export.specs.Export.{stamp_at};

use trace_types::Memory;

/// The texts of the stamps of events, asked for one by one.
pub trait StampTexts {
    // all of them: that of event k is the k-th, from 1
    ghost texts: { Self → List Text };

    /// The text of the event's stamp. Returns `Memory` if it runs out of memory.
    fn text(&self, event: u64) -> Result<Vec<u8>, Memory>
        requires event { (0 < event) × (event ≤ length (texts self.now)) }
        ensures text { IfOk result (λ text. text.items ≡ stamp_at (texts self.now) event) }
        ensures utf8 { IfOk result (λ text. IsUtf8 text.items) };
}
