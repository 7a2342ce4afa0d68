//! Stamps of a ledger's events.
use crate::world::SharedLedger;
use std::alloc::Global;
use tenant_ledger::laws;
use trace_export::StampTexts;
use trace_types::{Code, Memory, Reply, Request};

/// The texts of the stamps of a ledger's events, for which the ledger is asked one by one.
#[derive(Drop)]
pub(crate) struct LedgerStamps<'a> {
    pub(crate) alloc: Global,
    pub(crate) ledger: &'a SharedLedger,
}

impl StampTexts for LedgerStamps<'_> {
    ghost use Rattle.trace_world.specs.Exported.{stamp_texts};

    ghost texts = { λ stamps. stamp_texts stamps.ledger.now.rows };

    fn text(&self, event: u64) -> Result<Vec<u8>, Memory> {
        laws::greatest_value();
        // For the proof: the rows are legal.
        let _ = self.ledger.rows();
        match self.ledger.answer(&Request::Stamp(event)) {
            Reply::Stamp(text) => Ok(text.as_bytes().to_vec(self.alloc)?),
            Reply::Refused(Code::NoMemory) => Err(Memory),
            _ => unreachable!(),
        }
    }
}
