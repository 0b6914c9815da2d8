// A sink to whose puts memory is wanting.
use harm_io::{PutFault, Sink};

/// A sink that takes nothing: memory is wanting at each put.
#[derive(Drop)]
pub struct RefusingSink {
    refused: u64,
}

impl RefusingSink {
    pub fn new() -> RefusingSink {
        RefusingSink { refused: 0 }
    }
}

impl Sink for RefusingSink {
    ghost use Rattle.std.specs.Prelude.{Some, []};

    ghost state = { λ s. record { taken = Some []; faults = 0; refused = s.refused } };

    fn put(&mut self, _bytes: &[u8]) -> Result<(), PutFault> {
        self.refused = self.refused.saturating_add(1);
        Err(PutFault::NoMemory)
    }
}
