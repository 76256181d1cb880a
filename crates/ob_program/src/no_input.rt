ghost use Rattle.std.specs.Prelude.{[], Some};

use ob_base::{Failed, Source};

/// A source without bytes.
#[derive(Drop)]
pub(crate) struct NoInput;

impl Source for NoInput {
    ghost left = { λ _. Some [] };

    ghost faults = { λ _. 0 };

    fn read(&mut self, _buf: &mut [u8]) -> Result<usize, Failed> {
        Ok(0)
    }
}
