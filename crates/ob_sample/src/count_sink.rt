ghost use Rattle.std.specs.Prelude.{◌≡◌, ◌<◌, ◌+◌, ◌%◌, sum, Some};
ghost use Rattle.ob_base.specs.Sink.{Tally};
ghost use Rattle.ob_base.specs.Devices.{untold};

use ob_base::{Failed, Sink};

/// A sink that takes every byte and keeps none. It tells how many bytes it took, up to the greatest number
/// of 64 bits, and their sum modulo 65,536. It never fails.
#[derive(Debug, Drop)]
pub struct CountSink {
    count: u64,
    sum: u64,
    ghost below: { sum < 65536 },
}

impl CountSink {
    /// A sink that took nothing.
    pub fn new() -> CountSink
        ensures count { result.count ≡ 0 }
        ensures sum { result.sum ≡ 0 }
    {
        CountSink { count: 0, sum: 0 }
    }

    /// How many bytes were taken, up to the greatest number of 64 bits.
    pub fn count(&self) -> u64
        ensures { result ≡ self.now.count }
    {
        self.count
    }

    /// The sum of the bytes that were taken, modulo 65,536.
    pub fn sum(&self) -> u64
        ensures { result ≡ self.now.sum }
    {
        self.sum
    }
}

fn sum_of(piece: &[u8], before: u64) -> u64
    requires { before < 65536 }
    ensures { result ≡ (before + sum piece.now) % 65536 }
{
    let mut total = before;
    for byte in piece {
        total = (total + u64::from(*byte)) % 65_536;
    }
    total
}

impl Sink for CountSink {
    ghost taken = { λ _. untold };

    ghost tally = { λ s. Some (record { count = s.count; total = s.sum }) };

    ghost faults = { λ _. 0 };

    fn write(&mut self, piece: &[u8]) -> Result<usize, Failed> {
        if !piece.is_empty() {
            self.count = self.count.saturating_add(piece.len() as u64);
            self.sum = sum_of(piece, self.sum);
        }
        Ok(piece.len())
    }
}
