ghost use Rattle.ob_commands.specs.Delivery.{IsPut};

use crate::answer::Answer;
use crate::came::Came;
use ob_base::{Sink, write_all};

/// Writes bytes to the output sink, all that a job has for it.
pub fn written<K: Sink>(bytes: &[u8], out: &mut K) -> Came
    ensures { IsPut bytes.now result (record { taken_before = K.taken out.old; taken_now = K.taken out.new; tally_before = K.tally out.old; tally_now = K.tally out.new; faults_before = K.faults out.old; faults_now = K.faults out.new }) }
{
    if write_all(out, bytes).is_err() {
        Came::Cut(0)
    } else {
        Came::Due(Answer::Done, 0)
    }
}
