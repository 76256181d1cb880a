ghost use Rattle.std.specs.Prelude.{◌≡◌, ◌<◌, ◌≤◌, ◌++◌, [], ◌∷◌, length, vec_capacity};
ghost use Rattle.ob_code.specs.Frames.{top_base};
ghost use Rattle.ob_flat.specs.Memory.{Memory};
ghost use Rattle.ob_frames.specs.Calls.{calls_in};

/// A call in progress: its function, the address of its frame, and the number of its first object. The
/// place that it returns to lies in its frame.
#[derive(Clone, Copy, Debug)]
pub struct Active {
    pub function: u32,
    pub base: u64,
    pub first: u64,
}

/// The base of the innermost call's frame; 0 where no call is in progress.
pub fn top_base(calls: &[Active]) -> u64
    ensures { (m : Memory) → result ≡ top_base (calls_in m calls.now) }
{
    match calls.last() {
        Some(call) => call.base,
        None => 0,
    }
}

/// Puts a call at the end of the list, which has the memory for it.
pub fn add_call(calls: &mut Vec<Active>, call: Active)
    requires { length calls.old.items < vec_capacity calls.old }
    ensures items { calls.new.items ≡ calls.old.items ++ call ∷ [] }
    ensures capacity { vec_capacity calls.old ≤ vec_capacity calls.new }
{
    let _ = calls.push(call);
}
