ghost use Rattle.std.specs.Prelude.{◌≡◌};

use std::marker::Model;

/// What the program ends with.
#[derive(Drop)]
pub struct Status {
    code: u8,
    instructions: u64,
}

impl Model for Status {
    ghost use Rattle.ob_commands.specs.Status.{Ending};

    ghost Value = { Ending };

    ghost view = { λ s. record { code = s.code; instructions = s.instructions } };
}

impl Status {
    pub(crate) fn new(code: u8, instructions: u64) -> Status
        ensures { result ≡ record { code = code; instructions = instructions } }
    {
        Status { code, instructions }
    }

    /// The process's exit status: 0 to 127 where the run ended, by its number; else 128 for words
    /// that ask for nothing, 129 for a file that can't be had, 130 for one that is too long, 131 for a
    /// source that is no tokens, 132 for one whose tokens are no program, 134 for one that is nested too
    /// deep, 135 for a bad image, 136 for a run whose steps ended, 137 for a division by zero, 138 for a
    /// full stack, 139 and 140 for pointers too many or too far out of bounds, 141 for a run that did as
    /// many instructions as it may, 142 for a failed read, 143 for a failed write, 144 for want of memory,
    /// 145 for a source that can't be compiled yet.
    pub fn code(&self) -> u8
        ensures { result ≡ self.now.code }
    {
        self.code
    }

    /// How many instructions the run did, the one that ended it included; 0 where nothing was run.
    pub fn instructions(&self) -> u64
        ensures { result ≡ self.now.instructions }
    {
        self.instructions
    }
}
