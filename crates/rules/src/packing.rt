// Where the parts of an answer stand in the number that a call returns (`specs/Returned` takes it apart).
ghost use Rattle.std.specs.Prelude.{◌≡◌, ◌+◌, ◌*◌, ◌<◌, ◌^◌};

// Bit 63: refused.
pub const REFUSED: u64 = 1 << 63;

// Bit 62: blocked.
pub const BLOCKED: u64 = 1 << 62;

// From bit 53 on: the steps.
pub const STEPS: u64 = 1 << 53;

// From bit 44 on: the moves.
pub const MOVES: u64 = 1 << 44;

// From bit 16 on: the number of a refusal.
pub const NUMBER: u64 = 1 << 16;

// A refusal as one number: its own number, eight bits, and the step that it is of, 16 bits, or 0 if it is of none.
pub fn refused(number: u64, step: usize) -> u64
    requires number { number < 2 ^ 8 }
    requires step { step < 2 ^ 16 }
    ensures { result ≡ 2 ^ 63 + number * 2 ^ 16 + step }
{
    REFUSED + number * NUMBER + step as u64
}
