//! Scores as two 64-bit words.

ghost use Rattle.std.specs.Prelude.{◌≡◌, ◌%◌, ◌/◌, ◌^◌};

/// A score of 128 bits: `high * 2^64 + low`.
#[repr(C)]
#[derive(Clone, Copy, Debug, PartialEq, Eq)]
pub struct Score {
    /// The low 64 bits.
    pub low: u64,
    /// The high 64 bits.
    pub high: u64,
}

impl Score {
    /// The words of a score.
    pub fn new(score: u128) -> Score
        ensures { result ≡ record { low = score % 2 ^ 64; high = score / 2 ^ 64 } }
    {
        Score {
            low: (score % (1 << 64)) as u64,
            high: (score / (1 << 64)) as u64,
        }
    }
}
