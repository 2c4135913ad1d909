// A sink that never fails.
ghost use Rattle.std.specs.Prelude.{◌≡◌, Ok, length, None};
ghost use Rattle.std.specs.Io.KnownBytes.{WriteAppends};
ghost use Rattle.raim_base.specs.Causes.{HasCause, TakesSome};

use crate::{Failed, Sink};

/// A sink that keeps nothing, tells nothing and never fails.
#[derive(Drop)]
pub struct SureSink {}

impl SureSink {
    /// A sink that takes every piece whole.
    pub fn new() -> SureSink {
        SureSink {}
    }
}

impl Sink for SureSink {
    ghost contents = { λ s. None };

    ghost faults = { λ s. 0 };

    fn write(&mut self, piece: &[u8]) -> Result<usize, Failed>
        ensures count { TakesSome result piece.now }
        ensures bytes { WriteAppends None None result piece.now }
        ensures cause { HasCause 0 0 result }
        ensures whole { result ≡ Ok (length piece.now) }
    {
        Ok(piece.len())
    }
}
