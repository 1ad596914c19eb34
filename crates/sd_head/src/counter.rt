ghost use Rattle.std.specs.Prelude.{◌≡◌, ◌+◌, ◌%◌, ◌<◌};

use std::marker::Model;

/// The next continuity counter of a PID, of four bits (ISO/IEC 13818-1, 2.4.3.3).
#[derive(Clone, Copy)]
pub struct Counter {
    value: u8,
}

impl Model for Counter {
    ghost use Rattle.std.specs.Prelude.{ℕ, ◌<◌};

    ghost Value = { ℕ };

    ghost view = { λ c. c.value };

    ghost invariant = { λ c. c.value < 16 };

    ghost inverse = { λ n. record { value = n } };
}

impl Counter {
    /// The counter of a PID's first packet, 0.
    pub fn new() -> Counter
        ensures { result ≡ 0 }
    {
        Counter { value: 0 }
    }

    /// The counter of the next packet. It rises by 1 mod 16.
    pub fn take(&mut self) -> u8
        ensures value { result ≡ self.old }
        ensures fits { result < 16 }
        ensures next { self.new ≡ (self.old + 1) % 16 }
    {
        let value = self.value;
        self.value = (value + 1) % 16;
        value
    }
}
