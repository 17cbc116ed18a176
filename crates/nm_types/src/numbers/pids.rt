ghost use Rattle.std.specs.Prelude.{◌≡◌, ℕ};

use std::marker::Model;

/// A process's number. No process has the number 0, which some calls take as the caller.
#[derive(Clone, Copy, Debug, PartialEq, Eq, PartialOrd, Ord, Hash)]
pub struct Pid {
    number: u32,
}

impl Model for Pid {
    ghost Value = { ℕ };

    ghost view = { λ n. n.number };

    ghost inverse = { λ n. record { number = n } };
}

impl Pid {
    /// The Pid with this number.
    pub const fn new(number: u32) -> Self
        ensures { result ≡ number }
    {
        Pid { number }
    }

    /// Its number.
    pub const fn number(self) -> u32
        ensures { result ≡ self }
    {
        self.number
    }
}
