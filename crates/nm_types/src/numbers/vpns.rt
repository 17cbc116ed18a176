ghost use Rattle.std.specs.Prelude.{◌≡◌, ℕ, ◌*◌, ◌/◌, ◌%◌, ◌<◌, ◌^◌};

use crate::limits::PAGE_BYTES;
use std::marker::Model;

/// A virtual page number: an address divided by 4,096, the bytes of a page. Inside areas it is below 2^35.
#[derive(Clone, Copy, Debug, PartialEq, Eq, PartialOrd, Ord, Hash)]
pub struct Vpn {
    number: u64,
}

impl Model for Vpn {
    ghost Value = { ℕ };

    ghost view = { λ n. n.number };

    ghost inverse = { λ n. record { number = n } };
}

impl Vpn {
    /// The Vpn with this number.
    pub const fn new(number: u64) -> Self
        ensures { result ≡ number }
    {
        Vpn { number }
    }

    /// Its number.
    pub const fn number(self) -> u64
        ensures { result ≡ self }
    {
        let Vpn { number } = self;
        number
    }

    /// The number of the page that an address lies in.
    pub const fn of_address(address: u64) -> Self
        ensures { result ≡ address / 4096 }
    {
        Vpn {
            number: address / PAGE_BYTES as u64,
        }
    }

    /// The address at which the page begins.
    pub const fn address(self) -> u64
        requires { self < 2 ^ 52 }
        ensures { result ≡ self * 4096 }
    {
        self.number * PAGE_BYTES as u64
    }

    /// An address's offset in its page, in bytes.
    pub const fn offset(address: u64) -> usize
        ensures value { result ≡ address % 4096 }
        ensures inside { result < 4096 }
    {
        (address % PAGE_BYTES as u64) as usize
    }
}
