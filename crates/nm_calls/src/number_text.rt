//! Numbers and addresses as text.

ghost use Rattle.std.specs.Prelude.{◌≡◌, ◌≤◌, ◌<◌, ◌++◌, OnOk, take, drop, string_bytes, decimal, false};
ghost use Rattle.std.specs.Fmt.{digits, digit_glyph};
ghost use Rattle.nm_calls.specs.definitions.Maps.{address_text};

use nm_types::Vpn;
use std::alloc::{AllocError, Allocator};
use std::str::from_utf8;

/// Room for the text of an address: the sixteen digits that a number of 64 bits has at most, and three zeros.
pub const ADDRESS_BYTES: usize = 19;

/// Appends a word and a number.
pub(crate) fn push_number<A: Allocator>(
    line: &mut String<A>,
    word: &str,
    number: u64,
) -> Result<(), AllocError>
    ensures { OnOk result
        (string_bytes line.new ≡ string_bytes line.old ++ (word.now ++ decimal number)) }
{
    let mut buffer = itoa::Buffer::new();
    line.push_str(word)?;
    line.push_str(buffer.format(number))
}

/// The hexadecimal digit of a value.
fn digit_of(value: u64) -> u8
    requires { value < 16 }
    ensures { result ≡ digit_glyph false value }
{
    let value = value as u8;
    if value < 10 {
        b'0' + value
    } else {
        b'a' + (value - 10)
    }
}

/// Writes the hexadecimal digits of a number so that they end before byte 16, and returns where they begin.
fn write_digits(number: u64, text: &mut [u8; ADDRESS_BYTES]) -> usize
    ensures within { result ≤ 15 }
    ensures written { drop result text.new ≡ digits 16 false number ++ drop 16 text.old }
    ensures before { take result text.new ≡ take result text.old }
{
    let mut rest = number;
    let mut at = 15;
    while rest >= 16 {
        text[at] = digit_of(rest % 16);
        rest /= 16;
        at -= 1;
    }
    text[at] = digit_of(rest);
    at
}

/// The address at which a page begins, as at least eight hexadecimal digits, which are written at the end of `text`.
pub fn address_bytes(vpn: Vpn, text: &mut [u8; ADDRESS_BYTES]) -> &[u8]
    ensures { result.now ≡ address_text vpn }
{
    *text = [b'0'; ADDRESS_BYTES];
    let start = write_digits(vpn.number(), text);
    let from = start.min(11);
    let all = &text[..];
    &all[from..]
}

/// Appends the address at which a page begins, in at least eight hexadecimal digits.
pub(crate) fn push_address<A: Allocator>(line: &mut String<A>, vpn: Vpn) -> Result<(), AllocError>
    ensures { OnOk result (string_bytes line.new ≡ string_bytes line.old ++ address_text vpn) }
{
    let mut text = [0; ADDRESS_BYTES];
    let Ok(address) = from_utf8(address_bytes(vpn, &mut text)) else {
        unreachable!()
    };
    line.push_str(address)
}
