//! An element of X-CUBE-EEPROM.
ghost use Rattle.std.specs.Prelude.{◌≡◌, IfNone, IfSome, IsTrue, false, true};
ghost use Rattle.ee_shell.specs.Xcube.Element.{address_in, crc_of, value_in, half_further, is_xcube_element};

use ee_codec::Address;

/// The polynomial x^16 + x^15 + x^2 + 1.
const POLYNOMIAL: u16 = 0x8005;

/// The address and the value that a number says, if it is an element whose CRC fits.
pub(super) fn element_of(number: u64) -> Option<(Address, u32)>
    ensures some { IfSome result (λ element. (is_xcube_element number ≡ true)
        × (element.0 ≡ address_in number) × (element.1 ≡ value_in number)) }
    ensures none { IfNone result (is_xcube_element number ≡ false) }
{
    let value = (number >> 32) as u32;
    let crc = (number >> 16 & 0xffff) as u16;
    let address = (number & 0xffff) as u16;
    if crc != crc_of(value, address) {
        return None;
    }
    let address = Address::new(address)?;
    Some((address, value))
}

/// Whether a number is an element whose CRC fits.
pub(super) fn is_xcube_element(number: u64) -> bool
    ensures { result ≡ is_xcube_element number }
{
    element_of(number).is_some()
}

/// The CRC of the data and then the address, the greatest bit first.
fn crc_of(value: u32, address: u16) -> u16
    ensures { result ≡ crc_of value address }
{
    let high = half_further(u16::MAX, (value >> 16) as u16);
    let whole = half_further(high, (value & 0xffff) as u16);
    half_further(whole, address)
}

/// A remainder, 16 bits further, the greatest first.
fn half_further(before: u16, half: u16) -> u16
    ensures { result ≡ half_further before half }
{
    let mut rest = before ^ half;
    'bits: for _bit in 0..16_u32 {
        rest = if rest < 0x8000 {
            2 * rest
        } else {
            (2 * (rest - 0x8000)) ^ POLYNOMIAL
        };
    }
    rest
}
