//! Numbers in the text of a symbol file.

/// The first number that is no address of 24 bits.
const END: u32 = 1 << 24;

/// Returns the number of from one to eight hexadecimal digits.
pub fn hex_of(digits: &str) -> Option<u32> {
    if digits.is_empty() || digits.len() > 8 {
        return None;
    }
    for byte in digits.as_bytes() {
        if !byte.is_ascii_hexdigit() {
            return None;
        }
    }
    u32::from_str_radix(digits, 16).ok()
}

/// Returns the address of 24 bits in from one to eight hexadecimal digits.
pub fn address_of(digits: &str) -> Option<u32> {
    let number = hex_of(digits)?;
    if number < END { Some(number) } else { None }
}

/// Returns the address of a bank and a place in it, both in hexadecimal digits.
pub fn banked_of(bank: &str, offset: &str) -> Option<u32> {
    let bank = hex_of(bank)?;
    let offset = hex_of(offset)?;
    if bank < 256 && offset < 65_536 {
        Some(65_536 * bank + offset)
    } else {
        None
    }
}

/// Returns the number of decimal digits.
pub fn decimal_of(digits: &str) -> Option<u32> {
    digits.parse::<u32>().ok()
}
