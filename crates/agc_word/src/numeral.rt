//! Numbers in text: scripts, watch specs and stop addresses all read them here.
ghost use Rattle.std.specs.Prelude.{◌≡◌, ◌-◌, ◌^◌, ◌≤◌, ◌<◌, length, IfSome, Some, None, if◌then◌else◌};
ghost use Rattle.std.specs.List.{list_all};
ghost use Rattle.agc_word.specs.Numeral.{octal_number, decimal_number, number_of, is_digit, digits_value};

/// Reads an octal number of 1 to `most` digits; returns `None` for any other text.
pub fn read_octal(most: usize, text: &[u8]) -> Option<u64>
    requires { most ≤ 19 }
    ensures number { result ≡ octal_number most text.now }
    ensures range { IfSome result (λ number. number < 8 ^ most) }
{
    read_number(8, most, text)
}

/// Reads a decimal number of 1 to `most` digits; returns `None` for any other text.
pub fn read_decimal(most: usize, text: &[u8]) -> Option<u64>
    requires { most ≤ 19 }
    ensures number { result ≡ decimal_number most text.now }
    ensures range { IfSome result (λ number. number < 10 ^ most) }
{
    read_number(10, most, text)
}

#[tactic(auto, unfolding(crate::specs::Numeral::number_of))]
fn read_number(base: u64, most: usize, text: &[u8]) -> Option<u64>
    requires positive { 0 < base }
    requires base { base ≤ 10 }
    requires digits { most ≤ 19 }
    ensures number { result ≡ number_of base most text.now }
    ensures range { IfSome result (λ number. number < base ^ most) }
{
    if text.is_empty() || text.len() > most {
        return None;
    }
    read_digits(base, text)
}

/// Returns the value of the digits, or `None` if a byte is not a digit of the base.
fn read_digits(base: u64, digits: &[u8]) -> Option<u64>
    requires base { base ≤ 10 }
    requires bound { length digits.now ≤ 19 }
    ensures value { result ≡ (if list_all (is_digit base) digits.now then Some (digits_value base digits.now) else None) }
    ensures range { IfSome result (λ number. number < base ^ length digits.now) }
{
    let mut value = 0;
    for b in digits {
        value = value * base + read_digit(base, *b)?;
    }
    Some(value)
}

/// Returns the value of a digit, or `None` if the byte is not a digit of the base.
fn read_digit(base: u64, b: u8) -> Option<u64>
    requires { base ≤ 10 }
    ensures { result ≡ (if is_digit base b then Some (b - 48) else None) }
{
    if b < b'0' || u64::from(b) >= 48 + base {
        None
    } else {
        Some(u64::from(b) - 48)
    }
}
