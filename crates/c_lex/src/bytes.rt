// Kinds of bytes.
ghost use Rattle.std.specs.Prelude.{◌≡◌, ◌≤◌, length};
ghost use Rattle.c_lex.specs.Bytes as b;
ghost use Rattle.c_lex.specs.Reading as r;

/// Blank, tab, newline, vertical tab, form feed or carriage return.
pub fn is_white(byte: u8) -> bool
    ensures { result ≡ b.is_white byte }
{
    byte == 32 || (byte >= 9 && byte <= 13)
}

pub fn is_digit(byte: u8) -> bool
    ensures { result ≡ b.is_digit byte }
{
    byte >= 48 && byte <= 57
}

pub fn is_octal(byte: u8) -> bool
    ensures { result ≡ b.is_octal byte }
{
    byte >= 48 && byte <= 55
}

pub fn is_hexadecimal(byte: u8) -> bool
    ensures { result ≡ b.is_hexadecimal byte }
{
    is_digit(byte) || (byte >= 97 && byte <= 102) || (byte >= 65 && byte <= 70)
}

pub fn is_letter(byte: u8) -> bool
    ensures { result ≡ b.is_letter byte }
{
    (byte >= 97 && byte <= 122) || (byte >= 65 && byte <= 90)
}

/// A letter or `_`.
pub fn begins_name(byte: u8) -> bool
    ensures { result ≡ b.begins_name byte }
{
    is_letter(byte) || byte == 95
}

pub fn is_name_byte(byte: u8) -> bool
    ensures { result ≡ b.is_name_byte byte }
{
    begins_name(byte) || is_digit(byte)
}

/// A letter or digit.
pub fn is_run_byte(byte: u8) -> bool
    ensures { result ≡ b.is_run_byte byte }
{
    is_letter(byte) || is_digit(byte)
}

/// The value of a digit of a base up to 16.
pub fn digit_value(byte: u8) -> u8
    ensures { result ≡ b.digit_value byte }
{
    if is_digit(byte) {
        byte - 48
    } else if byte >= 97 && byte <= 102 {
        byte - 87
    } else {
        byte.saturating_sub(55)
    }
}

/// The number of bytes of the longest beginning of name bytes.
pub fn name_length(bytes: &[u8]) -> usize
    ensures run { result ≡ r.run_length b.is_name_byte bytes.now }
    ensures within { result ≤ length bytes.now }
{
    for (i, byte) in bytes.iter().enumerate() {
        if !is_name_byte(*byte) {
            return i;
        }
    }
    bytes.len()
}

/// The number of bytes of the longest beginning of letters and digits.
pub fn run_length(bytes: &[u8]) -> usize
    ensures run { result ≡ r.run_length b.is_run_byte bytes.now }
    ensures within { result ≤ length bytes.now }
{
    for (i, byte) in bytes.iter().enumerate() {
        if !is_run_byte(*byte) {
            return i;
        }
    }
    bytes.len()
}

/// The number of newlines.
pub fn newlines(bytes: &[u8]) -> usize
    ensures count { result ≡ b.newlines bytes.now }
    ensures few { result ≤ length bytes.now }
{
    let mut count = 0;
    for byte in bytes {
        if *byte == 10 {
            count += 1;
        }
    }
    count
}
