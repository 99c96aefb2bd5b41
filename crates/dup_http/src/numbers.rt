// Numbers in fields.
ghost use Rattle.std.specs.Prelude.{◌≡◌, ◌^◌, nat_lt, Some, None, IsTrue, if◌then◌else◌};
ghost use Rattle.std.specs.List.{list_all};
ghost use Rattle.std.specs.Str.Parse.{digits_value};
ghost use Rattle.dup_names.specs.Grammar.{is_digit as digit_grammar};
ghost use Rattle.dup_http.specs.Asks.{is_digits as digits_grammar};

fn is_digit(byte: u8) -> bool
    ensures { result ≡ digit_grammar byte }
{
    byte.is_ascii_digit()
}

fn are_digits(bytes: &[u8]) -> bool
    ensures { result ≡ list_all digit_grammar bytes.now }
{
    bytes.iter().all(|byte| is_digit(*byte))
}

/// Whether it is one or more digits.
pub(crate) fn is_digits(word: &[u8]) -> bool
    ensures { result ≡ digits_grammar word.now }
{
    !word.is_empty() && are_digits(word)
}

/// The number that digits write, or `None` where it is over `u64::MAX`.
pub(crate) fn number(digits: &[u8]) -> Option<u64>
    requires { IsTrue (list_all digit_grammar digits.now) }
    ensures { result ≡ (if nat_lt (digits_value 10 digits.now) (2 ^ 64)
        then Some (digits_value 10 digits.now) else None) }
{
    let mut value: u64 = 0;
    for byte in digits {
        value = value.checked_mul(10)?.checked_add(u64::from(*byte - b'0'))?;
    }
    Some(value)
}
