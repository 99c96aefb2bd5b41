ghost use Rattle.std.specs.Prelude.{◌≡◌};
ghost use Rattle.std.specs.List.{list_all};
ghost use Rattle.dup_names.specs.Grammar.{is_digit as digit_grammar};
ghost use Rattle.dup_transcript.specs.Numbers.{leads as leads_grammar, number_of};

fn leads(word: &[u8]) -> bool
    ensures { result ≡ leads_grammar word.now }
{
    match word {
        [] => false,
        [_] => true,
        [first, _, ..] => *first != b'0',
    }
}

/// The number that a word writes in decimal, without a leading zero, up to 2^64 - 1.
pub(crate) fn read_number(word: &[u8]) -> Option<u64>
    ensures { result ≡ number_of word.now }
{
    if !leads(word) {
        return None;
    }
    let mut value: u64 = 0;
    for byte in word {
        if !byte.is_ascii_digit() {
            return None;
        }
        value = value.checked_mul(10)?.checked_add(u64::from(*byte - b'0'))?;
    }
    Some(value)
}
