//! Words that are numbers.
ghost use Rattle.std.specs.Prelude.{◌≡◌};
ghost use Rattle.std.specs.Char.{is_ascii_digit};
ghost use Rattle.std.specs.List.{list_all};
ghost use Rattle.desk_words.specs.Numbers.{is_number_word, number_in};

/// Digits of a word that is a number: as many as the largest number of 64 bits has.
pub const MOST_NUMBER_DIGITS: usize = 20;

// Whether each byte is a decimal digit.
fn are_digits(word: &[u8]) -> bool
    ensures { result ≡ list_all is_ascii_digit word.now }
{
    word.iter().all(|byte| byte.is_ascii_digit())
}

// Whether the word is 1 to `MOST_NUMBER_DIGITS` decimal digits.
fn is_number_word(word: &[u8]) -> bool
    ensures { result ≡ is_number_word word.now }
{
    if word.is_empty() || word.len() > MOST_NUMBER_DIGITS {
        return false;
    }
    are_digits(word)
}

// The number that the word writes, if it is a number word and the number lies from `least` to `most`.
pub(crate) fn read_number(word: &str, least: u64, most: u64) -> Option<u64>
    ensures { result ≡ number_in least most word.now }
{
    if !is_number_word(word.as_bytes()) {
        return None;
    }
    let Ok(number) = word.parse::<u64>() else {
        return None;
    };
    if least <= number && number <= most {
        Some(number)
    } else {
        None
    }
}
