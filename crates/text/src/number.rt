ghost use Rattle.std.specs.Prelude.{◌≡◌, ◌≤◌, IfSome};
ghost use Rattle.text.specs.Figures.{number_word};

/// A decimal number up to `most`.
// Not `parse`: that takes a sign in front of the digits.
pub fn number(word: &[u8], most: u32) -> Option<u32>
    ensures value { result ≡ number_word most word.now }
    ensures bound { IfSome result (λ n. n ≤ most) }
{
    if word.is_empty() {
        return None;
    }
    let mut n = 0u32;
    for b in word {
        let digit = char::from(*b).to_digit(10)?;
        n = n.checked_mul(10)?.checked_add(digit)?;
        if n > most {
            return None;
        }
    }
    Some(n)
}
