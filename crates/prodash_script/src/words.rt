ghost use Rattle.std.specs.Prelude.{◌≡◌};
ghost use Rattle.prodash_script.specs.Words.{number_of};

use prodash_base::time::Moment;
use prodash_core::tree::Handle;

/// The handles and moments that the words of a line name.
pub trait Words {
    ghost use Rattle.std.specs.Prelude.{List, ℕ, Option};

    /// The handle that a word names, if it can name one.
    ghost handle_of: { Self → List ℕ → Option ℕ };

    /// The moment that a word names, if it can name one.
    ghost moment_of: { Self → List ℕ → Option ℕ };

    /// Returns the handle that a word names, or `None` if it can't name one.
    fn handle(&self, word: &str) -> Option<Handle>
        ensures { result ≡ handle_of self.now word.now };

    /// Returns the moment that a word names, or `None` if it can't name one.
    fn moment(&self, word: &str) -> Option<Moment>
        ensures { result ≡ moment_of self.now word.now };
}

/// Handles and moments are named by their numbers alone.
#[derive(Clone, Copy, Debug)]
pub struct Numbers;

impl Words for Numbers {
    ghost handle_of = { λ _. number_of };

    ghost moment_of = { λ _. number_of };

    fn handle(&self, word: &str) -> Option<Handle> {
        number(word)
    }

    fn moment(&self, word: &str) -> Option<Moment> {
        number(word)
    }
}

/// Parses a number of 1 to 20 decimal digits that fits in 64 bits.
pub fn number(word: &str) -> Option<u64>
    ensures { result ≡ number_of word.now }
{
    let digits = word.as_bytes();
    if digits.is_empty() || digits.len() > 20 {
        return None;
    }
    let mut n: u64 = 0;
    for &digit in digits {
        if !digit.is_ascii_digit() {
            return None;
        }
        n = n.checked_mul(10)?.checked_add(u64::from(digit - b'0'))?;
    }
    Some(n)
}
