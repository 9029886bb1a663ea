ghost use Rattle.std.specs.Prelude.{◌≡◌, ◌∷◌, []};
ghost use Rattle.ax_case_lines.specs.Parted.{words_and_rest};

use ax_values::cut_at;

/// The first word of a text, and what follows it, which may be nothing.
pub fn first_word(text: &[u8]) -> (&[u8], &[u8])
    ensures { result.0.now ∷ result.1.now ∷ [] ≡ words_and_rest 1 text.now }
{
    match cut_at(b' ', text) {
        Some((word, rest)) => (word, rest),
        None => (text, &text[text.len()..]),
    }
}

/// The first two words of a text, and what follows them, which may be nothing.
pub fn two_words(text: &[u8]) -> (&[u8], &[u8], &[u8])
    ensures { result.0.now ∷ result.1.now ∷ result.2.now ∷ [] ≡ words_and_rest 2 text.now }
{
    let (first, rest) = first_word(text);
    let (second, rest) = first_word(rest);
    (first, second, rest)
}

/// The first three words of a text, and what follows them, which may be nothing.
pub fn three_words(text: &[u8]) -> (&[u8], &[u8], &[u8], &[u8])
    ensures { result.0.now ∷ result.1.now ∷ result.2.now ∷ result.3.now ∷ [] ≡ words_and_rest 3 text.now }
{
    let (first, second, rest) = two_words(text);
    let (third, rest) = first_word(rest);
    (first, second, third, rest)
}

/// The first four words of a text, and what follows them, which may be nothing.
pub fn four_words(text: &[u8]) -> (&[u8], &[u8], &[u8], &[u8], &[u8])
    ensures { result.0.now ∷ result.1.now ∷ result.2.now ∷ result.3.now ∷ result.4.now ∷ [] ≡ words_and_rest 4 text.now }
{
    let (first, second, third, rest) = three_words(text);
    let (fourth, rest) = first_word(rest);
    (first, second, third, fourth, rest)
}
