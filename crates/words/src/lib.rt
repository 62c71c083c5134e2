// The words of a line of text: runs of bytes that are no spaces. A word that is not there is empty.
#![tactic(auto)]

ghost use Rattle.std.specs.Prelude.{◌≡◌};
ghost use Rattle.words.specs.Words.{is_space, place_of, up_to, word_of, texts, words_of, lookup_of};

// Whether a byte separates words: a tab and a carriage return do so as a space does.
fn is_space(byte: u8) -> bool
    ensures { result ≡ is_space byte }
{
    matches!(byte, b' ' | b'\t' | b'\r')
}

// Where a byte first stands in a text, or the text's length.
pub fn place(text: &[u8], byte: u8) -> usize
    ensures { result ≡ place_of byte text.now }
{
    text.iter().position(|b| *b == byte).unwrap_or(text.len())
}

// The text up to the first such byte, or all of it.
pub fn up_to(text: &[u8], byte: u8) -> &[u8]
    ensures { result.now ≡ up_to byte text.now }
{
    let end = place(text, byte);
    &text[..end]
}

// A text's word by its number, from 0.
pub fn word(text: &[u8], n: usize) -> &[u8]
    ensures { result.now ≡ word_of text.now n }
{
    text.split(|b| is_space(*b))
        .filter(|w| !w.is_empty())
        .nth(n)
        .unwrap_or(&[])
}

// The number of the first of the names that is w, if one is.
pub fn lookup(w: &[u8], names: &[&[u8]]) -> Option<usize>
    ensures { result ≡ lookup_of w.now (texts names.now) }
{
    names.iter().position(|name| w == *name)
}

// The same where the names are the first so many words of a text; those that it does not have are empty.
pub fn lookup_in(w: &[u8], text: &[u8], total: usize) -> Option<usize>
    ensures { result ≡ lookup_of w.now (words_of text.now total) }
{
    (0..total).position(|i| w == word(text, i))
}
