// The words of a line: its parts between blanks.
ghost use Rattle.std.specs.Prelude.{◌≡◌, [], ◌≤◌, length, get_or};
ghost use Rattle.drill_words.specs.Parts.{words};

// The word of number k, counted from 0; past the last one an empty word.
pub fn word(line: &[u8], k: usize) -> &[u8]
    ensures { (result.now ≡ get_or (words line.now) k []) × (length result.now ≤ length line.now) }
{
    line.split(|b| *b == b' ').nth(k).unwrap_or(&[])
}

// How many words a line has: one more than its blanks.
pub fn word_count(line: &[u8]) -> usize
    ensures { result ≡ length (words line.now) }
{
    line.split(|b| *b == b' ').count()
}
