// Words and lines: where they end, and whether two are the same.
#![tactic(auto)]

ghost use Rattle.std.specs.Prelude.{◌≡◌};
ghost use Rattle.search.specs.Words.{find_of, same_of};

// The first place from a place on that holds a byte: the length if none does, and the place itself if it is past the end.
pub fn find(s: &[u8], at: usize, byte: u8) -> usize
    ensures { result ≡ find_of s.now at byte }
{
    for i in at..s.len() {
        if s[i] == byte {
            return i;
        }
    }
    at.max(s.len())
}

// Where the word from a place on ends: at a blank.
pub fn word_end(s: &[u8], at: usize) -> usize
    ensures { result ≡ find_of s.now at 32 }
{
    find(s, at, b' ')
}

// Where the line from a place on ends: at a newline.
pub fn line_end(s: &[u8], at: usize) -> usize
    ensures { result ≡ find_of s.now at 10 }
{
    find(s, at, b'\n')
}

// Whether two texts are the same.
pub fn same(s: &[u8], word: &[u8]) -> bool
    ensures { result ≡ same_of s.now word.now }
{
    if s.len() != word.len() {
        return false;
    }
    for i in 0..s.len() {
        if s[i] != word[i] {
            return false;
        }
    }
    true
}
