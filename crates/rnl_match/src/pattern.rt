//! Patterns. A star stands first for nothing, and for one byte more each time that what follows it fails. What an
//! earlier star stands for isn't tried again, since the last star can stand for whatever that would change. So there
//! are at most as many steps as the pattern's length and one times the text's length and one, however many stars the
//! pattern has.
ghost use Rattle.std.specs.Prelude.{◌≡◌, ◌==◌, ◌||◌, []};
ghost use Rattle.rnl_match.specs.Matches.{matches_pattern, some_rest};

/// Whether a pattern's byte that is no star stands for a byte of a text.
fn stands_for(pattern: u8, byte: u8) -> bool
    ensures { result ≡ (pattern == 63 || pattern == byte) }
{
    pattern == b'?' || pattern == byte
}

/// Whether a pattern matches nothing: whether all its bytes are stars.
fn matches_nothing(pattern: &[u8]) -> bool
    ensures { result ≡ matches_pattern pattern.now [] }
{
    for byte in pattern {
        if *byte != b'*' {
            return false;
        }
    }
    true
}

/// Whether a pattern behind a star matches some rest of a text. Behind the last star that was passed, at `star` of the
/// pattern, it was tried on the text from `from` on, up to `reached` of the pattern and `place` of the text. It stays out
/// of line, so that a pattern which fails before its first star costs little.
#[inline(never)]
fn matches_some_rest(pattern: &[u8], text: &[u8]) -> bool
    ensures { result ≡ some_rest (matches_pattern pattern.now) text.now }
{
    let mut star = 0;
    let mut from = 0;
    let mut reached = 0;
    let mut place = 0;
    'bytes: while place < text.len() {
        if reached < pattern.len() && pattern[reached] == b'*' {
            reached += 1;
            star = reached;
            from = place;
        } else if reached < pattern.len() && stands_for(pattern[reached], text[place]) {
            reached += 1;
            place += 1;
        } else {
            from += 1;
            reached = star;
            place = from;
        }
    }
    matches_nothing(&pattern[reached..])
}

/// Whether a pattern matches a text: `*` stands for any bytes or none, `?` for any byte, and every other byte for
/// itself.
pub fn matches_pattern(pattern: &[u8], text: &[u8]) -> bool
    ensures { result ≡ matches_pattern pattern.now text.now }
{
    for (place, byte) in pattern.iter().enumerate() {
        if *byte == b'*' {
            return matches_some_rest(&pattern[place + 1..], &text[place..]);
        }
        if place >= text.len() || !stands_for(*byte, text[place]) {
            return false;
        }
    }
    pattern.len() == text.len()
}
