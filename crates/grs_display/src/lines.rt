//! Lines of words. What a word is made of is not known here. Where memory is wanting, all but `put_number` may
//! leave a part of what they put.
ghost use Rattle.std.specs.Prelude.{◌≡◌, ◌++◌, ◌∷◌, [], map, OnOk, OnErr};
ghost use Rattle.std.specs.Fmt.{decimal};
ghost use Rattle.grs_display.specs.Lines.{spaced, line};

use grs_base::{List, NoMemory};
use itoa::Buffer;

/// Puts a number behind a text, in decimal digits. Where memory is wanting, the text is as it was.
pub fn put_number(n: u64, out: &mut List<u8>) -> Result<(), NoMemory>
    ensures ok { OnOk result (out.new ≡ out.old ++ decimal n) }
    ensures err { OnErr result (out.new ≡ out.old) }
{
    let mut digits = Buffer::new();
    out.append(digits.format(n).as_bytes())
}

/// Puts a blank and a number behind a text.
pub fn put_number_word(n: u64, out: &mut List<u8>) -> Result<(), NoMemory>
    ensures { OnOk result (out.new ≡ out.old ++ (32 ∷ decimal n)) }
{
    out.push(b' ')?;
    put_number(n, out)
}

/// Puts a blank and a word behind a text.
pub fn put_word(word: &[u8], out: &mut List<u8>) -> Result<(), NoMemory>
    ensures { OnOk result (out.new ≡ out.old ++ (32 ∷ word.now)) }
{
    out.push(b' ')?;
    out.append(word)
}

/// Puts words behind a text, each with a blank before it.
fn put_spaced(words: &[&[u8]], out: &mut List<u8>) -> Result<(), NoMemory>
    ensures { OnOk result (out.new ≡ out.old ++ spaced (map (λ w. w.now) words.now)) }
{
    for word in words {
        put_word(word, out)?;
    }
    Ok(())
}

/// Puts a line of words behind a text.
#[tactic(auto, unfolding(crate::specs::Lines::line))]
pub fn put_line(words: &[&[u8]], out: &mut List<u8>) -> Result<(), NoMemory>
    ensures { OnOk result (out.new ≡ out.old ++ line (map (λ w. w.now) words.now)) }
{
    if let Some((first, rest)) = words.split_first() {
        out.append(first)?;
        put_spaced(rest, out)?;
    }
    out.push(b'\n')
}

/// Puts a line of a word and a number behind a text.
#[tactic(auto, unfolding(crate::specs::Lines::line))]
pub fn put_count(word: &[u8], count: usize, out: &mut List<u8>) -> Result<(), NoMemory>
    ensures { OnOk result (out.new ≡ out.old ++ line (word.now ∷ decimal count ∷ [])) }
{
    out.append(word)?;
    put_number_word(count as u64, out)?;
    out.push(b'\n')
}
