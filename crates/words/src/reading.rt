// Reading a word from the front of a line.
ghost use Rattle.std.specs.Prelude.{◌≡◌, ◌==◌, take, drop, position};
ghost use Rattle.words.specs.Words.{span, digits_within, loose, number_of, word_of, said_word, said, read_word, unlent};

use crate::refusal::Fault;
use crate::spelling::is_name;

// A part of the text: a name is borrowed from it, numbers and registers are data. An enum can have no Model, so clauses
// say `said`.
#[derive(Clone, Copy, Debug)]
pub enum Word<'a> {
    Name(&'a [u8]),
    Number(i32),
    Value(u8),
    Handle(u8),
}

// Where the first separator stands.
fn first(text: &[u8], separator: u8) -> Option<usize>
    ensures { result ≡ position (λ b. b == separator) text.now }
{
    text.iter().position(|b| *b == separator)
}

// What stands before the first separator, and what is left from it on.
#[tactic(auto, using(crate::proofs::Spans::cuts))]
pub fn cut(text: &[u8], separator: u8) -> (&[u8], &[u8])
    ensures front { result.0.now ≡ take (span separator text.now) text.now }
    ensures back { result.1.now ≡ drop (span separator text.now) text.now }
{
    match first(text, separator) {
        Some(i) => text.split_at(i),
        None => (text, &[]),
    }
}

// Whether a plus, a zero before more or -0 stands first: no number begins so.
fn is_loose(bytes: &[u8]) -> bool
    ensures { result ≡ loose bytes.now }
{
    matches!(bytes, [b'+', ..] | [b'0', _, ..] | [b'-', b'0', ..])
}

// The number that digits write, if it is at most `limit`. Not std's `parse`, which takes twice as long.
fn digits_value(digits: &[u8], limit: u32) -> Option<u64>
    ensures { result ≡ digits_within limit digits.now }
{
    let most = u64::from(limit);
    digits.iter().try_fold(0, |n, b| {
        if !b.is_ascii_digit() {
            return None;
        }
        let m = 10 * n + u64::from(*b - b'0');
        (m <= most).then_some(m)
    })
}

// The number that the bytes write.
fn number(bytes: &[u8]) -> Option<i32>
    ensures { result ≡ number_of bytes.now }
{
    if is_loose(bytes) {
        return None;
    }
    match bytes {
        [] | [b'-'] => None,
        [b'-', digits @ ..] => Some(-(digits_value(digits, 2147483648)? as i64) as i32),
        _ => Some(digits_value(bytes, 2147483647)? as i32),
    }
}

// The word that the bytes are.
fn classify(bytes: &[u8], line: usize) -> Result<Word<'_>, Fault>
    ensures { said_word result ≡ word_of line bytes.now }
{
    match bytes {
        [b'v', d @ b'0'..=b'7'] => Ok(Word::Value(*d - b'0')),
        [b'h', d @ b'0'..=b'3'] => Ok(Word::Handle(*d - b'0')),
        _ if is_name(bytes) => Ok(Word::Name(bytes)),
        _ => {
            let n = number(bytes).ok_or(Fault::broken(line))?;
            Ok(Word::Number(n))
        }
    }
}

// The next word, and what is left of the line from the space after it on.
pub fn next_word(rest: &[u8], line: usize) -> Result<(Word<'_>, &[u8]), Fault>
    ensures { unlent said result ≡ read_word line rest.now }
{
    let (front, back) = cut(rest, b' ');
    Ok((classify(front, line)?, back))
}
