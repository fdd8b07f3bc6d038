// Standard input taken apart: a script, then a line `ZZ`, then calls, one a line.
ghost use Rattle.std.specs.Prelude.{◌≡◌, ◌≤◌, length, slice_index, vec_items};
ghost use Rattle.words.specs.Words.{said, unlent};
ghost use Rattle.lines.specs.Lines.{as_natural, ended};
ghost use Rattle.script.specs.Texts.{pieces};
ghost use Rattle.linking.specs.Stages.{Makes};
ghost use Rattle.panel.specs.Forms.{is_mark, script_len, script_part, calls_part, natural, whole, read_cells, read_element, with_mark, read_call, read_ended, read_calls};

use calls::{Call, Cells};
use elements::{Element, Handle, Value};
use linking::Stop;
use std::alloc::Global;
use words::{Fault, Word, cut, next_word};

// The line between the script and the calls.
const MARK: &[u8] = b"ZZ\n";

// The script, and the calls behind the first line `ZZ`. Without that line all is the script.
pub(crate) fn parted(input: &[u8]) -> (&[u8], &[u8])
    ensures script { result.0.now ≡ script_part input.now }
    ensures calls { result.1.now ≡ calls_part input.now }
{
    let (script, rest) = input.split_at(script_len(input));
    (script, rest.get(MARK.len()..).unwrap_or(&[]))
}

// How many bytes stand before the first line `ZZ`.
fn script_len(input: &[u8]) -> usize
    ensures value { result ≡ script_len (pieces input.now) }
    ensures within { result ≤ length input.now }
{
    let mut len = 0;
    for line in input.split_inclusive(|b| *b == b'\n') {
        if line == MARK {
            return len;
        }
        len += line.len();
    }
    len
}

// The number that the word is, if it is one without a minus.
fn number_of(word: Word<'_>) -> Option<usize>
    ensures { result ≡ as_natural (said word.entry) }
{
    match word {
        Word::Number(n) => usize::try_from(n).ok(),
        _ => None,
    }
}

// A space and a number without a minus, and what is left of the line.
#[tactic(auto, using(std::proofs::lemmas::List::take_rest), unfolding(lines::specs::Lines::read_field))]
fn natural(rest: &[u8], line: usize) -> Result<(usize, &[u8]), Fault>
    ensures { unlent (λ n. n) result ≡ natural line rest.now }
{
    let [b' ', rest @ ..] = rest else {
        return Err(Fault::broken(line));
    };
    let (word, rest) = next_word(rest, line)?;
    let number = number_of(word).ok_or(Fault::broken(line))?;
    Ok((number, rest))
}

// The end of the line.
fn end(rest: &[u8], line: usize) -> Result<(), Fault>
    ensures { result ≡ ended line tt rest.now }
{
    match rest {
        [] => Ok(()),
        _ => Err(Fault::broken(line)),
    }
}

// One number and the end of the line.
fn only_natural(rest: &[u8], line: usize) -> Result<usize, Fault>
    ensures { result ≡ whole natural (λ n. n) line rest.now }
{
    let (number, rest) = natural(rest, line)?;
    end(rest, line)?;
    Ok(number)
}

// How many cells of each kind are handed over, at the end of the line: all, where nothing is said of them.
fn cells(rest: &[u8], line: usize) -> Result<Cells, Fault>
    ensures { result ≡ read_cells line rest.now }
{
    if rest.is_empty() {
        return Ok(Cells {
            values: Value::CELLS,
            handles: Handle::CELLS,
        });
    }
    let (values, rest) = natural(rest, line)?;
    let (handles, rest) = natural(rest, line)?;
    end(rest, line)?;
    Ok(Cells { values, handles })
}

// A channel, a place in its buffer, and the cells.
fn element(rest: &[u8], line: usize) -> Result<Call, Fault>
    ensures { result ≡ read_element line rest.now }
{
    let (channel, rest) = natural(rest, line)?;
    let (place, rest) = natural(rest, line)?;
    let cells = cells(rest, line)?;
    Ok(Call::Element(channel, place, cells))
}

// The call with that mark, and what is behind it in the line.
fn with_mark(mark: &[u8; 2], rest: &[u8], line: usize) -> Result<Call, Fault>
    ensures { result ≡ with_mark line (slice_index mark.now 0) (slice_index mark.now 1) rest.now }
{
    match mark {
        b"ST" => cells(rest, line).map(Call::Step),
        b"RO" => only_natural(rest, line).map(Call::Routine),
        b"CH" => only_natural(rest, line).map(Call::Channel),
        b"EL" => element(rest, line),
        _ => Err(Fault::broken(line)),
    }
}

// The call that a line without its end is.
fn call_of(bytes: &[u8], line: usize) -> Result<Call, Fault>
    ensures { result ≡ read_call line bytes.now }
{
    match bytes.split_first_chunk() {
        Some((mark, rest)) => with_mark(mark, rest, line),
        None => Err(Fault::broken(line)),
    }
}

// The call that a line with its end is, if it has one.
fn ended_call(bytes: &[u8], line: usize) -> Result<Call, Fault>
    ensures { result ≡ read_ended line bytes.now }
{
    match cut(bytes, b'\n') {
        (call, [_]) => call_of(call, line),
        _ => Err(Fault::broken(line)),
    }
}

// The calls that the lines are, or the fault of the first that is none.
pub(crate) fn calls_of(text: &[u8], heap: Global) -> Result<Vec<Call>, Stop>
    ensures { Makes vec_items (read_calls 1 (pieces text.now)) result }
{
    let mut calls = Vec::new(heap);
    for (place, bytes) in text.split_inclusive(|b| *b == b'\n').enumerate() {
        calls.push(ended_call(bytes, place + 1)?)?;
    }
    Ok(calls)
}
