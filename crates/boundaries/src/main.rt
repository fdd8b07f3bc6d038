// Reads and links many texts, one after another, and prints what comes of each: the boundaries of every rule.
// Standard input has for each a line `title length` and then that many bytes.
// A refused text prints `title: NO n l`, and one that is listed back byte for byte `title: same`.
#![tactic(auto)]

ghost use Rattle.std.specs.Prelude.{◌<◌, length, IfSome};

use linking::Stop;
use loading::load;
use std::alloc::AllocError;
use std::io;
use std::io::{Read, Write};
use words::{Word, cut, next_word};

// The number after the title, and the bytes after the line.
fn length_of(title: &[u8]) -> Option<usize> {
    let [b' ', digits @ ..] = title else {
        return None;
    };
    match next_word(digits, 0) {
        Ok((Word::Number(n), _)) => usize::try_from(n).ok(),
        _ => None,
    }
}

// The text that follows a line `title length`, and what is left after it.
fn text_of(input: &[u8]) -> Option<(&[u8], &[u8])>
    ensures { IfSome result (λ p. length p.1.now < length input.now) }
{
    let (header, back) = cut(input, b'\n');
    let (_, length) = cut(header, b' ');
    let len = length_of(length)?;
    let (_, body) = back.split_first()?;
    body.split_at_checked(len)
}

// What comes of one text.
fn print_outcome(rt: &HostRuntime, text: &[u8]) -> io::Result<()> {
    let script = match load(text, rt.alloc()) {
        Ok(script) => script,
        Err(Stop::Faulty(fault)) => return println!(rt; ": {}", fault),
        Err(Stop::Memory) => return Err(AllocError.into()),
    };
    let mut out = vec![in rt.alloc(); 0u8; text.len()]?;
    match script.list(&mut out) {
        Ok(len) if &out[0..len] == text => println!(rt; ": same"),
        _ => println!(rt; ": differs"),
    }
}

fn main(rt: HostRuntime) -> io::Result<()> {
    let mut input = Vec::new(rt.alloc());
    rt.stdin().read_to_end(&mut input)?;
    let mut rest = input.as_slice();
    while let Some((text, more)) = text_of(rest) {
        let (title, _) = cut(rest, b' ');
        rt.stdout().write_all(title)?;
        print_outcome(&rt, text)?;
        rest = more;
    }
    Ok(())
}
