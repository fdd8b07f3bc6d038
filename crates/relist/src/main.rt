// Reads a script on standard input, links it and prints its listing, or `NO n l` where it is refused.
#![tactic(auto)]

use linking::{Linked, Stop};
use loading::load;
use std::alloc::AllocError;
use std::io;
use std::io::{Read, Write};

// Standard input, as far as one byte past the longest script.
fn input(rt: &HostRuntime) -> io::Result<Vec<u8>> {
    let mut text = Vec::new(rt.alloc());
    rt.stdin().take(32769).read_to_end(&mut text)?;
    Ok(text)
}

fn print_listing(rt: &HostRuntime, script: &Linked, room: usize) -> io::Result<()> {
    let mut out = vec![in rt.alloc(); 0u8; room]?;
    match script.list(&mut out) {
        Ok(len) => rt.stdout().write_all(&out[0..len]),
        Err(refusal) => println!(rt; "{}", refusal.at(0)),
    }
}

fn main(rt: HostRuntime) -> io::Result<()> {
    let text = input(&rt)?;
    match load(&text, rt.alloc()) {
        Ok(script) => print_listing(&rt, &script, text.len()),
        Err(Stop::Faulty(fault)) => println!(rt; "{}", fault),
        Err(Stop::Memory) => Err(AllocError.into()),
    }
}
