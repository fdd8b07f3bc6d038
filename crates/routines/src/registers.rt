// Reading and writing the registers of a routine.
ghost use Rattle.std.specs.Prelude.{◌≡◌, slice_set};
ghost use Rattle.routines.specs.Registers.{value_at, handle_at, with_value, with_handle, flag as flag_of, landed};

use crate::routine::{Passed, Routine};
use elements::{Element, Handle, Value};
use linking::Exchange;

// The flag of a receive: 1 if an element came, else 0.
fn flag(came: bool) -> Value
    ensures { result ≡ flag_of came }
{
    Value {
        number: i32::from(came),
    }
}

// Writes one of these registers, if it is there. Not by `get_mut`: once its borrow is over, no proof knows the elements.
#[tactic(auto, using(std::proofs::lemmas::List::set_past))]
fn put<T: Copy>(registers: &mut [T], register: u8, x: T)
    ensures { registers.new ≡ slice_set registers.old register x }
{
    let at = usize::from(register);
    if at < registers.len() {
        registers[at] = x;
    }
}

impl Routine {
    // What is in a value register: in one that is not there, 0.
    pub fn value(&self, register: u8) -> Value
        ensures { result ≡ value_at self.now register }
    {
        self.values
            .get(usize::from(register))
            .copied()
            .unwrap_or(Value::zero())
    }

    // What is in a handle register: in one that is not there, nil.
    pub fn handle(&self, register: u8) -> Handle
        ensures { result ≡ handle_at self.now register }
    {
        self.handles
            .get(usize::from(register))
            .copied()
            .unwrap_or(Handle::nil())
    }

    // Writes a value register; one that is not there is not written.
    pub fn set_value(&mut self, register: u8, value: Value)
        ensures { self.new ≡ with_value register value self.old }
    {
        put(&mut self.values, register, value);
    }

    // Writes a handle register; one that is not there is not written.
    pub fn set_handle(&mut self, register: u8, handle: Handle)
        ensures { self.new ≡ with_handle register handle self.old }
    {
        put(&mut self.handles, register, handle);
    }
}

impl Routine {
    // Writes a received value, and then the flag.
    fn land_value(&mut self, register: u8, value: Value, came: u8, flag: Value)
        ensures { self.new ≡ with_value came flag (with_value register value self.old) }
    {
        self.set_value(register, value);
        self.set_value(came, flag);
    }

    // Writes a received handle, and then the flag.
    fn land_handle(&mut self, register: u8, handle: Handle, came: u8, flag: Value)
        ensures { self.new ≡ with_value came flag (with_handle register handle self.old) }
    {
        self.set_handle(register, handle);
        self.set_value(came, flag);
    }

    // Writes what came by an exchange that was passed in that way: the element, and then the flag. A send writes nothing.
    pub fn land(&mut self, exchange: Exchange<usize>, passed: Passed)
        ensures { self.new ≡ landed exchange passed self.old }
    {
        match (exchange, passed) {
            (Exchange::Receive(_, v, w), Passed::Received(_, item)) => {
                self.land_value(v, item.value(), w, flag(true));
            }
            (Exchange::Receive(_, v, w), Passed::Drained(_)) => {
                self.land_value(v, Value::zero(), w, flag(false));
            }
            (Exchange::ReceiveHandle(_, h, w), Passed::Received(_, item)) => {
                self.land_handle(h, item.handle(), w, flag(true));
            }
            (Exchange::ReceiveHandle(_, h, w), Passed::Drained(_)) => {
                self.land_handle(h, Handle::nil(), w, flag(false));
            }
            _ => {}
        }
    }
}
