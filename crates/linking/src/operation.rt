// A body line with every name replaced by its number.
use lines::Operand;

// A send or a receive, over what stands for a channel. Registers go by their number.
#[derive(Clone, Copy)]
pub enum Exchange<N> {
    Send(Operand<N>, u8),
    Receive(Operand<N>, u8, u8),
    SendHandle(N, u8),
    ReceiveHandle(N, u8, u8),
}

// Channels and bodies go by their number, targets by the line of the body, counted from 0.
#[derive(Clone, Copy)]
pub enum Operation {
    Set(u8, i32),
    Add(u8, u8),
    Sub(u8, u8),
    Jump(u32),
    JumpNegative(u8, u32),
    Hold(u8, usize),
    Clear(u8),
    // on a line of its own: a select of one case
    Alone(Exchange<usize>),
    // over so many case lines below it
    Select(u32),
    // a case, and the line that it goes on to
    Case(Exchange<usize>, u32),
    Default(u32),
    Close(Operand<usize>),
    Start(usize),
    Print(u8),
}
