// A line as data, over what stands for a name.

// A channel operand: the name of a value channel, or a handle register.
#[derive(Clone, Copy)]
pub enum Operand<N> {
    Named(N),
    Held(u8),
}

// A line of a script. Registers go by their number. One variant for each mark, as the table of formats has one row for each:
// so a send, a receive and the cases of both are variants of their own, and a variant has the fields of its mark only.
#[derive(Clone, Copy)]
pub enum Line<N> {
    Set(u8, i32),
    Add(u8, u8),
    Sub(u8, u8),
    Jump(u32),
    JumpNegative(u8, u32),
    Hold(u8, N),
    Clear(u8),
    Send(Operand<N>, u8),
    Receive(Operand<N>, u8, u8),
    SendHandle(N, u8),
    ReceiveHandle(N, u8, u8),
    Close(Operand<N>),
    Select(u32),
    CaseSend(Operand<N>, u8, u32),
    CaseReceive(Operand<N>, u8, u8, u32),
    CaseSendHandle(N, u8, u32),
    CaseReceiveHandle(N, u8, u8, u32),
    CaseDefault(u32),
    Start(N),
    Print(u8),
    ValueChannel(N, u32),
    HandleChannel(N, u32),
    Routine(N),
}

// What a channel carries.
#[derive(Clone, Copy, PartialEq, Eq)]
pub enum Kind {
    Value,
    Handle,
}

// What a line is to the script around it.
#[derive(Clone, Copy)]
pub enum Role<N> {
    // declares a channel of that kind, name and capacity
    Declares(Kind, N, u32),
    // opens the body of that name
    Opens(N),
    // asks for that many case lines
    Selects(u32),
    // any other line of a body
    Acts,
    // a case line, and the default among them
    Case,
    Default,
}
