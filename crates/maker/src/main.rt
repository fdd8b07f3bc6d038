// A maker's first hour: a third element kind, pairs of bytes, on a channel of two cells.
#![tactic(auto)]

mod pair;

use anyhow::Context;
use channels::{Channel, ReceiveError, Received, SendError, Sent};
use pair::Pair;
use waiting::{Waiting, Wish};

// A channel of pairs with its cells, and who waits at it.
#[derive(Drop)]
struct Desk {
    channel: Channel,
    waiting: Waiting<Pair>,
    cells: Vec<Pair>,
}

fn print_sent(
    rt: &HostRuntime,
    pair: Pair,
    sent: Result<Sent<Pair>, SendError>,
) -> anyhow::Result<()> {
    match sent {
        Ok(Sent::Handed(to)) => println!(rt; "send {pair}: handed to routine {}", to.routine)?,
        Ok(Sent::Buffered) => println!(rt; "send {pair}: buffered")?,
        Err(why) => println!(rt; "send {pair}: {why}")?,
    }
    Ok(())
}

fn print_received(
    rt: &HostRuntime,
    received: Result<Received<Pair, Pair>, ReceiveError>,
) -> anyhow::Result<()> {
    match received {
        Ok(Received::Taken(pair, None)) => println!(rt; "receive {pair}")?,
        Ok(Received::Taken(pair, Some(from))) => {
            println!(rt; "receive {pair}, and routine {} goes on", from.routine)?
        }
        Ok(Received::Handed(pair, from)) => {
            println!(rt; "receive {pair} of routine {}", from.routine)?
        }
        Ok(Received::Drained) => println!(rt; "receive: closed and empty")?,
        Err(why) => println!(rt; "receive: {why}")?,
    }
    Ok(())
}

impl Desk {
    fn send(&mut self, rt: &HostRuntime, high: u8, low: u8) -> anyhow::Result<()> {
        let pair = Pair { high, low };
        let sent = self.channel.send(&mut self.waiting, &mut self.cells, pair);
        print_sent(rt, pair, sent)
    }

    fn receive(&mut self, rt: &HostRuntime) -> anyhow::Result<()> {
        let received = self.channel.receive(&mut self.waiting, &mut self.cells);
        print_received(rt, received)
    }

    fn wait(&mut self, rt: &HostRuntime, routine: u8, wish: Wish<Pair>) -> anyhow::Result<()> {
        let joined = self.waiting.join(routine, &[Some(wish)]);
        println!(rt; "routine {routine} waits: {joined}")?;
        Ok(())
    }

    fn close(&mut self, rt: &HostRuntime) -> anyhow::Result<()> {
        let mut freed = Vec::with_capacity(rt.alloc(), 64)?;
        match self.channel.close(&mut self.waiting, &mut freed) {
            Ok(count) => println!(rt; "close: {count} released")?,
            Err(why) => println!(rt; "close: {why}")?,
        }
        Ok(())
    }

    // Fills the buffer, lets a sender wait, and takes everything out again.
    fn fill_and_drain(&mut self, rt: &HostRuntime) -> anyhow::Result<()> {
        self.send(rt, 1, 2)?;
        self.send(rt, 3, 4)?;
        self.send(rt, 5, 6)?;
        self.wait(rt, 7, Wish::Send(0, Pair { high: 5, low: 6 }))?;
        self.receive(rt)?;
        self.receive(rt)?;
        self.receive(rt)?;
        self.receive(rt)
    }

    // Hands an element over, and closes.
    fn hand_and_close(&mut self, rt: &HostRuntime) -> anyhow::Result<()> {
        self.wait(rt, 9, Wish::Receive(0))?;
        self.wait(rt, 10, Wish::Receive(0))?;
        self.send(rt, 8, 9)?;
        self.close(rt)?;
        self.receive(rt)?;
        self.send(rt, 1, 1)?;
        self.close(rt)
    }
}

fn main(rt: HostRuntime) -> anyhow::Result<()> {
    let cells = vec![in rt.alloc(); Pair { high: 0, low: 0 }; 16]?;
    let waiting = Waiting::new(rt.alloc())?;
    let channel = Channel::new(0, 4, 2).context("no such channel")?;
    let mut desk = Desk {
        channel,
        waiting,
        cells,
    };
    desk.fill_and_drain(&rt)?;
    desk.hand_and_close(&rt)
}
