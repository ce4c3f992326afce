//! One connection.
ghost use Rattle.std.specs.Prelude.{◌≡◌, OnOk};
ghost use Rattle.cmd_network.specs.Wires;
ghost use Rattle.cmd_network.specs.Wires.{cut_at, first_end, fresh_wire, left, put_down, put_up, shut};

use base_io::NoMemory;
use cmd_report::ConnEnd;
use cmd_schedule::Count;
use net_pipes::Pipe;
use std::alloc::Global;

/// A connection: the place of the device that dialed it, its pipes to the server and to the device, and what ended it first.
/// Once something ended it, both pipes have their end marks.
#[derive(Drop)]
pub struct Wire {
    pub device: usize,
    pub up: Pipe,
    pub down: Pipe,
    pub end: ConnEnd,
}

// What ended a connection first.
fn first_end(earlier: ConnEnd, later: ConnEnd) -> ConnEnd
    ensures { result ≡ first_end earlier later }
{
    match earlier {
        ConnEnd::Open => later,
        _ => earlier,
    }
}

/// How many bytes of a pipe a line moves.
pub fn amount(count: Count, pipe: &Pipe) -> usize
    ensures { result ≡ Wires.amount count pipe.now }
{
    match count {
        Count::Number(n) => (n as usize).min(pipe.len()),
        Count::All => pipe.len(),
    }
}

impl Wire {
    /// A new connection of a device. It takes no memory.
    pub fn new(alloc: Global, device: usize) -> Wire
        ensures { result ≡ fresh_wire device }
    {
        Wire {
            device,
            up: Pipe::new(alloc),
            down: Pipe::new(alloc),
            end: ConnEnd::Open,
        }
    }

    /// The network cuts it: the first `up` bytes on their way to the server stay, and the first `down` bytes on their way to
    /// the device. Nothing enters any more. It takes no memory.
    pub fn cut(&mut self, up: usize, down: usize)
        ensures { self.new ≡ cut_at up down self.old }
    {
        self.up.cut(up);
        self.down.cut(down);
        self.end = first_end(self.end, ConnEnd::Cut);
    }

    /// The device leaves it: what is on its way to the server stays, what is on its way to the device is lost, and nothing
    /// enters any more. It takes no memory.
    pub fn leave(&mut self)
        ensures { self.new ≡ left self.old }
    {
        self.up.close();
        self.down.empty();
        self.end = first_end(self.end, ConnEnd::Left);
    }

    /// The server shuts it: what is on its way to the device stays, what is on its way to the server is lost, and nothing
    /// enters any more. It takes no memory.
    pub fn shut(&mut self)
        ensures { self.new ≡ shut self.old }
    {
        self.up.empty();
        self.down.close();
        self.end = first_end(self.end, ConnEnd::Shut);
    }

    /// Bytes of the device enter the pipe to the server, where it hasn't ended.
    pub fn put_up(&mut self, bytes: &[u8]) -> Result<(), NoMemory>
        ensures { OnOk result (self.new ≡ put_up bytes.now self.old) }
    {
        self.up.enter(bytes)
    }

    /// Bytes of the server enter the pipe to the device, where it hasn't ended.
    pub fn put_down(&mut self, bytes: &[u8]) -> Result<(), NoMemory>
        ensures { OnOk result (self.new ≡ put_down bytes.now self.old) }
    {
        self.down.enter(bytes)
    }
}
