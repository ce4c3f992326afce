//! The texts that the program writes besides reports and items.
//!
//! At status 2 `main` prints a line of usage on standard error; `run` writes the line `words` alone. Arguments that
//! aren't UTF-8 count as no words. Words are read without memory.
//!
//! A bad line has one text, in `cmd_run`, where it is proved.
ghost use Rattle.std.specs.Prelude.{◌≡◌, IfOk};
ghost use Rattle.cmd_run.specs.Texts.{why_name, bad_line, peer_line};

use base_io::{Bytes, NoMemory};
use cmd_schedule::LineWhy;
use cmd_sync::PeerFailure;
use std::alloc::Global;

/// What is written where the words are not in the table.
pub const WORDS_LINE: &str = "words\n";

/// What is written where a read failed.
pub const READ_FAULT_LINE: &str = "read fault\n";

/// What is written where the source gave more than `MOST_BYTES_READ` bytes.
pub const TOO_LONG_LINE: &str = "too long\n";

/// What is written where the door, a link or the dialer failed.
pub const LINK_FAULT_LINE: &str = "link fault\n";

/// What is written where a thread could not be started.
pub const NO_WORKER_LINE: &str = "no worker\n";

/// What is written where no random bytes were drawn.
pub const ENTROPY_FAULT_LINE: &str = "entropy fault\n";

/// The program's name and version.
pub const VERSION: &str = "xmpp 1\n";

/// How the program is called, in one line.
pub const USAGE: &str =
    "usage: xmpp --help | --version | replay | check | rerun | intents | generate NUMBER SIZE | serve PORT N | sync PORT";

/// How the program is called, and what it answers.
pub const HELP: &str = "\
xmpp --help     writes this text
xmpp --version  writes the name and the version
xmpp replay     reads a schedule from standard input and writes its report
xmpp check      reads one direction of a stream from standard input and writes its items
xmpp rerun      reads accounts and a server's journal from standard input, does again what the server did, and writes it
xmpp intents    reads a schedule in which some messages are intents from standard input, and writes its report and what
                became of each intent
xmpp generate NUMBER SIZE
                makes a schedule of NUMBER (0 to 18446744073709551615) with SIZE drawn lines (0 to 10000), runs it, and
                writes the summary of its report
xmpp serve PORT N
                reads accounts from standard input, serves N connections (1 to 1000) to a port of this machine, at the
                same time, and writes the journal and the archives
xmpp sync PORT  reads a script from standard input, does it as a client of a server at a port of this machine, and writes
                the pages, the log and the messages held
The exit status is
 0  where it was done
 2  where the words are none of these
 3  where the input is none that the command reads, or the stream has a fault or ends in an item; what is wrong is written
 4  where a read failed
 5  where a write failed
 6  where memory ran out; nothing is written
 7  where connections can't be made or taken, or the one of sync failed or ended before the script was done
 8  where the server of sync did what it must not; what is written
 9  where a thread could not be started
10  where the system gave no random bytes
11  where the input has more than 67108864 bytes
";

fn reason_name(why: LineWhy) -> &'static str
    ensures { result.now ≡ why_name why }
{
    match why {
        LineWhy::Header => "Header",
        LineWhy::Ending => "Ending",
        LineWhy::Many => "Many",
        LineWhy::Word => "Word",
        LineWhy::Shape => "Shape",
        LineWhy::Name => "Name",
        LineWhy::Twice => "Twice",
        LineWhy::Unknown => "Unknown",
        LineWhy::Number => "Number",
        LineWhy::Text => "Text",
    }
}

/// The line of a refusal: the number of the first bad line, from 1, and its reason.
pub fn refusal(alloc: Global, line: u64, why: LineWhy) -> Result<Bytes, NoMemory>
    ensures { IfOk result (λ text. text.items ≡ bad_line line why) }
{
    let mut text = Bytes::from_slice(alloc, b"line ")?;
    text.append(line.to_string(alloc)?.as_bytes())?;
    text.append(b" ")?;
    text.append(reason_name(why).as_bytes())?;
    text.append(b"\n")?;
    Ok(text)
}

/// The line of what a server has to answer for.
pub fn peer_line(alloc: Global, failure: PeerFailure) -> Result<Bytes, NoMemory>
    ensures { IfOk result (λ text. text.items ≡ peer_line failure) }
{
    let mut text = Bytes::from_slice(alloc, b"peer ")?;
    text.append(failure.name().as_bytes())?;
    text.append(b"\n")?;
    Ok(text)
}
