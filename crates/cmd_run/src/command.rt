//! The commands, and the words that ask for them.
//!
//! `--help` and `--version`, each as the only word, are words of the table: the input isn't read.
ghost use Rattle.std.specs.Prelude.{◌≡◌, ◌≤◌, IfSome, Some};
ghost use Rattle.cmd_run.specs.Words;

use cmd_generate::MOST_SIZE;
use cmd_schedule::read_number;

/// What the program can be asked for.
#[derive(Clone, Copy, Debug, PartialEq, Eq)]
pub enum Command {
    /// A text that says how the program is called.
    Help,
    /// The program's name and version.
    Version,
    /// The report of the schedule that is read.
    Replay,
    /// The items of the stream that is read.
    Check,
    /// What the server of a journal that is read puts out, done again.
    Rerun,
    /// The report of the file of intents that is read, and what became of its intents.
    Intents,
    /// The summary of the report of the schedule that a number makes, with so many drawn lines.
    Generate { number: u64, size: u32 },
    /// The journal of a server of the accounts that are read, which serves so many connections to a port.
    Serve { port: u16, connections: u32 },
    /// The log of a client that does the script that is read, over a connection to a port.
    Sync { port: u16 },
}

/// The number that a word spells, where it is one within these bounds.
fn spelled(least: u64, most: u64, word: &str) -> Option<u64>
    ensures number { result ≡ Words.spelled least most word.now }
    ensures within { IfSome result (λ n. n ≤ most) }
{
    read_number(least, most, word).ok()
}

/// The port that a word spells.
fn port_in(word: &str) -> Option<u16>
    ensures { result ≡ Words.port_in word.now }
{
    match spelled(1, 65_535, word) {
        Some(n) => u16::try_from(n).ok(),
        None => None,
    }
}

/// The command that one word asks for.
fn of_one(word: &str) -> Option<Command>
    ensures { result ≡ Words.of_one word.now }
{
    match word {
        "--help" => Some(Command::Help),
        "--version" => Some(Command::Version),
        "replay" => Some(Command::Replay),
        "check" => Some(Command::Check),
        "rerun" => Some(Command::Rerun),
        "intents" => Some(Command::Intents),
        _ => None,
    }
}

/// The command that `sync` and a word ask for.
fn syncing(port: &str) -> Option<Command>
    ensures { result ≡ Words.syncing (Words.port_in port.now) }
{
    let port = port_in(port)?;
    Some(Command::Sync { port })
}

/// The command that `serve` and two words ask for.
fn serving(port: &str, connections: &str) -> Option<Command>
    ensures { result ≡ Words.serving (Words.port_in port.now) (Words.connections_in connections.now) }
{
    let port = port_in(port)?;
    let connections = spelled(1, 1000, connections)?;
    Some(Command::Serve {
        port,
        connections: connections as u32,
    })
}

/// The command that `generate` and two words ask for.
fn generating(number: &str, size: &str) -> Option<Command>
    ensures asked { result ≡ Words.generating (Words.seed_in number.now) (Words.size_in size.now) }
    ensures askable { IfSome result Words.IsAskable }
{
    let number = spelled(0, u64::MAX, number)?;
    let size = spelled(0, u64::from(MOST_SIZE), size)?;
    Some(Command::Generate {
        number,
        size: size as u32,
    })
}

impl Command {
    /// The command that the words of a command line, without the program's name, ask for. `None` comes
    /// exactly where they are not in the table.
    pub fn of_words(words: &[String]) -> Option<Command>
        ensures asked { result ≡ Words.asked words.now }
        ensures askable { IfSome result Words.IsAskable }
    {
        match words {
            [word] => of_one(word.as_str()),
            [word, port] if word.as_str() == "sync" => syncing(port.as_str()),
            [word, port, connections] if word.as_str() == "serve" => {
                serving(port.as_str(), connections.as_str())
            }
            [word, number, size] if word.as_str() == "generate" => {
                generating(number.as_str(), size.as_str())
            }
            _ => None,
        }
    }

    /// Whether the command's input is read.
    pub fn reads(self) -> bool
        ensures { result ≡ Words.reads (Some self) }
    {
        match self {
            Command::Help | Command::Version | Command::Generate { .. } => false,
            Command::Replay
            | Command::Check
            | Command::Rerun
            | Command::Intents
            | Command::Serve { .. }
            | Command::Sync { .. } => true,
        }
    }
}
