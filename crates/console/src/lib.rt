// Standard input and output for the programs: a log read whole, an answer written whole, a sentence where either fails.
// Proved of any reader and writer whose bytes are known: what is read is their start, and where it is less than the buffer
// holds it is all of them; what is written is the whole answer. What the system hands over is its own affair.
#![tactic(auto)]

ghost use Rattle.std.specs.Prelude.{◌≡◌, ◌≢◌, ◌↔◌, ◌<◌, ◌≤◌, length, take, IfErr, IfOk, IsOk, IsTrue};
ghost use Rattle.std.specs.IoError.{error_kind};
ghost use Rattle.std.specs.Io.KnownBytes.{Appends, Consumes, IsAtEnd};

use std::fmt::Display;
use std::io::{ErrorKind, Read, Write};
use std::{io, str};

// One byte more than a log may have, so that a longer one shows. Fixed memory, so that how much is in it is told beside.
pub fn log_buffer() -> [u8; 65537]
    ensures { 65537 ≡ length result }
{
    [0u8; 65537]
}

// Reads until the buffer is full or the log ends, and says how many bytes then stand at its start. Half a log must not pass
// for a whole one: a read that fails is an error, but for one that a signal cut short, which is made again.
pub fn read_log<R: Read>(reader: &mut R, log: &mut [u8]) -> io::Result<usize>
    ensures within { IfOk result (λ n. n ≤ length log.new) }
    ensures bytes { IfOk result (λ n. Consumes (R.remaining reader.old) (R.remaining reader.new) (take n log.new)) }
    ensures end { IfOk result (λ n. n < length log.new → IsAtEnd (R.remaining reader.new)) }
    ensures retried { IfErr result (λ e. error_kind e ≢ ErrorKind.Interrupted) }
{
    let mut got = 0;
    for _ in 0..u64::MAX {
        if got >= log.len() {
            return Ok(got);
        }
        match reader.read(&mut log[got..]) {
            Ok(0) => return Ok(got),
            Ok(n) => got += n,
            Err(why) => {
                if why.kind() != ErrorKind::Interrupted {
                    return Err(why);
                }
            }
        }
    }
    Err(io::Error::from(ErrorKind::TimedOut))
}

// Writes a line to standard error: what failed, a colon and why, in the system's words and without its number for them.
fn fail(rt: &impl Eprint, words: &str, why: &io::Error) {
    let mut text = [0u8; 256];
    let mut room: &mut [u8] = &mut text;
    let _ = write!(room, "{why}");
    let said = str::from_utf8(&text).unwrap_or("").trim_end_matches('\0');
    let why = said
        .split_once(" (os error ")
        .map_or(said, |(name, _)| name);
    let _ = eprintln!(rt; "{words}: {why}");
}

// Whether the log was read; where it was not, the words say so on standard error, with why.
pub fn log_ended(rt: &impl Eprint, read: &io::Result<usize>, words: &str) -> bool
    ensures { IsTrue result ↔ IsOk read.now }
{
    match read {
        Ok(_) => true,
        Err(why) => {
            fail(rt, words, why);
            false
        }
    }
}

// Writes an answer, and says whether it was written, by a bool, since the system's error is told here and goes no further; where it was not, the words say so on standard error, with why.
pub fn write_answer<W: Write>(rt: &impl Eprint, to: &mut W, answer: &[u8], words: &str) -> bool
    ensures { IsTrue result → Appends (W.contents to.old) (W.contents to.new) answer.now }
{
    match to.write_all(answer) {
        Ok(()) => true,
        Err(why) => {
            fail(rt, words, &why);
            false
        }
    }
}

// Writes a line to standard error.
pub fn say(rt: &impl Eprint, words: impl Display + Drop) {
    let _ = rt.eprintln(words);
}
