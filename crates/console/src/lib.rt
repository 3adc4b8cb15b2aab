// A sheet from a reader, and what `maxt` prints for it on standard output.
#![tactic(auto)]

ghost use Rattle.std.specs.Prelude.{◌≡◌, ◌≤◌, ◌<◌, length, take, drop, MatchOption};
ghost use Rattle.std.specs.Io.KnownBytes.{Consumes, IsAtEnd};
ghost use Rattle.console.specs.Reading.{told_of, Within, Gives, GivesAll};

use std::io;
use std::io::{Cursor, Read};

// How many bytes stand at the start of a room, and why a read failed before the input or the room ended.
// No `Result`: a read that fails leaves what was read before it.
#[derive(Drop)]
struct Taken {
    count: usize,
    failed: Option<io::Error>,
}

const ROOM: usize = 60001;

// One byte more than a sheet may have: what comes after it changes no answer (lines, Enough.enough). The clause says how many bytes that is, since no
// other promise here holds the number.
fn no_input() -> [u8; ROOM]
    ensures { 60001 ≡ length result }
{
    [0; ROOM]
}

// What a read into the rest of the room came to, by what it answered.
fn told(answer: io::Result<usize>, rest: &[u8]) -> io::Result<usize>
    ensures value { result ≡ told_of answer (length rest.now) }
    ensures within { Within (length rest.now) 0 result }
{
    let n = answer?;
    Ok(n.min(rest.len()))
}

// One read into the room from a place on; no bytes at the end of the input.
fn read_some<R: Read>(from: &mut R, input: &mut [u8], at: usize) -> io::Result<usize>
    requires { at ≤ length input.old }
    ensures within { Within (length input.old) at result }
    ensures front { take at input.new ≡ take at input.old }
    ensures gives { Gives (R.remaining from.old) (R.remaining from.new) (drop at input.new) result }
{
    let rest = &mut input[at..];
    let answer = from.read(rest);
    told(answer, rest)
}

// Reads until the room is full, the input ends or a read fails.
fn take_in<R: Read>(from: &mut R, input: &mut [u8]) -> Taken
    ensures within { result.count ≤ length input.new }
    ensures bytes { Consumes (R.remaining from.old) (R.remaining from.new) (take result.count input.new) }
    ensures end { MatchOption result.failed (result.count < length input.new → IsAtEnd (R.remaining from.new)) (λ _. Unit {0}) }
{
    let room = input.len();
    let mut count: usize = 0;
    // no `for`: how far a read comes is known only after it
    while count < room {
        match read_some(from, input, count) {
            Ok(0) => break,
            Ok(n) => count += n,
            Err(error) => {
                return Taken {
                    count,
                    failed: Some(error),
                };
            }
        }
    }
    Taken {
        count,
        failed: None,
    }
}

// Reads until the input or the room for it ends; what was read stands at the start.
fn read_input<R: Read>(from: &mut R, input: &mut [u8]) -> io::Result<usize>
    ensures within { Within (length input.old) 0 result }
    ensures gives { GivesAll (R.remaining from.old) (R.remaining from.new) input.new result }
{
    let Taken { count, failed } = take_in(from, input);
    match failed {
        Some(error) => Err(error),
        None => Ok(count),
    }
}

// The same, where what was read before a read failed is taken as it is: how many bytes stand at the start of the room.
pub fn read_full<R: Read>(from: &mut R, input: &mut [u8]) -> usize
    ensures within { result ≤ length input.new }
    ensures bytes { Consumes (R.remaining from.old) (R.remaining from.new) (take result input.new) }
{
    take_in(from, input).count
}

// How many bytes of an error's text say what failed: behind them std puts the system's number for it, as in " (os error 21)".
fn words_of(text: &[u8]) -> usize
    ensures { result ≤ length text.now }
{
    for (i, byte) in text.iter().enumerate() {
        if *byte == b'(' {
            return i.saturating_sub(1);
        }
        if *byte == 0 {
            return i;
        }
    }
    text.len()
}

// Says on standard error what failed, as the caller names it, and why.
pub fn fail(rt: &HostRuntime, what: &[u8], error: io::Error) {
    let mut text = Cursor::new([0u8; 256]);
    let _ = io::Write::write_fmt(&mut text, format_args!("{error}"));
    let why = text.into_inner();
    let n = words_of(&why);
    let said = rt.stderr();
    let _ = said.write_all(what);
    let _ = said.write_all(b": ");
    let _ = said.write_all(&why[..n]);
    let _ = said.write_all(b"\n");
}

// Prints what `maxt` prints for a sheet, and says on standard error where that cannot be written.
fn print(rt: &HostRuntime, sheet: &[u8]) {
    let mut page = [0u8; 4096];
    let length = lines::print(sheet, &mut page);
    if let Err(error) = rt.write_all(&page[..length]) {
        fail(rt, b"standard output", error);
    }
}

// Reads a sheet and prints its answer. A read that fails is said on standard error, and there is no answer.
pub fn answer(rt: &HostRuntime, from: &mut impl Read, name: &[u8]) {
    let mut input = no_input();
    match read_input(from, &mut input) {
        Ok(n) => print(rt, &input[..n]),
        Err(error) => fail(rt, name, error),
    }
}
