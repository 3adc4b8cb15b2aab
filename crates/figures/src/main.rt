// Prints the name of each sheet that it is given, what `maxt` prints for it, and how many constructs are valued for it.
#![tactic(auto)]

use std::env::FillError;
use std::fs::File;
use std::rt::Env;
use std::{io, str};

// The system's numbers for a name that is too long, and for one that is no text.
const NAME_TOO_LONG: i32 = 36;

const NO_TEXT: i32 = 84;

// A file is opened by its name as text alone.
fn open(rt: &HostRuntime, name: &[u8]) -> io::Result<File> {
    match str::from_utf8(name) {
        Ok(path) => File::open(rt, path),
        Err(_) => Err(io::Error::from_raw_os_error(NO_TEXT)),
    }
}

// Of what cannot be read no bytes are counted.
fn count(rt: &HostRuntime, name: &[u8]) {
    let mut sheet = [0u8; 65536];
    let n = match open(rt, name) {
        Ok(mut from) => console::read_full(&mut from, &mut sheet),
        Err(_) => 0,
    };
    let mut table = [0; 64];
    let filled = calculator::fill(&sheet[..n], &mut table);
    let _ = println!(rt; "constructs {}", filled.constructs);
}

fn print(rt: &HostRuntime, mut from: File, name: &[u8]) {
    let _ = rt.write_all(b"sheet ");
    let _ = rt.write_all(name);
    let _ = rt.write_all(b"\n");
    console::answer(rt, &mut from, name);
}

fn figure(rt: &HostRuntime, name: &[u8]) {
    match open(rt, name) {
        Ok(from) => {
            print(rt, from, name);
            count(rt, name);
        }
        Err(error) => console::fail(rt, name, error),
    }
}

fn main(rt: HostRuntime) {
    let mut name = [0u8; 4096];
    for number in 1..usize::MAX {
        match rt.arg(number, &mut name) {
            Ok(n) => figure(&rt, &name[..n]),
            Err(FillError::TooLong) => {
                let error = io::Error::from_raw_os_error(NAME_TOO_LONG);
                console::fail(&rt, &name, error);
            }
            Err(FillError::NotPresent) => return,
        }
    }
}
