// What the library's entries come to for a sheet of three routines, and for 20 bytes that are refused: the answers to tables of
// 63 and 65 places, how many constructs are valued, how many of their places are as they were, and the places and the length of the records of
// routines inside and outside.
// Then the margins, for routines that are late, just fit and are early, and each refusal with deadlines.
#![tactic(auto)]

use calculator::Places;
use reader::Answer;
use std::cmp::Ordering;

// What stands in a place before the call; no bound and no margin is as large.
const BEFORE: u64 = u64::MAX;

const NO_MARGIN: i64 = i64::MAX;
// The first deadline that is out of range.
const OUT: u64 = 1 << 40;

fn unchanged(table: &[u64]) -> usize {
    table.iter().filter(|place| **place == BEFORE).count()
}

fn say_answer(rt: &impl Print, answer: Answer) {
    let _ = match answer {
        Answer::Accepted(bound) => print!(rt; " accepted {bound}"),
        Answer::Refused(fault, place) => print!(rt; " refused {} at {place}", u64::from(fault)),
    };
}

fn lend(rt: &impl Print, sheet: &[u8], table: &mut [u64]) {
    let _ = print!(rt; "room {}", table.len());
    say_answer(rt, calculator::maxt(sheet, table));
    let constructs = calculator::fill(sheet, table).constructs;
    let same = unchanged(table);
    let _ = println!(rt; " constructs {constructs} unchanged {same}");
}

fn part(rt: &impl Print, sheet: &[u8], number: u64) {
    let Places { start, end } = calculator::routine_places(sheet, number);
    let length = calculator::routine_records(sheet, number).len();
    let _ = println!(rt; "part {number} from {start} to {end} length {length}");
}

fn entries(rt: &impl Print, sheet: &[u8]) {
    let mut short = [BEFORE; 63];
    lend(rt, sheet, &mut short);
    let mut long = [BEFORE; 65];
    lend(rt, sheet, &mut long);
    for number in [0, 1, 2, 3, 4, u64::MAX] {
        part(rt, sheet, number);
    }
}

fn say_margin(rt: &impl Print, margin: i64) {
    let kept = match margin.cmp(&0) {
        Ordering::Less => "late",
        Ordering::Equal => "just fits",
        Ordering::Greater => "early",
    };
    let _ = println!(rt; " margin {margin} {kept}");
}

fn is_as_before(bound: u64, margin: i64) -> bool {
    bound == BEFORE && margin == NO_MARGIN
}

// What is in the places of each routine, and how many places are as before in both lists.
fn rows(rt: &impl Print, table: &[u64], margins: &[i64]) {
    for (i, (bound, margin)) in table.iter().zip(margins).enumerate() {
        if !is_as_before(*bound, *margin) {
            let _ = print!(rt; " routine {} bound {bound}", i + 1);
            say_margin(rt, *margin);
        }
    }
    let same = table
        .iter()
        .zip(margins)
        .filter(|(bound, margin)| is_as_before(**bound, **margin))
        .count();
    let _ = println!(rt; " unchanged {same}");
}

fn plan(rt: &impl Print, sheet: &[u8], table: &mut [u64], deadlines: &[u64], margins: &mut [i64]) {
    let _ = print!(rt;
        "room {} deadlines {} margins {}",
        table.len(),
        deadlines.len(),
        margins.len()
    );
    say_answer(rt, margins::margins(sheet, table, deadlines, margins));
    let _ = println!(rt);
    rows(rt, table, margins);
}

// With lists of 64 and deadlines of 0 but for the first four.
fn held_to(rt: &impl Print, sheet: &[u8], first: [u64; 4]) {
    let mut deadlines = [0; 64];
    deadlines[..4].copy_from_slice(&first);
    let mut table = [BEFORE; 64];
    let mut margins = [NO_MARGIN; 64];
    plan(rt, sheet, &mut table, &deadlines, &mut margins);
}

fn first(bytes: &[u8], n: usize) -> &[u8] {
    bytes.get(..n).unwrap_or(bytes)
}

// With one byte changed, and a deadline out of range, which is refused after all that is wrong in the sheet.
fn damaged(rt: &impl Print, input: &mut [u8; 65536], n: usize, at: u16, byte: u8) {
    let at = usize::from(at);
    let before = input[at];
    input[at] = byte;
    held_to(rt, first(input, n), [OUT, 0, 0, 0]);
    input[at] = before;
}

fn deadlines(rt: &impl Print, sheet: &[u8]) {
    held_to(rt, sheet, [549, 7136, 8000, 0]);
    held_to(rt, sheet, [550, 8000, 0, OUT]);
    held_to(rt, sheet, [OUT - 1, 0, 7791, BEFORE]);
    held_to(rt, sheet, [OUT, 0, OUT, 0]);
    held_to(rt, sheet, [OUT - 1, OUT, BEFORE, 0]);
    held_to(rt, sheet, [0, OUT - 1, BEFORE, 0]);
}

// Lists of 63 and of 65 places, with deadlines of 0.
fn lists(rt: &impl Print, sheet: &[u8]) {
    let short = [0; 63];
    let long = [0; 65];
    let mut short_table = [BEFORE; 63];
    let mut long_table = [BEFORE; 65];
    let mut short_margins = [NO_MARGIN; 63];
    let mut long_margins = [NO_MARGIN; 65];
    plan(rt, sheet, &mut short_table, &short, &mut short_margins);
    plan(rt, sheet, &mut long_table, &short, &mut long_margins);
    plan(rt, sheet, &mut long_table, &long, &mut short_margins);
    plan(rt, sheet, &mut long_table, &long, &mut long_margins);
}

// The refusals 4 to 12 of the sheet, in order. What is changed: a kind, a length, a scope, a call, how many children there are, a scope, a kind,
// how many routines there are, a cost.
fn refusals(rt: &impl Print, input: &mut [u8; 65536], n: usize) {
    damaged(rt, input, n, 30, 99);
    damaged(rt, input, n, 20, 12);
    damaged(rt, input, n, 68, 2);
    damaged(rt, input, n, 212, 3);
    damaged(rt, input, n, 404, 1);
    damaged(rt, input, n, 68, 0);
    damaged(rt, input, n, 150, 9);
    damaged(rt, input, n, 8, 2);
    damaged(rt, input, n, 167, 255);
}

fn main(rt: HostRuntime) {
    let mut input = [0u8; 65536];
    let n = console::read_full(&mut rt.stdin(), &mut input);
    entries(&rt, &input[..n]);
    // the first 20 bytes of case b
    entries(
        &rt,
        b"\x0C\x00\x64\x00\x01\x00\x00\x00\x01\x00\x00\x00\x08\x00\x01\x00\x05\x00\x00\x00",
    );
    deadlines(&rt, &input[..n]);
    lists(&rt, &input[..n]);
    lists(&rt, first(&input, 60001));
    held_to(&rt, first(&input, 60001), [OUT, 0, 0, 0]);
    held_to(&rt, first(&input, 20), [OUT, 0, 0, 0]);
    refusals(&rt, &mut input, n);
}
