// The calculator: the bounds of a sheet's routines or its refusal, and the part of the sheet that a routine is.
#![tactic(auto)]

ghost use Rattle.std.specs.Prelude.{◌≡◌, ◌≤◌, length};
ghost use Rattle.meaning.specs.Answer.{answer, table_after, part_of, routine_part};
ghost use Rattle.meaning.specs.Work.{work};
ghost use Rattle.reader.specs.Said.{said_of};
ghost use Rattle.reader.specs.Reports.{stored_of};
ghost use Rattle.calculator.specs.Promises.{filled, part_at};

use reader::{Answer, Bounds};
use records::Fault;

// Where the records of a routine start and end.
#[derive(Clone, Copy)]
pub struct Places {
    pub start: usize,
    pub end: usize,
}

// What comes back: the answer, of how many routines the table holds the bounds, and how many constructs were valued for them.
#[derive(Clone, Copy)]
pub struct Filled {
    pub answer: Answer,
    pub routines: u64,
    pub constructs: u64,
}

impl Filled {
    // A refusal fills and counts nothing.
    fn none(answer: Answer) -> Filled
        ensures { result ≡ record { answer = answer; routines = 0; constructs = 0 } }
    {
        Filled {
            answer,
            routines: 0,
            constructs: 0,
        }
    }
}

// The bounds into the lent table, at acceptance.
fn copy_out(bounds: Bounds, table: &mut [u64])
    requires { (bounds.count ≤ 64) × (64 ≤ length table.old) }
    ensures { table.new ≡ stored_of bounds table.old }
{
    let n = bounds.count as usize;
    table[..n].copy_from_slice(&bounds.values[..n]);
}

// Answers a sheet and, on acceptance, fills the table with the bounds of its routines. That they are at most 64 follows from the rest, and is
// said for those who count through the table.
pub fn fill(sheet: &[u8], table: &mut [u64]) -> Filled
    ensures answer_value { said_of result.answer ≡ answer sheet.now (length table.old) }
    ensures routines_value { result.routines ≡ filled sheet.now (length table.old) }
    ensures constructs_value { result.constructs ≡ work sheet.now (length table.old) }
    ensures table_after { table.new ≡ table_after sheet.now table.old }
    ensures routines_bound { result.routines ≤ 64 }
{
    let no_room = table.len() < 64;
    if no_room {
        return Filled::none(Answer::Refused(Fault::NoRoom, 0));
    }
    let report = reader::read(sheet, 0);
    let answer = report.reply.answer;
    match answer {
        Answer::Accepted(_) => {
            let bounds = report.bounds;
            let routines = bounds.count;
            let constructs = bounds.constructs;
            copy_out(bounds, table);
            Filled {
                answer,
                routines,
                constructs,
            }
        }
        Answer::Refused(_, _) => Filled::none(answer),
    }
}

// The answer to a sheet; on acceptance the table holds the bounds of its routines.
pub fn maxt(sheet: &[u8], table: &mut [u64]) -> Answer
    ensures result_value { said_of result ≡ answer sheet.now (length table.old) }
    ensures table_after { table.new ≡ table_after sheet.now table.old }
{
    fill(sheet, table).answer
}

// Where a routine's records start and end; the sheet's end for both where there is no such routine.
pub fn routine_places(sheet: &[u8], number: u64) -> Places
    ensures { part_at result ≡ part_of sheet.now number }
{
    let reader::Reply { start, end, .. } = reader::read(sheet, number).reply;
    Places { start, end }
}

// A routine's records as a part of the sheet.
pub fn routine_records(sheet: &[u8], number: u64) -> &[u8]
    ensures { result.now ≡ routine_part sheet.now number }
{
    let Places { start, end } = routine_places(sheet, number);
    &sheet[start..end]
}
