// The calculator for programs in C and Rust: what the entries of include/maxt.h do, on numbers and slices. The crate `boundary_c` exports them.
#![tactic(auto)]

ghost use Rattle.std.specs.Prelude.{◌≡◌, length};
ghost use Rattle.meaning.specs.Answer.{told, stored, table_after};
ghost use Rattle.meaning.specs.Work.{work};
ghost use Rattle.reader.specs.Said.{said_of};
ghost use Rattle.margins.specs.Margins.{planned, margins_after};
ghost use Rattle.boundary.specs.Words.{verdict_words, answer_words, part_words};

use reader::Answer;

// Number, place and bound of an answer into three words, as C reads them.
fn put(answer: Answer, words: &mut [u64; 3])
    ensures { words.new ≡ verdict_words (said_of answer) }
{
    match answer {
        Answer::Accepted(bound) => {
            *words = [0, 0, bound];
        }
        Answer::Refused(fault, place) => {
            *words = [u64::from(fault), place as u64, 0];
        }
    }
}

// Answers a sheet: number, place and bound into answer and, on acceptance, the bounds of its routines into the table.
pub fn maxt_answer(sheet: &[u8], table: &mut [u64], answer: &mut [u64; 3])
    ensures answer_after { answer.new ≡ answer_words sheet.now (length table.old) }
    ensures table_after { table.new ≡ table_after sheet.now table.old }
{
    let given = calculator::maxt(sheet, table);
    put(given, answer);
}

// Answers a sheet as maxt_answer does; returns how many constructs were valued, 0 for a refusal.
pub fn maxt_work(sheet: &[u8], table: &mut [u64], answer: &mut [u64; 3]) -> u64
    ensures value { result ≡ work sheet.now (length table.old) }
    ensures answer_after { answer.new ≡ answer_words sheet.now (length table.old) }
    ensures table_after { table.new ≡ table_after sheet.now table.old }
{
    let filled = calculator::fill(sheet, table);
    let given = filled.answer;
    put(given, answer);
    filled.constructs
}

// Where the records of a routine start and end; the sheet's end for both where there is no such routine.
pub fn maxt_routine(sheet: &[u8], number: u64, part: &mut [u64; 2])
    ensures { part.new ≡ part_words sheet.now number }
{
    let places = calculator::routine_places(sheet, number);
    *part = [places.start as u64, places.end as u64];
}

// Answers a sheet as maxt_answer does, with two refusals more; on acceptance, by how many cycles each routine keeps its deadline into margins.
pub fn maxt_margins(
    sheet: &[u8],
    table: &mut [u64],
    deadlines: &[u64],
    margins: &mut [i64],
    answer: &mut [u64; 3],
)
    ensures answer_after { answer.new ≡
        verdict_words (told (planned sheet.now table.old deadlines.now margins.old)) }
    ensures table_after { table.new ≡
        stored (planned sheet.now table.old deadlines.now margins.old) table.old }
    ensures margins_after { margins.new ≡
        margins_after (planned sheet.now table.old deadlines.now margins.old) deadlines.now margins.old }
{
    let judged = margins::margins(sheet, table, deadlines, margins);
    put(judged, answer);
}
