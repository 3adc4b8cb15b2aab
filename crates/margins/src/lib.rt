// The margin of each routine: by how many cycles its bound keeps its deadline.
#![tactic(auto)]

ghost use Rattle.std.specs.Prelude.{◌≡◌, ◌++◌, ◌≤◌, length, drop};
ghost use Rattle.std.specs.List.{All};
ghost use Rattle.meaning.specs.Answer.{value_limit, told, stored};
ghost use Rattle.reader.specs.Said.{said_of};
ghost use Rattle.margins.specs.Margins.{last_deadline, short_list, planned, margin_of, margins_of, margins_after};
ghost use Rattle.margins.specs.Steps.{out_of_range};

use reader::Answer;
use records::Fault;

const LAST_DEADLINE: u64 = 1099511627775;

// Negative when late, zero when it just fits. Neither number is over 2^40 - 1, so no cast loses anything.
fn margin(deadline: u64, bound: u64) -> i64
    requires { (deadline ≤ last_deadline) × (bound ≤ value_limit) }
    ensures { result ≡ margin_of deadline bound }
{
    deadline as i64 - bound as i64
}

// Whether one of these lists is too short for 64 routines.
fn short_list(deadlines: &[u64], margins: &[i64]) -> bool
    ensures { result ≡ short_list deadlines.now margins.now }
{
    deadlines.len() < 64 || margins.len() < 64
}

// The place of the first deadline that is out of range, if there is one.
fn out_of_range(deadlines: &[u64]) -> Option<usize>
    ensures { result ≡ out_of_range deadlines.now }
{
    deadlines.iter().position(|d| *d > LAST_DEADLINE)
}

// The bounds and the margins of the routines into the lent lists.
fn write_out(bounds: &[u64], deadlines: &[u64], table: &mut [u64], margins: &mut [i64])
    requires room { let n = length bounds.now in (n ≤ length deadlines.now) × (n ≤ length table.old) × (n ≤ length margins.old) }
    requires in_range { All (λ b. b ≤ value_limit) bounds.now × All (λ d. d ≤ last_deadline) deadlines.now }
    ensures table_after { table.new ≡ bounds.now ++ drop (length bounds.now) table.old }
    ensures margins_after { margins.new ≡ margins_of deadlines.now bounds.now ++ drop (length bounds.now) margins.old }
{
    table[..bounds.len()].copy_from_slice(bounds);
    for (i, bound) in bounds.iter().enumerate() {
        margins[i] = margin(deadlines[i], *bound);
    }
}

// The answer to a sheet; on acceptance the table holds the bounds of its routines, and the margins by how much each keeps its deadline. The
// bounds wait in a table of this function's own until the deadlines are judged. Of a refused sheet there are no routines to judge or to write.
pub fn margins(sheet: &[u8], table: &mut [u64], deadlines: &[u64], margins: &mut [i64]) -> Answer
    ensures result_value { said_of result ≡ told (planned sheet.now table.old deadlines.now margins.old) }
    ensures table_after { table.new ≡
        stored (planned sheet.now table.old deadlines.now margins.old) table.old }
    ensures margins_after { margins.new ≡
        margins_after (planned sheet.now table.old deadlines.now margins.old) deadlines.now margins.old }
{
    let no_room = table.len() < 64;
    if no_room {
        return Answer::Refused(Fault::NoRoom, 0);
    }
    if short_list(deadlines, margins) {
        return Answer::Refused(Fault::ShortList, 0);
    }
    let mut bounds = [0; 64];
    let filled = calculator::fill(sheet, &mut bounds);
    let n = filled.routines as usize;
    let judged = &deadlines[..n];
    match out_of_range(judged) {
        None => {
            write_out(&bounds[..n], judged, table, margins);
            filled.answer
        }
        Some(place) => Answer::Refused(Fault::BadDeadline, place + 1),
    }
}
