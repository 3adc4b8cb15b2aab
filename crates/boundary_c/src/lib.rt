// The archive for programs in C and Rust: the entries of include/maxt.h. Each has the clauses of the function of `boundary` that it calls: they stand
// twice for the C interface.
#![tactic(auto)]

ghost use Rattle.std.specs.Prelude.{◌≡◌, length};
ghost use Rattle.meaning.specs.Answer.{told, stored, table_after};
ghost use Rattle.meaning.specs.Work.{work};
ghost use Rattle.margins.specs.Margins.{planned, margins_after};
ghost use Rattle.boundary.specs.Words.{verdict_words, answer_words, part_words};

#[unsafe(no_mangle)]
pub extern "C" fn maxt_answer(sheet: &[u8], table: &mut [u64], answer: &mut [u64; 3])
    ensures answer_after { answer.new ≡ answer_words sheet.now (length table.old) }
    ensures table_after { table.new ≡ table_after sheet.now table.old }
{
    boundary::maxt_answer(sheet, table, answer);
}

#[unsafe(no_mangle)]
pub extern "C" fn maxt_work(sheet: &[u8], table: &mut [u64], answer: &mut [u64; 3]) -> u64
    ensures value { result ≡ work sheet.now (length table.old) }
    ensures answer_after { answer.new ≡ answer_words sheet.now (length table.old) }
    ensures table_after { table.new ≡ table_after sheet.now table.old }
{
    boundary::maxt_work(sheet, table, answer)
}

#[unsafe(no_mangle)]
pub extern "C" fn maxt_routine(sheet: &[u8], number: u64, part: &mut [u64; 2])
    ensures { part.new ≡ part_words sheet.now number }
{
    boundary::maxt_routine(sheet, number, part);
}

#[unsafe(no_mangle)]
pub extern "C" fn maxt_margins(
    sheet: &[u8],
    table: &mut [u64],
    deadlines: &[u64],
    margins: &mut [i64],
    answer: &mut [u64; 3],
)
    ensures answer_after { answer.new ≡
        verdict_words (told (planned sheet.now table.old deadlines.now margins.old)) }
    ensures table_after { table.new ≡
        stored (planned sheet.now table.old deadlines.now margins.old) table.old }
    ensures margins_after { margins.new ≡
        margins_after (planned sheet.now table.old deadlines.now margins.old) deadlines.now margins.old }
{
    boundary::maxt_margins(sheet, table, deadlines, margins, answer);
}
