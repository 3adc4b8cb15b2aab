// What the program `maxt` prints for a sheet, as bytes: a line for each routine and one for the bound, or the refusal.
#![tactic(auto)]

ghost use Rattle.std.specs.Prelude.{◌≡◌, ◌+◌, ◌*◌, ◌≤◌, ◌++◌, length};
ghost use Rattle.io.specs.Counts.{IsPrefixLen};
ghost use Rattle.lines.specs.Page.{Put};
ghost use Rattle.lines.specs.Output.{letters, line, named, routine_line, routine_lines, bound_line, refused_line, output, onto};

use reader::Answer;

// A page that is filled from its start on: its bytes, and how many of them are put.
#[derive(Drop)]
struct Page<'a> {
    bytes: &'a mut [u8],
    at: usize,
}

impl Page<'_> {
    fn put(&mut self, text: &[u8])
        requires { self.old.at + length text.now ≤ length self.old.bytes.now }
        ensures { Put self.old self.new text.now }
    {
        let start = self.at;
        let end = start + text.len();
        self.bytes[start..end].copy_from_slice(text);
        self.at = end;
    }

    // A number after its words. Not by `write!`: std's `write_fmt` says what was written only where it is Ok, and never that it is Ok, whatever room
    // the page has; the bytes of `print` are owed always.
    fn put_named(&mut self, words: &[u8], number: u64)
        requires { self.old.at + length words.now + 20 ≤ length self.old.bytes.now }
        ensures put { Put self.old self.new (named words.now number) }
        ensures upper_bound { self.new.at ≤ self.old.at + length words.now + 20 }
    {
        let mut digits = [0u8; 20];
        let n = io::decimal(number, &mut digits);
        self.put(words);
        self.put(&digits[..n]);
    }

    fn end_line(&mut self)
        requires { self.old.at + 1 ≤ length self.old.bytes.now }
        ensures { Put self.old self.new (letters "\n") }
    {
        self.put(b"\n");
    }

    // A line of two numbers, each after its words.
    fn put_pair(&mut self, words: &[u8], number: u64, more: &[u8], second: u64)
        requires { self.old.at + length words.now + length more.now + 41 ≤ length self.old.bytes.now }
        ensures put { Put self.old self.new (line (named words.now number ++ named more.now second)) }
        ensures upper_bound { self.new.at ≤ self.old.at + length words.now + length more.now + 41 }
    {
        self.put_named(words, number);
        self.put_named(more, second);
        self.end_line();
    }

    fn put_routine(&mut self, number: u64, bound: u64)
        requires { self.old.at + 50 ≤ length self.old.bytes.now }
        ensures put { Put self.old self.new (routine_line number bound) }
        ensures upper_bound { self.new.at ≤ self.old.at + 50 }
    {
        self.put_pair(b"routine ", number, b" ", bound);
    }

    fn put_refusal(&mut self, number: u64, place: usize)
        requires { self.old.at + 53 ≤ length self.old.bytes.now }
        ensures put { Put self.old self.new (refused_line number place) }
        ensures upper_bound { self.new.at ≤ self.old.at + 53 }
    {
        self.put_pair(b"refused ", number, b" at ", place as u64);
    }

    fn put_bound(&mut self, bound: u64)
        requires { self.old.at + 27 ≤ length self.old.bytes.now }
        ensures put { Put self.old self.new (bound_line bound) }
        ensures upper_bound { self.new.at ≤ self.old.at + 27 }
    {
        self.put_named(b"bound ", bound);
        self.end_line();
    }

    // A line for each routine, numbered from 1.
    fn put_routines(&mut self, bounds: &[u64])
        requires { self.old.at + 50 * length bounds.now ≤ length self.old.bytes.now }
        ensures put { Put self.old self.new (routine_lines 1 bounds.now) }
        ensures upper_bound { self.new.at ≤ self.old.at + 50 * length bounds.now }
    {
        for (i, bound) in bounds.iter().enumerate() {
            self.put_routine(i as u64 + 1, *bound);
        }
    }
}

// What `maxt` prints for a sheet, at the start of the page, and its length. The page has room for the longest: 64 routine lines of at
// most 50 bytes, and the bound's. The last clause follows from the others, and is said for those who write the page's first part.
pub fn print(sheet: &[u8], page: &mut [u8; 4096]) -> usize
    ensures value { result ≡ length (output sheet.now) }
    ensures page_after { page.new ≡ onto (output sheet.now) page.old }
    ensures prefix_len { IsPrefixLen result page.new }
{
    let mut table = [0; 64];
    let filled = calculator::fill(sheet, &mut table);
    let mut page = Page { bytes: page, at: 0 };
    match filled.answer {
        Answer::Accepted(bound) => {
            page.put_routines(&table[..filled.routines as usize]);
            page.put_bound(bound);
        }
        Answer::Refused(fault, place) => page.put_refusal(u64::from(fault), place),
    }
    page.at
}
