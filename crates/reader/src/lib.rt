// Reads a sheet once: its routines and their constructs, with the value of each as it ends.
#![tactic(auto)]

ghost use Rattle.std.specs.Prelude.{◌≡◌, false, ◌-◌, ◌+◌, ◌*◌, ◌≤◌, ◌<◌, length, take, set};
ghost use Rattle.meaning.specs.Format.{pick};
ghost use Rattle.meaning.specs.Answer.{value_limit};
ghost use Rattle.reader.specs.Tallies.{value_cap, charge_of, charges_of, kept_with, topped_of, Limited};
ghost use Rattle.reader.specs.Tallies.{aside_is, no_aside, aside_opened, paid_of, aside_paid, value_told, aside_told, Countable, Tells, Quickly};
ghost use Rattle.reader.specs.Ways.{lead_of, later_of, body_of, branch_of, inner_of};
ghost use Rattle.reader.specs.Reader.{list_from, construct_of, routine_of, no_bounds, progress_from, progress_with, refusal, verdict_of, routines_of, sheet_of, read_of};
ghost use Rattle.reader.specs.Reader.{reply_of, reported, Lent, Within, owner_of};
ghost use Rattle.records.specs.Faults.{number_of};

mod known;
mod notes;

use known::{Known, Way};
use notes::Notes;
use records::{Cursor, Fault, Found, Leaf, Place, Refusal, Standing};

// The most that a value may be; one more, at which what markers add is held; and the highest limit of a marker, at which passes are held.
const VALUE_LIMIT: u64 = 1099511627775;

const VALUE_CAP: u64 = 1099511627776;

const HIGHEST_LIMIT: u64 = 1000000;
// A marked branch is kept as one number, its value times this and its limit, since the room for all that a sheet can have is cleared for each
// call, and is as much of the stack: more than the highest limit.
const LIMIT_ROOM: u64 = 1048576;

// The answer: the task's bound, or a refusal and its place. It is an enum of its own, and no Result: the specification names this form.
#[derive(Clone, Copy)]
pub enum Answer {
    Accepted(u64),
    Refused(Fault, usize),
}

// The bounds of the routines read so far, in order, and how many constructs were valued for them. The specification names this form: an array of
// 64 and a count, by value.
#[derive(Clone, Copy)]
pub struct Bounds {
    pub values: [u64; 64],
    pub count: u64,
    pub constructs: u64,
}

// The answer, and where the records of the routine that was asked for start and end, or the sheet's end for both.
#[derive(Clone, Copy)]
pub struct Reply {
    pub answer: Answer,
    pub start: usize,
    pub end: usize,
}

// What reading a sheet comes to. The bounds stand beside the answer, whatever it is.
#[derive(Clone, Copy)]
pub struct Report {
    pub reply: Reply,
    pub bounds: Bounds,
}

// What the routines read so far come to, besides their bounds.
#[derive(Clone, Copy)]
pub struct Progress {
    pub last: u64,
    pub over: Option<usize>,
    pub start: usize,
    pub end: usize,
    pub at: Cursor,
}

// Where a record that owns a list starts, and the cursor past it.
#[derive(Clone, Copy)]
struct Owner {
    start: usize,
    next: Cursor,
}

fn choose<T: Copy + Drop>(test: bool, a: T, b: T) -> T
    ensures { result ≡ pick test a b }
{
    if test { a } else { b }
}

// How the first child of a sequence stands: a marker may lead a branch.
#[tactic(auto, unfolding(crate::specs::Ways::lead_of))]
fn lead_of(standing: Standing) -> Standing
    ensures { result ≡ lead_of standing }
{
    match standing {
        Standing::Outside => Standing::Outside,
        Standing::InScope => Standing::InScope,
        Standing::Branch => Standing::Leading,
        Standing::LastBranch => Standing::LeadingLast,
        _ => Standing::InAlternative,
    }
}

// How its later children stand.
#[tactic(auto, unfolding(crate::specs::Ways::later_of))]
fn later_of(standing: Standing) -> Standing
    ensures { result ≡ later_of standing }
{
    match standing {
        Standing::Outside => Standing::Outside,
        Standing::InScope => Standing::InScope,
        _ => Standing::InAlternative,
    }
}

// How the body of a counted loop stands: a scope opens, any other loop keeps one that no alternative stands in.
#[tactic(auto, unfolding(crate::specs::Ways::body_of))]
fn body_of(scope: bool, standing: Standing) -> Standing
    ensures { result ≡ body_of scope standing }
{
    if scope || standing == Standing::InScope {
        Standing::InScope
    } else {
        Standing::Outside
    }
}

// How a branch of an alternative stands, in a scope; the last one where all others are marked.
#[tactic(auto, unfolding(crate::specs::Ways::branch_of))]
fn branch_of(standing: Standing, last: bool) -> Standing
    ensures { result ≡ branch_of standing last }
{
    match standing {
        Standing::Outside => Standing::Outside,
        _ => choose(last, Standing::LastBranch, Standing::Branch),
    }
}

// The largest plain branch, with one more; a marked one is none.
fn topped(top: u64, value: u64, mark: Option<u64>) -> u64
    ensures { result ≡ topped_of top value mark }
{
    match mark {
        None => top.max(value),
        Some(_) => top,
    }
}

// A branch, if it is marked, kept after those that are held: its value and its limit. The number then held.
fn keep(marks: &mut [u64], held: usize, value: u64, mark: Option<u64>) -> usize
    requires { (held < length marks.old) × (value ≤ value_limit) × Limited mark }
    ensures value { result ≡ length (kept_with value mark (take held marks.old)) }
    ensures marks_after { take result marks.new ≡ kept_with value mark (take held marks.old) }
    ensures marks_len_unchanged { length marks.new ≡ length marks.old }
{
    match mark {
        None => held,
        Some(limit) => {
            marks[held] = value * LIMIT_ROOM + limit;
            held + 1
        }
    }
}

impl Way {
    // Into the list of a record.
    fn deeper(&self) -> Way
        requires { 1 ≤ self.now.left }
        ensures { (result.left ≡ self.now.left - 1) × (result.passes ≡ self.now.passes) }
    {
        Way {
            left: self.left - 1,
            passes: self.passes,
        }
    }

    // Into a counted loop, which is a scope or has the passes around it count times; no limit is over 1,000,000. Count and scope are two fields of a
    // record, and no struct: the three that take them would take it apart at once, which is no plainer.
    #[tactic(auto, unfolding(crate::specs::Ways::inner_of))]
    fn inside(&self, count: u64, scope: bool) -> Way
        requires { count ≤ 1000000 }
        ensures { (result.left ≡ self.now.left) × (result.passes ≡ inner_of count scope self.now.passes) }
    {
        let passes = if scope {
            count
        } else {
            HIGHEST_LIMIT.min(self.passes * count)
        };
        Way {
            left: self.left,
            passes,
        }
    }

    // passes x excess of a marked branch. More passes than the counts allow are not paid.
    fn charge(&self, limit: u64, value: u64, plain: u64) -> u64
        requires { value ≤ 17592186044415 }
        ensures { (result ≡ charge_of self.now.passes limit value plain) × (result ≤ 17592186044415000000) }
    {
        if value <= plain {
            return 0;
        }
        limit.min(self.passes) * (value - plain)
    }

    // The same of all marked branches of an alternative, at most just over the limit of a value.
    fn charges(&self, marks: &[u64], plain: u64) -> u64
        ensures { (result ≡ charges_of self.now.passes plain 0 marks.now) × (result ≤ value_cap) }
    {
        let mut sum: u64 = 0;
        for both in marks {
            let more = self.charge(*both % LIMIT_ROOM, *both / LIMIT_ROOM, plain);
            sum = VALUE_CAP.min(sum + more);
        }
        sum
    }
}

impl Notes {
    // Nothing yet but the constructs of the routines before.
    fn none(constructs: u64) -> Notes
        ensures { aside_is result ≡ no_aside constructs }
    {
        Notes {
            over: None,
            added: 0,
            mark: None,
            constructs,
        }
    }

    // A record ends with a value, once so many constructs of its list are valued; the first value that is too large is told, and counts for nothing.
    fn ended(&mut self, value: u64, valued: u64, start: usize) -> u64
        requires { Countable (aside_is self.old) valued }
        ensures value { result ≡ value_told value }
        ensures aside_after { aside_is self.new ≡ aside_told (aside_is self.old) value valued start }
    {
        self.constructs += valued;
        if VALUE_LIMIT < value {
            self.over = self.over.or(Some(start));
            return 0;
        }
        value
    }

    // A counted loop begins: a scope has nothing added yet. What was added before.
    fn opened(&mut self, scope: bool) -> u64
        ensures value { result ≡ (aside_is self.old).added }
        ensures aside_after { aside_is self.new ≡ aside_opened (aside_is self.old) scope }
    {
        let before = self.added;
        self.added = choose(scope, 0, before);
        before
    }

    // A counted loop ends: a scope pays what its markers add, once; any other loop hands it on.
    fn paid(&mut self, scope: bool, before: u64) -> u64
        requires { before ≤ value_cap }
        ensures value { result ≡ paid_of (aside_is self.old) scope }
        ensures aside_after { aside_is self.new ≡ aside_paid (aside_is self.old) scope before }
    {
        let added = self.added;
        self.added = choose(scope, before, added);
        choose(scope, added, 0)
    }
}

// A construct that owns nothing. Most constructs do, so they are tried first, where their owner's list is read.
#[inline(always)]
fn at_once(
    known: &Known,
    c: Cursor,
    way: &Way,
    standing: Standing,
    notes: &mut Notes,
) -> Option<(u64, Cursor)>
    ensures { Quickly (length known.now.sheet.now) c.at (aside_is notes.old)
        (λ product. construct_of way.now.left known.now.sheet.now known.now.bounds.now known.now.own standing product c) result (aside_is notes.new) }
{
    let place = Place {
        own: known.own,
        left: way.left,
        standing,
    };
    let (leaf, next) = c.leaf(known.sheet, place)?;
    match leaf {
        Leaf::Primitive(cost) => Some((cost, next)),
        Leaf::Call(number) => {
            let called = (number - 1) as usize;
            Some((known.bounds[called], next))
        }
        Leaf::Marker(limit, cost) => {
            notes.mark = Some(limit);
            Some((cost, next))
        }
    }
}

// One construct, with the list that it owns: at once, where it owns nothing. What is required speaks of the marks, the notes and a place together,
// which change from call to call: a struct of the three would be made anew for each, and is no plainer.
#[cycle(construct_list)]
#[inline(always)]
fn child(
    known: &Known,
    c: Cursor,
    way: &Way,
    standing: Standing,
    marks: &mut [u64],
    held: usize,
    notes: &mut Notes,
) -> Result<(u64, Cursor), Refusal>
    requires lent { Lent known.now.sheet.now marks.old notes.old.constructs held c.at }
    ensures tells { Tells (length known.now.sheet.now) c.at (aside_is notes.old) (construct_of way.now.left known.now.sheet.now known.now.bounds.now known.now.own standing way.now.passes c) result (aside_is notes.new) }
    ensures marks_unchanged { take held marks.new ≡ take held marks.old }
    ensures marks_len_unchanged { length marks.new ≡ length marks.old }
{
    match at_once(known, c, way, standing, notes) {
        Some(done) => Ok(done),
        None => with_list(known, c, way, standing, marks, held, notes),
    }
}

// The same where it was not read at once. A function of its own: room for what a call gives is cleared where its caller begins, so that `child`, with this
// call in it, would clear it for each construct, and most are read at once (docs/PERFORMANCE.md).
#[cycle(construct_list)]
#[inline(always)]
fn with_list(
    known: &Known,
    c: Cursor,
    way: &Way,
    standing: Standing,
    marks: &mut [u64],
    held: usize,
    notes: &mut Notes,
) -> Result<(u64, Cursor), Refusal>
    requires lent { Lent known.now.sheet.now marks.old notes.old.constructs held c.at }
    ensures tells { Tells (length known.now.sheet.now) c.at (aside_is notes.old) (construct_of way.now.left known.now.sheet.now known.now.bounds.now known.now.own standing way.now.passes c) result (aside_is notes.new) }
    ensures marks_unchanged { take held marks.new ≡ take held marks.old }
    ensures marks_len_unchanged { length marks.new ≡ length marks.old }
{
    construct(known, c, way, standing, marks, held, notes)
}

// One construct, with the list that it owns. marks keeps the marked branches of the alternatives that are open, so many of them: a lent slice, since
// there is no heap; and how many by value, so that no reader can change its caller's.
#[cycle(construct_list)]
fn construct(
    known: &Known,
    c: Cursor,
    way: &Way,
    standing: Standing,
    marks: &mut [u64],
    held: usize,
    notes: &mut Notes,
) -> Result<(u64, Cursor), Refusal>
    requires lent { Lent known.now.sheet.now marks.old notes.old.constructs held c.at }
    ensures tells { Tells (length known.now.sheet.now) c.at (aside_is notes.old) (construct_of way.now.left known.now.sheet.now known.now.bounds.now known.now.own standing way.now.passes c) result (aside_is notes.new) }
    ensures marks_unchanged { take held marks.new ≡ take held marks.old }
    ensures marks_len_unchanged { length marks.new ≡ length marks.old }
{
    let place = Place {
        own: known.own,
        left: way.left,
        standing,
    };
    let (found, next) = c.construct(known.sheet, place)?;
    let owner = Owner { start: c.at, next };
    let deeper = way.deeper();
    match found {
        // what owns nothing is as in `at_once`: one function of both would put the record together again to take it apart, and is no plainer
        Found::Primitive(cost) => Ok((cost, next)),
        Found::Sequence(n) => sequence(known, owner, n, &deeper, standing, marks, held, notes),
        Found::Alternative(n) => alternative(
            known, owner, n, &deeper, standing, marks, held, notes,
        ),
        Found::HeadLoop(count, scope) => {
            head_loop(
                known, owner, count, scope, &deeper, standing, marks, held, notes,
            )
        }
        Found::TailLoop(count, scope) => {
            tail_loop(
                known, owner, count, scope, &deeper, standing, marks, held, notes,
            )
        }
        Found::TimedLoop(time) => timed_loop(
            known, owner, time, &deeper, standing, marks, held, notes,
        ),
        Found::Call(number) => {
            let called = (number - 1) as usize;
            Ok((known.bounds[called], next))
        }
        Found::Marker(limit, cost) => {
            notes.mark = Some(limit);
            Ok((cost, next))
        }
    }
}

// The n constructs of a sequence, and its end. In line in `construct`: sequences in each other take one call for each, and not two (docs/PERFORMANCE.md).
#[cycle(construct_list)]
#[inline(always)]
fn sequence(
    known: &Known,
    owner: Owner,
    n: u64,
    way: &Way,
    standing: Standing,
    marks: &mut [u64],
    held: usize,
    notes: &mut Notes,
) -> Result<(u64, Cursor), Refusal>
    requires lent { Lent known.now.sheet.now marks.old notes.old.constructs held owner.start }
    requires within { Within known.now.sheet.now owner.start owner.next.at }
    requires n_bound { n ≤ 1000 }
    ensures tells { Tells (length known.now.sheet.now) owner.start (aside_is notes.old) (list_from (construct_of way.now.left known.now.sheet.now known.now.bounds.now known.now.own) (owner_of 3 n false owner.start standing way.now.passes) n owner.next) result (aside_is notes.new) }
    ensures marks_unchanged { take held marks.new ≡ take held marks.old }
    ensures marks_len_unchanged { length marks.new ≡ length marks.old }
{
    let lead = lead_of(standing);
    let later = later_of(standing);
    let mut sum: u64 = 0;
    let mut at = owner.next;
    for i in 0..n {
        let standing = choose(i == 0, lead, later);
        let (v, next) = child(known, at, way, standing, marks, held, notes)?;
        sum += v;
        at = next;
    }
    Ok((notes.ended(sum, n, owner.start), at))
}

// The condition and the n branches of an alternative, and its end. A marked branch is kept until the largest plain one is known.
#[cycle(construct_list)]
fn alternative(
    known: &Known,
    owner: Owner,
    n: u64,
    way: &Way,
    standing: Standing,
    marks: &mut [u64],
    base: usize,
    notes: &mut Notes,
) -> Result<(u64, Cursor), Refusal>
    requires lent { Lent known.now.sheet.now marks.old notes.old.constructs base owner.start }
    requires within { Within known.now.sheet.now owner.start owner.next.at }
    requires le_n { (2 ≤ n) × (n ≤ 256) }
    ensures tells { Tells (length known.now.sheet.now) owner.start (aside_is notes.old) (list_from (construct_of way.now.left known.now.sheet.now known.now.bounds.now known.now.own) (owner_of 4 n false owner.start standing way.now.passes) (n + 1) owner.next) result (aside_is notes.new) }
    ensures marks_unchanged { take base marks.new ≡ take base marks.old }
    ensures marks_len_unchanged { length marks.new ≡ length marks.old }
{
    let (condition, mut at) = child(
        known,
        owner.next,
        way,
        Standing::Outside,
        marks,
        base,
        notes,
    )?;
    let mark = notes.mark;
    let mut held = base;
    let mut top: u64 = 0;
    for _branch in 0..n {
        let last = (held - base) as u64 + 1 == n;
        notes.mark = None;
        let branch = branch_of(standing, last);
        let (v, next) = child(known, at, way, branch, marks, held, notes)?;
        held = keep(marks, held, v, notes.mark);
        top = topped(top, v, notes.mark);
        at = next;
    }
    notes.mark = mark;
    let more = way.charges(&marks[base..held], top);
    notes.added = VALUE_CAP.min(notes.added + more);
    Ok((notes.ended(condition + top, n + 1, owner.start), at))
}

// Init, condition, body and overrun of a head loop, and its end: the condition runs once more than the body. A scope pays what its markers add.
#[cycle(construct_list)]
#[inline(always)]
fn head_loop(
    known: &Known,
    owner: Owner,
    count: u64,
    scope: bool,
    way: &Way,
    standing: Standing,
    marks: &mut [u64],
    held: usize,
    notes: &mut Notes,
) -> Result<(u64, Cursor), Refusal>
    requires lent { Lent known.now.sheet.now marks.old notes.old.constructs held owner.start }
    requires within { Within known.now.sheet.now owner.start owner.next.at }
    requires count_bound { count ≤ 1000000 }
    ensures tells { Tells (length known.now.sheet.now) owner.start (aside_is notes.old) (list_from (construct_of way.now.left known.now.sheet.now known.now.bounds.now known.now.own) (owner_of 5 count scope owner.start standing way.now.passes) 4 owner.next) result (aside_is notes.new) }
    ensures marks_unchanged { take held marks.new ≡ take held marks.old }
    ensures marks_len_unchanged { length marks.new ≡ length marks.old }
{
    let inner = way.inside(count, scope);
    let inside = body_of(scope, standing);
    let outside = Standing::Outside;
    let before = notes.opened(scope);
    let (init, at) = child(known, owner.next, &inner, outside, marks, held, notes)?;
    let (condition, at) = child(known, at, &inner, outside, marks, held, notes)?;
    let (body, at) = child(known, at, &inner, inside, marks, held, notes)?;
    let (overrun, at) = child(known, at, &inner, outside, marks, held, notes)?;
    let sum = init + (condition + condition * count) + body * count + overrun;
    let paid = notes.paid(scope, before);
    Ok((notes.ended(sum + paid, 4, owner.start), at))
}

// Body, condition and overrun of a tail loop, and its end: the condition runs as often as the body.
#[cycle(construct_list)]
#[inline(always)]
fn tail_loop(
    known: &Known,
    owner: Owner,
    count: u64,
    scope: bool,
    way: &Way,
    standing: Standing,
    marks: &mut [u64],
    held: usize,
    notes: &mut Notes,
) -> Result<(u64, Cursor), Refusal>
    requires lent { Lent known.now.sheet.now marks.old notes.old.constructs held owner.start }
    requires within { Within known.now.sheet.now owner.start owner.next.at }
    requires count_bound { count ≤ 1000000 }
    ensures tells { Tells (length known.now.sheet.now) owner.start (aside_is notes.old) (list_from (construct_of way.now.left known.now.sheet.now known.now.bounds.now known.now.own) (owner_of 6 count scope owner.start standing way.now.passes) 3 owner.next) result (aside_is notes.new) }
    ensures marks_unchanged { take held marks.new ≡ take held marks.old }
    ensures marks_len_unchanged { length marks.new ≡ length marks.old }
{
    let inner = way.inside(count, scope);
    let inside = body_of(scope, standing);
    let outside = Standing::Outside;
    let before = notes.opened(scope);
    let (body, at) = child(known, owner.next, &inner, inside, marks, held, notes)?;
    let (condition, at) = child(known, at, &inner, outside, marks, held, notes)?;
    let (overrun, at) = child(known, at, &inner, outside, marks, held, notes)?;
    let sum = body * count + condition * count + overrun;
    let paid = notes.paid(scope, before);
    Ok((notes.ended(sum + paid, 3, owner.start), at))
}

// The timeout statement of a timed loop, and its end.
#[cycle(construct_list)]
fn timed_loop(
    known: &Known,
    owner: Owner,
    time: u64,
    way: &Way,
    standing: Standing,
    marks: &mut [u64],
    held: usize,
    notes: &mut Notes,
) -> Result<(u64, Cursor), Refusal>
    requires lent { Lent known.now.sheet.now marks.old notes.old.constructs held owner.start }
    requires within { Within known.now.sheet.now owner.start owner.next.at }
    requires time_bound { time ≤ 4294967295 }
    ensures tells { Tells (length known.now.sheet.now) owner.start (aside_is notes.old) (list_from (construct_of way.now.left known.now.sheet.now known.now.bounds.now known.now.own) (owner_of 7 time false owner.start standing way.now.passes) 1 owner.next) result (aside_is notes.new) }
    ensures marks_unchanged { take held marks.new ≡ take held marks.old }
    ensures marks_len_unchanged { length marks.new ≡ length marks.old }
{
    let inner = Way {
        left: way.left,
        passes: 0,
    };
    let (v, next) = child(
        known,
        owner.next,
        &inner,
        Standing::Outside,
        marks,
        held,
        notes,
    )?;
    Ok((notes.ended(v + time, 1, owner.start), next))
}

// One routine: its organisation and its body add up as the time and the statement of a timed loop.
fn routine(
    known: &Known,
    c: Cursor,
    marks: &mut [u64],
    notes: &mut Notes,
) -> Result<(u64, Cursor), Refusal>
    requires { Lent known.now.sheet.now marks.old notes.old.constructs 0 c.at }
    ensures tells { Tells (length known.now.sheet.now) c.at (aside_is notes.old) (routine_of known.now.sheet.now known.now.bounds.now known.now.own c) result (aside_is notes.new) }
    ensures marks_len_unchanged { length marks.new ≡ length marks.old }
{
    let (read, body) = c.routine(known.sheet)?;
    let way = Way {
        left: 24,
        passes: 0,
    };
    let (v, next) = child(known, body, &way, Standing::Outside, marks, 0, notes)?;
    Ok((notes.ended(v + read.organisation, 1, c.at), next))
}

impl Bounds {
    #[tactic(auto, unfolding(crate::specs::Reader::no_bounds))]
    fn none() -> Bounds
        ensures { result ≡ no_bounds }
    {
        Bounds {
            values: [0u64; 64],
            count: 0,
            constructs: 0,
        }
    }

    // The bound of one routine more, with which so many constructs are valued for all.
    fn push(&mut self, value: u64, constructs: u64)
        requires { self.old.count < 64 }
        ensures { self.new ≡ record { values = set self.old.values self.old.count value; count = self.old.count + 1; constructs = constructs } }
    {
        self.values[self.count as usize] = value;
        self.count += 1;
        self.constructs = constructs;
    }
}

impl Progress {
    // Before the first routine of a sheet of so many bytes.
    #[tactic(auto, unfolding(crate::specs::Reader::progress_from))]
    fn from(long: usize, c: Cursor) -> Progress
        ensures { result ≡ progress_from long c }
    {
        Progress {
            last: 0,
            over: None,
            start: long,
            end: long,
            at: c,
        }
    }

    // One routine more; where it is the one asked for, its places.
    #[tactic(auto, unfolding(crate::specs::Reader::progress_with))]
    fn with(self, own: u64, number: u64, value: u64, over: Option<usize>, next: Cursor) -> Progress
        ensures { result ≡ progress_with self own number value over next }
    {
        Progress {
            last: value,
            over: self.over.or(over),
            start: choose(own == number, self.at.at, self.start),
            end: choose(own == number, next.at, self.end),
            at: next,
        }
    }
}

// A refusal, with no part.
#[tactic(auto, unfolding(crate::specs::Reader::refusal))]
fn refused(long: usize, fault: Fault, place: usize) -> Reply
    ensures { reply_of result ≡ refusal long (number_of fault) place }
{
    Reply {
        answer: Answer::Refused(fault, place),
        start: long,
        end: long,
    }
}

// EXTRA, then TOO BIG, then the last routine's bound.
#[tactic(auto, unfolding(crate::specs::Reader::verdict_of))]
fn verdict(long: usize, progress: Progress) -> Reply
    ensures { reply_of result ≡ verdict_of long progress }
{
    let past = progress.at.at;
    if past < long {
        return refused(long, Fault::Extra, past);
    }
    match progress.over {
        Some(place) => refused(long, Fault::TooBig, place),
        None => Reply {
            answer: Answer::Accepted(progress.last),
            start: progress.start,
            end: progress.end,
        },
    }
}

// The n routines of a sheet, one after another, each with the bounds of those before.
fn routines(s: &[u8], c: Cursor, n: u64, number: u64, marks: &mut [u64]) -> Report
    requires { (n ≤ 64) × (length s.now ≤ 8 * length marks.old) × (length s.now ≤ 60000) }
    ensures { reported result ≡ routines_of n s.now number no_bounds (progress_from (length s.now) c) }
{
    let mut bounds = Bounds::none();
    let mut progress = Progress::from(s.len(), c);
    for _read in 0..n {
        let own = bounds.count + 1;
        let mut notes = Notes::none(bounds.constructs);
        let known = Known {
            sheet: s,
            bounds: &bounds.values,
            own,
        };
        match routine(&known, progress.at, marks, &mut notes) {
            Err(refusal) => {
                let reply = refused(s.len(), refusal.fault, refusal.place);
                return Report { reply, bounds };
            }
            Ok((value, next)) => {
                progress = progress.with(own, number, value, notes.over, next);
                bounds.push(value, notes.constructs);
            }
        }
    }
    let reply = verdict(s.len(), progress);
    Report { reply, bounds }
}

// The sheet record, then its routines. `with_room`, this and `routines` hand the sheet and the room on, once each: a struct for two calls is no plainer.
fn sheet(s: &[u8], number: u64, marks: &mut [u64]) -> Report
    requires { (length s.now ≤ 8 * length marks.old) × (length s.now ≤ 60000) }
    ensures { reported result ≡ sheet_of s.now number }
{
    let start = Cursor { at: 0 };
    match start.sheet(s) {
        Ok((read, next)) => routines(s, next, read.routines, number, marks),
        Err(refusal) => Report {
            reply: refused(s.len(), refusal.fault, refusal.place),
            bounds: Bounds::none(),
        },
    }
}

// A sheet with room for the marked branches that so many bytes can have, eight for each: less to clear for a shorter one.
fn with_room<const ROOM: usize>(s: &[u8], number: u64) -> Report
    requires { (length s.now ≤ 8 * ROOM) × (length s.now ≤ 60000) × (ROOM ≤ 7500) }
    ensures { reported result ≡ sheet_of s.now number }
{
    let mut marks = [0u64; ROOM];
    sheet(s, number, &mut marks)
}

// A sheet read once: the answer, the bounds, and where the routine of a number stands.
#[tactic(auto, unfolding(crate::specs::Reader::read_of))]
pub fn read(s: &[u8], number: u64) -> Report
    ensures { reported result ≡ read_of s.now number }
{
    let long = s.len();
    if 60000 < long {
        return Report {
            reply: refused(long, Fault::TooLong, 0),
            bounds: Bounds::none(),
        };
    }
    if 6400 < long {
        return with_room::<7500>(s, number);
    }
    if 640 < long {
        return with_room::<800>(s, number);
    }
    with_room::<80>(s, number)
}
