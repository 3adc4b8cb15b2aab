// One record of a sheet: read at a cursor, and judged by what is owed there.
#![tactic(auto)]

ghost use Rattle.std.specs.Prelude.{◌≡◌, ◌≤◌, length};
ghost use Rattle.meaning.specs.Judgement.{sheet, routine, judged};
ghost use Rattle.records.specs.Faults.{reading_of};
ghost use Rattle.records.specs.Records.{owed_at, read_as, as_sheet, as_routine, by_kind, found_of, leaf_of};
ghost use Rattle.records.specs.Steps.{kind_number, field_at, fields_at, form_of, is_outside, is_bad_call, marker_fault, misplaced, judge_of, rest_of, only_of, reading_from};

mod faults;
mod standings;

pub use faults::{Fault, Refusal};
pub use standings::Standing;

// The reading place, handed from one record to the next by value.
#[derive(Clone, Copy)]
pub struct Cursor {
    pub at: usize,
}

// Where a construct's record stands: its routine's number, the depths left, and how it stands to a scope.
#[derive(Clone, Copy)]
pub struct Place {
    pub own: u64,
    pub left: u64,
    pub standing: Standing,
}

// The fields of a sheet's record.
#[derive(Clone, Copy)]
pub struct SheetRecord {
    pub edition: u64,
    pub routines: u64,
}

// The field of a routine's record.
#[derive(Clone, Copy)]
pub struct RoutineRecord {
    pub organisation: u64,
}

// A construct's record: its kind with its fields. A loop has a count, and whether it is a scope; a marker a limit and a cost.
#[derive(Clone, Copy)]
pub enum Found {
    Primitive(u64),
    Sequence(u64),
    Alternative(u64),
    HeadLoop(u64, bool),
    TailLoop(u64, bool),
    TimedLoop(u64),
    Call(u64),
    Marker(u64, u64),
}

// A record that owns nothing, read at once.
#[derive(Clone, Copy)]
pub enum Leaf {
    Primitive(u64),
    Call(u64),
    Marker(u64, u64),
}

// The kinds of records, with their numbers.
#[derive(Clone, Copy, PartialEq, Eq)]
enum Kind {
    Routine = 1,
    Primitive = 2,
    Sequence = 3,
    Alternative = 4,
    HeadLoop = 5,
    TailLoop = 6,
    TimedLoop = 7,
    Call = 8,
    Marker = 9,
    Sheet = 100,
}

impl From<Kind> for u64 {
    ghost from_gives = { λ kind number. number ≡ kind_number kind };

    fn from(kind: Kind) -> u64 {
        kind as u64
    }
}

// The fields of a record. A second one that it does not have is 0, which is what the public definitions have of it (`Format.field`).
#[derive(Clone, Copy)]
struct Fields {
    first: u64,
    second: u64,
}

// What the table says of a kind: the length and the ranges of the fields.
#[derive(Clone, Copy)]
struct Form {
    length: u64,
    least: u64,
    most: u64,
    least2: u64,
    most2: u64,
}

// A row of the table by its columns, so that each kind is one line.
fn row(length: u64, least: u64, most: u64, least2: u64, most2: u64) -> Form
    ensures { result ≡ record { length = length; least = least; most = most; least2 = least2; most2 = most2 } }
{
    Form {
        length,
        least,
        most,
        least2,
        most2,
    }
}

impl Form {
    // Whether a field lies outside its range.
    #[tactic(auto, unfolding(crate::specs::Steps::is_outside))]
    fn is_outside(self, all: Fields) -> bool
        ensures { result ≡ is_outside self all.first all.second }
    {
        all.first < self.least
            || self.most < all.first
            || all.second < self.least2
            || self.most2 < all.second
    }
}

impl Kind {
    // The construct of this kind with these fields. Of the kinds of constructs the last is the marker.
    fn found(self, all: Fields) -> Found
        ensures { result ≡ by_kind (kind_number self) all.first all.second }
    {
        match self {
            Kind::Primitive => Found::Primitive(all.first),
            Kind::Sequence => Found::Sequence(all.first),
            Kind::Alternative => Found::Alternative(all.first),
            Kind::HeadLoop => Found::HeadLoop(all.first, all.second == 1),
            Kind::TailLoop => Found::TailLoop(all.first, all.second == 1),
            Kind::TimedLoop => Found::TimedLoop(all.first),
            Kind::Call => Found::Call(all.first),
            _ => Found::Marker(all.first, all.second),
        }
    }
}

// Whether a call's number is of no routine before its own.
#[tactic(auto, unfolding(crate::specs::Steps::is_bad_call))]
fn is_bad_call(number: u64, own: u64) -> bool
    ensures { result ≡ is_bad_call number own }
{
    number == 0 || own <= number
}

// STRAY MARKER or NO PLAIN BRANCH, where a marker may not stand.
#[tactic(auto, unfolding(crate::specs::Steps::marker_fault))]
fn marker_fault(standing: Standing) -> Option<Fault>
    ensures { result ≡ marker_fault standing }
{
    match standing {
        Standing::Leading => None,
        Standing::LeadingLast => Some(Fault::NoPlainBranch),
        _ => Some(Fault::StrayMarker),
    }
}

// BAD CALL, TOO DEEP, STRAY MARKER or NO PLAIN BRANCH.
#[tactic(auto, unfolding(crate::specs::Steps::misplaced))]
fn misplaced(kind: Kind, first: u64, place: Place) -> Option<Fault>
    ensures { result ≡ misplaced (kind_number kind) first place }
{
    if kind == Kind::Call && is_bad_call(first, place.own) {
        return Some(Fault::BadCall);
    }
    if place.left == 0 {
        return Some(Fault::TooDeep);
    }
    if kind == Kind::Marker {
        return marker_fault(place.standing);
    }
    None
}

impl Cursor {
    // Four bytes, little-endian. One test for the sheet's end: with the last byte the three before it are there. The sheet goes beside the cursor, which
    // the specification hands on by value (docs/FORMS.md), so each step asks that it lies in the sheet.
    #[tactic(auto, using(crate::proofs::Laws::field_short, crate::proofs::Laws::field_made))]
    fn word(self, s: &[u8]) -> Option<(u64, Cursor)>
        requires { self.at ≤ length s.now }
        ensures { result ≡ field_at s.now self.at }
    {
        let at = self.at;
        if s.len() < at + 4 {
            return None;
        }
        let word = u32::from_le_bytes([s[at], s[at + 1], s[at + 2], s[at + 3]]);
        Some((u64::from(word), Cursor { at: at + 4 }))
    }

    // One field, or two.
    #[tactic(auto, using(crate::proofs::Laws::field_past), unfolding(crate::specs::Steps::fields_at))]
    fn fields(self, s: &[u8], both: bool) -> Option<(Fields, Cursor)>
        requires { self.at ≤ length s.now }
        ensures { result ≡ fields_at s.now self.at both }
    {
        let (first, c) = self.word(s)?;
        if both {
            let (second, next) = c.word(s)?;
            return Some((Fields { first, second }, next));
        }
        Some((Fields { first, second: 0 }, c))
    }

    // The length and the kind of a record, which are read as one field.
    #[tactic(auto, using(crate::proofs::Laws::field_short))]
    fn head(self, s: &[u8]) -> Option<(u64, Cursor)>
        ensures { result ≡ field_at s.now self.at }
    {
        if s.len() < self.at {
            return None;
        }
        self.word(s)
    }

    // The rest of a record of this kind, whose row is f, from its length on. The row goes beside the kind, since it stands in the arm of the kind's number.
    #[tactic(auto, unfolding(crate::specs::Steps::judge_of))]
    fn judge(
        self,
        s: &[u8],
        kind: Kind,
        size: u64,
        f: Form,
        place: Place,
    ) -> Result<(Fields, Cursor), Fault>
        requires { (self.at ≤ length s.now) × (f ≡ form_of (kind_number kind)) }
        ensures { result ≡ judge_of s.now self.at (kind_number kind) size (form_of (kind_number kind)) place }
    {
        if size != f.length {
            return Err(Fault::BadLength);
        }
        let Some((all, next)) = self.fields(s, f.length == 12) else {
            return Err(Fault::Cut);
        };
        if f.is_outside(all) {
            return Err(Fault::BadField);
        }
        match misplaced(kind, all.first, place) {
            Some(fault) => Err(fault),
            None => Ok((all, next)),
        }
    }

    // The record at the cursor where only this kind is owed, which is neither a call nor a marker, by its row.
    #[tactic(auto, using(crate::proofs::Laws::field_past), unfolding(crate::specs::Steps::only_of))]
    fn only(self, s: &[u8], kind: Kind, f: Form) -> Result<(Fields, Cursor), Fault>
        requires { f ≡ form_of (kind_number kind) }
        ensures { result ≡ only_of s.now (kind_number kind) self.at }
    {
        let Some((head, c)) = self.head(s) else {
            return Err(Fault::Cut);
        };
        if head / 65536 != u64::from(kind) {
            return Err(Fault::BadKind);
        }
        // any place would do that is not too deep: only calls and markers are judged by the rest of it
        let place = Place {
            own: 0,
            left: 1,
            standing: Standing::Outside,
        };
        c.judge(s, kind, head % 65536, f, place)
    }

    // A fault of the record at the cursor: its place is the record's start.
    fn refusal(self, fault: Fault) -> Refusal
        ensures { result ≡ record { fault = fault; place = self.at } }
    {
        Refusal {
            fault,
            place: self.at,
        }
    }

    // The sheet record at the cursor, judged, with the cursor past it.
    #[tactic(auto, unfolding(crate::specs::Steps::form_of, meaning::specs::Format::ranges_of))]
    pub fn sheet(self, s: &[u8]) -> Result<(SheetRecord, Cursor), Refusal>
        ensures { reading_of result ≡ read_as as_sheet (judged s.now sheet self.at) }
    {
        match self.only(s, Kind::Sheet, row(12, 1, 1, 1, 64)) {
            Ok((all, next)) => {
                let read = SheetRecord {
                    edition: all.first,
                    routines: all.second,
                };
                Ok((read, next))
            }
            Err(fault) => Err(self.refusal(fault)),
        }
    }

    // The routine record at the cursor, judged, with the cursor past it.
    #[tactic(auto, unfolding(crate::specs::Steps::form_of, meaning::specs::Format::ranges_of))]
    pub fn routine(self, s: &[u8]) -> Result<(RoutineRecord, Cursor), Refusal>
        ensures { reading_of result ≡ read_as as_routine (judged s.now routine self.at) }
    {
        match self.only(s, Kind::Routine, row(8, 0, 4294967295, 0, 0)) {
            Ok((all, next)) => {
                let read = RoutineRecord {
                    organisation: all.first,
                };
                Ok((read, next))
            }
            Err(fault) => Err(self.refusal(fault)),
        }
    }

    // The rest of a construct's record of this kind, whose row is f, from its length on.
    fn rest(
        self,
        s: &[u8],
        kind: Kind,
        size: u64,
        f: Form,
        place: Place,
    ) -> Result<(Found, Cursor), Fault>
        requires { (self.at ≤ length s.now) × (f ≡ form_of (kind_number kind)) }
        ensures { result ≡ rest_of by_kind (kind_number kind) (judge_of s.now self.at (kind_number kind) size (form_of (kind_number kind)) place) }
    {
        let (all, next) = self.judge(s, kind, size, f, place)?;
        Ok((kind.found(all), next))
    }

    // The construct's record at the cursor, judged, by its kind, with the cursor past it; or a fault there.
    #[tactic(auto, using(crate::proofs::Laws::field_past, crate::proofs::Judging::construct_cut, crate::proofs::Judging::construct_none), unfolding(crate::specs::Steps::form_of, meaning::specs::Format::listed, meaning::specs::Format::ranges_of))]
    fn found(self, s: &[u8], place: Place) -> Result<(Found, Cursor), Fault>
        ensures { reading_from self.at result ≡ found_of (judged s.now (owed_at place) self.at) }
    {
        let Some((head, c)) = self.head(s) else {
            return Err(Fault::Cut);
        };
        let size = head % 65536;
        // The specification names this `match` on the number (docs/FORMS.md): kind, and in its row length, least and most of the first field, least
        // and most of the second.
        match head / 65536 {
            2 => c.rest(s, Kind::Primitive, size, row(8, 0, 4294967295, 0, 0), place),
            3 => c.rest(s, Kind::Sequence, size, row(8, 0, 1000, 0, 0), place),
            4 => c.rest(s, Kind::Alternative, size, row(8, 2, 256, 0, 0), place),
            5 => c.rest(s, Kind::HeadLoop, size, row(12, 0, 1000000, 0, 1), place),
            6 => c.rest(s, Kind::TailLoop, size, row(12, 1, 1000000, 0, 1), place),
            7 => c.rest(s, Kind::TimedLoop, size, row(8, 0, 4294967295, 0, 0), place),
            8 => c.rest(s, Kind::Call, size, row(8, 0, 4294967295, 0, 0), place),
            9 => c.rest(
                s,
                Kind::Marker,
                size,
                row(12, 0, 1000000, 0, 4294967295),
                place,
            ),
            _ => Err(Fault::BadKind),
        }
    }

    // The construct's record at the cursor, judged, by its kind, with the cursor past it.
    pub fn construct(self, s: &[u8], place: Place) -> Result<(Found, Cursor), Refusal>
        ensures { reading_of result ≡ found_of (judged s.now (owed_at place) self.at) }
    {
        self.found(s, place).map_err(|fault| self.refusal(fault))
    }

    // The record at the cursor where it is good and owns nothing. Its head is the length and the kind at once, 8 and 2, 8 and 8, 12 and 9, compared as
    // one number: the bar of speed for sheets of primitives needs it (docs/PERFORMANCE.md).
    #[tactic(auto, using(crate::proofs::Laws::field_past))]
    #[inline(always)]
    pub fn leaf(self, s: &[u8], place: Place) -> Option<(Leaf, Cursor)>
        ensures { result ≡ leaf_of (found_of (judged s.now (owed_at place) self.at)) }
    {
        // the end of the last record that is 8 long: the same for a whole list
        if s.len() < 8 {
            return None;
        }
        if s.len() - 8 < self.at {
            return None;
        }
        if place.left == 0 {
            return None;
        }
        let (head, c) = self.word(s)?;
        let (first, next) = c.word(s)?;
        let is_primitive = head == 131080;
        if is_primitive {
            return Some((Leaf::Primitive(first), next));
        }
        if head == 524296 {
            if is_bad_call(first, place.own) {
                return None;
            }
            return Some((Leaf::Call(first), next));
        }
        if head == 589836 {
            let may_stand = place.standing == Standing::Leading;
            let is_in_range = first <= 1000000;
            if !may_stand || !is_in_range {
                return None;
            }
            let (second, past) = next.word(s)?;
            return Some((Leaf::Marker(first, second), past));
        }
        None
    }
}
