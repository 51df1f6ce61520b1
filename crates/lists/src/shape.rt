// The shape of a list: how many fields a rule has, which of them are dates, where its numbers stand, and the refusals of a
// list whose shape is wrong.
ghost use Rattle.std.specs.Prelude.{◌≡◌};
ghost use Rattle.lists.specs.Rules.{shape_of, flag_of, lent, rules_in, offset_of};
ghost use Rattle.lists.specs.Faults.{in_list, room_fault, shape_fault};

use ranges::refusal::{Cause, Refusal, refuse};

// The most fields that a rule has.
pub const MOST_FIELDS: usize = 8;

// The most rules that a list has.
pub const MOST_RULES: usize = 1024;

// The most numbers that a list has.
pub const MOST_NUMBERS: usize = MOST_RULES * MOST_FIELDS * 2;

// What a list's numbers mean: the number of fields of a rule, and the flags that say which fields are dates, bit f for field f.
// Flags past d, and bits past the eighth, alter nothing.
#[derive(Clone, Copy)]
pub struct Shape {
    pub d: usize,
    pub dates: u32,
}

// A list of rules as it is lent: its numbers, and what they mean.
#[derive(Clone, Copy)]
pub struct RuleList<'a> {
    pub shape: Shape,
    pub numbers: &'a [u32],
}

// Makes the shape of a list of d fields a rule, whatever d is, none of them a date.
pub fn shape_of(d: usize) -> Shape
    ensures { result ≡ shape_of d }
{
    Shape { d, dates: 0 }
}

// Says whether field f is a date: false from f = 8 on.
pub fn is_date(shape: Shape, f: u32) -> bool
    ensures { result ≡ flag_of shape f }
{
    if MOST_FIELDS <= f as usize {
        return false;
    }
    (shape.dates >> f) % 2 == 1
}

// Says where in a list the low of field f of rule i stands, for rules of d fields; its high stands one further.
pub fn offset_of(d: u16, i: u16, f: u16) -> usize
    ensures { result ≡ offset_of d i f }
{
    (i as usize * d as usize + f as usize) * 2
}

// Gives n, the number of rules of a list: its length over 2d, rounded down, and 0 where d is 0.
pub fn rules_in(list: &RuleList) -> usize
    ensures { result ≡ rules_in (lent list.now) }
{
    let d = list.shape.d;
    if d == 0 {
        return 0;
    }
    list.numbers.len() / 2 / d
}

// Says whether a list has a rule of this number, whose fields are 1 to 8: its last field ends within the list.
pub fn in_list(list: &RuleList, rule: u16) -> bool
    ensures { result ≡ in_list (lent list.now) rule }
{
    let d = list.shape.d;
    if d < 1 {
        return false;
    }
    if MOST_FIELDS < d {
        return false;
    }
    offset_of(d as u16, rule, d as u16) <= list.numbers.len()
}

// Refuses a list that is lent in full, with room for the most rules, by the first of 1 and 2 that applies: 2 is any other length
// than the full one.
pub fn room_fault(list: &RuleList) -> Result<(), Refusal>
    ensures { result ≡ room_fault (lent list.now) }
{
    let d = list.shape.d;
    if d < 1 {
        return Err(refuse(Cause::BadFields));
    }
    if MOST_FIELDS < d {
        return Err(refuse(Cause::BadFields));
    }
    if list.numbers.len() != MOST_RULES * d * 2 {
        return Err(refuse(Cause::BadLength));
    }
    Ok(())
}

// Refuses a list's shape by the first of 1, 2 and 3 that applies.
pub fn shape_fault(list: &RuleList) -> Result<(), Refusal>
    ensures { result ≡ shape_fault (lent list.now) }
{
    let d = list.shape.d;
    if d < 1 {
        return Err(refuse(Cause::BadFields));
    }
    if MOST_FIELDS < d {
        return Err(refuse(Cause::BadFields));
    }
    let n = rules_in(list);
    if n * d * 2 != list.numbers.len() {
        return Err(refuse(Cause::BadLength));
    }
    if MOST_RULES < n {
        return Err(refuse(Cause::TooManyRules));
    }
    Ok(())
}
