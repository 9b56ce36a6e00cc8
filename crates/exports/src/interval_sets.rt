// Sets: each function is one call of a function of `number_intervals`. A set is the ends of its intervals in a slice, its flag beside it. Refused in this
// order: the left set by `TooMany`, then `NotNormal`; the right set likewise; `EmptySet` of nearest and within; `TooShort` of work; `NoRoom` of out.
ghost use Rattle.meaning.specs.Number as point;
ghost use Rattle.meaning.specs.Promises.{Works1, Works2, Gives1, Gives2, Unites, Meets, Nears, Reaches};
ghost use Rattle.answers.specs.Answers.{answer_of, member_of};

use answers::{Answer, Member};

// The set of the negatives of all members.
#[unsafe(no_mangle)]
pub extern "C" fn juwenfo_set_neg(
    left: &[i64],
    flag: bool,
    work: &mut [i64],
    out: &mut [i64],
) -> Answer
    ensures { Works1 point.neg left.now flag out.old work.old (answer_of result) out.new work.new }
{
    number_intervals::neg(left, flag, work, out).into()
}

// The set of the magnitudes of all members.
#[unsafe(no_mangle)]
pub extern "C" fn juwenfo_set_abs(
    left: &[i64],
    flag: bool,
    work: &mut [i64],
    out: &mut [i64],
) -> Answer
    ensures { Works1 point.abs left.now flag out.old work.old (answer_of result) out.new work.new }
{
    number_intervals::abs(left, flag, work, out).into()
}

// The set of the sums of all members.
#[unsafe(no_mangle)]
pub extern "C" fn juwenfo_set_add(
    left: &[i64],
    flag: bool,
    right: &[i64],
    work: &mut [i64],
    out: &mut [i64],
) -> Answer
    ensures { Works2 point.add left.now flag right.now out.old work.old (answer_of result) out.new work.new }
{
    number_intervals::add(left, flag, right, work, out).into()
}

// The set of the differences of all members.
#[unsafe(no_mangle)]
pub extern "C" fn juwenfo_set_sub(
    left: &[i64],
    flag: bool,
    right: &[i64],
    work: &mut [i64],
    out: &mut [i64],
) -> Answer
    ensures { Works2 point.sub left.now flag right.now out.old work.old (answer_of result) out.new work.new }
{
    number_intervals::sub(left, flag, right, work, out).into()
}

// A set that holds the products of all members.
#[unsafe(no_mangle)]
pub extern "C" fn juwenfo_set_mul(
    left: &[i64],
    flag: bool,
    right: &[i64],
    work: &mut [i64],
    out: &mut [i64],
) -> Answer
    ensures { Works2 point.mul left.now flag right.now out.old work.old (answer_of result) out.new work.new }
{
    number_intervals::mul(left, flag, right, work, out).into()
}

// A set that holds the quotients of all members; a zero in the divisor sets the flag, if the left set has a member.
#[unsafe(no_mangle)]
pub extern "C" fn juwenfo_set_div(
    left: &[i64],
    flag: bool,
    right: &[i64],
    work: &mut [i64],
    out: &mut [i64],
) -> Answer
    ensures { Works2 point.div left.now flag right.now out.old work.old (answer_of result) out.new work.new }
{
    number_intervals::div(left, flag, right, work, out).into()
}

// A set that holds the remainders of all members; a zero in the divisor sets the flag, if the left set has a member.
#[unsafe(no_mangle)]
pub extern "C" fn juwenfo_set_rem(
    left: &[i64],
    flag: bool,
    right: &[i64],
    work: &mut [i64],
    out: &mut [i64],
) -> Answer
    ensures { Works2 point.rem left.now flag right.now out.old work.old (answer_of result) out.new work.new }
{
    number_intervals::rem(left, flag, right, work, out).into()
}

// The set of what `not` gives of all members: none, 0, 1000 or both.
#[unsafe(no_mangle)]
pub extern "C" fn juwenfo_set_not(left: &[i64], out: &mut [i64]) -> Answer
    ensures { Gives1 point.not' left.now out.old (answer_of result) out.new }
{
    number_intervals::not(left, out).into()
}

// A set that holds what `and` gives of all members: none, 0, 1000 or both; it may hold more where a set is empty.
#[unsafe(no_mangle)]
pub extern "C" fn juwenfo_set_and(left: &[i64], right: &[i64], out: &mut [i64]) -> Answer
    ensures { Gives2 point.and left.now right.now out.old (answer_of result) out.new }
{
    number_intervals::and(left, right, out).into()
}

// A set that holds what `or` gives of all members: none, 0, 1000 or both; it may hold more where a set is empty.
#[unsafe(no_mangle)]
pub extern "C" fn juwenfo_set_or(left: &[i64], right: &[i64], out: &mut [i64]) -> Answer
    ensures { Gives2 point.or left.now right.now out.old (answer_of result) out.new }
{
    number_intervals::or(left, right, out).into()
}

// The set of what `<=` gives of all members: none, 0, 1000 or both.
#[unsafe(no_mangle)]
pub extern "C" fn juwenfo_set_le(left: &[i64], right: &[i64], out: &mut [i64]) -> Answer
    ensures { Gives2 point.le left.now right.now out.old (answer_of result) out.new }
{
    number_intervals::int_le(left, right, out).into()
}

// The set of what `<` gives of all members: none, 0, 1000 or both.
#[unsafe(no_mangle)]
pub extern "C" fn juwenfo_set_lt(left: &[i64], right: &[i64], out: &mut [i64]) -> Answer
    ensures { Gives2 point.lt left.now right.now out.old (answer_of result) out.new }
{
    number_intervals::int_lt(left, right, out).into()
}

// A set that holds what `!=` gives of all members: 0, 1000 or both; 1000 where a set is empty.
#[unsafe(no_mangle)]
pub extern "C" fn juwenfo_set_ne(left: &[i64], right: &[i64], out: &mut [i64]) -> Answer
    ensures { Gives2 point.ne left.now right.now out.old (answer_of result) out.new }
{
    number_intervals::int_ne(left, right, out).into()
}

// The set of the members of either.
#[unsafe(no_mangle)]
pub extern "C" fn juwenfo_set_union(left: &[i64], right: &[i64], out: &mut [i64]) -> Answer
    ensures { Unites left.now right.now out.old (answer_of result) out.new }
{
    number_intervals::union(left, right, out).into()
}

// The set of the members of both.
#[unsafe(no_mangle)]
pub extern "C" fn juwenfo_set_intersect(left: &[i64], right: &[i64], out: &mut [i64]) -> Answer
    ensures { Meets left.now right.now out.old (answer_of result) out.new }
{
    number_intervals::intersect(left, right, out).into()
}

// The member closest to x, the lower one on a tie.
#[unsafe(no_mangle)]
pub extern "C" fn juwenfo_set_nearest(set: &[i64], x: i64) -> Member
    ensures { Nears set.now x (member_of result) }
{
    number_intervals::nearest(set, x).into()
}

// The set of the members within a distance of x.
#[unsafe(no_mangle)]
pub extern "C" fn juwenfo_set_within(set: &[i64], x: i64, distance: u64, out: &mut [i64]) -> Answer
    ensures { Reaches set.now x distance out.old (answer_of result) out.new }
{
    number_intervals::within(set, x, distance, out).into()
}
