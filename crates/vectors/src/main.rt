// Replays stored answers, and writes a line for each operation: how many cases, and whether all agree. The answers are those of the original Rust, and where it has
// none those of a second reading of its definitions. The cases are files of data/, whose README says how they were made.
#![tactic(auto)]

mod case;
mod closest;
mod points;
mod set_cases;

use case::Case;
use replay::replay_file;
use std::rt::Files;

// The set calls, a file each.
fn replay_sets<R: Files + Print + Eprint>(rt: &R) {
    set_cases::replay(rt, "neg", |left, flag, _, work, out| {
        number_intervals::neg(left, flag, work, out)
    });
    set_cases::replay(rt, "abs", |left, flag, _, work, out| {
        number_intervals::abs(left, flag, work, out)
    });
    set_cases::replay_plain(rt, "not", |left, _, out| number_intervals::not(left, out));
    set_cases::replay(rt, "add", number_intervals::add);
    set_cases::replay(rt, "sub", number_intervals::sub);
    set_cases::replay(rt, "mul", number_intervals::mul);
    set_cases::replay(rt, "div", number_intervals::div);
    set_cases::replay(rt, "rem", number_intervals::rem);
    set_cases::replay_plain(rt, "and", number_intervals::and);
    set_cases::replay_plain(rt, "or", number_intervals::or);
    set_cases::replay_plain(rt, "le", number_intervals::int_le);
    set_cases::replay_plain(rt, "lt", number_intervals::int_lt);
    set_cases::replay_plain(rt, "ne", number_intervals::int_ne);
    set_cases::replay_plain(rt, "union", number_intervals::union);
    set_cases::replay_plain(rt, "intersect", number_intervals::intersect);
}

// The point operations, a file each.
fn replay_points<R: Files + Print + Eprint>(rt: &R) {
    points::replay_plain(rt, "point_neg", |x, _| number::neg(x));
    points::replay_plain(rt, "point_abs", |x, _| number::abs(x));
    points::replay_plain(rt, "point_not", |x, _| number::not(x));
    points::replay_plain(rt, "point_add", number::add);
    points::replay_plain(rt, "point_sub", number::sub);
    points::replay_plain(rt, "point_mul", number::mul);
    points::replay(rt, "point_div", number::div);
    points::replay(rt, "point_rem", number::rem);
    points::replay_plain(rt, "point_and", number::and);
    points::replay_plain(rt, "point_or", number::or);
    points::replay_plain(rt, "point_le", number::le);
    points::replay_plain(rt, "point_lt", number::lt);
    points::replay_plain(rt, "point_ne", number::ne);
    points::replay(rt, "point_next", |x, _| number::next(x));
    points::replay(rt, "point_prev", |x, _| number::prev(x));
}

// The calls for the closest setpoint, a file each.
fn replay_closest<R: Files + Print + Eprint>(rt: &R) {
    replay_file(
        rt,
        "nearest",
        "nearest",
        Case::read,
        |file, c| c.nearest_agrees(file),
    );
    replay_file(
        rt,
        "within",
        "within",
        Case::read,
        |file, c| c.within_agrees(file),
    );
}

// A line of report for each operation.
fn main(rt: HostRuntime) {
    replay_sets(&rt);
    replay_points(&rt);
    replay_closest(&rt);
}
