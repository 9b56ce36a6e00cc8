// The point operations. A case is four numbers: both arguments, 1 or 0 for a result or none, and the result.
use replay::{next_number, read_number, replay_file};
use std::io::Read;
use std::rt::Files;

// Both arguments, and the answer expected, which is a result or none.
#[derive(Clone, Copy)]
struct Case {
    x: i64,
    y: i64,
    expected: Option<Option<i64>>,
}

// The answer that is stored so; none where no answer is.
fn answer_in(is: i64, value: i64) -> Option<Option<i64>> {
    match is {
        0 => Some(None),
        1 => Some(Some(value)),
        _ => None,
    }
}

// The next case of the file, if it has one more: there is one where all bytes of x are.
fn read_case<F: Read>(file: &mut F) -> Option<Case> {
    let x = next_number(file)?;
    let y = read_number(file);
    let is = read_number(file);
    let value = read_number(file);
    Some(Case {
        x,
        y,
        expected: answer_in(is, value),
    })
}

// Replays the cases of an operation that may have no result.
pub fn replay<R: Files + Print + Eprint, C: Fn(i64, i64) -> Option<i64>>(
    rt: &R,
    name: &str,
    call: C,
)
    requires { C.IsAlwaysCallable call }
{
    replay_file(
        rt,
        name,
        name,
        read_case,
        |_, c| Some(call(c.x, c.y) == c.expected?),
    );
}

// Replays the cases of an operation that always has a result.
pub fn replay_plain<R: Files + Print + Eprint, C: Fn(i64, i64) -> i64>(rt: &R, name: &str, call: C)
    requires { C.IsAlwaysCallable call }
{
    replay(rt, name, |x, y| Some(call(x, y)));
}
