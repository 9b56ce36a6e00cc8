// Replays stored sheets, and writes a line for each call: how many sheets, and whether all agree. The file data/README.md says how they were made.
#![tactic(auto)]

mod case;
mod checks;
mod parts;
mod reads;
mod runs;

use case::{Case, Sheet};
use replay::replay_file;
use std::rt::Files;

// Replays all sheets through one call: the test says whether it answers as is stored.
fn replay<R: Files + Print + Eprint, T: Fn(&Sheet) -> Option<bool>>(rt: &R, name: &str, test: T)
    requires { T.IsAlwaysCallable test }
{
    replay_file(
        rt,
        "sheets",
        name,
        Case::read,
        |file, c| c.passes(file, &test),
    );
}

// A line of report for each call.
fn main(rt: HostRuntime) {
    replay(&rt, "judge", reads::judged);
    replay(&rt, "line", reads::found);
    replay(&rt, "run", runs::agrees);
    replay(&rt, "check", checks::agrees);
    replay(&rt, "listing", parts::listed);
    replay(&rt, "page", parts::paged);
}
