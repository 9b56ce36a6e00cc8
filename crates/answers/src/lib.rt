// What a caller in C gets in place of the library's options and results: structs of numbers, each made from what it stands for.
// Kept: numbers and flags in place of options, results and enums, since the C interface has no other.
#![tactic(auto)]

ghost use Rattle.std.specs.Prelude.{◌≡◌};
ghost use Rattle.refusals.specs.Endings.{verdict_of as said_of};
ghost use Rattle.replies.specs.Returning.{returned};
ghost use Rattle.setpoints.specs.Saying.{member_of as setpoint_member};
ghost use Rattle.answers.specs.Answers.{maybe_for, answer_of, member_of, verdict_of, text_of};

use refusals::{Cause, Trouble};
use replies::Written;

// What stands in for a number that is missing.
const NONE: i64 = 0;

// A number and true, or 0 and false where there is none.
#[repr(C)]
#[derive(Clone, Copy)]
pub struct Maybe {
    pub number: i64,
    pub there: bool,
}

impl From<Option<i64>> for Maybe {
    ghost from_gives = { λ found maybe. maybe ≡ maybe_for found };

    fn from(found: Option<i64>) -> Self {
        Maybe {
            number: found.unwrap_or(NONE),
            there: found.is_some(),
        }
    }
}

// 0, how many numbers were written, and the flag; or the number of a refusal, count 0 and flag false.
#[repr(C)]
#[derive(Clone, Copy)]
pub struct Answer {
    pub count: usize,
    pub number: u8,
    pub flag: bool,
}

impl From<Result<Written, Cause>> for Answer {
    ghost from_gives = { λ reply answer. answer_of answer ≡ returned reply };

    fn from(reply: Result<Written, Cause>) -> Self {
        match reply {
            Ok(Written { count, flag }) => Answer {
                count,
                number: 0,
                flag,
            },
            Err(cause) => Answer {
                count: 0,
                number: cause.into(),
                flag: false,
            },
        }
    }
}

// 0 and a member of a set; or the number of a refusal and member 0.
#[repr(C)]
#[derive(Clone, Copy)]
pub struct Member {
    pub member: i64,
    pub number: u8,
}

impl From<Result<i64, Cause>> for Member {
    ghost from_gives = { λ closest answer. member_of answer ≡ setpoint_member closest };

    fn from(closest: Result<i64, Cause>) -> Self {
        match closest {
            Ok(member) => Member { member, number: 0 },
            Err(cause) => Member {
                member: NONE,
                number: cause.into(),
            },
        }
    }
}

// 0, line 0 and the count of lines; or the number of a refusal or finding, its line, and count 0.
#[repr(C)]
#[derive(Clone, Copy)]
pub struct Verdict {
    pub line: usize,
    pub count: usize,
    pub number: u8,
}

impl From<Result<usize, Trouble>> for Verdict {
    ghost from_gives = { λ answer verdict. verdict_of verdict ≡ said_of answer };

    fn from(answer: Result<usize, Trouble>) -> Self {
        match answer {
            Ok(count) => Verdict {
                line: 0,
                count,
                number: 0,
            },
            Err(Trouble::Refused(cause, line) | Trouble::Stopped(cause, line)) => Verdict {
                line,
                count: 0,
                number: cause.into(),
            },
        }
    }
}

// 0, line 0 and how many bytes were written; or the number of a refusal or finding, its line, and count 0.
// Kept: the fields of Verdict in another order, as the C interface lays them out.
#[repr(C)]
#[derive(Clone, Copy)]
pub struct Text {
    pub count: usize,
    pub line: usize,
    pub number: u8,
}

impl From<Result<usize, Trouble>> for Text {
    ghost from_gives = { λ answer text. text_of text ≡ said_of answer };

    fn from(answer: Result<usize, Trouble>) -> Self {
        let Verdict {
            line,
            count,
            number,
        } = answer.into();
        Text {
            count,
            line,
            number,
        }
    }
}
