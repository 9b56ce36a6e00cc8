// Reading a form from its bytes: its word, its arguments, its brackets, and what is made of them on the way.
#![tactic(auto)]

ghost use Rattle.std.specs.Prelude.{◌≡◌, ◌≤◌, ◌<◌, ◌≢◌, ◌∷◌, [], ℤ, Bool, Err, leb};
ghost use Rattle.meaning.specs.Sheet.{registers};
ghost use Rattle.meaning.specs.Reading.{map_got, closed as closed_at, head, start as start_of, arg as arg_at, form as form_at, Algebra as Made};
ghost use Rattle.literals.specs.Answer.{got_of, held};
ghost use Rattle.forms.specs.Answer.{op1_of, op2_of, head_of, value_or, sizes};

use limits::INNER;
use literals::{Got, at, read_literal, read_register, tail};
use refusals::Cause;

// The operations of one argument that a form names.
#[derive(Clone, Copy, Debug, PartialEq, Eq)]
pub enum Op1 {
    Neg,
    Abs,
    Not,
}

// The operations of two arguments.
#[derive(Clone, Copy, Debug, PartialEq, Eq)]
pub enum Op2 {
    Add,
    Sub,
    Mul,
    Div,
    Rem,
    Le,
    Lt,
    Ne,
    And,
    Or,
}

// How a form begins: its bracket, its word, a space.
// Kept: `Reg` stands for no missing value; the other two hold the operation that they name.
#[derive(Clone, Copy, Debug, PartialEq, Eq)]
pub enum Head {
    Reg,
    One(Op1),
    Two(Op2),
}

// What is made of a form while it is read: of a literal (none if it is beyond MIN..MAX), of a register, of an operation's arguments.
pub trait Algebra {
    type Value: Copy;

    ghost Meaning: { Type 0 };

    ghost meaning: { Self.Value → Meaning };

    ghost algebra: { Self → Made Meaning };

    fn literal(&mut self, z: Option<i64>) -> Self::Value
        ensures value { (w : ℤ) → z ≡ held w → meaning result ≡ (algebra self.old).on_lit w }
        ensures same { algebra self.new ≡ algebra self.old };

    fn register(&mut self, r: usize) -> Self::Value
        requires { r < registers }
        ensures value { meaning result ≡ (algebra self.old).on_reg r }
        ensures same { algebra self.new ≡ algebra self.old };

    fn one(&mut self, op: Op1, a: Self::Value) -> Self::Value
        ensures value { meaning result ≡ (algebra self.old).on1 (op1_of op) (meaning a) }
        ensures same { algebra self.new ≡ algebra self.old };

    fn two(&mut self, op: Op2, a: Self::Value, b: Self::Value) -> Self::Value
        ensures value { meaning result ≡ (algebra self.old).on2 (op2_of op) (meaning a) (meaning b) }
        ensures same { algebra self.new ≡ algebra self.old };

    // The same of values that are lent, which the reading calls. An algebra may write this and `two_lent` itself, as all of this library do, so that no value is copied.
    fn one_lent(&mut self, op: Op1, a: &Self::Value) -> Self::Value
        ensures value { meaning result ≡ (algebra self.old).on1 (op1_of op) (meaning a.now) }
        ensures same { algebra self.new ≡ algebra self.old }
    {
        self.one(op, *a)
    }

    fn two_lent(&mut self, op: Op2, a: &Self::Value, b: &Self::Value) -> Self::Value
        ensures value { meaning result ≡ (algebra self.old).on2 (op2_of op) (meaning a.now) (meaning b.now) }
        ensures same { algebra self.new ≡ algebra self.old }
    {
        self.two(op, *a, *b)
    }
}

// How a form begins.
// Kept: the bytes one by one; by slice patterns of the text it was tried, and the proof did not close, as the arms' goals had no fact of the bytes that they test.
pub fn read_head(text: &[u8]) -> Option<Head>
    ensures { head_of result ≡ head text.now }
{
    if at(text, 0) != b'(' {
        return None;
    }
    let a = at(text, 1);
    let b = at(text, 2);
    let c = at(text, 3);
    if c == b' ' {
        return short_word(a, b);
    }
    if at(text, 4) == b' ' {
        long_word(a, b, c)
    } else {
        None
    }
}

// The words of two letters.
#[tactic(auto, unfolding(meaning::specs::Reading::head, meaning::specs::Reading::begins))]
fn short_word(a: u8, b: u8) -> Option<Head>
    ensures { head_of result ≡ head (40 ∷ a ∷ b ∷ 32 ∷ []) }
{
    match &[a, b] {
        b"le" => Some(Head::Two(Op2::Le)),
        b"lt" => Some(Head::Two(Op2::Lt)),
        b"ne" => Some(Head::Two(Op2::Ne)),
        b"or" => Some(Head::Two(Op2::Or)),
        _ => None,
    }
}

// The words of three letters.
#[tactic(auto, unfolding(meaning::specs::Reading::head, meaning::specs::Reading::begins))]
fn long_word(a: u8, b: u8, c: u8) -> Option<Head>
    requires { c ≢ 32 }
    ensures { head_of result ≡ head (40 ∷ a ∷ b ∷ c ∷ 32 ∷ []) }
{
    match &[a, b, c] {
        b"reg" => Some(Head::Reg),
        b"neg" => Some(Head::One(Op1::Neg)),
        b"abs" => Some(Head::One(Op1::Abs)),
        b"not" => Some(Head::One(Op1::Not)),
        b"add" => Some(Head::Two(Op2::Add)),
        b"sub" => Some(Head::Two(Op2::Sub)),
        b"mul" => Some(Head::Two(Op2::Mul)),
        b"div" => Some(Head::Two(Op2::Div)),
        b"rem" => Some(Head::Two(Op2::Rem)),
        b"and" => Some(Head::Two(Op2::And)),
        _ => None,
    }
}

// Where a form's first argument starts.
// Kept: beside `read_head`, since this is promised of each text, and the length of a head that is found would be said of no other.
#[tactic(auto, unfolding(meaning::specs::Reading::start))]
pub fn start(text: &[u8]) -> usize
    ensures { result ≡ start_of text.now }
{
    if at(text, 3) == b' ' { 4 } else { 5 }
}

// The closing bracket at i, which ends a value.
#[tactic(auto, unfolding(meaning::specs::Reading::closed))]
fn closed<T: Copy>(text: &[u8], i: usize, value: T) -> Option<Got<T>>
    requires { i ≤ 18446744073709551614 }
    ensures { got_of result ≡ closed_at text.now i value }
{
    if at(text, i) == b')' {
        Some(Got { value, len: i + 1 })
    } else {
        None
    }
}

// An argument, with `depth` brackets left: a form if it opens a bracket, else a literal.
#[cycle(reading)]
pub fn read_arg<A: Algebra>(text: &[u8], depth: usize, algebra: &mut A) -> Option<Got<A::Value>>
    ensures value { map_got A.meaning (got_of result) ≡ arg_at (A.algebra algebra.old) depth text.now }
    ensures same { A.algebra algebra.new ≡ A.algebra algebra.old }
{
    if at(text, 0) == b'(' {
        if depth == 0 {
            None
        } else {
            read_form(text, depth - 1, algebra)
        }
    } else {
        let z = read_literal(text)?;
        Some(Got {
            value: algebra.literal(z.value),
            len: z.len,
        })
    }
}

// A form, with `depth` brackets left inside its own. The second argument's text starts in the middle of the form's.
#[cycle(reading)]
fn read_form<A: Algebra>(text: &[u8], depth: usize, algebra: &mut A) -> Option<Got<A::Value>>
    ensures value { map_got A.meaning (got_of result) ≡ form_at (A.algebra algebra.old) depth text.now }
    ensures same { A.algebra algebra.new ≡ A.algebra algebra.old }
{
    let k = start(text);
    match read_head(text)? {
        Head::Reg => {
            let r = read_register(tail(text, k))?;
            closed(text, k + r.len, algebra.register(r.value))
        }
        Head::One(op) => {
            let a = read_arg(tail(text, k), depth, algebra)?;
            closed(text, k + a.len, algebra.one_lent(op, &a.value))
        }
        Head::Two(op) => {
            let a = read_arg(tail(text, k), depth, algebra)?;
            if at(text, k + a.len) != b' ' {
                return None;
            }
            let j = k + a.len + 1;
            let b = read_arg(&text[j..], depth, algebra)?;
            closed(text, j + b.len, algebra.two_lent(op, &a.value, &b.value))
        }
    }
}

// What the argument at the front of the text comes to, refused where none can be read.
#[tactic(auto, using(crate::proofs::Forms::value_none, crate::proofs::Forms::value_some))]
pub fn value<T: Copy, A: Algebra<Value = Result<T, Cause>>>(
    text: &[u8],
    algebra: &mut A,
) -> Result<T, Cause>
    ensures { A.meaning result ≡ value_or (A.meaning (Err Cause.Ungrammatical)) (arg_at (A.algebra algebra.old) 7 text.now) }
{
    read_arg(text, INNER, algebra)
        .ok_or(Cause::Ungrammatical)?
        .value
}

// Tells whether a literal is beyond MIN..MAX: 0 where none is.
// Kept: a number in place of a bool, since a bool leaves seven bytes of what the walk hands on unused, and it copies these too: judging takes 1.8 times as long so.
#[derive(Clone, Copy)]
struct Sizes;

impl Algebra for Sizes {
    type Value = usize;

    ghost Meaning = { Bool };

    ghost meaning = { λ n. leb 1 n };

    ghost algebra = { λ s. sizes };

    fn literal(&mut self, z: Option<i64>) -> usize {
        usize::from(z.is_none())
    }

    fn register(&mut self, _r: usize) -> usize {
        0
    }

    fn one(&mut self, op: Op1, a: usize) -> usize {
        self.one_lent(op, &a)
    }

    fn two(&mut self, op: Op2, a: usize, b: usize) -> usize {
        self.two_lent(op, &a, &b)
    }

    fn one_lent(&mut self, _op: Op1, a: &usize) -> usize {
        *a
    }

    fn two_lent(&mut self, _op: Op2, a: &usize, b: &usize) -> usize {
        (*a).max(*b)
    }
}

// How many bytes an argument takes, with `depth` brackets left, and whether a literal in it is beyond MIN..MAX.
pub fn arg(text: &[u8], depth: usize) -> Option<Got<bool>>
    ensures { got_of result ≡ arg_at sizes depth text.now }
{
    let far = read_arg(text, depth, &mut Sizes)?;
    Some(Got {
        value: 1 <= far.value,
        len: far.len,
    })
}
