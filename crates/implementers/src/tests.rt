// What these types give, and what those of the library give by values.
ghost use Rattle.std.specs.Prelude.{◌<◌};
ghost use Rattle.meaning.specs.Sheet.{registers};
ghost use Rattle.writer.specs.Written.{Fits};
ghost use Rattle.set_values.specs.Value.{set_of};

use super::*;
use forms::read_arg;
use interval::Interval;
use limits::{INNER, REGISTERS, WORK};
use point_forms::Values;
use refusals::Cause;
use set_forms::Sets;
use set_values::Registers;

const FORMS: [(&[u8], bool); 4] = [
    (b"(add 1 (reg 3))", true),
    (b"(le (reg 3) 1)", true),
    (b"(not (reg 15))", true),
    (b"(sub 1 (neg 3))", false),
];

#[test]
fn the_reading_takes_values(rt: HostRuntime) {
    for (text, reads) in FORMS {
        let got = read_arg(text, INNER, &mut Reads);
        assert_eq!(rt; got.map(|got| got.value), Some(reads));
    }
}

#[test]
fn numbers_are_taken_as_values(rt: HostRuntime) {
    let mut values = Values {
        state: &[0; REGISTERS],
    };
    assert_eq!(rt; values.one(Op1::Neg, Ok(1000)), Ok(-1000));
    assert_eq!(rt; values.two(Op2::Sub, Ok(3000), Ok(1000)), Ok(2000));
    let trouble = Err(Cause::FarLiteral);
    assert_eq!(rt; values.two(Op2::Div, trouble, Ok(0)), trouble);
}

#[test]
fn sets_are_taken_as_values(rt: HostRuntime) {
    let registers = Registers::start();
    let mut work = [0i64; WORK];
    let mut sets = Sets {
        registers: &registers,
        work: &mut work,
    };
    let one = Ok(FormSet::from(Interval { lo: 1000, hi: 1000 }));
    let few = Ok(FormSet::from(Interval { lo: 0, hi: 2000 }));
    let sum = Ok(FormSet::from(Interval { lo: 1000, hi: 3000 }));
    let less = Ok(FormSet::from(Interval { lo: -2000, hi: 0 }));
    assert_eq!(rt; sets.one(Op1::Neg, few), less);
    assert_eq!(rt; sets.two(Op2::Add, one, few), sum);
    assert_eq!(rt; sets.two(Op2::Div, one, few), Err(Cause::ZeroDivisor));
}

// Writes the text of register r through the bound of the trait.
fn row<T: RegisterText>(r: usize, set: &FormSet, out: &mut Writer<u8>)
    requires { (r < registers) × Fits (T.text r (set_of set.now)) out.old }
{
    T::write_lent(out, r, set);
}

#[test]
fn a_text_is_written_of_a_value(rt: HostRuntime) {
    let set = FormSet::from(Interval { lo: 0, hi: 2000 });
    let mut room = [0u8; 4];
    let mut out = Writer::new(&mut room);
    IntervalCount::write(&mut out, 2, set);
    row::<IntervalCount>(3, &set, &mut out);
    assert_eq!(rt; room, [2, 1, 3, 1]);
}
