// Plans a batch of records (docs/CASES.md, "The format of plans"): standard input to standard output.
#![tactic(auto)]

ghost use Rattle.std.specs.Prelude.{◌≡◌, ◌≤◌, length};
ghost use Rattle.std.specs.Float.{binary64};
ghost use Rattle.std.specs.Float.Ieee.{of_bits};

use rates::{Clock, Planned};
use std::fmt;
use std::io::Read;

// The bytes of a record and of an answer.
const RECORD: usize = 13;

const ANSWER: usize = 18;

// So many records are read at a time, and their answers written at once: the program takes no heap.
const RECORDS: usize = 3640;

// Why a batch ends early. The line on standard error says it, and the exit status does not.
#[derive(Clone, Copy)]
enum Fault {
    Output,
    Record,
}

impl fmt::Display for Fault {
    fn fmt<W: fmt::Write>(&self, f: &mut fmt::Formatter<W>) -> fmt::Result {
        match self {
            Fault::Output => write!(f, "standard output cannot be written"),
            Fault::Record => write!(f, "a record is not well formed"),
        }
    }
}

// The float of a pattern. Every NaN is one value: of those patterns the language makes no float itself.
fn float_of(pattern: u64) -> f64
    ensures { result ≡ of_bits binary64 pattern }
{
    if 0x7FF0_0000_0000_0000 < pattern % 0x8000_0000_0000_0000 {
        0.0 / 0.0
    } else {
        f64::from_bits(pattern)
    }
}

// The clock and the wanted rate of a record, unless its clock is none.
fn question(record: [u8; RECORD]) -> Option<(Clock, u32)> {
    let frequency = <[u8; 8]>::try_from(&record[1..9]).unwrap();
    let rate = <[u8; 4]>::try_from(&record[9..]).unwrap();
    let clock = match record[0] {
        0 => Clock::Fixed8,
        1 => Clock::Fixed7,
        2 => Clock::External(float_of(u64::from_le_bytes(frequency))),
        _ => return None,
    };
    Some((clock, u32::from_le_bytes(rate)))
}

// What is planned, in numbers, as the format has it.
fn answer(clock: Clock, rate: u32) -> [u8; ANSWER] {
    let planned = Planned::of(rates::plan_for(clock, rate));
    let plan = planned.plan;
    let mut answer = [0; ANSWER];
    answer[0] = planned.refusal;
    answer[1] = plan.divider;
    answer[2..10].copy_from_slice(&plan.reached.to_le_bytes());
    answer[10..].copy_from_slice(&plan.distance.to_le_bytes());
    answer
}

// Answers the records up to one that is none, and says how many. By their number: zipped with the answers, the goal of the count stayed open.
fn take(records: &[[u8; RECORD]], answers: &mut [[u8; ANSWER]; RECORDS]) -> usize
    requires { length records.now ≤ 3640 }
    ensures { result ≤ length records.now }
{
    for (i, record) in records.iter().enumerate() {
        let Some((clock, rate)) = question(*record) else {
            return i;
        };
        answers[i] = answer(clock, rate);
    }
    records.len()
}

// A proved loop has to end, and nothing says that the input does: so it has as many turns as no batch uses up.
fn run(rt: &impl Print, records: &mut impl Read) -> Result<(), Fault> {
    let mut input = [[0; RECORD]; RECORDS];
    let mut answers = [[0; ANSWER]; RECORDS];
    for _ in 0..u64::MAX {
        let n = system::fill(records, input.as_flattened_mut());
        let whole = &input[..n / RECORD];
        let done = take(whole, &mut answers);
        rt.write_all(answers[..done].as_flattened())
            .map_err(|_| Fault::Output)?;
        if done < whole.len() || n % RECORD != 0 {
            return Err(Fault::Record);
        }
        if n < RECORD * RECORDS {
            return Ok(());
        }
    }
    Ok(())
}

fn main(rt: HostRuntime) {
    let mut records = rt.stdin();
    if let Err(fault) = run(&rt, &mut records) {
        let _ = eprintln!(rt; "replan: {fault}");
    }
}
