// Which divider suits a clock (document 02, Item 7): `plan CLOCK RATE`, or without words the table of the two fixed clocks.
// A plan goes to standard output. What is wrong goes to standard error in one line: a refusal's begins 'plan: refused'.
#![tactic(auto)]

use rates::{Clock, Plan, Refusal};
use std::env::FillError;
use std::io;
use std::rt::Env;
use words::Unread;

// The most bytes of a word. Each has room of its own, since the program takes no heap.
const WORD: usize = 4096;

// Why a plan is not written.
#[derive(Drop)]
enum Fault {
    Usage,
    Word(&'static str, FillError),
    Clock(Unread),
    Rate(Unread),
    Refused(Refusal),
    Output(io::Error),
}

impl From<Refusal> for Fault {
    fn from(refusal: Refusal) -> Fault {
        Fault::Refused(refusal)
    }
}

impl From<io::Error> for Fault {
    fn from(error: io::Error) -> Fault {
        Fault::Output(error)
    }
}

impl Fault {
    // No Display: the reason of a call of the system is told by `system::complain`, which leaves out its number.
    fn tell(self, rt: &impl Eprint) {
        let line = match self {
            Fault::Usage => {
                "plan: usage: plan [CLOCK RATE], the clock 8, 7.3728 or a number of hertz"
            }
            Fault::Word(name, why) => return refuse_word(rt, name, why),
            Fault::Clock(Unread::TooLong) => "plan: the clock has more than 15 digits",
            Fault::Clock(Unread::NotANumber) => {
                "plan: the clock is not 8, 7.3728 or a number of hertz in decimal digits"
            }
            Fault::Rate(Unread::TooLong) => "plan: the rate has more than 15 digits",
            Fault::Rate(Unread::NotANumber) => {
                "plan: the rate is not a whole number in decimal digits"
            }
            Fault::Refused(Refusal::Clock) => {
                "plan: refused 9: an external clock is from 2000000 to 20000000 hertz"
            }
            Fault::Refused(Refusal::Rate) => {
                "plan: refused 10: the wanted rate is 9600, 19200, 38400, 57600 or 115200"
            }
            Fault::Output(error) => return system::complain(rt, "plan: standard output", error),
        };
        let _ = rt.eprintln(line);
    }
}

// A word could not be taken: it is longer than its room, since `run` has counted the words.
fn refuse_word(rt: &impl Eprint, name: &str, why: FillError) {
    let reason = match why {
        FillError::TooLong => "File name too long",
        FillError::NotPresent => "Invalid argument",
    };
    let _ = eprintln!(rt; "plan: {name}: {reason}");
}

// A float with two decimals, its whole part in a write of its own. What is above 0 and would show as 0.00 is told so.
fn say_hundredths(rt: &impl Print, x: f64) {
    let n = words::hundredths(x);
    if n == 0 && 0.0 < x {
        let _ = print!(rt; "under 0.01");
        return;
    }
    let _ = print!(rt; "{}", n / 100);
    let _ = print!(rt; ".{:02}", n % 100);
}

// A clock, which is named by this word, and a wanted rate.
#[derive(Clone, Copy)]
struct Question<'a> {
    word: &'a [u8],
    clock: Clock,
    rate: u32,
}

impl Question<'_> {
    // The line of a plan, each of its parts in a write of its own. What the last one says decides, and a part that could not be written is left out.
    fn say(self, rt: &impl Print, plan: Plan) -> io::Result<()> {
        let unit = match self.clock {
            Clock::External(_) => "Hz",
            Clock::Fixed8 | Clock::Fixed7 => "MHz",
        };
        let rate = self.rate;
        let divider = plan.divider;
        let wanted = rate as f64;
        let way = if wanted < plan.reached {
            "too fast"
        } else if plan.reached < wanted {
            "too slow"
        } else {
            "away: exact"
        };
        let _ = rt.write_all(self.word);
        let _ = print!(rt; " {unit}, ");
        let _ = print!(rt; "{rate}");
        let _ = print!(rt; ": divider ");
        let _ = print!(rt; "{divider}");
        let _ = print!(rt; " (hexadecimal ");
        let _ = print!(rt; "{divider:02X}");
        let _ = print!(rt; ") reaches ");
        say_hundredths(rt, plan.reached);
        let _ = print!(rt; " Hz, which is ");
        say_hundredths(rt, plan.distance);
        let _ = print!(rt; " Hz or ");
        say_hundredths(rt, words::percent(plan.distance, rate));
        println!(rt; " per cent {way}")
    }

    fn answer(self, rt: &impl Print) -> Result<(), Fault> {
        let plan = rates::plan_for(self.clock, self.rate)?;
        self.say(rt, plan)?;
        Ok(())
    }
}

// A fixed clock at each rate, as far as it can be written.
fn table(rt: &impl Print, word: &[u8], clock: Clock) -> Result<(), Fault> {
    for rate in rates::RATES {
        Question { word, clock, rate }.answer(rt)?;
    }
    Ok(())
}

// The two words of a question.
fn ask(rt: &impl Print, word: &[u8], rate: &[u8]) -> Result<(), Fault> {
    let clock = words::clock(word).map_err(Fault::Clock)?;
    let rate = words::rate(rate).map_err(Fault::Rate)?;
    Question { word, clock, rate }.answer(rt)
}

fn run(rt: &(impl Print + Env)) -> Result<(), Fault> {
    match system::word_count(rt) {
        1 => {
            table(rt, b"8", Clock::Fixed8)?;
            table(rt, b"7.3728", Clock::Fixed7)
        }
        3 => {
            let mut clock = [0u8; WORD];
            let mut rate = [0u8; WORD];
            let n = rt
                .arg(1, &mut clock)
                .map_err(|why| Fault::Word("the clock", why))?;
            let m = rt
                .arg(2, &mut rate)
                .map_err(|why| Fault::Word("the rate", why))?;
            ask(rt, &clock[..n], &rate[..m])
        }
        _ => Err(Fault::Usage),
    }
}

fn main(rt: HostRuntime) {
    if let Err(fault) = run(&rt) {
        fault.tell(&rt);
    }
}
