// Which divider suits a clock (document 02, Item 7).
#![tactic(auto)]

ghost use Rattle.std.specs.Prelude.{◌≡◌};
ghost use Rattle.rates.specs.Clocks.{in_range, hertz as hertz_of};
ghost use Rattle.rates.specs.Rates.{is_listed, plan_at};
ghost use Rattle.rates.specs.Plans.{number, numbered, planned};
ghost use Rattle.rates.specs.Search.{nearer as nearer_of, best_up_to};

// The clock: fixed at 8 MHz, fixed at 7.3728 MHz, or external with its frequency in hertz.
#[derive(Clone, Copy)]
pub enum Clock {
    Fixed8,
    Fixed7,
    External(f64),
}

// The rate that a divider reaches, its distance from the wanted rate, both in hertz, and the divider.
#[derive(Clone, Copy)]
pub struct Plan {
    pub reached: f64,
    pub distance: f64,
    pub divider: u8,
}

// Why no plan is made: the clock is out of range, or the rate is none of the five. Each has its number.
#[derive(Clone, Copy, PartialEq, Eq)]
pub enum Refusal {
    Clock = 9,
    Rate = 10,
}

impl Refusal {
    // As `protocol::Refusal` has one of its own.
    pub fn number(self) -> u8
        ensures { result ≡ number self }
    {
        self as u8
    }
}

// What is answered, in document 02's numbers: 0 and the plan, or a refusal's number with a plan of zeros.
#[derive(Clone, Copy)]
pub struct Planned {
    pub refusal: u8,
    pub plan: Plan,
}

impl Planned {
    pub fn of(answered: Result<Plan, Refusal>) -> Planned
        ensures { result ≡ numbered answered }
    {
        match answered {
            Ok(plan) => Planned { refusal: 0, plan },
            Err(refusal) => Planned {
                refusal: refusal.number(),
                plan: Plan {
                    reached: 0.0,
                    distance: 0.0,
                    divider: 0,
                },
            },
        }
    }
}

// The rates that may be wanted.
pub const RATES: [u32; 5] = [9600, 19200, 38400, 57600, 115200];

fn hertz(clock: Clock) -> f64
    ensures { result ≡ hertz_of clock }
{
    match clock {
        Clock::Fixed8 => 8000000.0,
        Clock::Fixed7 => 7372800.0,
        Clock::External(f) => f,
    }
}

fn is_in_range(f: f64) -> bool
    ensures { result ≡ in_range f }
{
    2000000.0 <= f && f <= 20000000.0
}

#[tactic(auto, unfolding(crate::specs::Rates::is_listed))]
fn is_listed(rate: u32) -> bool
    ensures { result ≡ is_listed rate }
{
    RATES.contains(&rate)
}

// The plan with one divider, for a clock of f hertz.
fn plan_at(f: f64, rate: u32, divider: u8) -> Plan
    ensures { result ≡ plan_at f rate divider }
{
    let wanted = rate as f64;
    let reached = f / 16.0 / ((divider as u32 + 1) as f64);
    let distance = if reached < wanted {
        wanted - reached
    } else {
        reached - wanted
    };
    Plan {
        reached,
        distance,
        divider,
    }
}

// The nearer of two plans, and the first where both are as near.
#[tactic(auto, unfolding(crate::specs::Search::nearer))]
fn nearer(p: Plan, q: Plan) -> Plan
    ensures { result ≡ nearer_of p q }
{
    if q.distance < p.distance { q } else { p }
}

// The best plan of all dividers.
fn best(f: f64, rate: u32) -> Plan
    ensures { result ≡ best_up_to f rate 255 }
{
    let mut best = plan_at(f, rate, 0);
    // Not over 1..=255, where no fact told the must-fail edit `one_divider_short`, and no fold, whose goal stayed open.
    for k in 0..255 {
        best = nearer(best, plan_at(f, rate, k + 1));
    }
    best
}

// The plan for a clock and a wanted rate.
pub fn plan_for(clock: Clock, rate: u32) -> Result<Plan, Refusal>
    ensures { numbered result ≡ planned clock rate }
{
    let f = hertz(clock);
    if !is_in_range(f) {
        return Err(Refusal::Clock);
    }
    if !is_listed(rate) {
        return Err(Refusal::Rate);
    }
    Ok(best(f, rate))
}
