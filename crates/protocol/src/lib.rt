// The answers of the three calls. What they mean stands in specs/: document 01, with document 02's Items 3 and 5, as definitions.
#![tactic(auto)]

ghost use Rattle.std.specs.Prelude.{◌≡◌};
ghost use Rattle.protocol.specs.Calls.{number_of, started, numbered};

use unit::Unit;

// Why a call is refused, by document 01's numbers: the lowest that applies.
#[derive(Clone, Copy, PartialEq, Eq)]
pub enum Refusal {
    // an image that has not 20,480 bytes
    Image = 1,
    // a protection number over 15
    Protection = 2,
    // a reply area under 256 bytes
    Area = 3,
    // a unit out of its ranges
    Unit = 4,
}

impl Refusal {
    // Of this enum alone: `rates` has refusals and numbers of its own, and a trait of numbers would be longer than the two.
    pub fn number(self) -> u8
        ensures { result ≡ number_of self }
    {
        self as u8
    }
}

// A call that is refused: why, and the unit that it hands back, which is the one that was given, and at a start the idle one.
#[derive(Clone, Copy)]
pub struct Refused {
    pub refusal: Refusal,
    pub unit: Unit,
}

// A byte or a run of bytes: the next unit, the bytes taken, and the reply's length, which document 01 has beside the area that the caller lends.
#[derive(Clone, Copy)]
pub struct Answer {
    pub unit: Unit,
    pub taken: usize,
    pub reply_len: usize,
}

// What a start answers, in document 01's numbers: the refusal's, or 0, and the unit.
#[derive(Clone, Copy)]
pub struct Started {
    pub refusal: u8,
    pub unit: Unit,
}

impl Started {
    pub fn of(answered: Result<Unit, Refused>) -> Started
        ensures { result ≡ started answered }
    {
        let (refusal, unit) = match answered {
            Ok(unit) => (0, unit),
            Err(refused) => (refused.refusal.number(), refused.unit),
        };
        Started { refusal, unit }
    }
}

// And what a byte or a run answers: the refusal's number, or 0, the next unit, the bytes taken and the reply's length. A refused call takes nothing and replies nothing.
#[derive(Clone, Copy)]
pub struct Numbered {
    pub refusal: u8,
    pub unit: Unit,
    pub taken: usize,
    pub reply_len: usize,
}

impl Numbered {
    pub fn of(answered: Result<Answer, Refused>) -> Numbered
        ensures { result ≡ numbered answered }
    {
        match answered {
            Ok(answer) => Numbered {
                refusal: 0,
                unit: answer.unit,
                taken: answer.taken,
                reply_len: answer.reply_len,
            },
            Err(refused) => Numbered {
                refusal: refused.refusal.number(),
                unit: refused.unit,
                taken: 0,
                reply_len: 0,
            },
        }
    }
}
