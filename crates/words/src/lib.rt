// The words that a workshop types to ask for a plan, and the numbers that it reads in the answer.
#![tactic(auto)]

ghost use Rattle.std.specs.Prelude.{◌≡◌};
ghost use Rattle.words.specs.Numbers.{with_state, whole_digit, decimal_digit, digit_in, after_point, read_byte, read_text};
ghost use Rattle.words.specs.Partly.{state_of, reading_of, going_on, ended};
ghost use Rattle.words.specs.Words.{external_of, clock_word, whole_rate, rate_word};
ghost use Rattle.words.specs.Shown.{cut as cut_of, hundredths as hundredths_of, percent_of};

use rates::Clock;

// Why a word says nothing. (The protection of `live` is read by another rule, and has reasons of its own.)
#[derive(Clone, Copy, PartialEq, Eq)]
pub enum Unread {
    TooLong,
    NotANumber,
}

// Where the reading of a number stands. Too long is a place, and no error: a byte that no number has may follow, which `clock_word` and `rate_word` tell first.
#[derive(Clone, Copy)]
enum Stage {
    Start,
    Whole,
    Point,
    Decimals,
    TooLong,
}

// A number without its point as far as it is read, the power of ten by which to divide it, and where its reading stands.
#[derive(Clone, Copy)]
struct Partial {
    number: u64,
    scale: u64,
    stage: Stage,
}

// A number over this has 15 digits, and takes no more.
const MOST: u64 = 99_999_999_999_999;

impl Partial {
    const START: Partial = Partial {
        number: 0,
        scale: 1,
        stage: Stage::Start,
    };

    #[tactic(auto, unfolding(crate::specs::Numbers::whole_digit))]
    fn whole_digit(self, d: u8) -> Partial
        ensures { reading_of result ≡ whole_digit (reading_of self) d }
    {
        if MOST < self.number {
            return Partial {
                stage: Stage::TooLong,
                ..self
            };
        }
        Partial {
            number: self.number * 10 + d as u64,
            stage: Stage::Whole,
            ..self
        }
    }

    #[tactic(auto, unfolding(crate::specs::Numbers::decimal_digit))]
    fn decimal_digit(self, d: u8) -> Partial
        ensures { reading_of result ≡ decimal_digit (reading_of self) d }
    {
        if MOST < self.number || MOST < self.scale {
            return Partial {
                stage: Stage::TooLong,
                ..self
            };
        }
        Partial {
            number: self.number * 10 + d as u64,
            scale: self.scale * 10,
            stage: Stage::Decimals,
        }
    }

    #[tactic(auto, unfolding(crate::specs::Numbers::digit_in))]
    fn digit(self, d: u8) -> Partial
        ensures { reading_of result ≡ digit_in (state_of self.stage) (reading_of self) d }
    {
        match self.stage {
            Stage::Start | Stage::Whole => self.whole_digit(d),
            Stage::Point | Stage::Decimals => self.decimal_digit(d),
            Stage::TooLong => self,
        }
    }

    #[tactic(auto, unfolding(crate::specs::Numbers::after_point))]
    fn point(self) -> Result<Partial, Unread>
        ensures { result ≡ going_on (with_state (reading_of self) (after_point (state_of self.stage))) }
    {
        match self.stage {
            Stage::Whole => Ok(Partial {
                stage: Stage::Point,
                ..self
            }),
            Stage::TooLong => Ok(self),
            Stage::Start | Stage::Point | Stage::Decimals => Err(Unread::NotANumber),
        }
    }

    #[tactic(auto, using(crate::proofs::Texts::digit_read, crate::proofs::Texts::point_read, crate::proofs::Texts::low_read, crate::proofs::Texts::high_read))]
    fn byte(self, b: u8) -> Result<Partial, Unread>
        ensures { result ≡ going_on (read_byte (reading_of self) b) }
    {
        match b {
            // for the clause, which is of any byte: `read` has taken the digits
            b'0'..=b'9' => Ok(self.digit(b - b'0')),
            b'.' => self.point(),
            _ => Err(Unread::NotANumber),
        }
    }

    // A number of hertz as a float, rounded once.
    fn external(self) -> Clock
        ensures { Ok result ≡ external_of (reading_of self) }
    {
        let number = std::num::nearest_u64_to_f64(self.number);
        let scale = std::num::nearest_u64_to_f64(self.scale);
        Clock::External(number / scale)
    }
}

// Reads a number, which ends in a digit. A digit goes by itself: in a Result the partial number is copied with its padding, and a word took twice as long.
fn read(text: &[u8]) -> Result<Partial, Unread>
    ensures { result ≡ ended (read_text text.now) }
{
    let mut r = Partial::START;
    for &b in text {
        if b'0' <= b && b <= b'9' {
            r = r.digit(b - b'0');
            continue;
        }
        r = r.byte(b)?;
    }
    match r.stage {
        Stage::Whole | Stage::Decimals => Ok(r),
        Stage::Start | Stage::Point => Err(Unread::NotANumber),
        Stage::TooLong => Err(Unread::TooLong),
    }
}

// The clock that a word names: 8 and 7.3728 are the fixed ones, in megahertz, and any other number is one of hertz.
pub fn clock(text: &[u8]) -> Result<Clock, Unread>
    ensures { result ≡ clock_word text.now }
{
    // by a comparison: a match on the two byte strings leaves a proof no fact to cite in its last arm
    if slices::is_same(text, b"8") {
        return Ok(Clock::Fixed8);
    }
    if slices::is_same(text, b"7.3728") {
        return Ok(Clock::Fixed7);
    }
    Ok(read(text)?.external())
}

// What 32 bits cannot hold is told as the largest number that they hold.
#[tactic(auto, unfolding(crate::specs::Words::whole_rate))]
fn whole_rate(number: u64) -> u32
    ensures { Ok result ≡ whole_rate number }
{
    u32::try_from(number).unwrap_or(u32::MAX)
}

// The wanted rate that a word names.
pub fn rate(text: &[u8]) -> Result<u32, Unread>
    ensures { result ≡ rate_word text.now }
{
    let r = read(text)?;
    let Stage::Whole = r.stage else {
        return Err(Unread::NotANumber);
    };
    Ok(whole_rate(r.number))
}

fn cut(x: f64) -> u64
    ensures { result ≡ cut_of x }
{
    if -1.0 < x && x < 18446744073709551616.0 {
        std::num::truncating_f64_to_u64(x)
    } else {
        0
    }
}

// A float in hundredths, as it is shown.
pub fn hundredths(x: f64) -> u64
    ensures { result ≡ hundredths_of x }
{
    cut(x * 100.0 + 0.5)
}

// A distance in per cent of the wanted rate.
pub fn percent(distance: f64, rate: u32) -> f64
    ensures { result ≡ percent_of distance rate }
{
    distance * 100.0 / (rate as f64)
}
