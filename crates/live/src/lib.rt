// What the live program decides, on slices: the protection that it was given, what a byte leads to, when the image is to be saved, and what is answered.
#![tactic(auto)]

ghost use Rattle.std.specs.Prelude.{◌≡◌};
ghost use Rattle.live.specs.Argument.{given};
ghost use Rattle.live.specs.Turns.{turned, turn_call};

use protocol::{Answer, Refused};
use unit::Unit;

// Why the argument gives no protection. (The words of the planner are read by another rule.)
#[derive(Clone, Copy)]
pub enum Unread {
    TooLarge,
    NotANumber,
}

// What a byte leads to: the port's answer, and, refused or not, whether the image is no longer the stored one.
#[derive(Clone, Copy)]
pub struct Turn {
    pub answer: Result<Answer, Refused>,
    pub changed: bool,
}

// A protection in decimal digits, and not by `parse`, which takes a sign. A number that is too large stays so, whatever digits follow, and what is no digit is told first.
pub fn protection(text: &[u8]) -> Result<u8, Unread>
    ensures { result ≡ given text.now }
{
    if text.is_empty() {
        return Err(Unread::NotANumber);
    }
    let mut n: u32 = 0;
    for &b in text {
        let digit = char::from(b).to_digit(10).ok_or(Unread::NotANumber)?;
        n = n.saturating_mul(10).saturating_add(digit);
    }
    u8::try_from(n).map_err(|_| Unread::TooLarge)
}

// (Its arguments stand apart: docs/PINNED.md speaks of each.)
// Gives a byte to the port, and says whether the image that it leaves is to be saved.
#[tactic(auto, unfolding(crate::specs::Turns::turn_call))]
pub fn give(u: Unit, image: &mut [u8], stored: &[u8], reply: &mut [u8], b: u8) -> Turn
    ensures { turned result image.new reply.new
        ≡ turn_call u image.old stored.now reply.old b }
{
    let answer = port::byte(u, image, reply, b);
    let changed = !slices::is_same(stored, image);
    Turn { answer, changed }
}
