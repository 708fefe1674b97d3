// Plays a batch of cases (docs/CASES.md) on the port: standard input to standard output.
#![tactic(auto)]

use std::io::Read;

mod cases;
mod out;
mod play;
mod reading;
mod record;

use cases::Case;
use play::Player;
use reading::Broken;

// The most bytes of a case.
const MOST: usize = 65536;

// The next case of a batch, in the room for it, or None at the batch's end.
fn next_case<'a>(batch: &mut impl Read, room: &'a mut [u8]) -> Result<Option<&'a [u8]>, Broken> {
    let mut size = [0u8; 4];
    let got = system::fill(batch, &mut size);
    if got == 0 {
        return Ok(None);
    }
    if got < size.len() {
        return Err(Broken);
    }
    let size = u32::from_le_bytes(size) as usize;
    let case = room.get_mut(..size).ok_or(Broken)?;
    if system::fill(batch, case) < size {
        return Err(Broken);
    }
    Ok(Some(case))
}

// A proved loop has to end, and nothing says that the input does: so it has as many turns as no batch uses up.
fn replay(batch: &mut impl Read, player: &mut Player<'_, impl Print>) -> Result<(), Broken> {
    let mut room = [0u8; MOST];
    let mut image = [0u8; Case::MOST_IMAGE];
    let mut area = [0u8; Case::MOST_AREA];
    for _ in 0..u64::MAX {
        let Some(bytes) = next_case(batch, &mut room)? else {
            break;
        };
        // a case is looked at whole before anything of it is played
        player.case(Case::read(bytes)?, &mut image, &mut area);
    }
    Ok(())
}

// The end of a batch that is broken: a line on standard error says so, and the exit status does not.
fn main(rt: HostRuntime) {
    let mut player = Player::new(&rt);
    if let Err(Broken) = replay(&mut rt.stdin(), &mut player) {
        let _ = rt.eprintln("replay: a case is not well formed");
    }
    player.flush();
}
