// The bench of document 01: it reads unit.img and standard input, gives each byte to the port, and writes each reply as a line.
#![tactic(auto)]

ghost use Rattle.std.specs.Prelude.{◌≤◌, length};

use std::fs::File;
use std::rt::Files;
use unit::{Inputs, Registers, Unit};

// The bytes of unit.img, at most one more than an image has, so that a longer file shows; none where it cannot be read, which is told as a wrong size is. (`serve` says which.)
fn read_image<'a>(rt: &impl Files, room: &'a mut [u8]) -> &'a mut [u8]
    ensures { length result.now ≤ length room.old }
{
    let n = match File::open(rt, "unit.img") {
        Ok(mut file) => system::fill(&mut file, room),
        Err(_) => 0,
    };
    &mut room[..n]
}

fn show(rt: &impl Print, line: &[u8]) {
    let _ = rt.write_all(line);
}

// A byte call, and its reply's line. A refused byte hands the unit back, and has no reply.
fn answer(rt: &impl Print, u: Unit, image: &mut [u8], b: u8, number: u64) -> Unit {
    let mut area = [0; 256];
    // here, before a byte can be refused: further down it's cleared twice
    let mut line = [0; 1024];
    let answer = match port::byte(u, image, &mut area, b) {
        Ok(answer) => answer,
        Err(refused) => return refused.unit,
    };
    let n = lines::reply_line(&mut line, number, &area, answer.reply_len);
    show(rt, slices::first(&line, n));
    answer.unit
}

// The unit after the whole input, each byte of which has a number, from 1.
fn play(rt: &impl Print, mut u: Unit, image: &mut [u8], input: &[u8]) -> Unit {
    for (number, &b) in (1..).zip(input) {
        u = answer(rt, u, image, b, number);
    }
    u
}

fn bench(rt: &impl Print, image: &mut [u8], input: &[u8]) {
    let mut line = [0; 1024];
    let n = match port::start(image, Inputs { protection: 0 }) {
        Ok(fresh) => {
            let Registers { srd, srd1, .. } = play(rt, fresh, image, input).registers;
            lines::end_line(&mut line, srd, srd1)
        }
        Err(refused) => lines::refused_line(&mut line, refused.refusal.number()),
    };
    show(rt, slices::first(&line, n));
}

fn main(rt: HostRuntime) {
    let mut room = [0; 20481];
    let image = read_image(&rt, &mut room);
    // no heap: what is read stands at the front of what there is room for
    let mut input = [0; 4096];
    let n = system::fill(&mut rt.stdin(), &mut input);
    bench(&rt, image, &input[..n]);
}
