// The live module: `serve [PROTECTION]` reads bytes from standard input as they come, answers on standard output at once, and keeps the image in unit.img.
//
// What it decides stands in `live` and `port`, proved; here are the calls of the system, and a note at the third wrong ID. An image that a byte changed is on the disk before the next
// byte is given: written to unit.img.new, synced, renamed over unit.img, and the folder synced. So a reply means that all before it is stored.
#![tactic(auto)]

use protocol::Refusal;
use std::fs;
use std::fs::{File, OpenFile};
use std::io::{Read, Write};
use std::rt::{Env, Files};
use unit::{Inputs, Unit};

mod stop;

use stop::Stop;

// The most bytes of one read.
const CHUNK: usize = 512;

// The most bytes of an argument, which has room of its own: the program takes no heap.
const WORD: usize = 4096;

// A session: the unit, its image, and the image that is stored in unit.img. Both are lent: by value they would stand on the stack twice, here and in the answer of `begin`.
#[derive(Drop)]
struct Session<'a, R> {
    rt: &'a R,
    unit: Unit,
    image: &'a mut [u8],
    stored: &'a mut [u8],
}

// Writes the image to a new file, over what a killed run left there, and waits until it is on the disk.
fn write_new(rt: &impl Files, image: &[u8]) -> Result<(), Stop> {
    let mut file = File::create(rt, "unit.img.new").map_err(|why| Stop::System(
        "serve: unit.img.new: open",
        why,
    ))?;
    file.write_all(image)
        .map_err(|why| Stop::System("serve: unit.img.new: write", why))?;
    file.sync_all()
        .map_err(|why| Stop::System("serve: unit.img.new: fsync", why))
}

// Waits until the folder's names are on the disk.
fn sync_folder(rt: &impl Files) -> Result<(), Stop> {
    let folder = File::open(rt, ".").map_err(|why| Stop::System("serve: the folder: open", why))?;
    folder
        .sync_all()
        .map_err(|why| Stop::System("serve: the folder: fsync", why))
}

// Makes the image the one in unit.img, whole or not at all.
fn save(rt: &impl Files, image: &[u8]) -> Result<(), Stop> {
    write_new(rt, image)?;
    fs::rename(rt, "unit.img.new", "unit.img").map_err(|why| Stop::System(
        "serve: unit.img: rename",
        why,
    ))?;
    sync_folder(rt)
}

// A note on standard error at the byte that ends the third wrong ID packet: the workshop's end sees only a mismatch. The session goes on.
fn tell_lock(rt: &impl Eprint, before: u8, after: u8) {
    if before < Unit::MAX_MISMATCHES && after == Unit::MAX_MISMATCHES {
        let _ = rt.eprintln(
            "serve: note: three wrong IDs, the port stays shut until serve is started again",
        );
    }
}

impl<'a, R: Files + Print + Eprint> Session<'a, R> {
    // The session of an image, from its start on, with room for the one that is stored.
    fn begin(
        rt: &'a R,
        image: &'a mut [u8],
        stored: &'a mut [u8],
        protection: u8,
    ) -> Result<Session<'a, R>, Stop> {
        let unit = port::start(image, Inputs { protection }).map_err(
            |refused| match refused.refusal {
                Refusal::Image => Stop::ImageSize,
                // a start refuses nothing else
                _ => Stop::ProtectionTooLarge,
            },
        )?;
        slices::copy(stored, image);
        Ok(Session {
            rt,
            unit,
            image,
            stored,
        })
    }

    // A byte: what it leads to is stored before it is answered, and answered before the next one.
    fn take(&mut self, b: u8) -> Result<(), Stop> {
        let mut area = [0u8; 256];
        // lent on here once: no rule of the borrow checker covers the fields as arguments
        let image = &mut *self.image;
        let stored = &mut *self.stored;
        let turn = live::give(self.unit, image, stored, &mut area, b);
        let answer = turn.answer.map_err(|_| Stop::ByteRefused)?;
        let before = self.unit.registers.mismatches;
        self.unit = answer.unit;
        tell_lock(self.rt, before, self.unit.registers.mismatches);
        if turn.changed {
            save(self.rt, image)?;
            slices::copy(stored, image);
        }
        self.rt
            .write_all(slices::first(&area, answer.reply_len))
            .map_err(|why| Stop::System("serve: standard output", why))
    }

    // Reads what is there, and takes it byte by byte, to the end of the input.
    // A proved loop has to end, and nothing says that the input does: so it has as many turns as no run uses up.
    fn take_all(&mut self, line: &mut impl Read) -> Result<(), Stop> {
        let mut buffer = [0u8; CHUNK];
        for _ in 0..u64::MAX {
            let n = line
                .read(&mut buffer)
                .map_err(|why| Stop::System("serve: standard input", why))?;
            if n == 0 {
                break;
            }
            for &b in &buffer[..n] {
                self.take(b)?;
            }
        }
        Ok(())
    }
}

// The image of unit.img, a byte more than it may have.
fn load<'a>(rt: &impl Files, buffer: &'a mut [u8]) -> Result<&'a mut [u8], Stop> {
    let mut file = File::open(rt, "unit.img").map_err(|why| Stop::System("serve: unit.img", why))?;
    let n = system::fill(&mut file, buffer);
    Ok(&mut buffer[..n])
}

// The protection that the command line gives.
fn protection(rt: &impl Env) -> Result<u8, Stop> {
    match system::word_count(rt) {
        0 | 1 => Ok(0),
        2 => {
            let mut text = [0u8; WORD];
            // A word that is too long for its room is taken as none, which is no number.
            let n = rt.arg(1, &mut text).unwrap_or(0);
            Ok(live::protection(&text[..n])?)
        }
        _ => Err(Stop::Usage),
    }
}

// The session, and all the room for its images. Not inlined, so that words that are refused take no stack for it.
#[inline(never)]
fn run(
    rt: &(impl Files + Print + Eprint),
    line: &mut impl Read,
    protection: u8,
) -> Result<(), Stop> {
    let mut buffer = [0u8; flash::IMAGE + 1];
    let mut stored = [0u8; flash::IMAGE];
    let image = load(rt, &mut buffer)?;
    Session::begin(rt, image, &mut stored, protection)?.take_all(line)
}

fn serve(rt: &(impl Env + Files + Print + Eprint), line: &mut impl Read) -> Result<(), Stop> {
    let protection = protection(rt)?;
    run(rt, line, protection)
}

fn main(rt: HostRuntime) {
    if let Err(stop) = serve(&rt, &mut rt.stdin()) {
        stop.tell(&rt);
    }
}
