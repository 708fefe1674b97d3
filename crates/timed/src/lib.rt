// What the timing calls from Rust: the port's public run on an open unit at a command, and what it answered as bytes.
#![tactic(auto)]

use protocol::Numbered;
use unit::{Inputs, Phase, Place, State, Unit};

// An open unit, awake at a command: the fresh one of a blank image, woken.
fn ready(image: &[u8]) -> Unit {
    let fresh = Unit::fresh(image, Inputs { protection: 0 });
    Unit::of(
        State::at_command(fresh.registers),
        fresh.settings,
        fresh.collected,
    )
}

// The phase as the case format has it: a tag, and a count. `replay` has the same table for its records: a crate for its eight lines would be no plainer, and the format is nothing of the unit's.
fn tag_and_count(phase: Phase) -> (u8, usize) {
    match phase {
        Phase::Asleep(n) => (0x00, usize::from(n)),
        Phase::Awake(Place::Command) => (0x01, 0),
        Phase::Awake(Place::PageRead(n)) => (0xFF, n),
        Phase::Awake(Place::PageProgram(n)) => (0x41, n),
        Phase::Awake(Place::UnitProgram(n)) => (0x49, n),
        Phase::Awake(Place::BlockErase(n)) => (0x20, n),
        Phase::Awake(Place::EraseAll(n)) => (0xA7, n),
        Phase::Awake(Place::IdCheck(n)) => (0xF5, n),
    }
}

// Tag and count, SRD, SRD1, blank, protection, rate, the bytes taken, the reply's length, the refusal, the wrong ID checks, at the places where the timing reads them.
fn head(numbered: &Numbered) -> [u8; 32] {
    let registers = numbered.unit.registers;
    let (tag, count) = tag_and_count(numbered.unit.phase);
    let mut h = [0; 32];
    h[0] = tag;
    h[1..3].copy_from_slice(&count.to_le_bytes()[..2]);
    h[3] = registers.srd;
    h[4] = registers.srd1;
    h[5] = u8::from(numbered.unit.settings.blank);
    h[6] = numbered.unit.settings.protection;
    h[7] = registers.rate;
    h[8..12].copy_from_slice(&numbered.taken.to_le_bytes()[..4]);
    h[12..16].copy_from_slice(&numbered.reply_len.to_le_bytes()[..4]);
    h[16] = numbered.refusal;
    h[17] = registers.mismatches;
    h
}

// Lays as much into `out` as fits: 32 bytes of what was answered, in document 01's numbers, since the timing reads no type of ours, and then the collected bytes.
#[unsafe(no_mangle)]
pub extern "C" fn pikecowl_timed_run(
    image: &mut [u8],
    bytes: &[u8],
    reply: &mut [u8],
    out: &mut [u8],
) -> usize {
    let unit = ready(image);
    let numbered = Numbered::of(port::run(unit, image, bytes, reply));
    let (front, rest) = out.split_at_mut(out.len().min(32));
    slices::copy(front, &head(&numbered));
    slices::copy(rest, &numbered.unit.collected);
    numbered.taken
}
