// What a packet does once its bytes have all come: to the registers and the lent image, asking nothing of the caller.
#![tactic(auto)]

ghost use Rattle.std.specs.Prelude.{◌≡◌, true, false, cond, ◌+◌, ◌%◌, leb};
ghost use Rattle.flash.specs.Image.{written};
ghost use Rattle.unit.specs.Model.{with_srd};
ghost use Rattle.protocol.specs.Endings.{reaching, is_right, counted, after_check};
ghost use Rattle.acts.specs.Clauses.{ProgramEnsures, EraseEnsures, EraseAllEnsures, CheckIdEnsures, ShowPageEnsures, carries, unconfirmed};

use unit::{Registers, Settings, State, Unit};

// SRD ready, or ready and this error.
fn reported(registers: Registers, good: bool, bad: u8) -> Registers
    ensures { result ≡ with_srd registers (cond good 0x80 bad) }
{
    registers.with_srd(if good { Unit::READY } else { bad })
}

// The low 16 address bits and the size are at most so many.
fn reaches(address: u32, size: usize, most: usize) -> bool
    ensures { result ≡ leb (address % 65536 + size) most }
{
    let low = (address % 65536) as usize;
    low <= most && size <= most - low
}

// What it is given stands apart, as in `program`.
fn write(image: &mut [u8], protection: u8, address: u32, new: &[u8], most: usize) -> bool
    ensures { written image.new result ≡ reaching most protection image.old address new.now }
{
    reaches(address, new.len(), most) && flash::program(image, protection, address, new)
}

// A program of the bytes `new` from an address on; the low 16 address bits and their number may be at most `most`.
// `s`, `settings` and `image` stand apart here and in the erases: `acts_program_pinned` and its like speak of each.
#[tactic(auto, unfolding(protocol::specs::Endings::programs, unit::specs::Model::ended))]
pub fn program(
    s: State,
    settings: Settings,
    image: &mut [u8],
    address: u32,
    new: &[u8],
    most: usize,
) -> Registers
    ensures { ProgramEnsures s settings image.old address new.now most result image.new }
{
    if s.registers.is_standing() {
        return s.registers;
    }
    let good = write(image, settings.protection, address, new, most);
    reported(s.registers, good, Unit::READY + Unit::PROGRAM_ERROR)
}

// An erase is carried out: its confirm byte is D0, and no error stands.
#[tactic(auto, unfolding(crate::specs::Clauses::carries))]
fn is_carried(registers: Registers, confirm: u8) -> bool
    ensures { result ≡ carries registers confirm }
{
    confirm == 0xD0 && !registers.is_standing()
}

// The registers after an erase that is not carried out.
#[tactic(auto, unfolding(crate::specs::Clauses::unconfirmed))]
fn not_carried(registers: Registers, confirm: u8) -> Registers
    ensures { result ≡ unconfirmed registers confirm }
{
    if confirm == 0xFF || registers.is_standing() {
        return registers;
    }
    registers.with_srd(Unit::READY + Unit::ERASE_ERROR + Unit::PROGRAM_ERROR)
}

// An erase of the block of an address, with this confirm byte.
#[tactic(auto, unfolding(protocol::specs::Endings::erases, unit::specs::Model::ended, crate::specs::Clauses::carries, crate::specs::Clauses::unconfirmed))]
pub fn erase(s: State, settings: Settings, image: &mut [u8], address: u32, confirm: u8) -> Registers
    ensures { EraseEnsures s settings image.old address confirm result image.new }
{
    if is_carried(s.registers, confirm) {
        let good = flash::erase(image, settings.protection, address);
        return reported(s.registers, good, Unit::READY + Unit::ERASE_ERROR);
    }
    not_carried(s.registers, confirm)
}

// An erase of all blocks, with this confirm byte.
#[tactic(auto, unfolding(protocol::specs::Endings::erases, unit::specs::Model::ended, crate::specs::Clauses::carries, crate::specs::Clauses::unconfirmed))]
pub fn erase_all(s: State, settings: Settings, image: &mut [u8], confirm: u8) -> Registers
    ensures { EraseAllEnsures s settings image.old confirm result image.new }
{
    if is_carried(s.registers, confirm) {
        flash::erase_all(image, settings.protection);
        return s.registers.with_srd(Unit::READY);
    }
    not_carried(s.registers, confirm)
}

// What followed F5 is what follows it in the right ID packet: all eleven bytes in one comparison.
fn is_right(image: &[u8], xs: &[u8]) -> bool
    ensures { result ≡ is_right image.now xs.now }
{
    let [a, b, c, d, e, f, g] = flash::id(image);
    slices::is_same(xs, &[0xDF, 0xFF, 0x00, 0x07, a, b, c, d, e, f, g])
}

// The count of wrong ID checks after one more, of a unit that did not start blank.
#[tactic(auto, unfolding(protocol::specs::Endings::counted))]
fn one_more(wrong: u8) -> u8
    ensures { result ≡ counted false wrong false }
{
    wrong.saturating_add(1).min(Unit::MAX_MISMATCHES)
}

// The registers after the right ID packet, of a unit that did not start blank: it opens, unless three wrong ones have locked it.
#[tactic(auto, unfolding(protocol::specs::Endings::after_check, protocol::specs::Endings::judged, protocol::specs::Endings::counted))]
fn matched(registers: Registers) -> Registers
    ensures { result ≡ after_check false registers true }
{
    if registers.mismatches < Unit::MAX_MISMATCHES {
        return registers.with_srd1(Unit::MATCH);
    }
    registers.with_srd1(Unit::MISMATCH)
}

// The registers after any other ID packet, of such a unit: it closes, and counts.
#[tactic(auto, unfolding(protocol::specs::Endings::after_check, protocol::specs::Endings::judged))]
fn mismatched(registers: Registers) -> Registers
    ensures { result ≡ after_check false registers false }
{
    let wrong = one_more(registers.mismatches);
    registers.with_srd1(Unit::MISMATCH).with_mismatches(wrong)
}

// An ID check whose bytes after F5 are `xs`.
#[tactic(auto, unfolding(protocol::specs::Endings::after_check, protocol::specs::Endings::judged, protocol::specs::Endings::counted))]
pub fn check_id(registers: Registers, settings: Settings, image: &[u8], xs: &[u8]) -> Registers
    ensures { CheckIdEnsures registers settings image.now xs.now result }
{
    if settings.blank {
        return registers.with_srd1(Unit::MATCH);
    }
    if is_right(image, xs) {
        return matched(registers);
    }
    mismatched(registers)
}

// A page at the front of the reply area, or 256 bytes FF for an outside one.
#[tactic(auto, unfolding(protocol::specs::Endings::page_reply))]
pub fn show_page(image: &[u8], reply: &mut [u8], mid: u8, high: u8)
    ensures { ShowPageEnsures image.now reply.old mid high reply.new }
{
    match flash::page(image, mid, high) {
        [] => slices::copy(reply, &[0xFF; 256]),
        page => slices::copy(reply, page),
    }
}
