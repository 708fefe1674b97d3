// Waking, and the bytes at a command position. Their replies are few and handed back by value, so that they ask nothing of their caller.
#![tactic(auto)]

ghost use Rattle.std.specs.Prelude.{◌≡◌, cond, List, ℕ, length};
ghost use Rattle.slices.specs.Lists.{front};
ghost use Rattle.unit.specs.declared.Settings.{Settings};
ghost use Rattle.unit.specs.declared.Phase.TheVariants.{Awake};
ghost use Rattle.unit.specs.Model.{whole, state, at_command, is_open, no_bytes};
ghost use Rattle.protocol.specs.Commands.{Command, effect, commanded};
ghost use Rattle.protocol.specs.Commands.Command.{clear, status, version, time};
ghost use Rattle.protocol.specs.Step.{wakes};
ghost use Rattle.commands.specs.Clauses.{said, quietly, PutEnsures, AsleepEnsures, CommandedEnsures};

use unit::{Phase, Place, Registers, State, Unit};

// What is replied to such a byte: nothing, one byte, SRD and SRD1, or the version.
#[derive(Clone, Copy)]
pub enum Reply {
    Nothing,
    Byte(u8),
    Status(u8, u8),
    Version,
}

// What such a byte leads to: the state, and the reply.
#[derive(Clone, Copy)]
pub struct Said {
    pub state: State,
    pub reply: Reply,
}

impl Reply {
    // This reply at the front of an area, as much of it as fits, and how long it is: the area is the caller's, whose answer has the length.
    #[tactic(auto, unfolding(slices::specs::Lists::front, protocol::specs::Commands::version_bytes))]
    pub fn put(self, area: &mut [u8]) -> usize
        ensures { PutEnsures self area.old result area.new }
    {
        match self {
            Reply::Nothing => 0,
            Reply::Byte(b) => put_bytes(area, &[b]),
            Reply::Status(srd, srd1) => put_bytes(area, &[srd, srd1]),
            Reply::Version => put_bytes(area, &Unit::VERSION),
        }
    }
}

fn put_bytes(area: &mut [u8], bytes: &[u8]) -> usize
    ensures { (result ≡ length bytes.now) × (area.new ≡ front bytes.now area.old) }
{
    slices::copy(area, bytes);
    bytes.len()
}

// Nothing is collected any more.
pub fn clear(collected: &mut [u8; 259])
    ensures { collected.new ≡ no_bytes }
{
    *collected = [0; 259];
}

fn quiet(state: State) -> Said
    ensures { result ≡ quietly state }
{
    Said {
        state,
        reply: Reply::Nothing,
    }
}

// B0, with sixteen zeros counted.
#[tactic(auto, unfolding(protocol::specs::Step::wakes))]
fn is_waking(n: u8, b: u8) -> bool
    ensures { result ≡ wakes n b }
{
    b == Unit::WAKE && n == Unit::ZEROS
}

// Asleep, with n zeros counted.
#[tactic(auto, unfolding(protocol::specs::Step::asleep, unit::specs::Model::phased))]
pub fn asleep(s: State, n: u8, b: u8) -> Said
    ensures { AsleepEnsures s n b result }
{
    if b == 0 {
        let zeros = n.saturating_add(1).min(Unit::ZEROS);
        return quiet(s.at(Phase::Asleep(zeros)));
    }
    if is_waking(n, b) {
        return Said {
            state: s.at(Phase::Awake(Place::Command)),
            reply: Reply::Byte(Unit::WAKE),
        };
    }
    quiet(s.at(Phase::Asleep(0)))
}

// A packet that a closed unit drops: begun, or nothing.
fn begin(s: State, place: Place) -> Said
    ensures { result ≡ quietly (cond (is_open s.registers) (state (Awake place) s.registers) s) }
{
    if !s.registers.is_open() {
        return quiet(s);
    }
    quiet(s.at(Phase::Awake(place)))
}

// `s` and the collected bytes stand apart here and below: `commands_commanded_pinned` speaks of each.
// A packet of one byte has ended: at a command with these registers, nothing collected, and this reply.
fn ended(registers: Registers, collected: &mut [u8; 259], reply: Reply) -> Said
    ensures { (result ≡ record { state = at_command registers; reply = reply }) × (collected.new ≡ no_bytes) }
{
    clear(collected);
    Said {
        state: State::at_command(registers),
        reply,
    }
}

// 50: SRD becomes 80, unless the unit is closed.
#[tactic(auto, unfolding(protocol::specs::Commands::commanded, protocol::specs::Commands::dropped, protocol::specs::Commands::needs_open, protocol::specs::Commands::effect, unit::specs::Model::ended))]
fn clear_status(s: State, collected: &mut [u8; 259]) -> Said
    ensures { (t : Settings) (img : List ℕ) (b : ℕ) → said result t collected.new img ≡ commanded clear (whole s t collected.old) img b }
{
    if s.registers.is_open() {
        return ended(s.registers.with_srd(Unit::READY), collected, Reply::Nothing);
    }
    quiet(s)
}

// 70: SRD and SRD1.
#[tactic(auto, unfolding(protocol::specs::Commands::effect, unit::specs::Model::ended))]
fn show_status(s: State, collected: &mut [u8; 259]) -> Said
    ensures { (t : Settings) (img : List ℕ) (b : ℕ) → said result t collected.new img ≡ effect status (whole s t collected.old) img b }
{
    ended(
        s.registers,
        collected,
        Reply::Status(s.registers.srd, s.registers.srd1),
    )
}

// FB: the version.
#[tactic(auto, unfolding(protocol::specs::Commands::effect, unit::specs::Model::ended))]
fn show_version(s: State, collected: &mut [u8; 259]) -> Said
    ensures { (t : Settings) (img : List ℕ) (b : ℕ) → said result t collected.new img ≡ effect version (whole s t collected.old) img b }
{
    ended(s.registers, collected, Reply::Version)
}

// B0 to B4: the same byte, and the rate.
#[tactic(auto, unfolding(protocol::specs::Commands::effect, unit::specs::Model::ended))]
fn set_rate(s: State, collected: &mut [u8; 259], b: u8, rate: u8) -> Said
    ensures { (t : Settings) (img : List ℕ) → said result t collected.new img ≡ effect (Command.rate rate) (whole s t collected.old) img b }
{
    ended(s.registers.with_rate(rate), collected, Reply::Byte(b))
}

// 00: taken, and nothing.
#[tactic(auto, unfolding(protocol::specs::Commands::effect, unit::specs::Model::ended))]
fn take_time(s: State, collected: &mut [u8; 259]) -> Said
    ensures { (t : Settings) (img : List ℕ) (b : ℕ) → said result t collected.new img ≡ effect time (whole s t collected.old) img b }
{
    ended(s.registers, collected, Reply::Nothing)
}

// A byte at a command position: a row of document 01's table to an arm, which a table of functions would say no plainer.
#[tactic(auto, unfolding(protocol::specs::Commands::commanded, protocol::specs::Commands::dropped, protocol::specs::Commands::needs_open, protocol::specs::Commands::effect, protocol::specs::Commands::meaning, protocol::specs::Commands::commands, unit::specs::Model::phased))]
pub fn commanded(s: State, collected: &mut [u8; 259], b: u8) -> Said
    ensures { CommandedEnsures s collected.old b result collected.new }
{
    match b {
        0xFF => begin(s, Place::PageRead(0)),
        0x41 => begin(s, Place::PageProgram(0)),
        0x49 => begin(s, Place::UnitProgram(0)),
        0x20 => begin(s, Place::BlockErase(0)),
        0xA7 => begin(s, Place::EraseAll(0)),
        0x50 => clear_status(s, collected),
        0x70 => show_status(s, collected),
        0xF5 => quiet(s.at(Phase::Awake(Place::IdCheck(0)))),
        0xFB => show_version(s, collected),
        0xB0..=0xB4 => set_rate(s, collected, b, b - 0xB0),
        0x00 => take_time(s, collected),
        _ => quiet(s),
    }
}
