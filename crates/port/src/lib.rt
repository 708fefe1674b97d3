// The port: a start, a byte of the line, a run of bytes. By value at the edge; inside, the unit is lent, so that no byte copies it, and its phase goes by value beside it.
#![tactic(auto)]

use commands::Said;
use packets::Packet;
use protocol::{Answer, Refusal, Refused};
use unit::{Inputs, Phase, Place, State, Unit};

mod packets;

ghost use Rattle.std.specs.Prelude.{◌≡◌, ◌≤◌, List, ℕ, length};
ghost use Rattle.protocol.specs.Step.{step};
ghost use Rattle.protocol.specs.Calls.{StartEnsures, ByteEnsures, RunEnsures, refusal, refusing, started, numbered, answered, walked};
ghost use Rattle.commands.specs.Clauses.{said};
ghost use Rattle.port.specs.Parts.{done, under, landed, found, Fine};

// A start: the fresh unit, or a refusal, which hands back the idle one.
#[tactic(auto, unfolding(protocol::specs::Calls::start_call, protocol::specs::Calls::start_refusal, flash::specs::Blocks::sized))]
pub fn start(image: &[u8], inputs: Inputs) -> Result<Unit, Refused>
    ensures { StartEnsures image.now inputs (started result) }
{
    if image.len() != flash::IMAGE {
        return Err(Refused {
            refusal: Refusal::Image,
            unit: Unit::idle(),
        });
    }
    if Unit::MAX_PROTECTION < inputs.protection {
        return Err(Refused {
            refusal: Refusal::Protection,
            unit: Unit::idle(),
        });
    }
    Ok(Unit::fresh(image, inputs))
}

// Whether a byte or a run is refused, and why.
#[tactic(auto, unfolding(protocol::specs::Calls::refusal, flash::specs::Blocks::sized))]
fn check(u: &Unit, image: &[u8], reply: &[u8]) -> Result<(), Refused>
    ensures { found u.now result ≡ refusing (refusal u.now image.now reply.now) u.now }
{
    let refusal = if image.len() != flash::IMAGE {
        Refusal::Image
    } else if reply.len() < flash::PAGE {
        Refusal::Area
    } else if !u.in_range() {
        Refusal::Unit
    } else {
        return Ok(());
    };
    Err(Refused { refusal, unit: *u })
}

// What a byte outside packets has led to: the unit takes its registers, and the area its reply at the front. The phase, and how long the reply is.
fn answer(u: &mut Unit, outcome: Said, reply: &mut [u8]) -> (Phase, usize)
    requires { 256 ≤ length reply.old }
    ensures { (image : List ℕ) → done (under result.0 u.new) 1 result.1 image reply.new
        ≡ answered (said outcome u.old.settings u.old.collected image) 1 reply.old }
{
    u.registers = outcome.state.registers;
    (outcome.state.phase, outcome.reply.put(reply))
}

// A byte that is not refused. The phase after it, and how long its reply is. What `Fine` says of the three that are lent, and its 256 bytes of room below, is no struct: each is lent on by itself, and `answered` speaks of the whole area.
// The phase goes by value beside the unit, whose own is not looked at here: each byte changes it, and in the unit that is lent it would be stored and loaded again for each.
#[tactic(auto, using(crate::proofs::Steps::step_says), unfolding(protocol::specs::Step::step_at))]
fn step_in(phase: Phase, u: &mut Unit, image: &mut [u8], reply: &mut [u8], b: u8) -> (Phase, usize)
    requires { Fine (under phase u.old) image.old reply.old }
    ensures { done (under result.0 u.new) 1 result.1 image.new reply.new
        ≡ answered (step (under phase u.old) image.old b) 1 reply.old }
{
    // an arm for each place, so that each has its own path through `Packet::take` (see there)
    match phase {
        Phase::Asleep(n) => {
            let state = State {
                phase,
                registers: u.registers,
            };
            let outcome = commands::asleep(state, n, b);
            answer(u, outcome, reply)
        }
        Phase::Awake(Place::Command) => {
            let outcome = commands::commanded(State::at_command(u.registers), &mut u.collected, b);
            answer(u, outcome, reply)
        }
        Phase::Awake(Place::PageRead(n)) => Packet::PageRead.take(n, u, image, reply, b),
        Phase::Awake(Place::PageProgram(n)) => Packet::PageProgram.take(n, u, image, reply, b),
        Phase::Awake(Place::UnitProgram(n)) => Packet::UnitProgram.take(n, u, image, reply, b),
        Phase::Awake(Place::BlockErase(n)) => Packet::BlockErase.take(n, u, image, reply, b),
        Phase::Awake(Place::EraseAll(n)) => Packet::EraseAll.take(n, u, image, reply, b),
        Phase::Awake(Place::IdCheck(n)) => Packet::IdCheck.take(n, u, image, reply, b),
    }
}

// A run that is not refused: byte by byte, while a reply of 256 bytes still fits. How many bytes it took, and how long its reply is.
fn run_in(u: &mut Unit, image: &mut [u8], bytes: &[u8], reply: &mut [u8]) -> (usize, usize)
    requires { Fine u.old image.old reply.old }
    ensures { done u.new result.0 result.1 image.new reply.new
        ≡ landed (walked (length reply.old) u.old image.old bytes.now) reply.old }
{
    let mut phase = u.phase;
    let mut used = 0;
    for (taken, b) in bytes.iter().enumerate() {
        if reply.len() - used < flash::PAGE {
            u.phase = phase;
            return (taken, used);
        }
        let (next, len) = step_in(phase, u, image, &mut reply[used..], *b);
        phase = next;
        used += len;
    }
    u.phase = phase;
    (bytes.len(), used)
}

// A run of bytes: one by one, replies joined. It asks nothing of its caller, and refuses what it cannot take.
pub fn run(u: Unit, image: &mut [u8], bytes: &[u8], reply: &mut [u8]) -> Result<Answer, Refused>
    ensures { RunEnsures u image.old reply.old bytes.now (numbered result) image.new reply.new }
{
    check(&u, image, reply)?;
    let mut unit = u;
    let (count, len) = run_in(&mut unit, image, bytes, reply);
    Ok(Answer {
        unit,
        taken: count,
        reply_len: len,
    })
}

// A byte of the line: it asks nothing of its caller, and refuses what it cannot take. Not by `run`, which copies the unit in pieces: that takes more than twice the time.
pub fn byte(u: Unit, image: &mut [u8], reply: &mut [u8], b: u8) -> Result<Answer, Refused>
    ensures { ByteEnsures u image.old reply.old b (numbered result) image.new reply.new }
{
    let mut unit = u;
    check(&unit, image, reply)?;
    let (phase, replied) = step_in(unit.phase, &mut unit, image, reply, b);
    unit.phase = phase;
    Ok(Answer {
        unit,
        taken: 1,
        reply_len: replied,
    })
}
