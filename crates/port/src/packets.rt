// The packets of more than one byte: each byte is collected, and the last acts on all of them.
ghost use Rattle.std.specs.Prelude.{◌≡◌, ◌≤◌, length, get_or, take};
ghost use Rattle.flash.specs.Blocks.{byte_address};
ghost use Rattle.unit.specs.declared.Phase.TheVariants.{Awake};
ghost use Rattle.unit.specs.declared.Place.TheVariants.{Command};
ghost use Rattle.unit.specs.Phases.{Kind, need, inside};
ghost use Rattle.unit.specs.Phases.Kind.{page_program, unit_program, block_erase, id_check};
ghost use Rattle.unit.specs.Model.{ended};
ghost use Rattle.protocol.specs.Outcome.{quiet};
ghost use Rattle.protocol.specs.Endings.{finished};
ghost use Rattle.protocol.specs.Step.{in_packet};
ghost use Rattle.protocol.specs.Calls.{answered};
ghost use Rattle.port.specs.Parts.{kind_of, done, under, all_of, Fine};

use unit::{Phase, Place, Registers, Unit};

// How far the low 16 address bits and the size of a program may reach: a page program to the end of a bank of 64 KiB, a unit program not to its last byte.
const PAGE_PROGRAM_MOST: usize = 65536;

const UNIT_PROGRAM_MOST: usize = 65535;

// Which packet. `Place` has the count in each case too: the record of a unit is so, and the theorems and `wrong/` name its cases.
#[derive(Clone, Copy)]
pub(crate) enum Packet {
    PageRead,
    PageProgram,
    UnitProgram,
    BlockErase,
    EraseAll,
    IdCheck,
}

impl Packet {
    // The place so many bytes after its command.
    fn place(self, n: usize) -> Place
        ensures { result ≡ inside (kind_of self) n }
    {
        match self {
            Packet::PageRead => Place::PageRead(n),
            Packet::PageProgram => Place::PageProgram(n),
            Packet::UnitProgram => Place::UnitProgram(n),
            Packet::BlockErase => Place::BlockErase(n),
            Packet::EraseAll => Place::EraseAll(n),
            Packet::IdCheck => Place::IdCheck(n),
        }
    }

    // How many bytes follow its command: the fourth of a sized packet is its size. `unit::place_fits` reads the same constants: a function that hands them out would be longer than its five cases.
    #[tactic(auto, unfolding(unit::specs::Phases::need))]
    fn need(self, collected: &[u8; 259]) -> usize
        ensures { result ≡ need (kind_of self) collected.now }
    {
        match self {
            Packet::PageRead => Unit::PAGE_READ,
            Packet::PageProgram => Unit::PAGE_PROGRAM,
            Packet::UnitProgram | Packet::IdCheck => Unit::SIZED + collected[3] as usize,
            Packet::BlockErase => Unit::BLOCK_ERASE,
            Packet::EraseAll => Unit::ERASE_ALL,
        }
    }

    // A byte inside this packet, n bytes after its command: collected, or the packet's last, at which alone it acts. The phase after it, and how long its reply is.
    // Inlined, and `end` not, so that each arm of the step has a short path of its own: with the last byte's work in the same function a page program took 1.4 times as long.
    #[inline(always)]
    pub(crate) fn take(
        self,
        n: usize,
        u: &mut Unit,
        image: &mut [u8],
        reply: &mut [u8],
        b: u8,
    ) -> (Phase, usize)
        requires { Fine (under (Awake (inside (kind_of self) n)) u.old) image.old reply.old }
        ensures { done (under result.0 u.new) 1 result.1 image.new reply.new
            ≡ answered (in_packet (kind_of self) n (under (Awake (inside (kind_of self) n)) u.old) image.old b) 1 reply.old }
    {
        u.collected[n] = b;
        if n + 1 < self.need(&u.collected) {
            return (Phase::Awake(self.place(n + 1)), 0);
        }
        (Phase::Awake(Place::Command), self.end(u, image, reply))
    }

    // Its bytes have all come: it acts, and the unit is at a command again. How long its reply is.
    #[inline(never)]
    #[tactic(auto, unfolding(unit::specs::Model::ended))]
    fn end(self, u: &mut Unit, image: &mut [u8], reply: &mut [u8]) -> usize
        requires { 256 ≤ length reply.old }
        ensures { done (under (Awake Command) u.new) 1 result image.new reply.new
            ≡ answered (finished (kind_of self) u.old image.old (all_of (kind_of self) u.old.collected)) 1 reply.old }
    {
        let (registers, len) = self.finish(u, image, reply);
        u.registers = registers;
        commands::clear(&mut u.collected);
        len
    }

    // What its bytes do once they have all come: the registers, and how long the reply is.
    fn finish(self, u: &Unit, image: &mut [u8], reply: &mut [u8]) -> (Registers, usize)
        requires { 256 ≤ length reply.old }
        ensures { done (ended u.now result.0) 1 result.1 image.new reply.new
            ≡ answered (finished (kind_of self) u.now image.old (all_of (kind_of self) u.now.collected)) 1 reply.old }
    {
        match self {
            Packet::PageRead => {
                acts::show_page(image, reply, u.collected[0], u.collected[1]);
                (u.registers, flash::PAGE)
            }
            Packet::PageProgram => (program_page(u, image), 0),
            Packet::UnitProgram => (program_unit(u, image), 0),
            Packet::BlockErase => (erase_block(u, image), 0),
            Packet::EraseAll => (
                acts::erase_all(u.state(), u.settings, image, u.collected[0]),
                0,
            ),
            Packet::IdCheck => (check_id(u, image), 0),
        }
    }
}

// A page program: two bytes of address, and the page.
fn program_page(u: &Unit, image: &mut [u8]) -> Registers
    ensures { quiet (ended u.now result) image.new
        ≡ finished page_program u.now image.old (all_of page_program u.now.collected) }
{
    let xs = &u.collected;
    acts::program(
        u.state(),
        u.settings,
        image,
        flash::page_address(xs[0], xs[1]),
        &xs[2..258],
        PAGE_PROGRAM_MOST,
    )
}

fn byte_address(low: u8, mid: u8, high: u8) -> u32
    ensures { result ≡ byte_address low mid high }
{
    u32::from_le_bytes([low, mid, high, 0])
}

// A unit program: three bytes of address, the size, and so many bytes. Beside a page program address, bytes and reach differ: one function for both would have these three as arguments, as `acts::program` does.
fn program_unit(u: &Unit, image: &mut [u8]) -> Registers
    ensures { quiet (ended u.now result) image.new
        ≡ finished unit_program u.now image.old (all_of unit_program u.now.collected) }
{
    let xs = &u.collected;
    let size = xs[3] as usize;
    acts::program(
        u.state(),
        u.settings,
        image,
        byte_address(xs[0], xs[1], xs[2]),
        &xs[4..4 + size],
        UNIT_PROGRAM_MOST,
    )
}

// A block erase: two bytes of address, and the confirm byte.
fn erase_block(u: &Unit, image: &mut [u8]) -> Registers
    ensures { quiet (ended u.now result) image.new
        ≡ finished block_erase u.now image.old (all_of block_erase u.now.collected) }
{
    let xs = &u.collected;
    let address = flash::page_address(xs[0], xs[1]);
    acts::erase(u.state(), u.settings, image, address, xs[2])
}

// An ID check: all that followed F5 is compared.
#[tactic(auto, unfolding(protocol::specs::Endings::finished, unit::specs::Phases::need))]
fn check_id(u: &Unit, image: &[u8]) -> Registers
    ensures { quiet (ended u.now result) image.now
        ≡ finished id_check u.now image.now (all_of id_check u.now.collected) }
{
    let xs = &u.collected;
    let size = xs[3] as usize;
    acts::check_id(u.registers, u.settings, image, &xs[..4 + size])
}
