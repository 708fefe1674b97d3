// The unit of document 01: its phase, registers, settings and collected bytes; how it begins; which records are in range.
#![tactic(auto)]

ghost use Rattle.std.specs.Prelude.{◌≡◌};
ghost use Rattle.unit.specs.declared.Phase.TheVariants.{Awake};
ghost use Rattle.unit.specs.Phases.{position_of};
ghost use Rattle.unit.specs.Model.{begun};
ghost use Rattle.unit.specs.Range.{position_fits, size_alone, srd_fits, srd1_fits, registers_fit, blank_fits, settings_fit};
ghost use Rattle.unit.specs.Clauses.{FreshEnsures, IdleEnsures, OfEnsures, StateEnsures, InRangeEnsures, AtEnsures, AtCommandEnsures, WithSrdEnsures, WithSrd1Ensures, WithRateEnsures, WithMismatchesEnsures, IsOpenEnsures, IsStandingEnsures};

// Awake at a command, or inside a packet: which one, and how many bytes have come since its command.
#[derive(Clone, Copy)]
pub enum Place {
    Command,
    PageRead(usize),
    PageProgram(usize),
    UnitProgram(usize),
    BlockErase(usize),
    EraseAll(usize),
    IdCheck(usize),
}

// Asleep with a count of zeros, or awake.
#[derive(Clone, Copy)]
pub enum Phase {
    Asleep(u8),
    Awake(Place),
}

// What bytes change: SRD, SRD1, the rate index, and the count of wrong ID checks since start.
// Numbers and no enums: the theorems on `in_range` speak of records with any byte there, and a call refuses such a record.
#[derive(Clone, Copy)]
pub struct Registers {
    pub srd: u8,
    pub srd1: u8,
    pub rate: u8,
    pub mismatches: u8,
}

// What start fixes for good.
#[derive(Clone, Copy)]
pub struct Settings {
    pub blank: bool,
    pub protection: u8,
}

// Fixed memory, all of it in the record that the theorems speak of: how many of the collected bytes have come stands in the phase.
#[derive(Clone, Copy)]
pub struct Unit {
    pub phase: Phase,
    pub registers: Registers,
    pub settings: Settings,
    pub collected: [u8; 259],
}

// What a start is given beside the image.
#[derive(Clone, Copy)]
pub struct Inputs {
    pub protection: u8,
}

// What bytes change of a unit, its collected bytes apart.
#[derive(Clone, Copy)]
pub struct State {
    pub phase: Phase,
    pub registers: Registers,
}

impl Unit {
    // SRD: ready, erase error (SR5), program error (SR4).
    pub const READY: u8 = 0x80;

    pub const ERASE_ERROR: u8 = 0x20;

    pub const PROGRAM_ERROR: u8 = 0x10;

    // SRD1: not checked, mismatch (SR10), match (SR10 and SR11).
    pub const NOT_CHECKED: u8 = 0x00;

    pub const MISMATCH: u8 = 0x04;

    pub const MATCH: u8 = 0x0C;

    // "VER.2.00"
    pub const VERSION: [u8; 8] = [0x56, 0x45, 0x52, 0x2E, 0x32, 0x2E, 0x30, 0x30];

    // The zeros that wake a unit, and the byte after them.
    pub const ZEROS: u8 = 16;

    pub const WAKE: u8 = 0xB0;

    // How many bytes a unit collects, and how many follow each command (before the data of a sized packet).
    pub const COLLECTED: usize = 259;

    pub const PAGE_READ: usize = 2;

    pub const PAGE_PROGRAM: usize = 258;

    pub const BLOCK_ERASE: usize = 3;

    pub const ERASE_ALL: usize = 1;

    pub const SIZED: usize = 4;

    pub const MAX_PROTECTION: u8 = 15;

    pub const MAX_RATE: u8 = 4;

    // So many wrong ID checks lock a unit.
    pub const MAX_MISMATCHES: u8 = 3;

    // The fresh unit of an image.
    #[tactic(auto, unfolding(crate::specs::Model::fresh))]
    pub fn fresh(image: &[u8], inputs: Inputs) -> Self
        ensures { FreshEnsures image.now inputs result }
    {
        Self::begun(flash::blank(image), inputs)
    }

    // The fresh unit of a non-blank image with protection 0.
    #[tactic(auto, unfolding(crate::specs::Model::idle))]
    pub fn idle() -> Self
        ensures { IdleEnsures result }
    {
        Self::begun(false, Inputs { protection: 0 })
    }

    #[tactic(auto, unfolding(crate::specs::Model::begun))]
    fn begun(blank: bool, inputs: Inputs) -> Self
        ensures { result ≡ begun blank inputs }
    {
        Self {
            phase: Phase::Asleep(0),
            registers: Registers {
                srd: Self::READY,
                srd1: if blank {
                    Self::MATCH
                } else {
                    Self::NOT_CHECKED
                },
                rate: 0,
                mismatches: 0,
            },
            settings: Settings {
                blank,
                protection: inputs.protection,
            },
            collected: [0; Self::COLLECTED],
        }
    }

    // A unit put together from its parts.
    pub fn of(state: State, settings: Settings, collected: [u8; 259]) -> Self
        ensures { OfEnsures state settings collected result }
    {
        Self {
            phase: state.phase,
            registers: state.registers,
            settings,
            collected,
        }
    }

    pub fn state(self) -> State
        ensures { StateEnsures self result }
    {
        State {
            phase: self.phase,
            registers: self.registers,
        }
    }

    // Every number of the record is in its range.
    #[tactic(auto, using(crate::proofs::Lengths::size_decides), unfolding(crate::specs::Range::in_range))]
    pub fn in_range(self) -> bool
        ensures { InRangeEnsures self result }
    {
        phase_fits(self.phase, self.registers.is_open(), self.collected[3])
            && self.registers.fit()
            && self.settings.fit(self.registers)
    }
}

impl State {
    // A state with another phase, or with other registers at the end of a packet.
    pub fn at(self, phase: Phase) -> Self
        ensures { AtEnsures self phase result }
    {
        Self { phase, ..self }
    }

    pub fn at_command(registers: Registers) -> Self
        ensures { AtCommandEnsures registers result }
    {
        Self {
            phase: Phase::Awake(Place::Command),
            registers,
        }
    }
}

impl Registers {
    // With one of them changed: a function for each, since docs/PINNED.md and the theorems that it names speak of all four.
    pub fn with_srd(self, srd: u8) -> Self
        ensures { WithSrdEnsures self srd result }
    {
        Self { srd, ..self }
    }

    pub fn with_srd1(self, srd1: u8) -> Self
        ensures { WithSrd1Ensures self srd1 result }
    {
        Self { srd1, ..self }
    }

    pub fn with_rate(self, rate: u8) -> Self
        ensures { WithRateEnsures self rate result }
    {
        Self { rate, ..self }
    }

    pub fn with_mismatches(self, mismatches: u8) -> Self
        ensures { WithMismatchesEnsures self mismatches result }
    {
        Self { mismatches, ..self }
    }

    #[tactic(auto, unfolding(crate::specs::Model::is_open))]
    pub fn is_open(self) -> bool
        ensures { IsOpenEnsures self result }
    {
        self.srd1 == Unit::MATCH
    }

    // SR4 or SR5 stands.
    #[tactic(auto, unfolding(crate::specs::Model::standing))]
    pub fn is_standing(self) -> bool
        ensures { IsStandingEnsures self result }
    {
        self.srd != Unit::READY
    }

    #[tactic(auto, unfolding(crate::specs::Range::registers_fit))]
    fn fit(self) -> bool
        ensures { result ≡ registers_fit self }
    {
        srd_fits(self.srd)
            && srd1_fits(self.srd1)
            && self.rate <= Unit::MAX_RATE
            && self.mismatches <= Unit::MAX_MISMATCHES
    }

    // As those of a unit that started blank: open, and no wrong ID check.
    #[tactic(auto, unfolding(crate::specs::Range::blank_fits))]
    fn fit_blank(self) -> bool
        ensures { result ≡ blank_fits self }
    {
        self.is_open() && self.mismatches == 0
    }
}

#[tactic(auto, unfolding(crate::specs::Range::srd_fits))]
fn srd_fits(srd: u8) -> bool
    ensures { result ≡ srd_fits srd }
{
    matches!(srd, 0x80 | 0x90 | 0xA0 | 0xB0)
}

#[tactic(auto, unfolding(crate::specs::Range::srd1_fits))]
fn srd1_fits(srd1: u8) -> bool
    ensures { result ≡ srd1_fits srd1 }
{
    matches!(srd1, 0x00 | 0x04 | 0x0C)
}

impl Settings {
    #[tactic(auto, unfolding(crate::specs::Range::settings_fit))]
    fn fit(self, registers: Registers) -> bool
        ensures { result ≡ settings_fit self registers }
    {
        self.protection <= Unit::MAX_PROTECTION && (!self.blank || registers.fit_blank())
    }
}

// The phase of a unit that is open or not, and whose fourth collected byte is `size`: no other collected byte matters.
#[tactic(auto, unfolding(crate::specs::Range::position_fits))]
fn phase_fits(phase: Phase, opened: bool, size: u8) -> bool
    ensures { result ≡ position_fits (position_of phase) opened (size_alone size) }
{
    match phase {
        Phase::Asleep(n) => n <= Unit::ZEROS,
        Phase::Awake(place) => place_fits(place, opened, size),
    }
}

// An arm for each place, as document 01 lists them: `opened &&` said once would part two arms from the five that it is for.
#[tactic(auto, using(crate::proofs::Lengths::few_sized), unfolding(crate::specs::Range::position_fits, crate::specs::Range::packet_fits, crate::specs::Phases::command_of, crate::specs::Phases::need))]
fn place_fits(place: Place, opened: bool, size: u8) -> bool
    ensures { result ≡ position_fits (position_of (Awake place)) opened (size_alone size) }
{
    match place {
        Place::Command => true,
        Place::PageRead(n) => opened && n < Unit::PAGE_READ,
        Place::PageProgram(n) => opened && n < Unit::PAGE_PROGRAM,
        Place::UnitProgram(n) => opened && n < Unit::SIZED + size as usize,
        Place::BlockErase(n) => opened && n < Unit::BLOCK_ERASE,
        Place::EraseAll(n) => opened && n < Unit::ERASE_ALL,
        Place::IdCheck(n) => n < Unit::SIZED + size as usize,
    }
}
