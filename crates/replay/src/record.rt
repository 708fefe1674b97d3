// The unit record. Functions, and no From or TryFrom, which would want types of their own here for the record and for its head.
use crate::reading::{Broken, Rest};
use unit::{Phase, Place, Registers, Settings, Unit};

// How many bytes it has.
pub(crate) const SIZE: usize = 268;

// The tags, numbers as the format has them: the kinds are unit's Phase and Place, and an enum of tags between would take a match more each way.
const ASLEEP: u8 = 0x00;

const COMMAND: u8 = 0x01;

const PAGE_READ: u8 = 0xFF;

const PAGE_PROGRAM: u8 = 0x41;

const UNIT_PROGRAM: u8 = 0x49;

const BLOCK_ERASE: u8 = 0x20;

const ERASE_ALL: u8 = 0xA7;

const ID_CHECK: u8 = 0xF5;

// The phase that a tag and the count after it say. No unit has another: an unknown tag, or a count that the tag cannot have, makes a case that is not well formed.
fn phase(tag: u8, count: u16) -> Result<Phase, Broken> {
    let n = usize::from(count);
    let place = match tag {
        ASLEEP => {
            let zeros = u8::try_from(count).map_err(|_| Broken)?;
            return Ok(Phase::Asleep(zeros));
        }
        COMMAND if count == 0 => Place::Command,
        PAGE_READ => Place::PageRead(n),
        PAGE_PROGRAM => Place::PageProgram(n),
        UNIT_PROGRAM => Place::UnitProgram(n),
        BLOCK_ERASE => Place::BlockErase(n),
        ERASE_ALL => Place::EraseAll(n),
        ID_CHECK => Place::IdCheck(n),
        _ => return Err(Broken),
    };
    Ok(Phase::Awake(place))
}

// The tag and the count of a phase, as `timed` has them too.
fn tag_and_count(phase: Phase) -> (u8, usize) {
    match phase {
        Phase::Asleep(zeros) => (ASLEEP, zeros.into()),
        Phase::Awake(Place::Command) => (COMMAND, 0),
        Phase::Awake(Place::PageRead(n)) => (PAGE_READ, n),
        Phase::Awake(Place::PageProgram(n)) => (PAGE_PROGRAM, n),
        Phase::Awake(Place::UnitProgram(n)) => (UNIT_PROGRAM, n),
        Phase::Awake(Place::BlockErase(n)) => (BLOCK_ERASE, n),
        Phase::Awake(Place::EraseAll(n)) => (ERASE_ALL, n),
        Phase::Awake(Place::IdCheck(n)) => (ID_CHECK, n),
    }
}

// The unit of a record, which is taken from a case.
pub(crate) fn read(rest: &mut Rest<'_>) -> Result<Unit, Broken> {
    let tag = rest.byte()?;
    let count = rest.number()?;
    let phase = phase(tag, count)?;
    let srd = rest.byte()?;
    let srd1 = rest.byte()?;
    let blank = rest.flag()?;
    let protection = rest.byte()?;
    let rate = rest.byte()?;
    let mismatches = rest.byte()?;
    let collected = rest.array()?;
    Ok(Unit {
        phase,
        registers: Registers {
            srd,
            srd1,
            rate,
            mismatches,
        },
        settings: Settings { blank, protection },
        collected,
    })
}

// What a unit's record has before the collected bytes.
pub(crate) fn head(unit: &Unit) -> [u8; 9] {
    let (tag, count) = tag_and_count(unit.phase);
    let [low, high, ..] = count.to_le_bytes();
    let registers = unit.registers;
    let settings = unit.settings;
    [
        tag,
        low,
        high,
        registers.srd,
        registers.srd1,
        settings.blank.into(),
        settings.protection,
        registers.rate,
        registers.mismatches,
    ]
}
