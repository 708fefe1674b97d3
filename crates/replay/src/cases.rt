// A case, read: docs/CASES.md has its fields in their order.
ghost use Rattle.std.specs.Prelude.{◌≤◌};

use crate::reading::{Broken, Part, Parts, Rest};
use crate::record;
use unit::{Inputs, Unit};

// How a case begins: with a start call, or with the unit that it gives.
#[derive(Clone, Copy)]
pub(crate) enum Begin {
    Start(Inputs),
    Given(Unit),
}

// Bytes that stand at a place of the image.
#[derive(Clone, Copy)]
pub(crate) struct Patch<'a> {
    pub(crate) offset: u16,
    pub(crate) bytes: &'a [u8],
}

// What a group's bytes are given to: byte calls, one for each of them, or one run call.
#[derive(Clone, Copy)]
pub(crate) enum Kind {
    Bytes,
    Run,
}

#[derive(Clone, Copy)]
pub(crate) struct Group<'a> {
    pub(crate) kind: Kind,
    pub(crate) area_len: usize,
    pub(crate) fill: u8,
    pub(crate) bytes: &'a [u8],
    ghost area_fits: { area_len ≤ 16384 },
}

#[derive(Drop)]
pub(crate) struct Case<'a> {
    pub(crate) begin: Begin,
    pub(crate) is_traced: bool,
    pub(crate) image_len: usize,
    pub(crate) fill: u8,
    pub(crate) patches: Parts<'a, Patch<'a>>,
    pub(crate) groups: Parts<'a, Group<'a>>,
    ghost image_fits: { image_len ≤ 32768 },
}

impl<'a> Part<'a> for Patch<'a> {
    fn read(rest: &mut Rest<'a>) -> Result<Patch<'a>, Broken> {
        let offset = rest.number()?;
        let count = rest.byte()?;
        let bytes = rest.bytes(count.into())?;
        Ok(Patch { offset, bytes })
    }
}

impl<'a> Part<'a> for Group<'a> {
    fn read(rest: &mut Rest<'a>) -> Result<Group<'a>, Broken> {
        let kind = if rest.flag()? { Kind::Run } else { Kind::Bytes };
        let area_len = usize::from(rest.number()?);
        if Case::MOST_AREA < area_len {
            return Err(Broken);
        }
        let fill = rest.byte()?;
        let count = rest.number()?;
        let bytes = rest.bytes(count.into())?;
        Ok(Group {
            kind,
            area_len,
            fill,
            bytes,
        })
    }
}

impl<'a> Case<'a> {
    pub(crate) const MOST_IMAGE: usize = 32768;

    pub(crate) const MOST_AREA: usize = 16384;

    // A case's bytes, which its fields fill exactly.
    pub(crate) fn read(bytes: &'a [u8]) -> Result<Case<'a>, Broken> {
        let mut rest = Rest(bytes);
        let is_given = rest.flag()?;
        let protection = rest.byte()?;
        let is_traced = rest.flag()?;
        let begin = if is_given {
            Begin::Given(record::read(&mut rest)?)
        } else {
            rest.bytes(record::SIZE)?;
            Begin::Start(Inputs { protection })
        };
        let image_len = usize::from(rest.number()?);
        if Case::MOST_IMAGE < image_len {
            return Err(Broken);
        }
        let fill = rest.byte()?;
        let patches = Parts::read(&mut rest)?;
        let groups = Parts::read(&mut rest)?;
        rest.end()?;
        Ok(Case {
            begin,
            is_traced,
            image_len,
            fill,
            patches,
            groups,
        })
    }
}
