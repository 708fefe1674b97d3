// What is left of a case's bytes, and how its fields are taken from it one after the other.
ghost use Rattle.std.specs.Prelude.{◌≡◌, IfOk, length};
ghost use Rattle.std.specs.Iterator.{at_most};

use std::marker::PhantomData;

// What is no case.
#[derive(Clone, Copy)]
pub(crate) struct Broken;

#[derive(Clone, Copy)]
pub(crate) struct Rest<'a>(pub(crate) &'a [u8]);

impl<'a> Rest<'a> {
    pub(crate) fn array<const N: usize>(&mut self) -> Result<[u8; N], Broken> {
        let (front, rest) = self.0.split_first_chunk::<N>().ok_or(Broken)?;
        self.0 = rest;
        Ok(*front)
    }

    pub(crate) fn byte(&mut self) -> Result<u8, Broken> {
        let [byte] = self.array::<1>()?;
        Ok(byte)
    }

    // Two bytes, the low one first.
    pub(crate) fn number(&mut self) -> Result<u16, Broken> {
        Ok(u16::from_le_bytes(self.array()?))
    }

    // 0 or 1.
    pub(crate) fn flag(&mut self) -> Result<bool, Broken> {
        match self.byte()? {
            0 => Ok(false),
            1 => Ok(true),
            _ => Err(Broken),
        }
    }

    pub(crate) fn bytes(&mut self, n: usize) -> Result<&'a [u8], Broken>
        ensures { IfOk result (λ bytes. length bytes.now ≡ n) }
    {
        let (front, rest) = self.0.split_at_checked(n).ok_or(Broken)?;
        self.0 = rest;
        Ok(front)
    }

    // Nothing is left.
    pub(crate) fn end(self) -> Result<(), Broken> {
        if self.0.is_empty() {
            Ok(())
        } else {
            Err(Broken)
        }
    }
}

// What stands in a case a number of times, a part behind the other.
pub(crate) trait Part<'a>: Sized {
    fn read(rest: &mut Rest<'a>) -> Result<Self, Broken>;
}

// The parts of one kind that are still to come: none of them is broken.
#[derive(Drop)]
pub(crate) struct Parts<'a, P> {
    left: u16,
    rest: Rest<'a>,
    kind: PhantomData<P>,
}

impl<'a, P: Part<'a> + Drop> Parts<'a, P> {
    // Their number and the parts, which are looked at one by one.
    pub(crate) fn read(rest: &mut Rest<'a>) -> Result<Parts<'a, P>, Broken> {
        let left = rest.number()?;
        let parts = Parts {
            left,
            rest: *rest,
            kind: PhantomData,
        };
        for _ in 0..left {
            let _part = P::read(rest)?;
        }
        Ok(parts)
    }
}

impl<'a, P: Part<'a>> Iterator for Parts<'a, P> {
    type Item = P;

    ghost remaining = { λ s. at_most s.left };

    fn next(&mut self) -> Option<P> {
        self.left = self.left.checked_sub(1)?;
        P::read(&mut self.rest).ok()
    }
}
