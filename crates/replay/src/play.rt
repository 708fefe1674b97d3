// Plays a case, and puts its answer out.
use crate::cases::{Begin, Case, Group, Kind, Patch};
use crate::out::Output;
use crate::record;
use protocol::{Answer, Numbered, Refused, Started};
use unit::Unit;

// The port while cases are played: the unit that the next call is given, whether the case is traced, and where answers go.
#[derive(Drop)]
pub(crate) struct Player<'a, P: Print> {
    unit: Unit,
    is_traced: bool,
    output: Output<'a, P>,
}

// Puts a patch into the image; what lies past the image's end is left out.
fn lay(patch: Patch<'_>, image: &mut [u8]) {
    if let Some(place) = image.get_mut(usize::from(patch.offset)..) {
        slices::copy(place, patch.bytes);
    }
}

impl<'a, P: Print> Player<'a, P> {
    pub(crate) fn new(rt: &'a P) -> Player<'a, P> {
        Player {
            unit: Unit::idle(),
            is_traced: false,
            output: Output::new(rt),
        }
    }

    fn put_unit(&mut self) {
        self.output.room(record::SIZE);
        self.output.put(&record::head(&self.unit));
        self.output.put(&self.unit.collected);
    }

    // The start call and its answer, or the unit that the case gives.
    fn begin(&mut self, begin: Begin, image: &[u8]) {
        match begin {
            Begin::Given(unit) => self.unit = unit,
            Begin::Start(inputs) => {
                let started = Started::of(port::start(image, inputs));
                self.unit = started.unit;
                self.output.put(&[started.refusal]);
                self.put_unit();
            }
        }
    }

    // What a call answered, in document 01's numbers, as the format has them; its area, and the image where the case is traced.
    fn tell(&mut self, answered: Result<Answer, Refused>, image: &[u8], area: &[u8]) {
        let numbered = Numbered::of(answered);
        self.unit = numbered.unit;
        let registers = self.unit.registers;
        let [taken, taken_high, ..] = numbered.taken.to_le_bytes();
        let [len, len_high, ..] = numbered.reply_len.to_le_bytes();
        self.output.put(&[
            numbered.refusal,
            taken,
            taken_high,
            len,
            len_high,
            registers.srd,
            registers.srd1,
        ]);
        self.output.put(area);
        if self.is_traced {
            self.output.put(image);
        }
    }

    // A group of calls: each has an area of its own, with every byte of it the group's fill. Two arms: one call by a closure would be no shorter, since they fill the area at other moments.
    fn group(&mut self, group: Group<'_>, image: &mut [u8], area: &mut [u8]) {
        match group.kind {
            Kind::Bytes => {
                for &byte in group.bytes {
                    area.fill(group.fill);
                    let answered = port::byte(self.unit, image, area, byte);
                    self.tell(answered, image, area);
                }
            }
            Kind::Run => {
                area.fill(group.fill);
                let answered = port::run(self.unit, image, group.bytes, area);
                self.tell(answered, image, area);
            }
        }
    }

    // The whole case. `room` holds the largest image, `area` the largest area: with them in the player, no rule of the borrow checker covered the calls.
    pub(crate) fn case(
        &mut self,
        case: Case<'_>,
        room: &mut [u8; Case::MOST_IMAGE],
        area: &mut [u8; Case::MOST_AREA],
    ) {
        let image = &mut room[..case.image_len];
        image.fill(case.fill);
        for patch in case.patches {
            lay(patch, image);
        }
        self.is_traced = case.is_traced;
        self.begin(case.begin, image);
        for group in case.groups {
            self.group(group, image, &mut area[..group.area_len]);
        }
        self.put_unit();
        self.output.put(image);
    }

    // What is still to be written of the answers.
    pub(crate) fn flush(&mut self) {
        self.output.flush();
    }
}
