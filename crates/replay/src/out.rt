// Standard output, by way of a buffer.
ghost use Rattle.std.specs.Prelude.{◌≤◌};

// So many bytes at the front of the buffer wait. A length stands beside it: std's BufWriter has its buffer from the heap, whose C functions this program would then trust.
#[derive(Drop)]
pub(crate) struct Output<'a, P: Print> {
    to: &'a P,
    buffer: [u8; 65536],
    waiting: usize,
    ghost fits: { waiting ≤ 65536 },
}

// What standard output does not take is left out, and the batch goes on.
impl<'a, P: Print> Output<'a, P> {
    pub(crate) fn new(to: &'a P) -> Output<'a, P> {
        Output {
            to,
            buffer: [0; 65536],
            waiting: 0,
        }
    }

    // Writes what waits.
    pub(crate) fn flush(&mut self) {
        let _ = self.to.write_all(&self.buffer[..self.waiting]);
        self.waiting = 0;
    }

    // Room for so many bytes, which are put in pieces and are not to be parted: what waits is written first where they do not fit.
    pub(crate) fn room(&mut self, n: usize) {
        if self.buffer.len() - self.waiting < n {
            self.flush();
        }
    }

    // More bytes, which wait where they fit.
    pub(crate) fn put(&mut self, bytes: &[u8]) {
        self.room(bytes.len());
        let end = self.waiting + bytes.len();
        match self.buffer.get_mut(self.waiting..end) {
            Some(room) => {
                room.copy_from_slice(bytes);
                self.waiting = end;
            }
            None => {
                let _ = self.to.write_all(bytes);
            }
        }
    }
}
