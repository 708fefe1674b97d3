// The lines of the bench as text in ASCII, each at the front of a buffer that the caller lends. Its length comes back beside the buffer: the clauses in docs/PINNED.md say what the whole buffer then holds.
// Not by `write!`: a `Display` promises what it has written where it answers `Ok`, and never that it does, and these lines cannot fail.
#![tactic(auto)]

ghost use Rattle.std.specs.Prelude.{◌≡◌, ◌+◌, ◌*◌, ◌≤◌, ◌<◌, length, take, decimal as digits_of};
ghost use Rattle.lines.specs.Ascii.{ascii};
ghost use Rattle.lines.specs.Text.{digit as digit_of, spaced, reply_line, end_line, refused_line, leaves, laid};
ghost use Rattle.lines.specs.Writing.{Adds};

// A digit below 16, in upper case. Not by `char::from_digit`, whose letters are in lower case: a line of 256 bytes then takes twice the instructions.
#[tactic(auto, unfolding(crate::specs::Text::digit))]
fn digit(d: u8) -> u8
    requires { d < 16 }
    ensures { result ≡ digit_of d }
{
    match d {
        0..=9 => b'0' + d,
        _ => b'A' + (d - 10),
    }
}

// A line as far as it is written: the buffer, and how many bytes at its front. Each method asks for the room of what it puts, which is another amount in each.
#[derive(Drop)]
struct Line<'a> {
    out: &'a mut [u8],
    len: usize,
}

impl Line<'_> {
    #[tactic(auto, using(crate::proofs::Writes::part_is))]
    fn put(&mut self, text: &[u8])
        requires { self.old.len + length text.now ≤ length self.old.out.now }
        ensures { Adds text.now self.old self.new }
    {
        let end = self.len + text.len();
        self.out[self.len..end].copy_from_slice(text);
        self.len = end;
    }

    // Each byte in hex, with a space before it.
    fn put_hex(&mut self, bytes: &[u8])
        requires { self.old.len + 3 * length bytes.now ≤ length self.old.out.now }
        ensures { Adds (spaced bytes.now) self.old self.new }
    {
        for &b in bytes {
            self.put(&[b' ', digit(b / 16), digit(b % 16)]);
        }
    }

    // A number's last digit, after those of its tenth.
    fn put_decimal(&mut self, n: u64)
        requires { self.old.len + length (digits_of n) ≤ length self.old.out.now }
        ensures { Adds (digits_of n) self.old self.new }
    {
        if 10 <= n {
            self.put_decimal(n / 10);
        }
        self.put(&[b'0' + (n % 10) as u8]);
    }

    // The line's end, and how long the line is.
    fn finish(&mut self) -> usize
        requires { self.old.len + 1 ≤ length self.old.out.now }
        ensures added { Adds (ascii "\n") self.old self.new }
        ensures len { result ≡ self.new.len }
    {
        self.put(b"\n");
        self.len
    }
}

// The line of a byte's number and its reply, which is the first `len` bytes of the area: a slice of any length would ask more of the caller.
#[tactic(auto, using(crate::proofs::Texts::decimal_fits, crate::proofs::Texts::length_spaced, crate::proofs::Texts::front_fits))]
pub fn reply_line(out: &mut [u8; 1024], number: u64, area: &[u8; 256], len: usize) -> usize
    ensures { leaves result out.new ≡ laid (reply_line number (take len area.now)) out.old }
{
    let reply = slices::first(area, len);
    if reply.is_empty() {
        return 0;
    }
    let mut line = Line { out, len: 0 };
    line.put_decimal(number);
    line.put(b":");
    line.put_hex(reply);
    line.finish()
}

// The last line.
#[tactic(auto, using(crate::proofs::Texts::length_spaced))]
pub fn end_line(out: &mut [u8; 1024], srd: u8, srd1: u8) -> usize
    ensures { leaves result out.new ≡ laid (end_line srd srd1) out.old }
{
    let mut line = Line { out, len: 0 };
    line.put(b"end");
    line.put_hex(&[srd, srd1]);
    line.finish()
}

// The one line of a refused start, by its number: a type of refusals would ask more of the caller.
#[tactic(auto, using(crate::proofs::Texts::decimal_fits))]
pub fn refused_line(out: &mut [u8; 1024], refusal: u8) -> usize
    ensures { leaves result out.new ≡ laid (refused_line refusal) out.old }
{
    let mut line = Line { out, len: 0 };
    line.put(b"refused ");
    line.put_decimal(u64::from(refusal));
    line.finish()
}
