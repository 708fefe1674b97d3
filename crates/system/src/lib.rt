// What the programs ask of the system, beside what std has as it stands: a buffer filled, the words of the command line counted, a failure told.
#![tactic(auto)]

ghost use Rattle.std.specs.Prelude.{◌≡◌, ◌≤◌, length, take};
ghost use Rattle.std.specs.Io.KnownBytes.{Consumes};

use std::env::FillError;
use std::fmt::InlineText;
use std::io;
use std::io::Read;
use std::rt::Env;

// Reads until `buf` is full, the input ends or a read fails, and says how many bytes stand at the front: its clauses speak of the whole buffer. No range: a read says how far it went.
pub fn fill<R: Read>(input: &mut R, buf: &mut [u8]) -> usize
    ensures within { result ≤ length buf.new }
    ensures front { result ≡ length (take result buf.new) }
    ensures taken { Consumes (R.remaining input.old) (R.remaining input.new) (take result buf.new) }
{
    let mut done = 0;
    while done < buf.len() {
        match input.read(&mut buf[done..]) {
            Ok(0) | Err(_) => break,
            Ok(n) => done += n,
        }
    }
    done
}

// How many words the program was started with, its own name among them. Not by `std::env::args`, which takes memory, and no word that is not UTF-8.
pub fn word_count(rt: &impl Env) -> usize {
    (0..usize::MAX)
        .find(|&i| matches!(rt.arg(i, &mut []), Err(FillError::NotPresent)))
        .unwrap_or(usize::MAX)
}

// A line on standard error: what failed, and the system's reason.
pub fn complain(rt: &impl Eprint, what: &str, error: io::Error) {
    let text = InlineText::<256>::of(error);
    let why = reason(text.as_str());
    let _ = eprintln!(rt; "{what}: {why}");
}

// An error's text without the number that std puts behind the system's words.
fn reason(text: &str) -> &str {
    match text.rsplit_once(" (os error ") {
        Some((words, _)) => words,
        None => text,
    }
}

#[cfg(test)]
mod tests {
    use super::*;

    // Gives two bytes at a time, so many times, and then fails.
    #[derive(Drop)]
    struct Failing(u8);

    impl Read for Failing {
        fn read(&mut self, buf: &mut [u8]) -> io::Result<usize> {
            if self.0 == 0 || buf.len() < 2 {
                return Err(io::Error::other("gone"));
            }
            self.0 -= 1;
            buf[0] = 7;
            buf[1] = 8;
            Ok(2)
        }
    }

    #[test]
    fn fills_up_to_the_read_that_fails(rt: HostRuntime) {
        let mut buf = [0u8; 6];
        assert_eq!(rt; fill(&mut Failing(2), &mut buf), 4);
        assert_eq!(rt; buf, [7, 8, 7, 8, 0, 0]);
        assert_eq!(rt; fill(&mut Failing(9), &mut buf), 6);
        assert_eq!(rt; fill(&mut Failing(9), &mut buf[..0]), 0);
    }

    #[test]
    fn tells_the_reason_alone(rt: HostRuntime) {
        let missing = io::Error::from_raw_os_error(2);
        let text = InlineText::<256>::of(missing);
        assert_eq!(rt; reason(text.as_str()), "No such file or directory");
        assert_eq!(rt; reason("gone"), "gone");
    }
}
