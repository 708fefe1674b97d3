// Why the program ends before its input does. It says so in one line on standard error; its exit status does not.
use live::Unread;
use std::io;

#[derive(Drop)]
pub(crate) enum Stop {
    Usage,
    NotANumber,
    ProtectionTooLarge,
    ImageSize,
    ByteRefused,
    // A call of the system: what the line begins with, and the system's reason.
    System(&'static str, io::Error),
}

impl Stop {
    // No Display: the reason of a call of the system is told by `system::complain`, which leaves out its number.
    pub(crate) fn tell(self, rt: &impl Eprint) {
        let line = match self {
            Stop::Usage => "serve: usage: serve [PROTECTION]",
            Stop::NotANumber => "serve: the protection is not a number in decimal digits",
            Stop::ProtectionTooLarge => "serve: the protection is over 15",
            Stop::ImageSize => "serve: unit.img does not have 20480 bytes",
            Stop::ByteRefused => "serve: the port refuses a byte",
            Stop::System(what, why) => return system::complain(rt, what, why),
        };
        let _ = rt.eprintln(line);
    }
}

impl From<Unread> for Stop {
    fn from(unread: Unread) -> Stop {
        match unread {
            Unread::TooLarge => Stop::ProtectionTooLarge,
            Unread::NotANumber => Stop::NotANumber,
        }
    }
}
