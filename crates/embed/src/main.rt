// A port embedded in a program of one's own: a start, a run of bytes, the reply. docs/CALLING.md goes through it.
#![tactic(auto)]

use unit::Inputs;

fn stop(rt: &impl Eprint, why: &str) {
    let _ = rt.eprintln(why);
}

fn main(rt: HostRuntime) {
    // The flash: an array here, what the device stores elsewhere. All 00, it is not blank, and its ID is seven zeros.
    let mut image = [0; flash::IMAGE];
    let Ok(fresh) = port::start(&image, Inputs { protection: 3 }) else {
        return stop(&rt, "embed: the start is refused");
    };
    // Sixteen zeros and B0 wake the unit, 70 asks for its status, FB for its version: they reply 1, 2 and 8 bytes.
    let mut bytes = [0; 19];
    bytes[16..].copy_from_slice(&[0xB0, 0x70, 0xFB]);
    let mut area = [0; 11 + 256];
    let Ok(answer) = port::run(fresh, &mut image, &bytes, &mut area) else {
        return stop(&rt, "embed: the run is refused");
    };
    if answer.taken < bytes.len() {
        return stop(&rt, "embed: the area has too little room");
    }
    let _ = rt.write_all(slices::first(&area, answer.reply_len));
}
