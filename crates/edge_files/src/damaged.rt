// A sound file, cut short and with single bytes changed.
ghost use Rattle.std.specs.Prelude.{◌<◌};

use crate::calls;

// What a byte is changed to.
const BYTES: [u8; 13] = [10, 13, 9, 32, 48, 49, 57, 45, 99, 101, 112, 0, 255];

// How many rows there is room for: one more than the file needs.
const ROOM: usize = 11;

// The file with another byte at one place.
fn import_changed(file: [u8; 47], at: usize, byte: u8)
    requires { at < 47 }
{
    let mut other = file;
    other[at] = byte;
    calls::import(&other, ROOM);
}

// With each byte changed.
fn change_each(file: [u8; 47]) {
    for at in 0..47 {
        for byte in BYTES {
            import_changed(file, at, byte);
        }
    }
}

// Cut short at each byte, and whole.
fn cut_each(file: &[u8]) {
    // the number is where the file is cut, so no single byte stands for it
    for end in 0..file.len() {
        calls::import(&file[..end], ROOM);
    }
    calls::import(file, ROOM);
}

fn play(file: [u8; 47]) {
    cut_each(&file);
    change_each(file);
}

// Comments at the front, between the links and at the end; a link that comes again, the same way round and the other.
pub fn play_all() {
    play(*b"c e\np edge 10 4\ne 1 2\nc\ne 2 1\ne 10 3\ne 1 2\nc p\n");
}
