// One call, and its line.
ghost use Rattle.std.specs.Prelude.{◌≤◌};

use chordal::Chordality;
use notation::{put, show, show_bar, show_list, show_plan};
use searches::{Mark, Refusal};

// The answer: y for a plan without a chordless ring, n and the length of the ring, or r and the number of the refusal.
pub fn show_answer(answer: Result<Chordality, Refusal>) {
    match answer {
        Ok(Chordality::Chordal) => put(b'y'),
        Ok(Chordality::Cycle(length)) => {
            put(b'n');
            show(length as u64);
        }
        Err(refusal) => {
            put(b'r');
            show(refusal as u64);
        }
    }
}

fn play(mark: Mark, rows: &[u64], output: &mut [u8]) {
    io::print_decimal(1, mark as u64);
    show(rows.len() as u64);
    show_bar();
    show_plan(rows);
    show_bar();
    show(output.len() as u64);
    put(b' ');
    show_answer(chordal::decide(mark, rows, output));
    show_bar();
    show_list(output);
    put(b'\n');
}

// One call with a fresh output list of `room` bytes.
pub fn decide(mark: Mark, rows: &[u64], room: usize)
    requires { room ≤ 66 }
{
    let mut output = notation::fresh();
    play(mark, rows, &mut output[..room]);
}
