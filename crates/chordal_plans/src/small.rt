// All two-way plans of at most six points.
ghost use Rattle.std.specs.Prelude.{◌≤◌};

use crate::lines::show_answer;
use notation::put;
use searches::Mark;

// Prints the bytes of a list without spaces.
fn show_digits(list: &[u8]) {
    for byte in list {
        io::print_decimal(1, u64::from(*byte));
    }
}

fn play(rows: &[u64], output: &mut [u8]) {
    show_answer(chordal::decide(Mark::TwoWay, rows, output));
    put(b' ');
    show_digits(output);
    put(b'\n');
}

// One call on the plan with this number.
fn decide(n: usize, number: u64)
    requires { n ≤ 6 }
{
    let rows = plans::numbered(n, number);
    let mut output = [9u8; 7];
    let room = n + 1;
    play(&rows[..n], &mut output[..room]);
}

// The plans of n points with the numbers below `count`.
fn decide_each(n: usize, count: u64)
    requires { n ≤ 6 }
{
    for number in 0..count {
        decide(n, number);
    }
}

pub fn decide_all() {
    decide_each(0, 1);
    decide_each(1, 1);
    decide_each(2, 2);
    decide_each(3, 8);
    decide_each(4, 64);
    decide_each(5, 1024);
    decide_each(6, 32768);
}
