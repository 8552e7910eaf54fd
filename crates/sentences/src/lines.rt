// A walk judged in words, and its lines.
ghost use Rattle.std.specs.Prelude.{◌≤◌};

use notation::{put, show, show_bar, show_list};
use searches::{Kind, Mark, Refusal};
use std::array;

// The answer: w and the length of the sentence, or r and the number of the refusal.
fn show_answer(answer: Result<usize, Refusal>) {
    put(b' ');
    match answer {
        Ok(length) => {
            put(b'w');
            show(length as u64);
        }
        Err(refusal) => {
            put(b'r');
            show(refusal as u64);
        }
    }
}

fn play(kind: u8, mark: Mark, rows: &[u64], barred: u64, walk: &[u8], output: &mut [u8]) {
    io::print_decimal(1, u64::from(kind));
    show_answer(wording::judge_in_words(Kind(kind), mark, rows, barred, walk, output));
    show_bar();
    put(b' ');
    io::write_all(1, output);
    put(b'\n');
}

// An output list before a call: the letters a to z, again and again.
fn fresh() -> [u8; 128] {
    array::from_fn(|p| b'a' + (p % 26) as u8)
}

// One kind, with a fresh output list of so many bytes.
fn say_as(kind: u8, mark: Mark, rows: &[u64], barred: u64, walk: &[u8], size: usize)
    requires { size ≤ 128 }
{
    let mut output = fresh();
    play(kind, mark, rows, barred, walk, &mut output[..size]);
}

fn say_as_each(mark: Mark, rows: &[u64], barred: u64, walk: &[u8], size: usize)
    requires { size ≤ 128 }
{
    for kind in 0u8..8 {
        say_as(kind, mark, rows, barred, walk, size);
    }
    say_as(255, mark, rows, barred, walk, size);
}

// A walk, for the kinds 0 to 7 and 255.
pub fn say(mark: Mark, rows: &[u64], barred: u64, walk: &[u8], size: usize)
    requires { size ≤ 128 }
{
    io::print_decimal(1, mark as u64);
    show_bar();
    notation::show_plan(rows);
    show_bar();
    show(barred);
    show_bar();
    show_list(walk);
    show_bar();
    show(size as u64);
    put(b'\n');
    say_as_each(mark, rows, barred, walk, size);
}
