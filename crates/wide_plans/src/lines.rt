// Calls on a table, and their lines.
ghost use Rattle.std.specs.Prelude.{◌≤◌};

use notation::{put, show, show_bar};
use searches::{Judgement, Kind, Mark, Refusal, Violation, WideVertex};
use std::array;

// Prints the points of a list.
fn show_points(list: &[u16]) {
    for point in list {
        show(u64::from(*point));
    }
}

fn show_refusal(refusal: Refusal) {
    put(b' ');
    put(b'r');
    show(refusal as u64);
}

fn show_triple(violation: Violation<WideVertex>) {
    put(b' ');
    put(b'f');
    show(u64::from(violation.a.0));
    show(u64::from(violation.b.0));
    show(u64::from(violation.c.0));
}

fn show_letter(letter: u8) {
    put(b' ');
    put(letter);
}

fn show_judgement(judged: Result<Judgement<WideVertex>, Refusal>) {
    match judged {
        Ok(Judgement::Passes) => show_letter(b'p'),
        Ok(Judgement::Fails(violation)) => show_triple(violation),
        Err(refusal) => show_refusal(refusal),
    }
}

fn show_outcome(outcome: Result<(), Refusal>) {
    match outcome {
        Ok(()) => show_letter(b'd'),
        Err(refusal) => show_refusal(refusal),
    }
}

// The line of a plan.
pub fn show_plan(
    mark: Mark,
    n: usize,
    chance: u64,
    pieces: u8,
    seed: u64,
    damage: u8,
    words: usize,
) {
    put(b'p');
    show(mark as u64);
    show(n as u64);
    show(chance);
    show(u64::from(pieces));
    show(seed);
    show(u64::from(damage));
    show(words as u64);
    put(b'\n');
}

fn judge(kind: u8, mark: Mark, table: &[u64], walk: &[u16]) {
    put(b'j');
    show(u64::from(kind));
    show_bar();
    show_points(walk);
    show_bar();
    show_judgement(wide::judge(Kind(kind), mark, table, walk));
    put(b'\n');
}

// Judges the walk of the first n entries of a list.
pub fn say_judge(kind: u8, mark: Mark, table: &[u64], walk: [u16; 520], n: usize)
    requires { n ≤ 520 }
{
    judge(kind, mark, table, &walk[..n]);
}

// An output list before a call: the start at its front, and 1000 + p at every other place p.
fn fresh(start: &[u16]) -> [u16; 520] {
    array::from_fn(|p| {
        if p < start.len() {
            start[p]
        } else {
            1000 + p as u16
        }
    })
}

fn call(kind: u8, mark: Mark, table: &[u64], tie_break: &[u16], output: &mut [u16], k: usize) {
    let outcome = wide::carry_on(Kind(kind), mark, table, tie_break, output, k);
    show_bar();
    show_outcome(outcome);
    show_bar();
    show_points(output);
    put(b'\n');
}

// Prints the call, makes it on the first `length` entries of an output list, and returns the list after it.
fn carry_on(
    kind: u8,
    mark: Mark,
    table: &[u64],
    tie_break: &[u16],
    start: &[u16],
    k: usize,
    length: usize,
) -> [u16; 520]
    requires { length ≤ 520 }
{
    let mut output = fresh(start);
    put(b'c');
    show(u64::from(kind));
    show(k as u64);
    show(length as u64);
    show_bar();
    show_points(tie_break);
    show_bar();
    show_points(start);
    call(kind, mark, table, tie_break, &mut output[..length], k);
    output
}

// Carries on k points, with the first m entries of a preference list, in an output list of so many entries: the first `begun` of a list stand at its front.
pub fn say_carry_on(
    kind: u8,
    mark: Mark,
    table: &[u64],
    tie_break: [u16; 520],
    m: usize,
    start: [u16; 520],
    begun: usize,
    k: usize,
    length: usize,
) -> [u16; 520]
    requires { (m ≤ 520) × (begun ≤ 520) × (length ≤ 520) }
{
    carry_on(
        kind,
        mark,
        table,
        &tie_break[..m],
        &start[..begun],
        k,
        length,
    )
}
