// What the programs that play calls share: printing numbers, rows, places, lists and comparisons, plans and walks of at most eight points written as one
// number, 64 points in a row, and an output list before a call.
#![tactic(auto)]

use searches::{Comparison, Kind, Mark};
use std::array;

// Prints one byte.
pub fn put(byte: u8) {
    let text = [byte];
    io::write_all(1, &text);
}

// Prints a space and a number.
pub fn show(n: u64) {
    put(b' ');
    io::print_decimal(1, n);
}

// The letter that is printed for a comparison; no derive gives one.
pub fn letter(answer: Comparison) -> u8 {
    match answer {
        Comparison::Ahead => b'a',
        Comparison::Behind => b'b',
        Comparison::Level => b'l',
        Comparison::Neither => b'n',
    }
}

// The number that is printed for a call that hands its result over elsewhere: 0, or the number that it answers in place of a result.
pub fn outcome(answer: Result<(), u64>) -> u64 {
    match answer {
        Ok(()) => 0,
        Err(number) => number,
    }
}

// Prints 0 and the number that was answered, or the number that stands in its place and 0.
pub fn show_answer(answer: Result<u64, u64>) {
    match answer {
        Ok(number) => {
            show(0);
            show(number);
        }
        Err(number) => {
            show(number);
            show(0);
        }
    }
}

// How one vertex stands to another, or the number that is answered in its place.
pub fn show_standing(standing: Result<Comparison, u64>) {
    match standing {
        Ok(answer) => {
            put(b' ');
            put(letter(answer));
        }
        Err(number) => show(number),
    }
}

// Prints a space and a bar: before a list or a set.
pub fn show_bar() {
    put(b' ');
    put(b'|');
}

// Prints a bar and the first entries of an array, rows or places, of which so many are used, and those behind them that are not 0, each with its number.
pub fn show_entries<T: Copy + Into<u64>>(entries: &[T; 64], used: usize) {
    show_bar();
    for (p, entry) in entries.iter().enumerate() {
        let entry: u64 = (*entry).into();
        if p < used {
            show(entry);
        } else if entry != 0 {
            show(p as u64);
            put(b':');
            io::print_decimal(1, entry);
        }
    }
}

// How the line of a point begins.
pub fn show_first(point: u8) {
    io::print_decimal(1, u64::from(point));
    put(b':');
}

// An open walk of this kind and mark: how many points there are and how many are placed, the rows and the placed points.
pub fn show_walk(kind: Kind, mark: Mark, rows: &[u64; 64], n: usize, places: &[u8; 64], k: usize) {
    io::print_decimal(1, u64::from(kind.0));
    show(mark as u64);
    show(n as u64);
    show(k as u64);
    show_entries(rows, n);
    show_entries(places, k);
}

// Prints the rows of a plan.
pub fn show_plan(rows: &[u64]) {
    for row in rows {
        show(*row);
    }
}

// Prints the bytes of a list.
pub fn show_list(list: &[u8]) {
    for byte in list {
        show(u64::from(*byte));
    }
}

// An output list before a call: the byte at place p is 100 + p.
pub fn fresh() -> [u8; 66] {
    array::from_fn(|p| 100 + p as u8)
}

// The rows of a plan that is written as sixteen hexadecimal digits, two for each row, from the first on. The rows after these eight are 0.
pub fn rows_of(plan: u64) -> [u64; 64] {
    let mut rows = [0u64; 64];
    let mut rest = plan;
    for row in rows[..8].iter_mut() {
        *row = rest >> 56;
        rest = rest << 8;
    }
    rows
}

// The places of a walk that is written as eight hexadecimal digits, one for each place, from the first on. The places after these eight are 0.
pub fn places_of(walk: u64) -> [u8; 64] {
    let mut places = [0u8; 64];
    let mut rest = walk;
    for place in places[..8].iter_mut() {
        *place = (rest / 0x10000000 % 16) as u8;
        rest = rest << 4;
    }
    places
}

// The points 0 to 63.
pub fn all_points() -> [u8; 64] {
    array::from_fn(|p| p as u8)
}

// The rows of 64 points, each linked to the one before it and the one after it.
pub fn in_a_row() -> [u64; 64] {
    array::from_fn(|u| {
        let own = 1u64 << u;
        (own >> 1) | (own << 1)
    })
}
