// The two calls, and their line.
use notation::{put, show, show_answer};
use searches::{Kind, Mark};

// Both calls, and their line.
pub fn play(kind: u8, mark: Mark, rows: &[u64], ordering: &[u8], minutes: &[u16], rate: u64) {
    io::print_decimal(1, u64::from(kind));
    show(mark as u64);
    show(rows.len() as u64);
    show(ordering.len() as u64);
    show(minutes.len() as u64);
    show(rate);
    let even = charge::charge(Kind(kind), mark, rows, ordering, minutes, rate);
    let up = charge::charge_halves_up(Kind(kind), mark, rows, ordering, minutes, rate);
    show_answer(even.map_err(|refusal| refusal as u64));
    show_answer(up.map_err(|refusal| refusal as u64));
    put(b'\n');
}
