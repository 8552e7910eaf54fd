// Walks charged for their exact product: halves of a cent, every remainder of 60, the largest.
use crate::lines;
use searches::Mark;

// A walk of one point, for so many minutes.
fn single(minutes: u16, rate: u64) {
    lines::play(0, Mark::TwoWay, &[0], &[0], &[minutes], rate);
}

// Halves of a cent, products just below and just above one, and the longest point at the highest rate.
pub fn halves() {
    single(1, 29);
    single(1, 30);
    single(1, 31);
    single(3, 29);
    single(3, 30);
    single(3, 31);
    single(5, 30);
    single(1, 90);
    single(999, 30);
    single(999, 99999);
}

// The products 0 to 127: one minute at these rates.
pub fn small_products() {
    for rate in 0..128 {
        single(1, rate);
    }
}

// 64 points by themselves, all of them walked: without a link all but the first are jumped to. The first takes so many minutes, the others 999.
fn apart(kind: u8, mark: Mark, first: u16, rate: u64) {
    let rows = [0u64; 64];
    let all = notation::all_points();
    let mut minutes = [999u16; 64];
    minutes[0] = first;
    lines::play(kind, mark, &rows, &all, &minutes, rate);
}

// Products near the largest: 64 points by themselves that take 64,373 minutes, at the rates 99,840 to 99,967. 64,373 and 120 have no divisor in
// common, so 120 rates in a row meet every remainder of 120, which is every remainder of 60 above an even and above an odd number of cents.
pub fn large_products() {
    for rate in 99840..99968 {
        apart(0, Mark::TwoWay, 995, rate);
    }
}

// The largest charge there is.
pub fn largest(kind: u8, mark: Mark) {
    apart(kind, mark, 999, 99999);
}
