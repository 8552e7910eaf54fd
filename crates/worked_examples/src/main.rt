// The examples of 01 that are not proved but run. A line for each kind: the kind, then what judge answers on an empty plan, on 64 points in a
// row walked from end to end, on 65 rows; what carry-on answers where all 64 are placed; and 1 if its output list is as it was.
// An answer is 0 for a pass or a finished call, a refusal's number, or 99 for a failed walk.
#![tactic(auto)]

use notation::show;
use searches::{Judgement, Kind, Mark, Refusal, Vertex};

fn verdict(judgement: Result<Judgement<Vertex>, Refusal>) -> u64 {
    match judgement {
        Ok(Judgement::Passes) => 0,
        Ok(Judgement::Fails(_)) => 99,
        Err(refusal) => refusal as u64,
    }
}

fn judge(kind: u8, rows: &[u64], walk: &[u8]) {
    show(verdict(engine::judge(Kind(kind), Mark::TwoWay, rows, 0, walk)));
}

// Carries on from the end of a walk of 64 points.
fn carry_on(kind: u8, rows: &[u64], walk: &[u8]) {
    let mut output = notation::all_points();
    let carried = engine::carry_on(Kind(kind), Mark::TwoWay, rows, 0, walk, &mut output, 64);
    show(notation::outcome(carried.map_err(|refusal| refusal as u64)));
    show(check::same(&output, walk) as u64);
}

fn line(kind: u8) {
    let rows = notation::in_a_row();
    let walk = notation::all_points();
    let crowd = [0u64; 65];
    let nowhere = [0u8; 0];
    io::print_decimal(1, u64::from(kind));
    judge(kind, &crowd[..0], &nowhere);
    judge(kind, &rows, &walk);
    judge(kind, &crowd, &nowhere);
    carry_on(kind, &rows, &walk);
    notation::put(b'\n');
}

fn main() {
    for kind in 0u8..7 {
        line(kind);
    }
}
