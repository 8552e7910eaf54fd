// The lines that are printed.
use notation::{put, show, show_bar, show_plan};
use searches::{Mark, Refusal};
use traversal::{Stepped, Traversal};

fn show_barred(barred: u64) {
    show_bar();
    show(barred);
}

// An open walk, and the end of its line.
pub fn show_walk(traversal: Traversal) {
    let kind = traversal.kind;
    let mark = traversal.mark;
    let rows = traversal.rows;
    let places = traversal.ordering;
    notation::show_walk(kind, mark, &rows, traversal.n, &places, traversal.k);
    show_barred(traversal.barred);
    put(b'\n');
}

// How the line of an open begins.
pub fn show_asked(kind: u8, mark: Mark, rows: &[u64], barred: u64) {
    io::print_decimal(1, u64::from(kind));
    show(mark as u64);
    show_bar();
    show_plan(rows);
    show_barred(barred);
}

// How the line of the calls without a point begins.
pub fn show_offered(set: Result<u64, Refusal>) {
    match set {
        Ok(set) => {
            io::print_decimal(1, 0);
            show(set);
        }
        Err(refusal) => {
            io::print_decimal(1, refusal as u64);
            show(0);
        }
    }
}

// What an open, a placing or a taking back answered, and the open walk that it handed back.
pub fn show_stepped(stepped: Stepped) {
    let outcome = stepped.outcome;
    let t = stepped.traversal;
    put(b';');
    show(notation::outcome(outcome.map_err(|refusal| refusal as u64)));
    put(b';');
    put(b' ');
    show_walk(t);
}
