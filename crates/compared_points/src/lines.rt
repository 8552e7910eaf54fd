// The lines that are printed.
use notation::put;
use traversal::Traversal;

// The line of an open walk.
pub fn show_walk(traversal: Traversal) {
    let kind = traversal.kind;
    let mark = traversal.mark;
    let rows = traversal.rows;
    let places = traversal.ordering;
    notation::show_walk(kind, mark, &rows, traversal.n, &places, traversal.k);
    put(b'\n');
}
