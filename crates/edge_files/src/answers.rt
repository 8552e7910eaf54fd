// How answers are printed.
use notation::{put, show};
use searches::Refusal;

fn show_refusal(refusal: Refusal) {
    put(b'r');
    show(refusal as u64);
}

// The answer of import: n and how many points there are, or r and the number of the refusal.
pub fn show_imported(answer: Result<usize, Refusal>) {
    put(b' ');
    match answer {
        Ok(n) => {
            put(b'n');
            show(n as u64);
        }
        Err(refusal) => show_refusal(refusal),
    }
}

// The answer of export: w and how many bytes were written, or r and the number of the refusal.
pub fn show_exported(answer: Result<usize, Refusal>) {
    put(b' ');
    match answer {
        Ok(length) => {
            put(b'w');
            show(length as u64);
        }
        Err(refusal) => show_refusal(refusal),
    }
}
