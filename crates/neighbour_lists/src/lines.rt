// What the lines are made of.
use notation::{put, show};
use searches::{Judgement, Mark, Refusal, Vertex, Violation};

// How a line begins: the letter of the call, and the mark.
pub fn show_call(letter: u8, mark: Mark) {
    put(letter);
    show(mark as u64);
}

// Prints offsets.
pub fn show_offsets(offsets: &[u16]) {
    for offset in offsets {
        show(u64::from(*offset));
    }
}

fn show_refusal(refusal: Refusal) {
    put(b' ');
    put(b'r');
    show(refusal as u64);
}

// The answer of a conversion: d for done, or r and the number of the refusal.
pub fn show_outcome(outcome: Result<(), Refusal>) {
    match outcome {
        Ok(()) => {
            put(b' ');
            put(b'd');
        }
        Err(refusal) => show_refusal(refusal),
    }
}

fn show_triple(violation: Violation<Vertex>) {
    put(b' ');
    put(b'f');
    show(u64::from(violation.a.0));
    show(u64::from(violation.b.0));
    show(u64::from(violation.c.0));
}

// The answer of judge: p for a walk that passes, f and the triple, or r and the number of the refusal.
pub fn show_judgement(answer: Result<Judgement<Vertex>, Refusal>) {
    match answer {
        Ok(Judgement::Passes) => {
            put(b' ');
            put(b'p');
        }
        Ok(Judgement::Fails(violation)) => show_triple(violation),
        Err(refusal) => show_refusal(refusal),
    }
}
