// An answer as one number: 0, the number of a refusal, or 2^48 + 2^32 a + 2^16 b + c for a walk that fails with the triple a, b, c.
use searches::{Judgement, Refusal, WideVertex};

// A vertex's number as a wider one.
fn number_of(vertex: WideVertex) -> u64 {
    vertex.0 as u64
}

pub fn of_judgement(judged: Result<Judgement<WideVertex>, Refusal>) -> u64 {
    match judged {
        Ok(Judgement::Passes) => 0,
        Ok(Judgement::Fails(v)) => {
            let a = number_of(v.a) << 32;
            let b = number_of(v.b) << 16;
            (1u64 << 48) | a | b | number_of(v.c)
        }
        Err(refusal) => refusal as u64,
    }
}

pub fn of_carrying_on(done: Result<(), Refusal>) -> u64 {
    match done {
        Ok(()) => 0,
        Err(refusal) => refusal as u64,
    }
}
