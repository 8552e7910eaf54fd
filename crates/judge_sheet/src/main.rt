// Reads a sheet from standard input and prints its judgement; for a sheet that is refused with 11, the line in which it stops having the form,
// as one field on standard error. One byte more than the longest sheet is read, so that a longer input is seen: what follows changes nothing.
#![tactic(auto)]

const STDIN_FILENO: i32 = 0;

const STDOUT_FILENO: i32 = 1;

const STDERR_FILENO: i32 = 2;

fn main() {
    let mut input = [0u8; 18478];
    let count = io::read_full(STDIN_FILENO, &mut input);
    let mut output = [0u8; 147];
    let judged = judgement::judge_input(&input, count, &mut output);
    let length = judged.length;
    let line = judged.line;
    io::write_all(STDOUT_FILENO, &output[..length]);
    if line != 0 {
        let mut note = [0u8; 5];
        let end = fields::write::line_of(&mut note, 0, &[line]);
        io::write_all(STDERR_FILENO, &note[..end]);
    }
}
