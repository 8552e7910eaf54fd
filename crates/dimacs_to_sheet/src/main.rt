// Reads a DIMACS edge file from standard input and prints the sheet of its plan, with an empty walk, or the number of the refusal. One byte more than 1 MiB is
// read, so that a longer file is seen: it gets a line on standard error, and nothing else.
#![tactic(auto)]

const STDIN_FILENO: i32 = 0;

const STDOUT_FILENO: i32 = 1;

const STDERR_FILENO: i32 = 2;

// Room for 1 MiB and one byte.
fn buffer() -> [u8; 1048577] {
    [0; 1048577]
}

fn main() {
    let mut input = buffer();
    let count = io::read_full(STDIN_FILENO, &mut input);
    if count == 1048577 {
        io::write_all(STDERR_FILENO, b"longer than 1 MiB\n");
        return;
    }
    let mut output = [0u8; 18159];
    let length = drawing::sheet_of(&input[..count], &mut output);
    io::write_all(STDOUT_FILENO, &output[..length]);
}
