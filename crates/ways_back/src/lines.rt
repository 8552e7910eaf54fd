// One call, and its line.
ghost use Rattle.std.specs.Prelude.{◌≤◌};

use notation::{put, show, show_answer, show_list};
use searches::{Mark, Vertex};

fn play(mark: Mark, rows: &[u64], ordering: &[u8], vertex: u8, output: &mut [u8]) {
    io::print_decimal(1, mark as u64);
    show(rows.len() as u64);
    show(ordering.len() as u64);
    show(u64::from(vertex));
    show(output.len() as u64);
    let answer = route::way_back(mark, rows, ordering, Vertex(vertex), output);
    show_answer(
        answer
            .map(|count| count as u64)
            .map_err(|refusal| refusal as u64),
    );
    show_list(output);
    put(b'\n');
}

// One call with a fresh output list of `room` bytes.
pub fn trace(mark: Mark, rows: &[u64], ordering: &[u8], vertex: u8, room: usize)
    requires { room ≤ 66 }
{
    let mut output = notation::fresh();
    play(mark, rows, ordering, vertex, &mut output[..room]);
}
