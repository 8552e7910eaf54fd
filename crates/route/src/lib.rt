// The shortest way back: from a vertex of a BFS ordering over parents to a vertex that has none. On lists that the caller owns, for every graph,
// ordering, vertex and output list there can be.
#![tactic(auto)]

ghost use Rattle.std.specs.Prelude.{◌≡◌, ◌++◌, ◌≤◌, ◌<◌, length, drop, IfOk, MatchOption};
ghost use Rattle.searches.specs.Ordering.{arcs};
ghost use Rattle.searches.specs.Answer.{first_refusal, refusal_of};
ghost use Rattle.route.specs.Tree.{parent as parent_of, depth as depth_of, path_down};
ghost use Rattle.route.specs.WayBack.{position_of, way_tests, way_answer, way_output, way_of};

use lookup::{row_of, vertex_at};
use searches::{Judgement, Kind, Mark, Position, Refusal, Vertex};

// Traces `vertex`, which stands in an ordering that passes BFS, back to a vertex without a parent: from a vertex to the earliest-placed of those placed
// before it that lead to it, again and again, until there is none. This way, turned round, is written to the front of `output`, so that `vertex` comes
// last; answered is how many vertices it has. What stands behind them stays. Everything else is refused (2 to 6, 8, 9, 21, 22, 10; 5 for two-way
// graphs only), and then `output` stays as it was. `rows` and `ordering` are not altered.
pub fn way_back(
    mark: Mark,
    rows: &[u64],
    ordering: &[u8],
    vertex: Vertex,
    output: &mut [u8],
) -> Result<usize, Refusal>
    ensures answer { way_of result ≡ way_answer mark rows.now ordering.now vertex.0 output.old }
    ensures output { output.new ≡ way_output mark rows.now ordering.now vertex.0 output.old }
{
    let position = position_to_trace(mark, rows, ordering, vertex, output.len())?;
    let count = depth(rows, ordering, position) + 1;
    write_path(rows, ordering, position, count, output);
    Ok(count)
}

// The position of `vertex`, unless one of refusals 2 to 6, 8, 9, 21, 22 and 10 applies: then the first that does. The output list has `room` bytes.
fn position_to_trace(
    mark: Mark,
    rows: &[u64],
    ordering: &[u8],
    vertex: Vertex,
    room: usize,
) -> Result<Position, Refusal>
    ensures refusal { refusal_of result ≡ first_refusal (way_tests mark rows.now ordering.now vertex.0 room) }
    ensures position { IfOk result (λ p. p.0 ≡ position_of ordering.now vertex.0) }
{
    // no vertex is barred
    let judgement = engine::judge(Kind::BFS, mark, rows, 0, ordering)?;
    let passing = matches!(judgement, Judgement::Passes);
    let short = room < rows.len();
    if !passing {
        return Err(Refusal::NotBreadthFirst);
    }
    let Some(position) = position_of(ordering, vertex) else {
        return Err(Refusal::NotPlaced);
    };
    if short {
        return Err(Refusal::OutputTooShort);
    }
    Ok(position)
}

// The position at which `vertex` stands, if it stands somewhere.
fn position_of(ordering: &[u8], vertex: Vertex) -> Option<Position>
    ensures { MatchOption result (position_of ordering.now vertex.0 ≡ length ordering.now)
        (λ p. (p.0 ≡ position_of ordering.now vertex.0) × (p.0 < length ordering.now)) }
{
    // the entries are bytes, so it is the number of the vertex that they are compared with
    let p = ordering.iter().position(|v| *v == vertex.0)?;
    Some(Position(p))
}

// The position of the parent of the vertex at `position`, the earliest-placed of those before it that lead to it, if there is one.
fn parent(rows: &[u64], ordering: &[u8], position: Position) -> Option<Position>
    requires { position.0 < length ordering.now }
    ensures { MatchOption result (parent_of (arcs rows.now) ordering.now position.0 ≡ position.0)
        (λ up. (up.0 ≡ parent_of (arcs rows.now) ordering.now position.0) × (up.0 < position.0)) }
{
    let v = vertex_at(ordering, position).0 as usize;
    let q = position.0;
    // the number is a position and is answered, so an iterator would count it again
    for p in 0..q {
        let before = Position(p);
        if bitset::contains(row_of(rows, vertex_at(ordering, before)), v) {
            return Some(before);
        }
    }
    None
}

// How many steps to the parent lead from `position` to a vertex that has none. Each goes to an earlier position.
fn depth(rows: &[u64], ordering: &[u8], position: Position) -> usize
    requires { position.0 < length ordering.now }
    ensures { result ≡ depth_of (arcs rows.now) ordering.now position.0 }
{
    let mut at = position;
    // counted by hand, since the number of steps is what is answered
    let mut steps = 0;
    while let Some(up) = parent(rows, ordering, at) {
        at = up;
        steps += 1;
    }
    steps
}

// Writes the vertex at `position` and its `count` - 1 nearest ancestors to the front of `output`, the given vertex last.
fn write_path(rows: &[u64], ordering: &[u8], position: Position, count: usize, output: &mut [u8])
    requires position_in_bounds { position.0 < length ordering.now }
    requires count_in_bounds { count ≤ length output.old }
    ensures { output.new
        ≡ path_down (arcs rows.now) ordering.now position.0 count ++ drop count output.old }
{
    let mut at = position;
    for i in (0..count).rev() {
        output[i] = vertex_at(ordering, at).0;
        at = parent(rows, ordering, at).unwrap_or(at);
    }
}
