// The adjacency lists of rows, written.
ghost use Rattle.std.specs.Prelude.{◌≡◌, ◌++◌, suc, ◌+◌, ◌≤◌, ◌<◌, length, take, drop};
ghost use Rattle.bitset.specs.Word.{member};
ghost use Rattle.conversion.specs.Conversion.{numbers_below, neighbours_of, offsets_of};

// How many arcs the graph has.
pub fn arc_count(rows: &[u64]) -> usize
    requires { length rows.now ≤ 64 }
    ensures { result ≡ length (neighbours_of rows.now) }
{
    let mut count = 0usize;
    for row in rows {
        count = count + bitset::size(*row);
    }
    count
}

// Writes the numbers of `row`, ascending, to the list from position `begin` on. Returns the position behind them.
fn write_numbers(row: u64, list: &mut [u8], begin: usize) -> usize
    requires { begin + length (numbers_below 64 (member row)) ≤ length list.old }
    ensures end { result ≡ begin + length (numbers_below 64 (member row)) }
    ensures list { list.new ≡ take begin list.old ++ (numbers_below 64 (member row) ++ drop result list.old) }
{
    // the numbers are taken from the word one by one, and the position behind them is counted, since it is answered
    let mut end = begin;
    let mut rest = row;
    while rest != 0 {
        list[end] = bitset::smallest(rest) as u8;
        end = end + 1;
        rest = bitset::without_smallest(rest);
    }
    end
}

// Writes offsets and neighbours. Both lists have room for them.
pub fn write_lists(rows: &[u64], offsets: &mut [u16], neighbours: &mut [u8])
    requires { (length rows.now ≤ 64) × (length rows.now < length offsets.old) × (length (neighbours_of rows.now) ≤ length neighbours.old) }
    ensures offsets { offsets.new ≡ offsets_of rows.now ++ drop (suc (length rows.now)) offsets.old }
    ensures neighbours { neighbours.new ≡ neighbours_of rows.now ++ drop (length (neighbours_of rows.now)) neighbours.old }
{
    let mut end = 0usize;
    offsets[0] = 0;
    for (u, row) in rows.iter().enumerate() {
        end = write_numbers(*row, neighbours, end);
        offsets[u + 1] = end as u16;
    }
}
