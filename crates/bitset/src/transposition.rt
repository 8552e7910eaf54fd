// Transposes a square of 64 by 64 bits: bit c of word r stands in row r and column c. A round with stride s cuts the square into blocks of 2 * s rows
// and columns, and each block into four quarters, and exchanges the two that stand crosswise: the one in the first rows and last columns with the one in
// the last rows and first columns. Rounds with the strides 32, 16, 8, 4, 2 and 1 swap row and column of every bit.
ghost use Rattle.std.specs.Prelude.{◌≡◌, ◌+◌, ◌*◌, ◌≤◌, eqb, length, replicate};
ghost use Rattle.bitset.specs.Matrix.{Inside, Within, Columns, Transpose, Stride, IsLow, IsBegin, Confined, Exchanged, between, every};

use crate::copy::copy;

// For each number c of `mask`, exchanges bit c + `stride` of the word `low` with bit c of the word `low + stride`.
fn exchange(words: &mut [u64; 64], low: usize, stride: usize, mask: u64)
    requires { (length words.old ≡ 64) × Stride stride mask × IsLow stride low }
    ensures { Exchanged stride (eqb low) words.old words.new }
{
    let high = low + stride;
    let x = words[low];
    let y = words[high];
    let crosswise = ((x >> stride) ^ y) & mask;
    words[low] = x ^ (crosswise << stride);
    words[high] = y ^ crosswise;
}

// Exchanges in every pair of words of the block that begins with the word `begin`.
fn exchange_block(words: &mut [u64; 64], begin: usize, stride: usize, mask: u64)
    requires { (length words.old ≡ 64) × Stride stride mask × IsBegin stride begin }
    ensures { Exchanged stride (between begin (begin + stride)) words.old words.new }
{
    for low in begin..begin + stride {
        exchange(words, low, stride, mask);
    }
}

// One round. The blocks that begin at `n` or above are left out, since they are empty; so is the whole round where the stride is `n` or more, since
// no bit would move.
fn exchange_round(words: &mut [u64; 64], stride: usize, mask: u64, n: usize)
    requires { (n ≤ 64) × Stride stride mask × Confined (2 * stride) n words.old }
    ensures { Exchanged stride every words.old words.new }
{
    if n <= stride {
        return;
    }
    for begin in (0..n).step_by(2 * stride) {
        exchange_block(words, begin, stride, mask);
    }
}

// Transposes the words. Only the first `n` rows and columns have bits.
fn transpose(words: &mut [u64; 64], n: usize)
    requires { (n ≤ 64) × Inside n words.old }
    ensures { Transpose words.old words.new }
{
    exchange_round(words, 32, 0x00000000FFFFFFFF, n);
    exchange_round(words, 16, 0x0000FFFF0000FFFF, n);
    exchange_round(words, 8, 0x00FF00FF00FF00FF, n);
    exchange_round(words, 4, 0x0F0F0F0F0F0F0F0F, n);
    exchange_round(words, 2, 0x3333333333333333, n);
    exchange_round(words, 1, 0x5555555555555555, n);
}

// Writes the columns of `rows`, none of which has a bit at or above their number; `columns` comes in empty.
pub fn write_columns(rows: &[u64], columns: &mut [u64; 64])
    requires { Within rows.now × (columns.old ≡ replicate 64 0) }
    ensures { Columns rows.now columns.new }
{
    copy(rows, columns);
    transpose(columns, rows.len());
}
