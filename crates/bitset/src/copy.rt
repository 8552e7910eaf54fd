// Rows copied to the front of an array.
ghost use Rattle.std.specs.Prelude.{◌≡◌, ◌++◌, ◌≤◌, length, drop};

// Writes `rows` to the front of `copy`.
// A loop, and never inlined: of `copy_from_slice`, or in a function that owns the array, LLVM makes a call of memmove or memcpy, and the archive for C needs
// memset alone.
#[inline(never)]
pub fn copy(rows: &[u64], copy: &mut [u64; 64])
    requires { (length rows.now ≤ 64) × (length copy.old ≡ 64) }
    ensures { copy.new ≡ rows.now ++ drop (length rows.now) copy.old }
{
    for (u, row) in rows.iter().enumerate() {
        copy[u] = *row;
    }
}
