// Files that are written out. In a text of several files a semicolon stands behind each.
ghost use Rattle.std.specs.Prelude.{◌+◌, ◌≤◌, ◌<◌, length};

use crate::calls;

// Where a file ends, imports it to so many rows. Returns where the file begins that the next byte belongs to.
fn import_ended(texts: &[u8], start: usize, end: usize, room: usize) -> usize
    requires { (start ≤ end) × (end < length texts.now) × (room ≤ 68) }
    ensures { result ≤ end + 1 }
{
    if texts[end] != b';' {
        return start;
    }
    calls::import(&texts[start..end], room);
    end + 1
}

// Each file of the text, to so many rows.
fn import_each(texts: &[u8], room: usize)
    requires { room ≤ 68 }
{
    let mut start = 0;
    for end in 0..texts.len() {
        start = import_ended(texts, start, end, room);
    }
}

// Without room for a row, and with room for four, which is enough for these files.
fn play(texts: &[u8]) {
    import_each(texts, 0);
    import_each(texts, 4);
}

// Nothing, comments alone, no comment, a comment behind the last link, any bytes in a comment, links that come again, no points and no links.
fn sound_or_empty() {
    play(
        b";c;c\n;c a\nc\n;c e\nc;p edge 0 0\n;p edge 1 0\n;p edge 4 0\n;p edge 2 1\ne 1 2\n;p edge 2 1\ne 2 1\n;",
    );
    play(
        b"p edge 2 1\ne 1 2\nc e 1 2\n;c\np edge 2 1\nc\nc\ne 1 2\n;cp edge 0 0\np edge 2 0\n;c\t\r\0\xff  0\np edge 1 0\nc \r\n;",
    );
    play(
        b"p edge 4 4\ne 1 2\ne 2 1\ne 1 2\ne 4 3\n;p edge 3 2\ne 3 1\ne 3 1\n;p edge 4 6\ne 4 3\ne 4 2\ne 4 1\ne 3 2\ne 3 1\ne 2 1\n;",
    );
}

// A last line without its end, an empty line, other line ends.
fn line_ends() {
    play(
        b"p edge 2 1;p edge 2 0;p edge 2 1\ne 1 2;p edge 2 1\ne 1 2\nc;p edge 2 1\ne 1 2\nx;p edge 2 1\ne 1 2\n ;p edge 2 1\ne 1 2\n\0;",
    );
    play(
        b"\n;\np edge 2 1\ne 1 2\n;p edge 2 1\n\ne 1 2\n;p edge 2 1\ne 1 2\n\n;c\n\np edge 2 1\ne 1 2\n;",
    );
    play(
        b"p edge 2 1\r\ne 1 2\r\n;p edge 2 1\r\ne 1 2\n;p edge 2 1\ne 1 2\r\n;p edge 2 1\re 1 2\r;p edge 2 1\n\re 1 2\n\r;",
    );
}

// Tabs, two spaces, spaces at the front and at the end of a line, no space.
fn spaces() {
    play(
        b"p\tedge 2 1\ne 1 2\n;p edge\t2 1\ne 1 2\n;p edge 2\t1\ne 1 2\n;p edge 2 1\ne\t1 2\n;p edge 2 1\ne 1\t2\n;",
    );
    play(
        b"p  edge 2 1\ne 1 2\n;p edge  2 1\ne 1 2\n;p edge 2  1\ne 1 2\n;p edge 2 1\ne  1 2\n;p edge 2 1\ne 1  2\n;",
    );
    play(
        b" p edge 2 1\ne 1 2\n;p edge 2 1\n e 1 2\n; c\np edge 2 1\ne 1 2\n;p edge 2 1 \ne 1 2\n;p edge 2 1\ne 1 2 \n;",
    );
    play(
        b"pedge 2 1\ne 1 2\n;p edge2 1\ne 1 2\n;p edge 21\ne 1 2\n;p edge 2 1\ne1 2\n;p edge 2 1\ne 12\n;p edge 2 1\ne 1 2\n \n;",
    );
}

// Other words, too few fields, too many, other lines.
fn words() {
    play(
        b"p col 2 1\ne 1 2\n;p edges 2 1\ne 1 2\n;p edg 2 1\ne 1 2\n;P edge 2 1\ne 1 2\n;p Edge 2 1\ne 1 2\n;p 2 1\ne 1 2\n;edge 2 1\ne 1 2\n;",
    );
    play(
        b"p\n;p edge\n;p edge \n;p edge 2\n;p edge 2 \n;p edge 2 1 1\ne 1 2\n;p edge  1\ne 1 2\n;p col 3 1\ne 1 2\n;p edge 2 1\ne 1 2 1\n;",
    );
    play(
        b"p edge 2 1\nE 1 2\n;p edge 2 1\na 1 2\n;p edge 2 1\ne\n;p edge 2 1\ne 1\n;p edge 2 1\ne 1 \n;p edge 2 1\ne 1 2\nn 1 1\n;C\np edge 2 0\n;",
    );
}

// A link before the p line, no p line, two of them.
fn order() {
    play(
        b"e 1 2\np edge 2 1\n;c\ne 1 2\np edge 2 1\n;e 1 2\n;x\np edge 2 0\n;e 1 2\ne 1 2\np edge 2 1\n;",
    );
    play(
        b"p edge 2 1\np edge 2 1\ne 1 2\n;p edge 2 1\ne 1 2\np edge 2 1\n;p edge 2 0\np edge 2 0\n;p edge 2 0\np edge 65 0\n;p edge 65 0\np edge 2 0\n;",
    );
}

// Leading zeros, signs, other digits.
fn digits() {
    play(
        b"p edge 00 0\n;p edge 0 00\n;p edge 02 1\ne 1 2\n;p edge 2 01\ne 1 2\n;p edge 2 1\ne 01 2\n;p edge 2 1\ne 1 02\n;p edge 2 00\n;",
    );
    play(
        b"p edge +2 1\ne 1 2\n;p edge 2 +1\ne 1 2\n;p edge -2 1\ne 1 2\n;p edge 2 1\ne +1 2\n;p edge 2 1\ne 1 -2\n;p edge 2 1.0\ne 1 2\n;",
    );
    play(
        b"p edge 2 x\ne 1 2\n;p edge : 0\n;p edge / 0\n;p edge 2 1\ne 1 2x\n;p edge 2 1\ne x 2\n;p edge 2 1\ne 1 :\n;p edge 065 0\n;",
    );
}

// More than 64 points: refused before the rest of the file, and after a p line that is malformed.
fn many_points() {
    play(
        b"p edge 65 0\n;p edge 65 0\nx;p edge 65 1\n;p edge 65 1\ne 1 1\n;p edge 65 0\ne 0 66\n;p edge 100 0\n;p edge 256 0\n;p edge 258 1\ne 1 2\n;",
    );
    play(
        b"p edge 4294967298 1\ne 1 2\n;p edge 18446744073709551616 0\n;p edge 18446744073709551618 1\ne 1 2\n;p edge 18446744073709551618 0\nx\n;",
    );
    play(
        b"p edge 1000000000000000000000000000000 0\n;p edge 1000000000000000000000000000002 1\ne 1 2\n;p edge 1000000000000000000000000000000 0\n\n;",
    );
    play(
        b"p edge 65 18446744073709551616\n;p edge 65 00\n;p edge 65 0;p edge 65 0 \n;c\nx\np edge 65 0\n;p edge 1000000000000000000000000000000 01\n;",
    );
}

// Numbers of links that are too small, too large, and much too large.
fn counts() {
    play(
        b"p edge 2 0\ne 1 2\n;p edge 2 1\ne 1 2\ne 1 2\n;p edge 2 2\ne 1 2\n;p edge 2 1\n;p edge 2 1\nc\n;p edge 0 1\n;p edge 3 257\ne 1 2\n;",
    );
    play(
        b"p edge 2 18446744073709551616\n;p edge 2 18446744073709551617\ne 1 2\n;p edge 3 18446744073709551619\ne 1 2\ne 1 3\ne 2 3\n;",
    );
    play(
        b"p edge 2 4294967297\ne 1 2\n;p edge 2 10000000000000000000\n;p edge 2 10000000000000000001\ne 1 2\n;p edge 0 18446744073709551615\n;",
    );
    play(
        b"p edge 2 1000000000000000000000000000000\n;p edge 2 1000000000000000000000000000001\ne 1 2\n;",
    );
}

// Points that there are not.
fn points() {
    play(
        b"p edge 2 1\ne 0 1\n;p edge 2 1\ne 1 0\n;p edge 2 1\ne 0 0\n;p edge 2 1\ne 3 1\n;p edge 2 1\ne 1 3\n;p edge 2 1\ne 3 3\n;p edge 0 1\ne 1 1\n;",
    );
    play(
        b"p edge 0 1\ne 0 0\n;p edge 2 1\ne 257 2\n;p edge 2 1\ne 1 258\n;p edge 2 1\ne 4294967297 2\n;p edge 2 1\ne 1 4294967298\n;",
    );
    play(
        b"p edge 2 1\ne 18446744073709551616 2\n;p edge 2 1\ne 18446744073709551617 2\n;p edge 2 1\ne 1 18446744073709551618\n;",
    );
    play(
        b"p edge 2 1\ne 1000000000000000000000000000001 2\n;p edge 2 1\ne 1 1000000000000000000000000000000\n;p edge 4 1\ne 5 4\n;",
    );
}

// A point linked to itself: alone, beside other links, and beside everything that is tried before it.
fn own_links() {
    play(
        b"p edge 2 1\ne 1 1\n;p edge 2 1\ne 2 2\n;p edge 3 3\ne 1 2\ne 3 3\ne 2 1\n;p edge 1 2\ne 1 1\ne 1 1\n;c\np edge 4 1\nc\ne 4 4\nc\n;",
    );
    play(
        b"p edge 2 1\ne 1 1\nx\n;p edge 2 1\ne 1 1;p edge 2 2\ne 1 1\ne 1 3\n;p edge 2 2\ne 1 1\n;p edge 2 0\ne 1 1\n;p edge 2 2\ne 1 1\ne 01 2\n;",
    );
}

// Output lists of every length that matters, for three points.
fn rooms(room: usize)
    requires { room ≤ 68 }
{
    import_each(
        b"p edge 3 2\ne 1 2\ne 3 1\n;p edge 3 1\ne 2 2\n;p edge 3 3\ne 2 2\n;",
        room,
    );
}

// And for 64 and 63 points, with the largest points.
fn large_rooms(room: usize)
    requires { room ≤ 68 }
{
    import_each(
        b"p edge 64 0\n;p edge 64 3\ne 64 63\ne 1 64\ne 64 1\n;p edge 64 1\ne 64 64\n;p edge 64 1\ne 1 65\n;",
        room,
    );
    import_each(
        b"p edge 64 1\ne 65 1\n;p edge 64 1\ne 65 65\n;p edge 63 1\ne 63 62\n;p edge 63 1\ne 1 64\n;p edge 65 1\ne 65 1\n;",
        room,
    );
}

pub fn play_all() {
    sound_or_empty();
    line_ends();
    spaces();
    words();
    order();
    digits();
    many_points();
    counts();
    points();
    own_links();
    rooms(2);
    rooms(3);
    rooms(5);
    large_rooms(63);
    large_rooms(64);
    large_rooms(65);
}
