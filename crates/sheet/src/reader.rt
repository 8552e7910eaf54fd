// The one reader of a sheet: its bytes, and how far they have been read. It is made once and goes from line to line; nothing else keeps an
// offset. The bound 900000 only keeps sums small: 10,065 steps of at most 13 bytes stay far below it.
ghost use Rattle.std.specs.Prelude.{◌≡◌, ◌+◌, ◌*◌, ◌<◌};
ghost use Rattle.sheet.specs.Parsing.{advanced, advanced_by, blank, parsed_of};
ghost use Rattle.lines.specs.Line.{Sound};

use lines::{Content, Parsed, next_line};

#[derive(Clone, Copy)]
pub struct Reader<'a> {
    pub sheet: &'a [u8],
    pub at: usize,
}

// A reader, and what the lines before it come to.
#[derive(Clone, Copy)]
pub struct Progress<'a> {
    pub reader: Reader<'a>,
    pub parsed: Parsed,
}

// Reads one line and returns the reader, advanced past it.
fn advance<'a>(progress: Progress<'a>) -> Progress<'a>
    requires { (progress.reader.at < 900000) × Sound progress.parsed }
    ensures { result ≡ advanced progress.entry }
{
    let sheet = progress.reader.sheet;
    let at = progress.reader.at;
    let parsed = next_line(sheet, at, progress.parsed);
    Progress {
        reader: Reader {
            sheet,
            at: at + parsed.width,
        },
        parsed,
    }
}

// Reads `count` lines.
fn advance_by<'a>(mut progress: Progress<'a>, count: usize) -> Progress<'a>
    requires { (progress.reader.at + 13 * count < 900000) × Sound progress.parsed }
    ensures { result ≡ advanced_by progress.entry count }
{
    for _ in 0..count {
        progress = advance(progress);
    }
    progress
}

// What is parsed before line 1.
fn blank() -> Parsed
    ensures { result ≡ blank }
{
    Parsed {
        good: 0,
        sound: true,
        width: 0,
        rest: 0,
        content: Content {
            n: 0,
            m: 0,
            k: 0,
            from: 0,
            to: 0,
            outside: false,
            rows: [0u64; 64],
            ordering: [0u8; 64],
        },
    }
}

// Reads the whole sheet: line 1, then the lines that it announces, then the end.
pub fn parse(sheet: &[u8]) -> Parsed
    ensures { result ≡ parsed_of sheet.now }
{
    let start = Progress {
        reader: Reader { sheet, at: 0 },
        parsed: blank(),
    };
    let first = advance_by(start, 1);
    let whole = advance_by(first, first.parsed.rest);
    whole.parsed
}
