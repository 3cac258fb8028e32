//! Tests of the reader of lines.

ghost use Rattle.std.specs.Prelude.{◌≤◌};

use cw_base::MemorySource;
use member_lines::{Input, LONGEST, Next};
use std::alloc::Global;
use std::str;
use std::test::Fail;

// How many bytes the source gives a call, the call that fails, 0 for none, and a text, `/` for a
// line feed; and what three calls tell, up to a fault.
const ROWS: &str = "1,0, = end, end, end
1,0,/ = line , end, end
1,0,view = last view, end, end
1,0,view/ = line view, end, end
3,0,view/start/ = line view, line start, end
3,0,view/start = line view, last start, end
4,0,view/start = line view, last start, end
5,0,view/start = line view, last start, end
1000,0,view/start = line view, last start, end
1000,0,view/start/ack/ = line view, line start, line ack
2,0,//a = line , line , last a
1000,0,//a = line , line , last a
1000,0,a//b/ = line a, line , line b
1,1, = fault
3,1,view/ = fault
3,2,view/ = fault
3,3,view/ = line view, fault
3,3,view/start/ = line view, fault
3,4,view/start/ = line view, fault
3,5,view/start/ = line view, line start, fault
1000,2,view/start/ack = line view, line start, fault
1000,3,view/start = line view, last start, fault
";

fn number(field: Option<&str>) -> Result<u64, Fail> {
    let field = field.ok_or("a number")?;
    field.parse::<u64>().map_err(|_| Fail::from("a number"))
}

// A source that gives so many bytes a call, and fails in one.
fn source_of(alloc: Global, row: &str) -> Result<MemorySource, Fail> {
    let mut fields = row.split(',');
    let piece = number(fields.next())? as usize;
    let failing = vec![in alloc; number(fields.next())?]?;
    let text = fields.next().ok_or("a text")?.replace(alloc, "/", "\n")?;
    let bytes = text.as_bytes().to_vec(alloc)?;
    Ok(MemorySource::new(bytes, piece.max(1), failing))
}

fn tell(told: &mut String, next: Next, line: &[u8]) -> Result<(), Fail> {
    let line = str::from_utf8(line).map_err(|_| Fail::from("a line"))?;
    match next {
        Next::Line => write!(told, "line {line}")?,
        Next::Last => write!(told, "last {line}")?,
        Next::End => told.push_str("end")?,
        Next::Fault => told.push_str("fault")?,
        Next::NoMemory => told.push_str("no memory")?,
        Next::Endless => told.push_str("endless")?,
    }
    Ok(())
}

// What three calls tell, up to a fault.
fn told_by(alloc: Global, source: &mut MemorySource) -> Result<String, Fail> {
    let mut input = Input::new(alloc)?;
    let mut told = String::new(alloc);
    for call in 0..3 {
        if call > 0 {
            told.push_str(", ")?;
        }
        let next = input.next(source);
        tell(&mut told, next, input.line())?;
        if next == Next::Fault {
            return Ok(told);
        }
    }
    Ok(told)
}

#[test]
fn lines_come_whole_however_they_are_given(rt: HostRuntime) -> Result<(), Fail> {
    for row in ROWS.lines() {
        let (given, want) = row.split_once(" = ").ok_or("a row and what is told")?;
        let mut source = source_of(rt.alloc(), given)?;
        let told = told_by(rt.alloc(), &mut source)?;
        assert_eq!(rt; told.as_str(), want);
    }
    Ok(())
}

// How long a line is, and how many bytes of it are kept.
const LENGTHS: [(usize, usize); 3] = [
    (LONGEST, 4_194_304),
    (4_194_305, 4_194_305),
    (4_300_000, 4_194_305),
];

// Of a line that is too long one byte too many is kept, and the next line is read behind it.
#[test]
fn a_long_line_is_kept_as_far_as_it_tells(rt: HostRuntime) -> Result<(), Fail> {
    for (length, kept) in LENGTHS.iter() {
        let mut text = vec![in rt.alloc(); b'a'; *length]?;
        text.extend_from_slice(b"\nview")?;
        let mut source = MemorySource::new(text, 1_000_000, Vec::new(rt.alloc()));
        let mut input = Input::new(rt.alloc())?;
        assert!(rt; input.next(&mut source) == Next::Line);
        assert_eq!(rt; input.line().len(), *kept);
        assert!(rt; input.next(&mut source) == Next::Last);
        assert_eq!(rt; input.line(), b"view".as_slice());
    }
    Ok(())
}
