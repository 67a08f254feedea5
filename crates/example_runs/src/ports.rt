//! Runs of ports, and of the reader and the writer over them.
use plan_port::{
    Line, LineReader, MOST_LINE, MOST_READ, MemoryPort, Port, Sent, StdPort, SteadyPort, Took,
    Written, write_all,
};
use std::alloc::{AllocError, Allocator, Global};
use std::cell::Cell;
use std::fmt::Display;
use std::io;
use std::io::{BufRead, ErrorKind, Input, Lines, Print, Read};
use std::process::Abort;
use std::test::Fail;

const MOST: u64 = 1_073_741_824;

// An answer of the reader, with the text and the number that stand then.
type PortAnswer = (Line, &'static [u8], u32);

// An input, how many bytes it may have, and what its reader answers, call by call.
struct ReadingCase {
    input: &'static [u8],
    most: u64,
    failing_take: u32,
    answers: &'static [PortAnswer],
}

const READINGS: &[ReadingCase] = &[
    ReadingCase {
        input: b"point A\npoint B",
        most: 10,
        failing_take: 0,
        answers: &[
            (Line::Text, b"point A", 1),
            (Line::TooMuch(10), b"", 2),
            (Line::TooMuch(10), b"", 2),
        ],
    },
    ReadingCase {
        input: b"ab\ncd\n",
        most: 5,
        failing_take: 0,
        answers: &[(Line::Text, b"ab", 1), (Line::TooMuch(5), b"", 2)],
    },
    ReadingCase {
        input: b"one\r\n\nlast",
        most: MOST,
        failing_take: 0,
        answers: &[
            (Line::Text, b"one\r", 1),
            (Line::Text, b"", 2),
            (Line::Text, b"last", 3),
            (Line::End, b"", 3),
        ],
    },
    ReadingCase {
        input: b"",
        most: MOST,
        failing_take: 0,
        answers: &[(Line::End, b"", 0), (Line::End, b"", 0)],
    },
    ReadingCase {
        input: b"a\nbc\n",
        most: MOST,
        failing_take: 1,
        answers: &[(Line::ReadFault, b"", 0), (Line::ReadFault, b"", 0)],
    },
];

/// A port over these bytes, each take of which gives at most `cut` bytes if that is above 0.
fn port_over(
    alloc: Global,
    input: &[u8],
    cut: u32,
    failing_take: u32,
) -> Result<MemoryPort, AllocError> {
    let input = input.to_vec(alloc)?;
    let cuts = vec![in alloc; cut; 70_000]?;
    let failing_takes = vec![in alloc; failing_take; 1]?;
    Ok(MemoryPort::new(alloc, input, cuts, failing_takes, Vec::new(alloc)))
}

/// The reader answers this line, with this text and number.
fn expect_line<P: Port>(
    rt: &impl Abort,
    reader: &mut LineReader,
    port: &mut P,
    line: Line,
    text: &[u8],
    number: u32,
) {
    let answer = reader.next_line(port, MOST_LINE);
    assert_eq!(rt; answer, line);
    assert_eq!(rt; reader.text(), text);
    assert_eq!(rt; reader.number(), number);
}

fn expect_reading(
    rt: &(impl Abort + AllocGlobal),
    reading: &ReadingCase,
    cut: u32,
) -> Result<(), AllocError> {
    let mut port = port_over(rt.alloc(), reading.input, cut, reading.failing_take)?;
    let mut reader = LineReader::new(rt.alloc(), reading.most.min(MOST_READ))?;
    for answer in reading.answers {
        expect_line(rt, &mut reader, &mut port, answer.0, answer.1, answer.2);
    }
    Ok(())
}

#[test]
fn readings_are_the_same_however_the_input_is_cut(rt: HostRuntime) -> Result<(), Fail> {
    for reading in READINGS {
        for cut in [0, 1, 3] {
            expect_reading(&rt, reading, cut)?;
        }
    }
    Ok(())
}

/// A line of so many bytes, alone in its input and cut so, has this answer.
fn expect_size(
    rt: &(impl Abort + AllocGlobal),
    size: usize,
    cut: u32,
    line: Line,
) -> Result<(), AllocError> {
    let input = vec![in rt.alloc(); b'#'; size]?;
    let mut port = port_over(rt.alloc(), &input, cut, 0)?;
    let mut reader = LineReader::new(rt.alloc(), MOST)?;
    assert_eq!(rt; reader.next_line(&mut port, MOST_LINE), line);
    assert_eq!(rt; reader.number(), 1);
    Ok(())
}

#[test]
fn a_line_has_at_most_the_longest_size(rt: HostRuntime) -> Result<(), Fail> {
    for cut in [0, 1] {
        expect_size(&rt, 65_536, cut, Line::Text)?;
        expect_size(&rt, 65_537, cut, Line::TooLong(65_536))?;
    }
    Ok(())
}

#[test]
fn a_failed_take_loses_no_byte(rt: HostRuntime) -> Result<(), Fail> {
    let mut port = port_over(rt.alloc(), b"a\nbc\n", 3, 2)?;
    let mut reader = LineReader::new(rt.alloc(), MOST)?;
    expect_line(&rt, &mut reader, &mut port, Line::Text, b"a", 1);
    expect_line(&rt, &mut reader, &mut port, Line::ReadFault, b"", 1);
    let mut rest = [0; 4];
    assert_eq!(rt; port.take(&mut rest), Took::Bytes(2));
    assert_eq!(rt; rest, [b'c', b'\n', 0, 0]);
    assert_eq!(rt; port.take(&mut rest), Took::End);
    Ok(())
}

#[test]
fn a_failed_put_leaves_a_part(rt: HostRuntime) -> Result<(), Fail> {
    let alloc = rt.alloc();
    let failing_puts = [2].to_vec(alloc)?;
    let mut port = MemoryPort::new(
        alloc,
        Vec::new(alloc),
        Vec::new(alloc),
        Vec::new(alloc),
        failing_puts,
    );
    assert_eq!(rt; write_all(&mut port, b"first\n"), Written::All);
    assert_eq!(rt; write_all(&mut port, b""), Written::All);
    assert_eq!(rt; write_all(&mut port, b"second\n"), Written::Part(0));
    assert_eq!(rt; port.put(b"third\n"), Sent::Wrote(6));
    assert_eq!(rt; port.written(), b"first\nthird\n".as_slice());
    Ok(())
}

/// A plan of which every single situation has a schedule, though none can be found without
/// foresight.
const PLAN: &[u8] = b"stnu 1
point A
point C
point D
bound b1 D C 1
bound b2 C D -1
link A 3 8 C
end
";

/// A port with capacity for seven bytes that has given nothing yet, and to which nothing was put.
fn expect_pieces(rt: &impl Abort, port: &mut SteadyPort) {
    let mut place = [0; 8];
    assert_eq!(rt; (port.room(), port.whole()), (7, true));
    assert_eq!(rt; port.take(&mut place), Took::Bytes(8));
    assert_eq!(rt; &place, b"stnu 1\np");
    assert_eq!(rt; port.put(b"first\n"), Sent::Wrote(6));
    assert_eq!(rt; (port.room(), port.whole()), (1, true));
    assert_eq!(rt; port.put(b"second\n"), Sent::Wrote(7));
    assert_eq!(rt; (port.room(), port.whole()), (1, false));
    assert_eq!(rt; port.put(b"\n"), Sent::Wrote(1));
    assert_eq!(rt; (port.room(), port.whole()), (0, false));
    assert_eq!(rt; port.written(), b"first\n\n".as_slice());
}

/// What is left of a plan after the first eight bytes.
fn expect_rest(rt: &impl Abort, port: &mut SteadyPort) {
    let mut place = [0; 80];
    assert_eq!(rt; port.take(&mut place), Took::Bytes(PLAN.len() - 8));
    assert_eq!(rt; port.take(&mut place), Took::End);
}

#[test]
fn a_piece_that_does_not_fit_is_accepted_and_not_kept(rt: HostRuntime) -> Result<(), Fail> {
    let input = PLAN.to_vec(rt.alloc())?;
    let mut port = SteadyPort::new(rt.alloc(), input, 7)?;
    expect_pieces(&rt, &mut port);
    expect_rest(&rt, &mut port);
    Ok(())
}

// The input of a console. It gives three bytes of a read at most, and its read with this number is
// an error.
#[derive(Drop)]
struct Keys {
    bytes: &'static [u8],
    reads: u32,
    failing_read: u32,
}

impl Read for Keys {
    fn read(&mut self, buf: &mut [u8]) -> io::Result<usize> {
        self.reads = self.reads.saturating_add(1);
        if self.reads == self.failing_read {
            return Err(io::Error::from(ErrorKind::WouldBlock));
        }
        let size = buf.len().min(3);
        self.bytes.read(&mut buf[..size])
    }
}

impl BufRead for Keys {
    fn fill_buf(&mut self) -> io::Result<&[u8]> {
        Ok(self.bytes)
    }

    fn consume(&mut self, amount: usize) {
        self.bytes = &self.bytes[amount.min(self.bytes.len())..];
    }
}

// A runtime with such an input. Its output keeps the bytes that it is given, three of a write at
// most, until it is full, and its write with this number is an error.
#[derive(Drop)]
struct Console {
    input: &'static [u8],
    failing_read: u32,
    failing_write: u32,
    writes: Cell<u32>,
    kept: Cell<[u8; 24]>,
    size: Cell<usize>,
}

impl Console {
    fn new(failing_read: u32, failing_write: u32) -> Console {
        Console {
            input: b"one\ntwo",
            failing_read,
            failing_write,
            writes: Cell::new(0),
            kept: Cell::new([0; 24]),
            size: Cell::new(0),
        }
    }
}

impl Print for Console {
    fn print<D: Display + Drop>(&self, _value: D) -> io::Result<()> {
        Ok(())
    }

    fn println<D: Display + Drop>(&self, _value: D) -> io::Result<()> {
        Ok(())
    }

    fn write_all(&self, _bytes: &[u8]) -> io::Result<()> {
        Ok(())
    }

    fn write_some(&self, bytes: &[u8]) -> io::Result<usize> {
        let number = self.writes.get().saturating_add(1);
        self.writes.set(number);
        if number == self.failing_write {
            return Err(io::Error::from(ErrorKind::WouldBlock));
        }
        let mut kept = self.kept.get();
        let start = self.size.get().min(kept.len());
        let size = bytes.len().min(3).min(kept.len() - start);
        kept[start..start + size].copy_from_slice(&bytes[..size]);
        self.kept.set(kept);
        self.size.set(start + size);
        Ok(size)
    }
}

impl Input for Console {
    type Reader = Keys;

    fn read_line<A: Allocator + Clone>(&self, _buf: &mut String<A>) -> io::Result<usize> {
        Ok(0)
    }

    fn lines<A: Allocator>(&self, alloc: A) -> Lines<Keys, A> {
        self.reader().lines(alloc)
    }

    fn reader(&self) -> Keys {
        Keys {
            bytes: self.input,
            reads: 0,
            failing_read: self.failing_read,
        }
    }
}

// A console by its errors, what is read from it, what writing twelve bytes and then twelve more
// says, and how many bytes it has.
struct Exchange {
    failing_read: u32,
    failing_write: u32,
    answers: &'static [PortAnswer],
    written: [Written; 3],
    kept: &'static [u8],
}

const EXCHANGES: &[Exchange] = &[
    Exchange {
        failing_read: 0,
        failing_write: 0,
        answers: &[
            (Line::Text, b"one", 1),
            (Line::Text, b"two", 2),
            (Line::End, b"", 2),
        ],
        written: [Written::All, Written::All, Written::Part(0)],
        kept: b"twelve bytestwelve bytes",
    },
    Exchange {
        failing_read: 2,
        failing_write: 3,
        answers: &[(Line::ReadFault, b"", 0), (Line::ReadFault, b"", 0)],
        written: [Written::Part(6), Written::All, Written::Part(6)],
        kept: b"twelvetwelve bytestwelve",
    },
    Exchange {
        failing_read: 3,
        failing_write: 1,
        answers: &[(Line::Text, b"one", 1), (Line::ReadFault, b"", 1)],
        written: [Written::Part(0), Written::All, Written::All],
        kept: b"twelve bytestwelve bytes",
    },
];

fn expect_exchange(rt: &(impl Abort + AllocGlobal), exchange: &Exchange) -> Result<(), AllocError> {
    let console = Console::new(exchange.failing_read, exchange.failing_write);
    let mut port = StdPort::new(&console);
    let mut reader = LineReader::new(rt.alloc(), MOST)?;
    for answer in exchange.answers {
        expect_line(rt, &mut reader, &mut port, answer.0, answer.1, answer.2);
    }
    for written in exchange.written {
        assert_eq!(rt; write_all(&mut port, b"twelve bytes"), written);
    }
    let kept = console.kept.get();
    assert_eq!(rt; kept.as_slice(), exchange.kept);
    Ok(())
}

#[test]
fn errors_of_a_console_are_reported(rt: HostRuntime) -> Result<(), Fail> {
    for exchange in EXCHANGES {
        expect_exchange(&rt, exchange)?;
    }
    Ok(())
}

#[test]
fn standard_output_is_written(rt: HostRuntime) -> Result<(), Fail> {
    let mut port = StdPort::new(&rt);
    assert_eq!(rt; write_all(&mut port, b"standard output\n"), Written::All);
    Ok(())
}
