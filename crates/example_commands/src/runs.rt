//! Runs of the examples over a port in memory.

use crate::counted_text::{AtMost, Counting, HowMany, HowManyEach};
use crate::document::{Document, HowLarge};
use crate::tally::{FromCount, Tally};
use crate::tally_command::TallyCommand;
use command_engine::{AnswersOnce, Status, Tested, TextThenPhase, Then, serve};
use plan_port::MemoryPort;
use std::alloc::{AllocError, Global};
use std::process::Abort;
use std::test::Fail;
use std::thread::Threads;

// Each row: the command, the input, how many bytes each take gives at most (0: no bound), the take
// and the put that fail (0: none), what is put, and the exit status. `/` stands for a line end.
const ROWS: &str = "\
ask|count/a/b/end/more/|0|0|0|lines 4/|0
ask|count/a/b/end|1|0|0|lines 4/|0
ask|one/|0|0|0|error no-title 1/|3
ask|count/a|2|0|0|error no-end 3/|3
ask||0|0|0|error no-title 1/|3
ask|count/a/end/|0|1|0|error read/|5
ask|count/a/end/|1|12|0|error read/|5
ask|count/a/end/|1|13|0|lines 3/|0
ask|count/a/end/|0|0|1||6
tally|count/end/x/y/stop/z/|0|0|0|from 2/at 2 3/at 2 4/|0
tally|count/end/x/y/stop/z/|1|0|0|from 2/at 2 3/at 2 4/|0
tally|count/end/x|3|0|0|from 2/at 2 3/error no-stop 4/|3
tally|count/end/x/y/stop/|1|13|0|from 2/at 2 3/error read/|5
tally|count/end/x/y/stop/|1|0|2|from 2/|6
tally|counts/|0|0|0|error no-title 1/|3
desk|a/b/go/x/stop/|0|0|0|kept 1/kept 2/from 2/at 2 4/|0
desk|a/go/x/|1|0|0|kept 1/from 1/at 1 3/error no-stop 4/|3
desk|a/b|1|0|0|kept 1/kept 2/error no-go 3/|3
document|abc/de/end/|0|0|0|left 99995/|0
document|abc/de|1|0|0|error no-end/|3
each|count/end/count/a/end/|1|0|0|lines 2 5/|0
each|count/end/counts/|0|0|0|error no-title 3/|3
each|count/end/count/|0|0|0|error no-end 4/|3
few|count/a/b/end/more/|0|0|0|lines 4/|0
few|count/a/b/c/end/|1|0|0|error limit 5/|4
few|count/a/|0|0|0|error no-end 3/|3";

// A row of the table.
#[derive(Drop)]
struct RunRow<'a> {
    command: &'a str,
    input: &'a str,
    cut: u32,
    failing_take: u32,
    failing_put: u32,
    output: &'a str,
    status: u8,
}

fn number(word: &str) -> u32 {
    word.parse::<u32>().unwrap_or(0)
}

fn row_of(line: &str) -> Option<RunRow<'_>> {
    let mut words = line.split('|');
    Some(RunRow {
        command: words.next()?,
        input: words.next()?,
        cut: number(words.next()?),
        failing_take: number(words.next()?),
        failing_put: number(words.next()?),
        output: words.next()?,
        status: words.next()?.parse::<u8>().unwrap_or(255),
    })
}

/// The bytes of a text in which `/` stands for a line end.
fn bytes_of(alloc: Global, text: &str) -> Result<Vec<u8>, AllocError> {
    text.bytes()
        .map(|byte| if byte == b'/' { b'\n' } else { byte })
        .collect(alloc)
}

fn port_for(alloc: Global, row: &RunRow<'_>) -> Result<MemoryPort, AllocError> {
    let cuts = vec![in alloc; row.cut; 64]?;
    let failing_takes = vec![in alloc; row.failing_take; 1]?;
    let failing_puts = vec![in alloc; row.failing_put; 1]?;
    let input = bytes_of(alloc, row.input)?;
    Ok(MemoryPort::new(alloc, input, cuts, failing_takes, failing_puts))
}

fn run(
    rt: &(impl Threads + Sync),
    alloc: Global,
    row: &RunRow<'_>,
    port: &mut MemoryPort,
) -> Status {
    match row.command {
        "ask" => serve(
            rt,
            alloc,
            AnswersOnce {
                question: HowMany,
                text: Counting::BeforeTitle,
            },
            port,
        ),
        "document" => serve(
            rt,
            alloc,
            AnswersOnce {
                question: HowLarge,
                text: Document::new(),
            },
            port,
        ),
        "each" => serve(
            rt,
            alloc,
            AnswersOnce {
                question: HowManyEach,
                text: Then::First(Counting::BeforeTitle, Counting::BeforeTitle),
            },
            port,
        ),
        "few" => serve(
            rt,
            alloc,
            AnswersOnce {
                question: HowMany,
                text: Tested {
                    text: Counting::BeforeTitle,
                    test: AtMost { lines: 4 },
                },
            },
            port,
        ),
        "desk" => serve(rt, alloc, TallyCommand::Open(0), port),
        _ => {
            let tally: TextThenPhase<FromCount, Counting, Tally> = TextThenPhase::Reading(
                FromCount,
                Counting::BeforeTitle,
            );
            serve(rt, alloc, tally, port)
        }
    }
}

/// A row is answered as it says.
fn check(rt: &(impl Abort + Threads + Sync), alloc: Global, line: &str) -> Result<(), Fail> {
    let row = row_of(line).ok_or("not a row")?;
    let mut port = port_for(alloc, &row)?;
    let status = run(rt, alloc, &row, &mut port);
    let output = bytes_of(alloc, row.output)?;
    assert_eq!(rt; port.written(), output.as_slice(), "{line}");
    assert_eq!(rt; status.number(), row.status, "{line}");
    Ok(())
}

#[test]
fn rows_are_answered(rt: HostRuntime) -> Result<(), Fail> {
    for line in ROWS.split('\n') {
        check(&rt, rt.alloc(), line)?;
    }
    Ok(())
}

// Each row: how many bytes the lines of a document have before `end`, how many bytes each take
// gives at most, what is put, and the exit status.
const LONG_ROWS: &str = "\
70000|0|left 30000/|0
60000 39000|4096|left 1000/|0
65537|1|left 34463/|0
99997|0|left 3/|0
99998|0|error too-large/|4
100001|0|error too-large/|4
60000 40001|7000|error too-large/|4";

/// The input of a row.
fn document_of(alloc: Global, sizes: &str) -> Result<Vec<u8>, AllocError> {
    let mut input = Vec::new(alloc);
    for size in sizes.split(' ') {
        input.resize(input.len() + number(size) as usize, b'x')?;
        input.push(b'\n')?;
    }
    input.extend_from_slice(b"end\n")?;
    Ok(input)
}

fn check_document(
    rt: &(impl Abort + Threads + Sync),
    alloc: Global,
    line: &str,
) -> Result<(), Fail> {
    let mut words = line.split('|');
    let sizes = words.next().ok_or("not a row")?;
    let cuts = vec![in alloc; number(words.next().unwrap_or("")); 64]?;
    let output = bytes_of(alloc, words.next().unwrap_or(""))?;
    let status = number(words.next().unwrap_or(""));
    let input = document_of(alloc, sizes)?;
    let mut port = MemoryPort::new(alloc, input, cuts, Vec::new(alloc), Vec::new(alloc));
    let text = Document::new();
    let query = AnswersOnce {
        question: HowLarge,
        text,
    };
    let ended = serve(rt, alloc, query, &mut port);
    assert_eq!(rt; port.written(), output.as_slice(), "{line}");
    assert_eq!(rt; u32::from(ended.number()), status, "{line}");
    Ok(())
}

#[test]
fn long_documents_are_answered(rt: HostRuntime) -> Result<(), Fail> {
    for line in LONG_ROWS.split('\n') {
        check_document(&rt, rt.alloc(), line)?;
    }
    Ok(())
}
