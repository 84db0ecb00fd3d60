//! Tests of runs whose reads or writes fail, with the program of the suite.
use crate::Conformance;
use filterset_json::{FromReader, RunFault, Sink, Source, ToWriter, run};
use std::io;
use std::io::ErrorKind;
use std::test::Fail;

/// Gives one byte a read, and fails after `good_reads` reads.
#[derive(Drop)]
struct Dropping<'a> {
    rest: &'a [u8],
    good_reads: usize,
    failed: bool,
    ended: bool,
}

impl<'a> Dropping<'a> {
    fn new(rest: &'a [u8], good_reads: usize) -> Dropping<'a> {
        Dropping {
            rest,
            good_reads,
            failed: false,
            ended: false,
        }
    }
}

impl Source for Dropping<'_> {
    ghost use Rattle.std.specs.Prelude.{None};

    ghost left = { λ _. None };

    ghost failed = { λ s. s.failed };

    ghost ended = { λ s. s.ended };

    fn read_some(&mut self, buf: &mut [u8]) -> io::Result<usize> {
        if self.good_reads == 0 {
            self.failed = true;
            return Err(io::Error::from(ErrorKind::Other));
        }
        self.good_reads -= 1;
        if buf.is_empty() {
            return Ok(0);
        }
        match self.rest {
            [] => {
                self.ended = true;
                Ok(0)
            }
            [first, others @ ..] => {
                buf[0] = *first;
                self.rest = others;
                Ok(1)
            }
        }
    }
}

/// Takes `room` bytes one by one, and then fails, or takes no byte.
#[derive(Drop)]
struct Stopping<'a> {
    taken: &'a mut Vec<u8>,
    room: usize,
    answers_none: bool,
    failed: bool,
}

impl Sink for Stopping<'_> {
    ghost use Rattle.std.specs.Prelude.{Some};

    ghost taken = { λ s. Some s.taken.now.items };

    ghost failed = { λ s. s.failed };

    fn write_some(&mut self, piece: &[u8]) -> io::Result<usize> {
        let [first, ..] = piece else {
            return Ok(0);
        };
        if self.room == 0 {
            self.failed = true;
            return if self.answers_none {
                Ok(0)
            } else {
                Err(io::Error::from(ErrorKind::Other))
            };
        }
        match self.taken.push(*first) {
            Ok(()) => {
                self.room -= 1;
                Ok(1)
            }
            Err(_) => {
                self.failed = true;
                Err(io::Error::from(ErrorKind::OutOfMemory))
            }
        }
    }
}

const ROWS: &str =
    r#"{"texts":[],"globs":[],"matchers":[],"filtersets":[],"graphs":[],"workspaces":[]}"#;

const REPORT: &str = "0 rows\n";

#[test]
fn failing_reads(rt: HostRuntime) -> Result<(), Fail> {
    // The last read finds the end.
    for good_reads in 0..ROWS.len() + 2 {
        let mut written = Vec::with_capacity(rt.alloc(), 1024)?;
        let mut input = Dropping::new(ROWS.as_bytes(), good_reads);
        let mut output = ToWriter::new(&mut written);
        let ended = run::<Conformance, _, _>(rt.alloc(), &mut input, &mut output);
        drop(output);
        if good_reads <= ROWS.len() {
            assert_eq!(rt; ended, Err(RunFault::Read), "at {good_reads}");
            assert!(rt; written.is_empty());
        } else {
            assert_eq!(rt; ended, Ok(0));
            assert!(rt; written.as_slice() == REPORT.as_bytes());
        }
    }
    Ok(())
}

#[test]
fn failing_writes(rt: HostRuntime) -> Result<(), Fail> {
    for answers_none in [false, true] {
        for room in 0..REPORT.len() {
            let mut taken = Vec::with_capacity(rt.alloc(), 1024)?;
            let mut input = FromReader::new(ROWS.as_bytes());
            let mut output = Stopping {
                taken: &mut taken,
                room,
                answers_none,
                failed: false,
            };
            let ended = run::<Conformance, _, _>(rt.alloc(), &mut input, &mut output);
            drop(output);
            assert_eq!(rt; ended, Err(RunFault::Write), "at {room}");
            assert!(rt; taken.as_slice() == &REPORT.as_bytes()[..room]);
        }
    }
    Ok(())
}
