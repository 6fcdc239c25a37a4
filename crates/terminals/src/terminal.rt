ghost use Rattle.std.specs.Prelude.{◌≡◌, map, [], IfOk};
ghost use Rattle.logs.specs.Logs.{event};
ghost use Rattle.terminals.specs.Entries.{event_of};

use amounts::Places;
use logs::{Answer, Call};
use refusals::Refusal;
use replies::{call_of, reply_line};
use shifts::Desk;
use std::io::{BufRead, BufReader, Stdin};

/// A call with its answer.
#[derive(Clone, Copy)]
pub struct Entry {
    pub call: Call,
    pub answer: Result<Answer<Places>, Refusal>,
}

/// The desk at the terminal: calls are typed on standard input, one a line, and answered on
/// standard output.
#[derive(Drop)]
pub struct Terminal<'a> {
    rt: &'a HostRuntime,
    input: BufReader<Stdin>,
    /// How many lines were read.
    lines: u64,
    entries: Vec<Entry>,
}

impl<'a> Terminal<'a> {
    /// Nothing is read or answered yet.
    pub fn new(rt: &'a HostRuntime) -> anyhow::Result<Terminal<'a>>
        ensures { IfOk result (λ t. map event_of t.entries.items ≡ []) }
    {
        let entries = Vec::new(rt.alloc());
        Ok(Terminal {
            rt,
            input: BufReader::new(rt.alloc(), rt.stdin())?,
            lines: 0,
            entries,
        })
    }

    /// The next line without its end; none at the end of the input.
    fn next_line(&mut self) -> anyhow::Result<Option<Vec<u8>>>
        ensures { self.new.entries ≡ self.old.entries }
    {
        let mut line = Vec::new(self.rt.alloc());
        if self.input.read_until(b'\n', &mut line)? == 0 {
            return Ok(None);
        }
        self.lines = self.lines.saturating_add(1);
        if line.last() == Some(&b'\n') {
            let _ = line.pop();
        }
        Ok(Some(line))
    }
}

impl<'a> Desk<Places> for Terminal<'a> {
    type Fault = anyhow::Error;

    ghost journal = { λ t. map event_of t.entries.items };

    /// Passes over lines that are no call, and says so.
    fn next_call(&mut self) -> anyhow::Result<Option<Call>> {
        for _ in 0..u64::MAX {
            let Some(line) = self.next_line()? else {
                return Ok(None);
            };
            if let Some(call) = call_of(&line) {
                return Ok(Some(call));
            }
            let number = self.lines;
            eprintln!(self.rt;
                "hall: line {number} is no command: start BENCH, report BENCH or ask JOB"
            )?;
        }
        Ok(None)
    }

    fn take(&mut self, call: Call, answer: &Result<Answer<Places>, Refusal>) -> anyhow::Result<()> {
        self.entries.push(Entry {
            call,
            answer: *answer,
        })?;
        let line = reply_line(self.rt.alloc(), call, answer)?;
        print!(self.rt; "{line}")?;
        Ok(())
    }
}
