//! Calls as people type them, and answers with the lines that tell them.
#![tactic(auto)]

#[cfg(test)]
mod tests {
    use amounts::Places;
    use jobs::State;
    use logs::{Answer, Call, Sight, Tally};
    use refusals::Refusal;
    use replies::{call_of, end_line, reply_line};
    use std::alloc::Global;
    use std::process::Abort;
    use std::test::Fail;

    #[test]
    fn calls(rt: HostRuntime) {
        let table: [(&[u8], Call); 7] = [
            (b"start 1", Call::Start(1)),
            (b"report 64", Call::Report(64)),
            (b"ask 4095", Call::Ask(4095)),
            (b"start 0", Call::Start(0)),
            (b"ask 18446744073709551615", Call::Ask(usize::MAX)),
            (b"ask 18446744073709551616", Call::Ask(usize::MAX)),
            (
                b"start 1234567890123456789012345678901234567890",
                Call::Start(usize::MAX),
            ),
        ];
        for (line, call) in table {
            assert_eq!(rt; call_of(line), Some(call));
        }
    }

    #[test]
    fn no_calls(rt: HostRuntime) {
        let table: [&[u8]; 14] = [
            b"",
            b"start",
            b"start ",
            b"start  1",
            b"start 01",
            b"start 00",
            b"Start 1",
            b"start 1 ",
            b"start -1",
            b"start 1x",
            b"stop 1",
            b"report1",
            b" ask 1",
            b"ask 1\n",
        ];
        for line in table {
            assert!(rt; call_of(line).is_none());
        }
    }

    // The answer to the call is told by the line.
    fn tells(
        rt: &impl Abort,
        heap: Global,
        call: Call,
        answer: Result<Answer<Places>, Refusal>,
        line: &str,
    ) -> Result<(), Fail> {
        let told = reply_line(heap, call, &answer)?;
        assert_eq!(rt; told.as_str(), line);
        Ok(())
    }

    // Five granted starts, three granted reports, and 81 jobs that are not done.
    const TALLY: Tally = Tally {
        starts: 5,
        reports: 3,
        left: 81,
    };

    // What is told of a job in this state after five granted starts and three granted reports.
    fn seen(state: State) -> Result<Answer<Places>, Refusal> {
        Ok(Answer::Told(Sight {
            state,
            held: Places { count: 21 },
            tally: TALLY,
        }))
    }

    #[test]
    fn answers(rt: HostRuntime) -> Result<(), Fail> {
        let heap = rt.alloc();
        let granted = Ok(Answer::Started(7));
        tells(&rt, heap, Call::Start(2), granted, "started 7 2\n")?;
        let granted = Ok(Answer::Done(7));
        tells(&rt, heap, Call::Report(2), granted, "done 7 2\n")?;
        let waiting = seen(State::Waiting);
        tells(
            &rt,
            heap,
            Call::Ask(84),
            waiting,
            "state 84 waiting 0 21 5 3 81\n",
        )?;
        let running = seen(State::Running(2));
        tells(
            &rt,
            heap,
            Call::Ask(7),
            running,
            "state 7 running 2 21 5 3 81\n",
        )?;
        let done = seen(State::Done);
        tells(&rt, heap, Call::Ask(1), done, "state 1 done 0 21 5 3 81\n")?;
        let busy = Err(Refusal::BenchBusy { bench: 2 });
        tells(&rt, heap, Call::Start(2), busy, "refused 4 21 2 0\n")?;
        let unknown = Err(Refusal::JobUnknown);
        tells(
            &rt,
            heap,
            Call::Ask(usize::MAX),
            unknown,
            "refused 4 18 0 0\n",
        )
    }

    #[test]
    fn ends(rt: HostRuntime) -> Result<(), Fail> {
        let told = end_line(rt.alloc(), TALLY)?;
        assert_eq!(rt; told.as_str(), "end 5 3 81\n");
        Ok(())
    }
}
