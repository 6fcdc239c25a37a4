//! The reader of texts at work, on texts that are written out.
#![tactic(auto)]

#[cfg(test)]
mod tests {
    use amounts::{Amount, Pair, Places, Quarters};
    use jobs::Job;
    use refusals::Refusal;
    use std::process::Abort;
    use std::test::Fail;
    use texts::read;

    fn blank<K: Amount>() -> Job<K> {
        Job::new(7, K::zero(), K::zero(), 7)
    }

    // What a refusal tells: its number, its place and its column.
    fn is(rt: &impl Abort, refusal: Refusal, told: (u32, usize, usize)) -> Result<(), Fail> {
        assert!(rt; (refusal.number(), refusal.place(), refusal.column()) == told);
        Ok(())
    }

    // Each text is refused as it is told beside it.
    fn places(rt: &impl Abort, table: &[(&[u8], (u32, usize, usize))]) -> Result<(), Fail> {
        for (text, told) in table {
            let mut records: [Job<Places>; 3] = [blank(); 3];
            match read(text, &mut records) {
                Ok(_) => return Err(Fail::new("granted")),
                Err(refusal) => is(rt, refusal, *told)?,
            }
        }
        Ok(())
    }

    #[test]
    fn sizes(rt: HostRuntime) -> Result<(), Fail> {
        let mut long = [b'9'; 65_537];
        places(&rt, &[(b"", (1, 0, 0)), (&long, (1, 0, 0))])?;
        long[..7].copy_from_slice(b"hall L ");
        places(&rt, &[(&long[..65_536], (3, 1, 8))])
    }

    #[test]
    fn bytes(rt: HostRuntime) -> Result<(), Fail> {
        places(
            &rt,
            &[
                (b"hall L 099 1", (2, 1, 9)),
                (b"hall L 1 0", (2, 1, 11)),
                (b"hall L 1 0\njob 0 1 2 3\n\n", (2, 3, 1)),
                (b"hall A 1 0\n", (2, 1, 6)),
            ],
        )
    }

    #[test]
    fn numbers(rt: HostRuntime) -> Result<(), Fail> {
        places(
            &rt,
            &[
                (b"hall L 65x", (3, 1, 8)),
                (b"hall L 65", (3, 1, 8)),
                (b"hall L 64 1000000001\n", (3, 1, 11)),
                (b"hall L 1 0\njob 4096 1 2 3\n", (3, 2, 5)),
                (b"hall L 1 0\njob 0 1 2 10001\n", (3, 2, 11)),
            ],
        )
    }

    #[test]
    fn counts(rt: HostRuntime) -> Result<(), Fail> {
        places(
            &rt,
            &[
                (b"hall L 1 0\n", (4, 0, 0)),
                (
                    b"hall B 1 0\njob 0 1 2 3\njob 1 1 2 3\njob 1 1 2 3\n",
                    (4, 3, 0),
                ),
            ],
        )
    }

    #[test]
    fn pairs(rt: HostRuntime) -> Result<(), Fail> {
        let mut records: [Job<Pair<Places, Quarters>>; 2] = [blank(); 2];
        match read(b"hall L 3 20/9\njob 0 5/6 2 9\n", &mut records) {
            Ok(_) => Err(Fail::new("granted")),
            Err(refusal) => is(&rt, refusal, (2, 2, 12)),
        }?;
        match read(b"hall B 3 20/9\njob 0 5/6 2/0 10000\n", &mut records) {
            Ok(heading) => {
                assert!(rt; heading.benches == 3 && heading.jobs == 1);
                assert!(rt; heading.floor.first.count == 20 && heading.floor.second.pallets == 2);
                assert!(rt; records[1].work.second.quarters == 2 && records[1].minutes == 10_000);
                assert!(rt; records[0].parent == 7);
                Ok(())
            }
            Err(_) => Err(Fail::new("refused")),
        }
    }
}
