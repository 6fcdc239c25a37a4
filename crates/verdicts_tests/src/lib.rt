//! Runs as people type them, with the line that answers each.
#![tactic(auto)]

#[cfg(test)]
mod tests {
    use amounts::Places;
    use std::alloc::Global;
    use std::process::Abort;
    use std::test::Fail;
    use verdicts::{answer_line, check_text};

    // The answer to each text is the line beside it.
    fn answers(rt: &impl Abort, heap: Global, table: &[(&[u8], &str)]) -> Result<(), Fail> {
        for (text, line) in table {
            let answer = check_text::<Places>(heap, text)?;
            let told = answer_line(heap, &answer)?;
            assert_eq!(rt; told.as_str(), *line);
        }
        Ok(())
    }

    #[test]
    fn runs_that_fit(rt: HostRuntime) -> Result<(), Fail> {
        let heap = rt.alloc();
        answers(
            &rt,
            heap,
            &[
                (
                    b"hall B 2 6\njob 3 0 2 4\njob 3 0 2 1\njob 7 0 1 2\njob 6 0 2 1\njob 6 0 2 3\njob 7 0 1 2\njob 0 0 1 1\n",
                    "checked 7 jobs: peak 6 fits floor 6\n",
                ),
                (
                    b"hall L 1 0\njob 0 0 0 0\n",
                    "checked 1 jobs: peak 0 fits floor 0\n",
                ),
                (
                    b"hall L 64 1000000000\njob 0 1000000 1000000 10000\n",
                    "checked 1 jobs: peak 2000000 fits floor 1000000000\n",
                ),
                (
                    b"hall L 1 10\njob 3 0 4 0\njob 3 5 1 0\njob 0 0 1 0\n",
                    "checked 3 jobs: peak 10 fits floor 10\n",
                ),
            ],
        )
    }

    #[test]
    fn texts(rt: HostRuntime) -> Result<(), Fail> {
        let heap = rt.alloc();
        answers(
            &rt,
            heap,
            &[
                (b"", "refused 1 1 0 0\n"),
                (b"hall X 1 1\n", "refused 1 2 1 6\n"),
                (b"hall L 1 0", "refused 1 2 1 11\n"),
                (b"hall L 099 1\n", "refused 1 2 1 9\n"),
                (b"hall L 1 1\njob 0 0 1\n", "refused 1 2 2 10\n"),
                (b"hall L 1 1\njob 0 0/1 1 1\n", "refused 1 2 2 8\n"),
                (b"hall L 65x", "refused 1 3 1 8\n"),
                (b"hall L 1 1000000001\n", "refused 1 3 1 10\n"),
                (b"hall L 1 1\njob 4096 0 1 1\n", "refused 1 3 2 5\n"),
                (b"hall L 1 1\njob 0 1000001 1 1\n", "refused 1 3 2 7\n"),
                (b"hall L 1 1\njob 0 0 1 10001\n", "refused 1 3 2 11\n"),
            ],
        )
    }

    #[test]
    fn trees(rt: HostRuntime) -> Result<(), Fail> {
        let heap = rt.alloc();
        answers(
            &rt,
            heap,
            &[
                (b"hall L 1 1\n", "refused 2 4 0 0\n"),
                (
                    b"hall L 1 9\njob 0 0 1 1\njob 3 0 1 1\njob 4 0 1 1\n",
                    "refused 2 6 3 0\n",
                ),
                (
                    b"hall L 1 9\njob 2 0 1 1\njob 1 0 1 1\n",
                    "refused 2 7 0 0\n",
                ),
                (
                    b"hall L 1 9\njob 0 0 1 1\njob 1 0 1 1\njob 0 0 1 1\njob 0 0 1 1\n",
                    "refused 2 7 3 0\n",
                ),
                (
                    b"hall L 1 9\njob 2 0 1 1\njob 1 0 1 1\njob 0 0 1 1\n",
                    "refused 2 8 1 0\n",
                ),
                (
                    b"hall L 1 9\njob 0 0 1 1\njob 1 0 1 1\njob 3 0 1 1\njob 3 0 1 1\n",
                    "refused 2 8 3 0\n",
                ),
            ],
        )
    }

    #[test]
    fn halls(rt: HostRuntime) -> Result<(), Fail> {
        let heap = rt.alloc();
        answers(
            &rt,
            heap,
            &[
                (b"hall L 0 0\njob 0 0 1 1\n", "refused 4 11 0 0\n"),
                (b"hall L 0 9\njob 1 0 1 1\n", "refused 2 7 0 0\n"),
                (
                    b"hall L 1 9\njob 3 0 4 0\njob 3 5 1 0\njob 0 0 1 0\n",
                    "refused 4 16 2 0\n",
                ),
                (
                    b"hall B 2 5\njob 3 0 2 4\njob 3 0 2 1\njob 7 0 1 2\njob 6 0 2 1\njob 6 0 2 3\njob 7 0 1 2\njob 0 0 1 1\n",
                    "refused 4 16 6 0\n",
                ),
            ],
        )
    }

    // The heading of a text, and then as many jobs under job 1.
    fn star(heap: Global, jobs: usize) -> Result<Vec<u8>, Fail> {
        let mut text = b"hall L 1 9000\njob 0 0 1 0\n".to_vec(heap)?;
        for _ in 1..jobs {
            text.extend_from_slice(b"job 1 0 1 0\n")?;
        }
        Ok(text)
    }

    #[test]
    fn sizes(rt: HostRuntime) -> Result<(), Fail> {
        let heap = rt.alloc();
        answers(
            &rt,
            heap,
            &[
                (
                    &star(heap, 4095)?,
                    "checked 4095 jobs: peak 4095 fits floor 9000\n",
                ),
                (&star(heap, 4096)?, "refused 2 4 4096 0\n"),
                (&star(heap, 5460)?, "refused 2 4 5460 0\n"),
                (&star(heap, 5461)?, "refused 1 1 0 0\n"),
            ],
        )
    }
}
