// Small files worked whole, and their reports.
#![tactic(auto)]

#[cfg(test)]
mod tests {
    use book::Link;
    use kind::Kind;
    use kinds::{Places, Ticks};
    use report::run_file;
    use std::process::Abort;
    use std::test::Fail;

    // Works a file on a book of one switch, and compares its report.
    fn reports(rt: &impl Abort, file: &[u8], expected: &[u8]) -> Result<(), Fail> {
        let (Ok(tick), Ok(place)) = (Ticks::latency(0), Places::latency(0)) else {
            return Err(Fail::new("a kind has no zero latency"));
        };
        let mut tick_links = [Link::blank(tick); 1];
        let mut place_links = [Link::blank(place); 1];
        let mut report = [0u8; 64];
        // With rows of its own sizes, as every user of the call lends them.
        let Ok(bytes) = run_file(
            file,
            &mut tick_links,
            &mut [0i64; 2],
            &mut place_links,
            &mut [0u32; 2],
            &mut [0u32; 4],
            &mut [0u32; 1],
            &mut report,
        ) else {
            return Err(Fail::new("the report is full"));
        };
        assert!(rt; report.get(0..bytes).unwrap_or(b"") == expected);
        Ok(())
    }

    #[test]
    fn empty_file(rt: HostRuntime) -> Result<(), Fail> {
        reports(&rt, b"", b"FILE 1 NO 22\n")
    }

    #[test]
    fn ragged_file(rt: HostRuntime) -> Result<(), Fail> {
        reports(&rt, b"\x10\x00\x00\x00\x20", b"FILE 0 NO 20\n")
    }

    // Too long and ragged: the length is told.
    #[test]
    fn long_file(rt: HostRuntime) -> Result<(), Fail> {
        reports(&rt, &[0u8; 65_537], b"FILE 0 NO 21\n")
    }

    #[test]
    fn head_alone(rt: HostRuntime) -> Result<(), Fail> {
        reports(&rt, b"\x11\x00\x00\x00", b"")
    }
}
