// The listing on short inputs: what it prints, and the line of each refusal.
#![tactic(auto)]

#[cfg(test)]
mod tests {
    use listing::listing::list_fields;
    use std::alloc::{AllocError, Global};
    use std::test::Fail;

    const RECORD: [u8; 16] = [1, 2, 0x47, 0x37, 0, 0, 0, 0, 0, 0, 0, 0, 0, 0, 0, 0];

    // The listing, or the line of the refusal.
    fn listed(memory: Global, input: &[u8]) -> Result<String, AllocError> {
        match list_fields(memory, input) {
            Ok(text) => Ok(text),
            Err(error) => error.to_string(memory),
        }
    }

    // RECORD n times, and then `last`.
    fn repeated(memory: Global, n: usize, last: &[u8]) -> Result<Vec<u8>, AllocError> {
        let mut input = Vec::new(memory);
        for _ in 0..n {
            input.extend_from_slice(&RECORD)?;
        }
        input.extend_from_slice(last)?;
        Ok(input)
    }

    // One good record and then this one.
    fn second(memory: Global, bytes: &[u8]) -> Result<String, AllocError> {
        let input = repeated(memory, 1, bytes)?;
        listed(memory, input.as_slice())
    }

    #[test]
    fn short_inputs(rt: HostRuntime) -> Result<(), Fail> {
        let memory = rt.alloc();
        assert_eq!(rt;
            listed(memory, b"")?.as_str(),
            "rows 0 valid 0 bytes 0 longest 0 complete 1000 width 32\n"
        );
        assert_eq!(rt;
            listed(memory, &RECORD)?.as_str(),
            "rows 1 valid 1 bytes 2 longest 2 complete 1000 width 32\n0 value 4737\n"
        );
        assert_eq!(rt;
            second(memory, &[1, 0, 0, 0, 0, 0, 0, 0, 0, 0, 0, 0, 0, 0, 0, 0])?.as_str(),
            "rows 2 valid 2 bytes 2 longest 2 complete 1000 width 32\n0 value 4737\n1 value\n"
        );
        assert_eq!(rt;
            second(memory, &[0, 0, 0, 0, 0, 0, 0, 0, 0, 0, 0, 0, 0, 0, 0, 0])?.as_str(),
            "rows 2 valid 1 bytes 2 longest 2 complete 500 width 32\n0 value 4737\n1 null\n"
        );
        Ok(())
    }

    #[test]
    fn malformed_records(rt: HostRuntime) -> Result<(), Fail> {
        let memory = rt.alloc();
        assert_eq!(rt;
            second(memory, &[1, 2, 0x47])?.as_str(),
            "record 1 refused 19"
        );
        assert_eq!(rt;
            second(memory, &[2, 0, 0, 0, 0, 0, 0, 0, 0, 0, 0, 0, 0, 0, 0, 0])?.as_str(),
            "record 1 refused 19"
        );
        assert_eq!(rt;
            second(
                memory,
                &[
                    1, 15, 65, 65, 65, 65, 65, 65, 65, 65, 65, 65, 65, 65, 65, 65
                ]
            )?
            .as_str(),
            "record 1 refused 19"
        );
        assert_eq!(rt;
            second(memory, &[0, 1, 0, 0, 0, 0, 0, 0, 0, 0, 0, 0, 0, 0, 0, 0])?.as_str(),
            "record 1 refused 19"
        );
        assert_eq!(rt;
            second(
                memory,
                &[1, 2, 0x47, 0x37, 0, 0, 0, 0, 0, 0, 0, 0, 0, 0, 0, 1]
            )?
            .as_str(),
            "record 1 refused 19"
        );
        Ok(())
    }

    #[test]
    fn text_rows(rt: HostRuntime) -> Result<(), Fail> {
        let memory = rt.alloc();
        assert_eq!(rt;
            second(memory, &[1, 1, 0xB5, 0, 0, 0, 0, 0, 0, 0, 0, 0, 0, 0, 0, 0])?.as_str(),
            "row 1 refused 18"
        );
        assert_eq!(rt;
            second(
                memory,
                &[
                    1, 14, 65, 65, 65, 65, 65, 65, 65, 65, 65, 65, 65, 65, 65, 66
                ]
            )?
            .as_str(),
            "rows 2 valid 2 bytes 16 longest 14 complete 1000 width 32\n0 value 4737\n1 value 4141414141414141414141414142\n"
        );
        Ok(())
    }

    #[test]
    fn many_records(rt: HostRuntime) -> Result<(), Fail> {
        let memory = rt.alloc();
        let full = listed(memory, repeated(memory, 256, b"")?.as_slice())?;
        assert!(rt;
            full.as_str().starts_with(
                "rows 256 valid 256 bytes 512 longest 2 complete 1000 width 32\n0 value 4737\n"
            )
        );
        assert!(rt; full.as_str().ends_with("\n255 value 4737\n"));
        assert_eq!(rt;
            listed(memory, repeated(memory, 257, b"")?.as_slice())?.as_str(),
            "record 256 refused 2"
        );
        assert_eq!(rt;
            listed(memory, repeated(memory, 256, b"\x01\x0f")?.as_slice())?.as_str(),
            "record 256 refused 19"
        );
        Ok(())
    }
}
