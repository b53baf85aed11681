// The copy and the hexadecimal decoder: what they write, and each fault.
#![tactic(auto)]

#[cfg(test)]
mod tests {
    use decoder::copy::CopyDecoder;
    use decoder::decoder::Decoder;
    use decoder::hex::HexDecoder;

    // The answer over a part of four bytes, and the part's first two.
    fn decoded<D: Decoder>(decoder: &mut D) -> (Option<u64>, u8, u8) {
        let mut part = [9u8; 4];
        let answer = decoder.decode(&mut part);
        (answer, part[0], part[1])
    }

    #[test]
    fn copies(rt: HostRuntime) {
        assert_eq!(rt;
            decoded(&mut CopyDecoder { bytes: b"ab" }),
            (Some(2), 97, 98)
        );
        assert_eq!(rt; decoded(&mut CopyDecoder { bytes: b"" }), (Some(0), 9, 9));
        assert_eq!(rt;
            decoded(&mut CopyDecoder { bytes: b"abcd" }),
            (Some(4), 97, 98)
        );
        assert_eq!(rt; decoded(&mut CopyDecoder { bytes: b"abcde" }), (None, 9, 9));
    }

    #[test]
    fn hexadecimal(rt: HostRuntime) {
        assert_eq!(rt;
            decoded(&mut HexDecoder { digits: b"3431" }),
            (Some(2), 0x34, 0x31)
        );
        assert_eq!(rt;
            decoded(&mut HexDecoder { digits: b"aFBc" }),
            (Some(2), 0xAF, 0xBC)
        );
        assert_eq!(rt; decoded(&mut HexDecoder { digits: b"" }), (Some(0), 9, 9));
        assert_eq!(rt;
            decoded(&mut HexDecoder {
                digits: b"00112233"
            }),
            (Some(4), 0x00, 0x11)
        );
        assert_eq!(rt;
            decoded(&mut HexDecoder {
                digits: b"0011223344"
            })
            .0,
            None
        );
        assert_eq!(rt; decoded(&mut HexDecoder { digits: b"343" }).0, None);
        assert_eq!(rt; decoded(&mut HexDecoder { digits: b"3g" }).0, None);
        assert_eq!(rt; decoded(&mut HexDecoder { digits: b"/0" }).0, None);
        assert_eq!(rt; decoded(&mut HexDecoder { digits: b"0:" }).0, None);
        assert_eq!(rt; decoded(&mut HexDecoder { digits: b"@0" }).0, None);
        assert_eq!(rt; decoded(&mut HexDecoder { digits: b"0G" }).0, None);
        assert_eq!(rt; decoded(&mut HexDecoder { digits: b"`0" }).0, None);
    }
}
