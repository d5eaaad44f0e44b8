// Fields read from bytes worked by hand.
#![tactic(auto)]

#[cfg(test)]
mod tests {
    use fault::cause::Cause;
    use fault::refusal::Refusal;
    use fields::edit::Edit;
    use fields::entry::{Clock, Entry};
    use fields::faults::FieldFault;
    use fields::field::too_long;
    use fields::read::{Fields, Placed, read_field};
    use weights::times::Times;

    // 0x12345678, 7, 256, 4294967290
    const TIMES: Times = Times {
        late_rise: 305_419_896,
        late_fall: 7,
        early_rise: 256,
        early_fall: 4_294_967_290,
    };

    #[test]
    fn clock(rt: HostRuntime) {
        let file = [0x01, 0, 12, 0, 0, 3, 232, 0, 0, 0, 50, 0, 0, 0, 20];
        let clock = Clock {
            period: 1000,
            setup: 50,
            hold: 20,
        };
        assert_eq!(rt;
            read_field::<Entry>(&file, 0),
            Ok((Entry::Clock(clock), 15))
        );
    }

    #[test]
    fn delays(rt: HostRuntime) {
        let entry = b"\x02\0\x12\xFE\x03\x12\x34\x56\x78\0\0\0\x07\0\0\x01\0\xFF\xFF\xFF\xFA";
        let edit = b"\x11\0\x12\xFE\x03\x12\x34\x56\x78\0\0\0\x07\0\0\x01\0\xFF\xFF\xFF\xFA";
        let (gate, pin, times) = (254, 3, TIMES);
        assert_eq!(rt;
            read_field::<Entry>(entry, 0),
            Ok((Entry::Delay { gate, pin, times }, 21))
        );
        assert_eq!(rt;
            read_field::<Edit>(edit, 0),
            Ok((Edit::SetDelay { gate, pin, times }, 21))
        );
    }

    #[test]
    fn starts(rt: HostRuntime) {
        let entry = b"\x03\0\x11\x09\x12\x34\x56\x78\0\0\0\x07\0\0\x01\0\xFF\xFF\xFF\xFA";
        let edit = b"\x12\0\x11\x09\x12\x34\x56\x78\0\0\0\x07\0\0\x01\0\xFF\xFF\xFF\xFA";
        let (source, times) = (9, TIMES);
        assert_eq!(rt;
            read_field::<Entry>(entry, 0),
            Ok((Entry::Start { source, times }, 20))
        );
        assert_eq!(rt;
            read_field::<Edit>(edit, 0),
            Ok((Edit::SetStart { source, times }, 20))
        );
    }

    #[test]
    fn rewire_and_cut(rt: HostRuntime) {
        let file = [0x13, 0, 3, 3, 1, 2, 0x14, 0, 2, 5, 0];
        let rewire = Edit::Rewire {
            gate: 3,
            pin: 1,
            feeder: 2,
        };
        assert_eq!(rt; read_field::<Edit>(&file, 0), Ok((rewire, 6)));
        assert_eq!(rt;
            read_field::<Edit>(&file, 6),
            Ok((Edit::Cut { gate: 5, pin: 0 }, 11))
        );
    }

    #[test]
    fn one_byte_short(rt: HostRuntime) {
        assert_eq!(rt;
            read_field::<Edit>(&[0x14, 0, 2, 5], 0),
            Err(FieldFault::CutOff { at: 0 })
        );
    }

    #[test]
    fn one_byte_too_long(rt: HostRuntime) {
        let file = [0x14, 0, 3, 5, 0, 0];
        assert_eq!(rt;
            read_field::<Edit>(&file, 0),
            Err(FieldFault::WrongLength { at: 0 })
        );
    }

    // The high byte of the length counts 256.
    #[test]
    fn length_of_258(rt: HostRuntime) {
        let mut file = [0; 261];
        file[0] = 0x14;
        file[1] = 1;
        file[2] = 2;
        assert_eq!(rt;
            read_field::<Edit>(&file, 0),
            Err(FieldFault::WrongLength { at: 0 })
        );
    }

    #[test]
    fn two_bytes_left_over(rt: HostRuntime) {
        let file = [0x14, 0, 2, 5, 0, 0x14, 0];
        assert_eq!(rt;
            read_field::<Edit>(&file, 0),
            Ok((Edit::Cut { gate: 5, pin: 0 }, 5))
        );
        assert_eq!(rt;
            read_field::<Edit>(&file, 5),
            Err(FieldFault::CutOff { at: 5 })
        );
    }

    // A wrong length does not stop the fields, and one that is cut off is the last.
    #[test]
    fn one_after_another(rt: HostRuntime) {
        let file = [0x14, 0, 2, 5, 0, 0x12, 0, 1, 9, 0x14, 0, 2, 7];
        let mut fields = Fields::<Edit>::new(&file);
        let cut = Placed {
            at: 0,
            said: Ok(Edit::Cut { gate: 5, pin: 0 }),
        };
        let wrong = Placed {
            at: 5,
            said: Err(FieldFault::WrongLength { at: 5 }),
        };
        let last = Placed {
            at: 9,
            said: Err(FieldFault::CutOff { at: 9 }),
        };
        assert_eq!(rt; fields.next(), Some(cut));
        assert_eq!(rt; fields.next(), Some(wrong));
        assert_eq!(rt; fields.next(), Some(last));
        assert_eq!(rt; fields.next(), None);
    }

    #[test]
    fn past_the_end(rt: HostRuntime) {
        assert_eq!(rt;
            read_field::<Entry>(&[], 0),
            Err(FieldFault::CutOff { at: 0 })
        );
        assert_eq!(rt;
            read_field::<Edit>(&[0x14, 0, 2, 5, 0], 9),
            Err(FieldFault::CutOff { at: 9 })
        );
    }

    #[test]
    fn unknown_tag(rt: HostRuntime) {
        assert_eq!(rt;
            read_field::<Edit>(&[0x15, 0, 0], 0),
            Err(FieldFault::UnknownTag { at: 0 })
        );
    }

    #[test]
    fn tag_of_the_other_file(rt: HostRuntime) {
        let file = [0x03, 0, 0, 0x14, 0, 2, 5, 0];
        assert_eq!(rt;
            read_field::<Edit>(&file, 0),
            Err(FieldFault::Misplaced { at: 0 })
        );
        assert_eq!(rt;
            read_field::<Entry>(&file, 3),
            Err(FieldFault::Misplaced { at: 3 })
        );
    }

    #[test]
    fn refused_at_the_tag(rt: HostRuntime) {
        let refusal = Refusal::from(FieldFault::Misplaced { at: 3 });
        assert_eq!(rt; refusal.number(), 11);
        assert_eq!(rt;
            refusal,
            Refusal {
                cause: Cause::BadField,
                place: 3,
            }
        );
    }

    #[test]
    fn longest_file(rt: HostRuntime) {
        let bytes = [0; 32_769];
        assert!(rt; !too_long(&bytes[0..32_768]));
        assert!(rt; too_long(&bytes));
    }
}
