// Tests of the waiting lists.
#![tactic(auto)]

#[cfg(test)]
mod tests {
    use waiting::drain::drain_into;
    use waiting::list::WaitingList;
    use waiting::strip::BitStrip;

    #[test]
    fn drains_in_order(rt: HostRuntime) {
        let mut strip = BitStrip::new();
        for turn in [31, 255, 0, 32, 31] {
            assert!(rt; strip.put(turn).is_ok());
        }
        let mut out = [7u16; 6];
        assert_eq!(rt; drain_into(&mut strip, &mut out), 4);
        assert_eq!(rt; out, [0, 31, 32, 255, 7, 7]);
        assert_eq!(rt; strip.take(), None);
    }

    #[test]
    fn drains_what_fits(rt: HostRuntime) {
        let mut strip = BitStrip::new();
        for turn in [255, 32, 0] {
            assert!(rt; strip.put(turn).is_ok());
        }
        let mut out = [7u16; 2];
        assert_eq!(rt; drain_into(&mut strip, &mut out), 2);
        assert_eq!(rt; out, [0, 32]);
        assert_eq!(rt; strip.take(), Some(255));
        assert_eq!(rt; strip.take(), None);
    }

    #[test]
    fn refuses_256(rt: HostRuntime) {
        let mut strip = BitStrip::new();
        assert_eq!(rt; strip.limit(), 256);
        assert!(rt; strip.put(5).is_ok());
        assert!(rt; strip.put(256).is_err());
        assert!(rt; strip.put(65535).is_err());
        assert_eq!(rt; strip.take(), Some(5));
        assert_eq!(rt; strip.take(), None);
    }

    #[test]
    fn clears(rt: HostRuntime) {
        let mut strip = BitStrip::new();
        for turn in [0, 100, 255] {
            assert!(rt; strip.put(turn).is_ok());
        }
        strip.clear();
        assert_eq!(rt; strip.take(), None);
    }

    #[test]
    fn takes_none_from_an_empty_strip(rt: HostRuntime) {
        let mut strip = BitStrip::new();
        assert_eq!(rt; strip.take(), None);
        assert_eq!(rt; drain_into(&mut strip, &mut [0; 256]), 0);
        assert_eq!(rt; strip.take(), None);
    }

    #[test]
    fn fills_and_drains(rt: HostRuntime) {
        let mut strip = BitStrip::new();
        for turn in 0..256 {
            assert!(rt; strip.put(turn).is_ok());
        }
        let mut out = [0u16; 256];
        assert_eq!(rt; drain_into(&mut strip, &mut out), 256);
        for (turn, given) in out.iter().enumerate() {
            assert_eq!(rt; *given as usize, turn);
        }
        assert_eq!(rt; strip.take(), None);
    }
}
