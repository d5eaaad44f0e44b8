// The gauges and edge matrices on figures worked by hand.
#![tactic(auto)]

#[cfg(test)]
mod tests {
    use gauge::count::Count;
    use gauge::early::Early;
    use gauge::edge::Edge;
    use gauge::gauges::Gauge;
    use gauge::late::Late;
    use gauge::matrix::EdgeMatrix;
    use gauge::semiring::Semiring;
    use gauge::time::Time;
    use weights::times::Times;
    use weights::weight::{pin_weight, source_start};

    fn shown(arrival: Option<Time>) -> Option<u32> {
        arrival.map(u32::from)
    }

    fn late(time: u32) -> Late {
        Late::from_delays(time, 0)
    }

    fn early(time: u32) -> Early {
        Early::from_delays(0, time)
    }

    fn paths(n: u32) -> Count {
        let mut sum = Count::zero();
        for _ in 0..n {
            sum = sum.plus(Count::one());
        }
        sum
    }

    #[test]
    fn late_keeps_the_larger_and_stops_at_the_top(rt: HostRuntime) {
        let none = Late::zero();
        assert_eq!(rt; shown(late(3).plus(late(5)).arrival), Some(5));
        assert_eq!(rt; shown(late(3).plus(none).arrival), Some(3));
        assert_eq!(rt; shown(none.plus(none).arrival), None);
        assert_eq!(rt;
            shown(late(4294967294).times(late(0)).arrival),
            Some(4294967294)
        );
        assert_eq!(rt;
            shown(late(4294967294).times(late(1)).arrival),
            Some(4294967295)
        );
        assert_eq!(rt;
            shown(late(4294967294).times(late(2)).arrival),
            Some(4294967295)
        );
        assert_eq!(rt;
            shown(late(4294967295).times(late(4294967295)).arrival),
            Some(4294967295)
        );
        assert_eq!(rt; shown(none.times(late(7)).arrival), None);
        assert_eq!(rt; shown(Late::one().times(late(0)).arrival), Some(0));
    }

    #[test]
    fn early_keeps_the_smaller_and_none_is_not_0(rt: HostRuntime) {
        let none = Early::zero();
        assert_eq!(rt; shown(early(3).plus(early(5)).arrival), Some(3));
        assert_eq!(rt; shown(early(3).plus(none).arrival), Some(3));
        assert_eq!(rt;
            shown(none.plus(early(4294967295)).arrival),
            Some(4294967295)
        );
        assert_eq!(rt; shown(early(0).plus(early(1)).arrival), Some(0));
        assert_eq!(rt; shown(early(7).times(none).arrival), None);
        assert_eq!(rt;
            shown(early(4294967295).times(early(1)).arrival),
            Some(4294967295)
        );
        assert!(rt; !none.same(early(0)));
        assert!(rt; early(9).same(early(9)));
    }

    #[test]
    fn counts_wrap(rt: HostRuntime) {
        let half = paths(65536).times(paths(32768));
        assert_eq!(rt; u32::from(half), 2147483648);
        assert_eq!(rt; u32::from(half.plus(half)), 0);
        assert_eq!(rt; u32::from(half.times(paths(3))), 2147483648);
        assert_eq!(rt; u32::from(Count::from_delays(12, 7)), 1);
    }

    #[test]
    fn a_pin_and_a_start(rt: HostRuntime) {
        let times = Times {
            late_rise: 60,
            late_fall: 40,
            early_rise: 30,
            early_fall: 25,
        };
        let turned: EdgeMatrix<Late> = pin_weight(false, true, times);
        assert_eq!(rt;
            shown(turned.entry(Edge::Fall, Edge::Rise).arrival),
            Some(60)
        );
        assert_eq!(rt;
            shown(turned.entry(Edge::Rise, Edge::Fall).arrival),
            Some(40)
        );
        assert_eq!(rt; shown(turned.entry(Edge::Rise, Edge::Rise).arrival), None);
        let start: EdgeMatrix<Early> = source_start(times);
        assert_eq!(rt;
            shown(start.entry(Edge::Rise, Edge::Rise).arrival),
            Some(30)
        );
        assert_eq!(rt;
            shown(start.entry(Edge::Fall, Edge::Fall).arrival),
            Some(25)
        );
        assert_eq!(rt; shown(start.entry(Edge::Rise, Edge::Fall).arrival), None);
    }

    #[test]
    fn a_product_goes_by_rise_and_by_fall(rt: HostRuntime) {
        let x = EdgeMatrix {
            rise_rise: late(1),
            rise_fall: late(20),
            fall_rise: Late::zero(),
            fall_fall: late(3),
        };
        let y = EdgeMatrix {
            rise_rise: late(100),
            rise_fall: late(5),
            fall_rise: late(90),
            fall_fall: Late::zero(),
        };
        let product = x.times(y);
        assert_eq!(rt; shown(product.rise_rise.arrival), Some(110));
        assert_eq!(rt; shown(product.rise_fall.arrival), Some(6));
        assert_eq!(rt; shown(product.fall_rise.arrival), Some(93));
        assert_eq!(rt; shown(product.fall_fall.arrival), None);
        assert_eq!(rt; shown(product.arrival(Edge::Rise).arrival), Some(110));
        assert!(rt; EdgeMatrix::one().times(x).same(x));
        assert!(rt; !x.same(y));
    }
}
