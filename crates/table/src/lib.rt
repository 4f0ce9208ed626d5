// One table over a lent slice of lines, with a row of places for each hour.
#![tactic(auto)]

pub mod lines;
pub mod table;

#[cfg(test)]
mod tests {
    use crate::lines::BuyerLine;
    use crate::table::{Rows, Sums, Table};
    use settlement::terms::Line;

    fn buyer(charge: i32) -> BuyerLine {
        BuyerLine {
            charge: i64::from(charge),
            refund: -i64::from(charge),
        }
    }

    #[test]
    fn places_past_the_end(rt: HostRuntime) {
        let mut lines = [buyer(1), buyer(2), buyer(3)];
        let mut table = Table::new(&mut lines, 2);
        table.put(1, 0, buyer(5));
        table.put(1, 1, buyer(6));
        assert_eq!(rt; table.line(1, 0), buyer(5));
        assert_eq!(rt; table.line(1, 1), buyer(0));
        assert_eq!(rt; lines, [buyer(1), buyer(2), buyer(5)]);
    }

    #[test]
    fn rows(rt: HostRuntime) {
        let mut lines = [buyer(9); 7];
        let mut table = Table::new(&mut lines, 2);
        table.put_row(1, &[buyer(1), buyer(2), buyer(3)]);
        table.put_row(2, &[buyer(4)]);
        table.clear_row(0);
        assert_eq!(rt;
            lines,
            [
                buyer(0),
                buyer(0),
                buyer(1),
                buyer(2),
                buyer(4),
                buyer(9),
                buyer(9),
            ]
        );
    }

    #[test]
    fn cleared(rt: HostRuntime) {
        let mut lines = [buyer(9); 5];
        let mut table = Table::new(&mut lines, 2);
        table.clear(2);
        assert_eq!(rt; lines, [buyer(0), buyer(0), buyer(0), buyer(0), buyer(9)]);
    }

    #[test]
    fn sums_of_any_lines(rt: HostRuntime) {
        let worst = Line {
            plan: 1,
            order: 2,
            sr: 3,
            dr: 4,
            dlr: 5,
            slr: 6,
            plan_pay: -2147483648,
            order_pay: -2147483648,
            fined: 4294967295,
        };
        let settled = [Some(worst), None, Some(worst)];
        assert_eq!(rt;
            Rows {
                lines: &settled,
                width: 3,
            }
            .sums(0),
            Sums {
                due: -8589934592,
                back: 8589934590,
            }
        );
        let most = [BuyerLine {
            charge: 9223372036854775807,
            refund: -9223372036854775807,
        }; 4];
        assert_eq!(rt;
            Rows {
                lines: &most,
                width: 3,
            }
            .sums(1),
            Sums {
                due: 9223372036854775807,
                back: -9223372036854775807,
            }
        );
        assert_eq!(rt;
            Rows {
                lines: &most,
                width: 4294967295,
            }
            .line(4294967295, 4294967295),
            buyer(0)
        );
    }
}
