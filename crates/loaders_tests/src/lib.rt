//! Tests of the loaders, alone and stacked.
#![tactic(auto)]

#[cfg(test)]
mod tests {
    use keys::numbered::NumberedKey;
    use loaders::fault::{Cause, Fault};
    use loaders::loader::Loader;
    use loaders::overlay::Overlay;
    use loaders::roll::Roll;
    use loaders::sheet::Sheet;
    use loaders::shift::Shift;
    use survey::entry::Entry;
    use survey::station::Station;

    const SHEET: &str =
        "key=1.1 east=1 north=2 up=3\nkey=1.2 east=2147483647 north=0 up=0\nkey=1.1 east=9 north=9 up=9\nkey=1.3 east=0 north=0 up=0";

    fn key(station: u16) -> NumberedKey {
        NumberedKey { survey: 1, station }
    }

    fn at(east: i32, north: i32, up: i32) -> Station {
        Station { east, north, up }
    }

    #[test]
    fn the_first_line_counts_and_a_broken_one_stops(rt: HostRuntime) {
        let mut sheet = Sheet { text: SHEET };
        assert_eq!(rt; sheet.ask(&key(1)), Ok(at(1, 2, 3)));
        assert_eq!(rt;
            sheet.ask(&key(3)),
            Err(Fault::new(Cause::BrokenLine(4))),
            "text after the last line feed"
        );
        let mut empty = Sheet { text: "" };
        assert_eq!(rt; empty.ask(&key(1)), Err(Fault::new(Cause::NoRecord)));
        let mut blank = Sheet { text: "\n" };
        assert_eq!(rt;
            blank.ask(&key(1)),
            Err(Fault::new(Cause::BrokenLine(1))),
            "an empty line"
        );
        let mut crlf = Sheet {
            text: "key=1.1 east=1 north=2 up=3\r\n",
        };
        assert_eq!(rt;
            crlf.ask(&key(1)),
            Err(Fault::new(Cause::BrokenLine(1))),
            "a carriage return"
        );
    }

    #[test]
    fn layers_stack(rt: HostRuntime) {
        let records = [
            Entry {
                key: key(5),
                value: at(5, 5, 5),
            },
            Entry {
                key: key(5),
                value: at(6, 6, 6),
            },
        ];
        let over = Roll { records: &records };
        let under = Sheet { text: SHEET };
        let mut stack = Shift {
            below: Overlay { over, under },
            offset: at(1, -1, 0),
        };
        assert_eq!(rt; stack.ask(&key(5)), Ok(at(6, 4, 5)));
        assert_eq!(rt; stack.ask(&key(1)), Ok(at(2, 1, 3)));
        assert_eq!(rt; stack.ask(&key(2)), Err(Fault::new(Cause::OutOfRange)));
        assert_eq!(rt;
            stack.ask(&key(9)),
            Err(Fault {
                cause: Cause::BrokenLine(4),
                depth: 2,
            })
        );
    }

    #[test]
    fn depth_stays_at_255(rt: HostRuntime) {
        let mut fault = Fault::new(Cause::NoRecord);
        for _ in 0..300u16 {
            fault = fault.passed_up();
        }
        assert_eq!(rt;
            fault,
            Fault {
                cause: Cause::NoRecord,
                depth: 255,
            }
        );
    }
}
