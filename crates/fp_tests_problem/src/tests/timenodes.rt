//! The points of three terminals by rounds.

use fp_timenodes::{Added, Place, Points};
use std::alloc::AllocError;

#[test]
fn points_stand_from_their_round(rt: HostRuntime) -> Result<(), AllocError> {
    let alloc = rt.alloc();
    let first = [Place { terminal: 2, at: 9 }, Place { terminal: 2, at: 8 }];
    let mut points = Points::new(alloc, 3, &first)?;
    assert_eq!(rt; points.last_round(), 0);
    match points.add(alloc, 1, 4, 1)? {
        Added::New => {}
        Added::There => assert!(rt; false, "a new point was there"),
    }
    assert_eq!(rt; points.add(alloc, 1, 4, 1)?, Added::There);
    let points = points.copy(alloc)?;
    for (terminal, at, round, has, floor, next) in [
        (0, 7, 1, false, 0, None),
        (2, 8, 0, true, 8, Some(9)),
        (2, 9, 0, true, 9, None),
        (2, 7, 4, false, 0, Some(8)),
        (1, 4, 0, false, 0, None),
        (1, 4, 1, true, 4, None),
        (1, 0, 0, true, 0, None),
        (1, 0, 1, true, 0, Some(4)),
        (1, 5, 0, false, 0, None),
        (1, 5, 1, false, 4, None),
    ] {
        assert!(rt; terminal < 3);
        assert_eq!(rt;
            points.has(terminal, at, round),
            has,
            "has {terminal} {at} {round}"
        );
        assert_eq!(rt;
            points.floor(terminal, at, round),
            floor,
            "floor {terminal} {at} {round}"
        );
        assert_eq!(rt;
            points.next(terminal, at, round),
            next,
            "next {terminal} {at} {round}"
        );
    }
    assert_eq!(rt; points.last_round(), 1);
    assert_eq!(rt; points.added().len(), 1);
    Ok(())
}
