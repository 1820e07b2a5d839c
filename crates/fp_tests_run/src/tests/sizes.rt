//! As many terminals, arcs and shipments as an instance may have, and one more.

use crate::runs::run_on;
use std::alloc::{AllocError, Global};
use std::test::Fail;

// Records of so many terminals.
fn terminals(alloc: Global, count: u32) -> Result<String, AllocError> {
    let mut text = String::new(alloc);
    for number in 0..count {
        text.push_str(format!(in alloc; "terminal,N{number}\n")?.as_str())?;
    }
    Ok(text)
}

// Records of so many arcs, no two with the same ends, between 33 terminals.
fn arcs(alloc: Global, count: u32) -> Result<String, AllocError> {
    let mut text = terminals(alloc, 33)?;
    for number in 0..count {
        let from = number % 33;
        let to = (from + 1 + number / 33 % 32) % 33;
        text.push_str(format!(in alloc; "arc,N{from},N{to},5,10,100,0\n")?.as_str())?;
    }
    Ok(text)
}

// Records of so many shipments of the size 1, over an arc that takes ten of them in a truck.
fn shipments(alloc: Global, count: u32) -> Result<String, AllocError> {
    let mut text = String::from_str(alloc, "terminal,A\nterminal,B\narc,A,B,5,10,100,0\n")?;
    for number in 0..count {
        text.push_str(format!(in alloc; "shipment,S{number},A,B,1,0,5\n")?.as_str())?;
    }
    Ok(text)
}

#[test]
fn no_more_than_the_limits(rt: HostRuntime) -> Result<(), Fail> {
    let alloc = rt.alloc();
    for (input, code, front) in [
        (terminals(alloc, 100)?, 0, "answer,direct,0\nend\n"),
        (terminals(alloc, 101)?, 21, "refused,101,11\n"),
        (arcs(alloc, 1000)?, 0, "answer,direct,0\nend\n"),
        (arcs(alloc, 1001)?, 21, "refused,1034,11\n"),
        (
            shipments(alloc, 500)?,
            0,
            "answer,direct,5000\nleg,S0,A,B,0,5\nleg,S1,A,B,0,5\n",
        ),
        (shipments(alloc, 501)?, 21, "refused,504,11\n"),
    ] {
        let (status, text) = run_on(alloc, "direct", input.as_str())?;
        assert_eq!(rt; status, code, "{front}");
        assert!(rt; text.starts_with(front.as_bytes()), "{front}");
    }
    Ok(())
}
