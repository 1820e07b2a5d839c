//! Texts of instances.

/// An arc from A to B, and a shipment over it. The direct plan costs a truck and four units of
/// freight, 104.
pub const ONE_ARC: &str = "terminal,A\nterminal,B\narc,A,B,5,10,100,1\nshipment,S1,A,B,4,0,10\n";

/// Two shipments that can share a truck from 3 to 5. Together they cost 109, apart 209.
pub const PAIR: &str =
    "terminal,A\nterminal,B\narc,A,B,5,10,100,1\nshipment,S1,A,B,4,0,10\nshipment,S2,A,B,5,3,12\n";

/// Two arcs in a row. One shipment goes over both and can wait nowhere, one goes over the second
/// and has to leave before the first can come there. So three trucks run, at 300.
pub const LINE: &str =
    "terminal,A\nterminal,B\nterminal,C\narc,A,B,4,10,100,0\narc,B,C,5,10,100,0\nshipment,S1,A,C,4,0,9\nshipment,S2,B,C,4,0,8\n";

/// An arc of truck cost 100 beside a way over C of 60 for each of its two arcs.
pub const DETOUR: &str =
    "terminal,A\nterminal,B\nterminal,C\narc,A,B,5,10,100,0\narc,A,C,4,10,60,0\narc,C,B,4,10,60,0\nshipment,S1,A,B,4,0,20\n";

/// S1 goes from A to D by C: straight to C in a truck of 100, where it comes at 10 and could leave
/// with S2 by 15, or over B in trucks of 1 and 1, where it comes at 20. So the cheapest plan runs
/// two trucks of 60 from C to D, and costs 122.
pub const SLOW_WAY: &str =
    "terminal,A\nterminal,B\nterminal,C\nterminal,D\narc,A,C,10,5,100,0\narc,A,B,10,5,1,0\narc,B,C,10,5,1,0\narc,C,D,10,10,60,0\nshipment,S1,A,D,5,0,30\nshipment,S2,C,D,5,10,25\n";

/// Three shipments of which no two fit into a truck, over an arc of truck cost 60 or a way over C
/// of 30 for each of its two arcs. Each pays 60 for a truck of its own, so the cheapest plan costs
/// 180.
pub const TRIO: &str =
    "terminal,A\nterminal,B\nterminal,C\narc,A,B,5,6,60,0\narc,A,C,4,6,30,0\narc,C,B,4,6,30,0\nshipment,S1,A,B,5,0,20\nshipment,S2,A,B,5,0,20\nshipment,S3,A,B,5,0,20\n";

/// Three shipments of which no two fit into a truck. S2 has to leave at 0, S3 at 10, and S1 may
/// leave at any time from 0 to 10. Each pays 100 for a truck of its own, so the cheapest plan
/// costs 300.
pub const LARGE_LOADS: &str =
    "terminal,A\nterminal,B\narc,A,B,5,10,100,0\nshipment,S1,A,B,8,0,15\nshipment,S2,A,B,8,0,5\nshipment,S3,A,B,8,10,15\n";
