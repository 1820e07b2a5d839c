//! Texts of certificates.

/// That `LINE` costs 300: with a point at B at 4 each shipment's classes are forced, a truck for
/// each.
pub const LINE_PROOF: &str =
    "answer,optimal,300\nleg,S1,A,B,0,4\nleg,S2,B,C,0,5\nleg,S1,B,C,4,9\ntruck,A,B,0,1,4\ntruck,B,C,0,1,4\ntruck,B,C,4,1,4\npoint,B,4,1\nleaf,linear,1,forced\nend\n";

/// The same by a table in which the one shipment of each class pays its whole truck, in seventh
/// parts.
pub const LINE_TABLE: &str =
    "answer,optimal,300\nscale,7\nleg,S1,A,B,0,4\nleg,S2,B,C,0,5\nleg,S1,B,C,4,9\ntruck,A,B,0,1,4\ntruck,B,C,0,1,4\ntruck,B,C,4,1,4\npoint,B,4,1\ntable,1\nshare,A,B,0,0\nweight,S1,700\nshare,B,C,0,0\nweight,S2,700\nshare,B,C,4,0\nweight,S1,700\nleaf,1,1,plain\nend\n";

/// That `TRIO` costs 180: in each of eight leaves each shipment either goes by the arc, or not.
pub const TRIO_PROOF: &str =
    "answer,optimal,180\nleg,S1,A,B,0,5\nleg,S2,A,B,0,5\nleg,S3,A,B,0,5\ntruck,A,B,0,3,15\nsplit,arc,S1,A,B\nsplit,arc,S2,A,B\nsplit,arc,S3,A,B\nleaf,linear,0,forced\nleaf,linear,0,forced\nsplit,arc,S3,A,B\nleaf,linear,0,forced\nleaf,linear,0,forced\nsplit,arc,S2,A,B\nsplit,arc,S3,A,B\nleaf,linear,0,forced\nleaf,linear,0,forced\nsplit,arc,S3,A,B\nleaf,linear,0,forced\nleaf,linear,0,forced\nend\n";

/// That `LARGE_LOADS` costs 300: whether S1 leaves before 10 or at 10, it needs a second truck
/// there.
pub const LARGE_LOADS_PROOF: &str =
    "answer,optimal,300\nleg,S1,A,B,0,5\nleg,S2,A,B,0,5\nleg,S3,A,B,10,15\ntruck,A,B,0,2,16\ntruck,A,B,10,1,8\nsplit,time,S1,A,10\nleaf,linear,0,forced\nleaf,linear,0,forced\nend\n";
