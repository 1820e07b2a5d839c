//! What is read of a certificate is written as it stood. Its faults stand with the tests of the
//! whole program.

ghost use Rattle.std.specs.Prelude.{◌≤◌, ◌<◌, ◌-◌, ◌^◌, length};

use fp_certificate::{CertFault, read, written_reads_back};
use fp_certificate_lines::write;
use fp_model::Instance;
use fp_reader::{Tail, instance};
use fp_records::{Record, records};
use fp_tests_examples::LINE;
use std::alloc::Global;
use std::test::Fail;

// The text of the certificate that is read.
fn copied(
    alloc: Global,
    instance: &Instance,
    lines: &[Record],
    from: usize,
) -> Result<Vec<u8>, CertFault>
    requires from { from ≤ length lines.now }
    requires few { length lines.now < 2 ^ 32 - 1 }
{
    let certificate = read(alloc, instance, lines, from)?;
    written_reads_back(instance);
    Ok(write(alloc, instance, &certificate)?)
}

// The text that a certificate behind an instance is written as, or its first fault.
fn text_of(alloc: Global, text: &str) -> Result<Result<Vec<u8>, CertFault>, Fail>
    requires { length text.now < 2000 }
{
    let lines = records(alloc, text.as_bytes())?;
    let read = instance(alloc, &lines, Tail::Certificate)?;
    let from = read.used.min(lines.len());
    Ok(copied(alloc, &read.instance, &lines, from))
}

#[test]
fn what_is_read_is_written_as_it_stood(rt: HostRuntime) -> Result<(), Fail> {
    let alloc = rt.alloc();
    let rows = [
        "answer,optimal,300\nleg,S1,A,B,0,4\nleg,S2,B,C,0,5\nleg,S1,B,C,4,9\ntruck,A,B,0,1,4\ntruck,B,C,0,1,4\ntruck,B,C,4,1,4\npoint,B,4,1\ntable,1\nshare,A,B,0,0\nweight,S1,100000000\nshare,B,C,0,0\nweight,S2,100000000\nshare,B,C,4,0\nweight,S1,100000000\nleaf,1,1,plain\nend\n",
        "answer,unfinished,170141183460469231731687303715884105727,299,branches\nscale,1000\ntable,1\ntable,2\nshare,B,C,7,12\nsplit,arc,S2,B,C\nsplit,time,S1,B,100000\nleaf,even,0,plain\nleaf,2,4000,forced,100000\nleaf,linear,0,forced,0\nend\n",
        "answer,unfinished,9,0,rounds\nend\n",
        "answer,unfinished,9,5,rounds\nscale,1000\nunit,5\ntable,1\nshare,A,B,0,0\nspan,A,B,0,100001,100000,0\nweight,S1,99\ngroup,4\ngroup,100000\nspan,B,C,4,5,0,7\ntable,2\nspan,A,B,1,9,3,0\ngroup,2\nleaf,2,0,plain\nend\n",
        "answer,unfinished,9,5,rounds\nscale,1000\ntable,1\nspan,A,B,1,9,3,0\nweight,S1,3\ngroup,2\ngift,A,B,0,100001,least,60000\ngift,A,B,1,9,most,0\ntable,2\ngift,B,C,4,5,most,7\ntable,3\nshare,B,C,7,12\ngift,B,C,0,9,least,1\nsplit,trucks,A,B,0,100001,4294967295\nleaf,2,0,plain\nsplit,trucks,B,C,4,5,0\nleaf,even,0,plain\nleaf,1,0,plain\nend\n",
        "answer,direct,0\nleg,S1,A,B,0,4\nend\n",
        "answer,infeasible,S2,none\nend\n",
        "answer,infeasible,S1,9\nend\n",
    ];
    for certificate in rows {
        let text = format!(in alloc; "{LINE}{certificate}")?;
        assert!(rt; text.len() < 2000);
        let written = text_of(alloc, text.as_str())??;
        assert_eq!(rt; written.as_slice(), certificate.as_bytes());
    }
    Ok(())
}
