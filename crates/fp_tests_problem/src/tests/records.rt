//! Records of texts, and texts of lines.

use fp_records::{Line, NoMemory, Record, records};
use std::alloc::Global;
use std::test::Fail;

// The fields of all records, each followed by a bar, and each record by a slash.
fn shown(alloc: Global, rows: &[Record]) -> Result<Vec<u8>, NoMemory> {
    let mut text = Vec::new(alloc);
    for row in rows {
        for at in 0..row.len() {
            text.extend_from_slice(row.field(at))?;
            text.push(b'|')?;
        }
        text.push(b'/')?;
    }
    Ok(text)
}

#[test]
fn reads_records(rt: HostRuntime) -> Result<(), Fail> {
    let alloc = rt.alloc();
    let table: [(&[u8], &[u8]); 6] = [
        (b"", b""),
        // As a spreadsheet writes it.
        (
            b"\xEF\xBB\xBFterminal,\"A\",,,,,\r\narc,\"A\",\"B\",5,10,100,1\r\n,,,,,,\r\n\r\n",
            b"terminal|A|/arc|A|B|5|10|100|1|/",
        ),
        // Blanks and empty fields inside a record stay.
        (b" \t a\tb ,  , c,\t\n , ,\t\nd", b"a\tb||c|/d|/"),
        (b"\"a,\"\"b\",\" c\t\"\n\"x\ny\"", b"a,\"b|c|/x\ny|/"),
        // Empty fields stay before one that isn't, and each record has its own.
        (b"a,,b,,\n,,\n\"\"\r\n,c,\r,,d", b"a||b|/|c|/||d|/"),
        // One byte order mark is passed over.
        (b"\xEF\xBB\xBF\xEF\xBB\xBFa\n", b"\xEF\xBB\xBFa|/"),
    ];
    for (text, want) in table {
        let rows = records(alloc, text)?;
        let got = shown(alloc, &rows)?;
        assert_eq!(rt; got.as_slice(), want);
    }
    Ok(())
}

#[test]
fn builds_lines(rt: HostRuntime) -> Result<(), Fail> {
    let mut line = Line::new(rt.alloc())?;
    line.word(b"leg")?;
    line.number(0)?;
    line.number(340282366920938463463374607431768211455)?;
    line.end()?;
    line.word(b"end")?;
    line.end()?;
    let bytes = line.into_bytes();
    assert_eq!(rt;
        bytes.as_slice(),
        b"leg,0,340282366920938463463374607431768211455\nend\n".as_slice()
    );
    Ok(())
}
