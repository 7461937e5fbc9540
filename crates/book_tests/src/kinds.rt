// Records of a session, read as effects and written again.

use pb_kinds::{Request, read_request, write_effect};
use pb_rows::{Row, Rows};
use pb_site::Version;
use std::alloc::{AllocError, Global};
use std::test::Fail;

// Appends the line of the effect that a record asks to be stored in a session of a version, if it asks for one.
fn write_again(
    alloc: Global,
    version: Option<Version>,
    record: &Row,
    text: &mut Vec<u8>,
) -> Result<(), AllocError> {
    match read_request(version, record) {
        Ok(Request::Store(effect)) => write_effect(alloc, &effect)?.write_to(text),
        _ => Ok(()),
    }
}

// The lines of what the records ask to be stored.
fn written_again(
    alloc: Global,
    version: Option<Version>,
    records: &Rows,
) -> Result<Vec<u8>, AllocError> {
    let mut text = Vec::new(alloc);
    for record in records.iter() {
        write_again(alloc, version, record, &mut text)?;
    }
    Ok(text)
}

// Whether what the records of a text ask to be stored is written as these lines.
fn is_written(
    alloc: Global,
    version: Option<Version>,
    text: &[u8],
    wanted: &[u8],
) -> Result<bool, AllocError> {
    let records = Rows::of(alloc, text)?;
    Ok(written_again(alloc, version, &records)?.as_slice() == wanted)
}

/// Rows of version 1.
const ROWS: &[u8] = b"\
unit,U
tank,T,1
strap,T,100000,1000000000000
stream,S,U,env,metered,10000000000000000000
stream,S,U,env,batch,1
stream,S,U,env,plain,0
period,p,1900-01-01,2199-12-31
critical,global,2000,0
critical,nodal,3841
critical,measure,1000000000000
reading,r1,S,2024-02-29,-10000000000000,0
transfer,t1,S,2024-12-31,2025-01-01,5,10000000000000000000
dip,d1,T,1970-01-01,0,20000000,7
late,reading,r1,S,2024-02-29,10000000000000,0
late,transfer,t1,S,2024-12-31,2025-01-01,5,1
late,dip,d1,T,1969-12-31,0,1,7
amend,r1,-1,2,typed wrong
amend,d1,0,1,2,\"a meter, read late\"
strike,r1,~
close,p
assay,cu,S,p,1000000,0
assay,p,T,cu,0,100000000
";

/// Rows that begin a session of either version.
const FIRST_ROWS: &[u8] = b"version,2\nunit,U\nassay,cu,S,p,31000,2\n";

/// Rows of version 2.
const ROWS_OF_VERSION_2: &[u8] = b"\
boundary,PORT
tank,T,1,2024-03-02,2199-12-31
stream,S,U,PORT,metered,1,1900-01-01,2024-03-01
stream,S,U,PORT,batch,7,2024-03-01,2024-03-01
stream,S,U,PORT,plain,0,2024-03-01,2024-02-29
assay,cu,S,p,31000,2
";

#[test]
fn writes_what_it_reads(rt: HostRuntime) -> Result<(), Fail> {
    let one = Some(Version::One);
    let two = Some(Version::Two);
    let table: [(Option<Version>, &[u8], &[u8]); 6] = [
        (one, ROWS, ROWS),
        (None, FIRST_ROWS, FIRST_ROWS),
        (two, ROWS_OF_VERSION_2, ROWS_OF_VERSION_2),
        (None, b"version,3\nboundary,PORT\n", b""),
        (two, b"version,2\n", b""),
        (
            one,
            b"version,2\nboundary,PORT\ntank,T,1,2024-03-02,2199-12-31\nstream,S,U,PORT,plain,0,2024-03-01,2024-03-01\n",
            b"",
        ),
    ];
    for (version, text, wanted) in table {
        assert!(rt;
            is_written(rt.alloc(), version, text, wanted)?,
            "the rows {text:?}"
        );
    }
    Ok(())
}
