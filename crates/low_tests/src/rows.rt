// What no clause says: that calls succeed with ample memory, and values from outside.

use pb_rows::{
    Name, NameList, Names, Reason, Records, Row, RowWriter, Rows, read_date, read_whole,
    whole_bytes,
};
use std::alloc::{AllocError, Global};
use std::process::Abort;
use std::test::Fail;

#[test]
fn reads_dates(rt: HostRuntime) -> Result<(), Fail> {
    let table: [(&[u8], Option<i32>); 9] = [
        (b"1970-01-01", Some(0)),
        (b"1900-01-01", Some(-25567)),
        (b"2199-12-31", Some(84005)),
        (b"2024-02-29", Some(19782)),
        (b"2023-02-29", None),
        (b"2024-2-9", None),
        (b"1899-12-31", None),
        (b"2200-01-01", None),
        (b"2024-02-09 ", None),
    ];
    for (field, day) in table {
        assert_eq!(rt; read_date(field)?, day, "the day of {field:?}");
    }
    Ok(())
}

#[test]
fn reads_whole_numbers(rt: HostRuntime) {
    let (least, most) = (i128::MIN, i128::MAX);
    let table: [(&[u8], i128, i128, Option<i128>); 20] = [
        (b"0", -100, 100, Some(0)),
        (b"-1", -100, 100, Some(-1)),
        (b"100", -100, 100, Some(100)),
        (b"101", -100, 100, None),
        (b"007", -100, 100, None),
        (b"-0", -100, 100, None),
        (b"", -100, 100, None),
        (b"-", -100, 100, None),
        (b"+1", -100, 100, None),
        (b"1 ", -100, 100, None),
        (b"123456789012345678", least, most, Some(123456789012345678)),
        (
            b"-123456789012345678",
            least,
            most,
            Some(-123456789012345678),
        ),
        (
            b"9999999999999999999",
            least,
            most,
            Some(9999999999999999999),
        ),
        (
            b"-9999999999999999999",
            least,
            most,
            Some(-9999999999999999999),
        ),
        (
            b"18446744073709551616",
            least,
            most,
            Some(18446744073709551616),
        ),
        (
            b"99999999999999999999",
            least,
            most,
            Some(99999999999999999999),
        ),
        (b"1234567890123456x8", 0, most, None),
        (b"01234567890123456789", 0, most, None),
        (
            b"-170141183460469231731687303715884105728",
            least,
            0,
            Some(least),
        ),
        (b"-170141183460469231731687303715884105729", least, 0, None),
    ];
    for (field, from, to, value) in table {
        assert_eq!(rt;
            read_whole(field, from, to),
            value,
            "the number of {field:?}"
        );
    }
}

#[test]
fn writes_whole_numbers(rt: HostRuntime) -> Result<(), Fail> {
    let table: [(i128, &[u8]); 4] = [
        (0, b"0"),
        (-25567, b"-25567"),
        (1000, b"1000"),
        (i128::MIN, b"-170141183460469231731687303715884105728"),
    ];
    for (value, text) in table {
        let bytes = whole_bytes(rt.alloc(), value)?;
        assert_eq!(rt; bytes.as_slice(), text, "the text of {value}");
    }
    Ok(())
}

// Whether a field is read as a name of its bytes, which equals the name read from them again and no other.
fn is_name(field: &[u8]) -> bool {
    match Name::read(field) {
        Some(name) => {
            name.bytes() == field
                && Some(name) == Name::read(field)
                && Some(name) != Name::read(b"b")
        }
        None => false,
    }
}

#[test]
fn reads_names(rt: HostRuntime) {
    let table: [(&[u8], bool); 8] = [
        (b"a", true),
        (b"TK-1_a.9", true),
        (b"", false),
        (b"a b", false),
        (b"a,b", false),
        (b"\xc3\xa9", false),
        (b"abcdefghijklmnopqrstuvwxyz012345", true),
        (b"abcdefghijklmnopqrstuvwxyz0123456", false),
    ];
    for (field, want) in table {
        assert_eq!(rt; is_name(field), want, "the name {field:?}");
    }
}

#[test]
fn orders_and_prints_names(rt: HostRuntime) -> Result<(), Fail> {
    let unit = Name::read(b"U-1").ok_or("U-1")?;
    let longer = Name::read(b"U-10").ok_or("U-10")?;
    let other = Name::read(b"U-2").ok_or("U-2")?;
    assert!(rt; unit < longer && longer < other);
    assert_eq!(rt; unit.as_str(), "U-1");
    assert_eq!(rt;
        format!(in rt.alloc(); "{unit} {other:?}")?.as_str(),
        "U-1 U-2"
    );
    Ok(())
}

// The number of nodes, by three counts, whether the first one has this name, and whether there is no stream.
fn counts(names: &Names, first: &Name) -> (usize, usize, usize, bool, bool) {
    let nodes = &names.nodes;
    let is_first = !nodes.is_empty() && nodes.at(0).bytes() == first.bytes();
    (
        nodes.len(),
        nodes.as_slice().len(),
        nodes.iter().count(),
        is_first,
        names.streams.is_empty(),
    )
}

#[test]
fn lists_names(rt: HostRuntime) -> Result<(), Fail> {
    let env = Name::read(b"env").ok_or("env")?;
    let mut names = Names {
        nodes: NameList::new(rt.alloc()),
        streams: NameList::new(rt.alloc()),
    };
    names.nodes.push(env)?;
    assert_eq!(rt; counts(&names, &env), (1, 1, 1, true, true), "a node");
    Ok(())
}

// The row has exactly these fields.
fn assert_fields(rt: &impl Abort, row: &Row, fields: &[&[u8]]) {
    assert_eq!(rt; row.len(), fields.len(), "the length of {fields:?}");
    for (i, field) in fields.iter().enumerate() {
        assert_eq!(rt; row.field(i), *field, "field {i} of {fields:?}");
    }
}

// The record at a place has these fields, this many of which are filled.
fn assert_record(rt: &impl Abort, rows: &Rows, place: usize, fields: &[&[u8]], filled: usize) {
    assert!(rt; place < rows.len(), "the record {place}");
    assert_fields(rt, rows.at(place), fields);
    assert_eq!(rt;
        rows.at(place).filled(),
        filled,
        "the filled fields of {fields:?}"
    );
}

// There are exactly these records, with this many filled fields each.
fn assert_records(rt: &impl Abort, rows: &Rows, records: &[(&[&[u8]], usize)]) {
    assert_eq!(rt; rows.len(), records.len(), "the records");
    for (place, (fields, filled)) in records.iter().enumerate() {
        assert_record(rt, rows, place, fields, *filled);
    }
}

#[test]
fn reads_records(rt: HostRuntime) -> Result<(), Fail> {
    let rows = Rows::of(rt.alloc(), b"\xef\xbb\xbfunit,U,,\r\n\"a,\"\"b\"\n\n,\n")?;
    assert_records(
        &rt,
        &rows,
        &[
            (&[b"unit", b"U", b"", b""], 2),
            (&[b"a,\"b"], 1),
            (&[b"", b""], 0),
        ],
    );
    Ok(())
}

// The next record has these fields, this many of which are filled; after the last there is none.
fn assert_next(
    rt: &impl Abort,
    records: &mut Records,
    fields: &[&[u8]],
    filled: usize,
) -> Result<(), AllocError> {
    match records.next()? {
        Some(row) => {
            assert_fields(rt, &row, fields);
            assert_eq!(rt; row.filled(), filled, "the filled fields of {fields:?}");
        }
        None => assert!(rt; fields.is_empty(), "no record of {fields:?}"),
    }
    Ok(())
}

// Takes each record, and asks again after the last.
fn assert_taken(rt: &impl Abort, records: &mut Records) -> Result<(), AllocError> {
    assert_eq!(rt; records.taken(), 0);
    let table: [(&[&[u8]], usize, usize); 4] = [
        (&[b"unit", b"U"], 2, 1),
        (&[b"", b""], 0, 2),
        (&[], 0, 2),
        (&[], 0, 2),
    ];
    for (fields, filled, taken) in table {
        assert_next(rt, records, fields, filled)?;
        assert_eq!(rt; records.taken(), taken, "after {fields:?}");
    }
    Ok(())
}

#[test]
fn takes_records(rt: HostRuntime) -> Result<(), Fail> {
    assert_taken(&rt, &mut Records::of(rt.alloc(), b"unit,U\n\n,\n"))?;
    Ok(())
}

// One row of two fields.
fn one_row(rt: &impl Abort, alloc: Global) -> Result<Rows, AllocError> {
    let mut row = Row::new(alloc);
    assert!(rt; row.is_empty());
    row.push(b"unit")?;
    row.push(b"U")?;
    let mut rows = Rows::new(alloc);
    assert!(rt; rows.is_empty());
    rows.push(row)?;
    Ok(rows)
}

// A row of two fields, lent into room for three and written after a text.
fn assert_row(rt: &impl Abort, row: &Row, text: &mut Vec<u8>) -> Result<(), AllocError> {
    assert_fields(rt, row, &[b"unit", b"U"]);
    let mut fields: [&[u8]; 3] = [b""; 3];
    let lent = row.lend(&mut fields);
    assert_eq!(rt; (lent, fields[1]), (2, b"U".as_slice()), "{row:?}");
    row.write_to(text)
}

// The number of rows, each of which is this one and is written after a text.
fn count_rows(rt: &impl Abort, rows: &Rows, text: &mut Vec<u8>) -> Result<usize, AllocError> {
    for row in rows.iter() {
        assert_row(rt, row, text)?;
    }
    Ok(rows.len())
}

#[test]
fn makes_rows(rt: HostRuntime) -> Result<(), Fail> {
    let mut text = Vec::from_slice(rt.alloc(), b"tank,K\n")?;
    let count = count_rows(&rt, &one_row(&rt, rt.alloc())?, &mut text)?;
    assert_eq!(rt;
        (count, text.as_slice()),
        (1, b"tank,K\nunit,U\n".as_slice()),
        "a row after a text"
    );
    Ok(())
}

// A row that is cleared and takes a number holds only that number.
fn assert_number(
    rt: &impl Abort,
    row: &mut Row,
    value: i128,
    text: &[u8],
) -> Result<(), AllocError> {
    row.clear();
    row.push_whole(value)?;
    assert_fields(rt, row, &[text]);
    Ok(())
}

#[test]
fn clears_rows(rt: HostRuntime) -> Result<(), Fail> {
    let mut row = Row::new(rt.alloc());
    let table: [(i128, &[u8]); 3] = [
        (0, b"0"),
        (-1_000_000_000_000_000_000, b"-1000000000000000000"),
        (i128::MIN, b"-170141183460469231731687303715884105728"),
    ];
    for (value, text) in table {
        assert_number(&rt, &mut row, value, text)?;
    }
    Ok(())
}

// A row except for its end: a text, a number, a text in quotes and an empty one.
fn write_fields(writer: &mut RowWriter) -> Result<(), AllocError> {
    writer.field(b"edit")?;
    writer.whole(9)?;
    writer.field(b"typed, \"twice\"")?;
    writer.field(b"")
}

// Writes two rows, and returns whether no byte is there before the first one's end.
fn write_two_rows(writer: &mut RowWriter) -> Result<bool, AllocError> {
    write_fields(writer)?;
    let is_held = writer.bytes().is_empty();
    writer.end_row()?;
    writer.field(b"end")?;
    writer.end_row()?;
    Ok(is_held)
}

#[test]
fn writes_rows(rt: HostRuntime) -> Result<(), Fail> {
    let mut writer = RowWriter::new(rt.alloc());
    let is_held = write_two_rows(&mut writer)?;
    let want: &[u8] = b"edit,9,\"typed, \"\"twice\"\"\",\nend\n";
    assert_eq!(rt; (is_held, writer.bytes()), (true, want), "two rows");
    Ok(())
}

// Whether a field is read as a reason of its bytes.
fn is_reason(field: &[u8]) -> bool {
    match Reason::read(field) {
        Some(reason) => reason.bytes() == field && reason == reason,
        None => false,
    }
}

#[test]
fn reads_reasons(rt: HostRuntime) {
    let long = [b'x'; 81];
    let table: [(&[u8], bool); 9] = [
        (b"late ticket", true),
        (b"misread dip, see ticket 7", true),
        (b" ", true),
        (b"~", true),
        (&long[..80], true),
        (&long, false),
        (b"", false),
        (b"tab\there", false),
        ("caf\u{e9}".as_bytes(), false),
    ];
    for (field, want) in table {
        assert_eq!(rt; is_reason(field), want, "the reason {field:?}");
    }
}

// The fields of the next record replace those of the row; after the last record the row is empty.
fn assert_fill(
    rt: &impl Abort,
    records: &mut Records,
    row: &mut Row,
    fields: &[&[u8]],
    found: bool,
) -> Result<(), AllocError> {
    assert_eq!(rt; records.fill(row)?, found, "{fields:?}");
    assert_eq!(rt; row.is_empty(), fields.is_empty(), "{fields:?}");
    assert_fields(rt, row, fields);
    Ok(())
}

// The row before the first record and after the last.
fn assert_filled(rt: &impl Abort, records: &mut Records, row: &mut Row) -> Result<(), AllocError> {
    row.push(b"before")?;
    let table: [(&[&[u8]], bool, usize); 4] = [
        (&[b"unit", b"U", b""], true, 1),
        (&[b"a\"b"], true, 2),
        (&[], false, 2),
        (&[], false, 2),
    ];
    for (fields, found, taken) in table {
        assert_fill(rt, records, row, fields, found)?;
        assert_eq!(rt; records.taken(), taken, "after {fields:?}");
    }
    Ok(())
}

#[test]
fn fills_rows(rt: HostRuntime) -> Result<(), Fail> {
    let mut records = Records::of(rt.alloc(), b"unit,U,\n\"a\"\"b\"\n");
    assert_filled(&rt, &mut records, &mut Row::new(rt.alloc()))?;
    Ok(())
}

// A record's row takes one more field, which the next record drops.
fn assert_added(rt: &impl Abort, records: &mut Records, row: &mut Row) -> Result<(), AllocError> {
    assert_fill(rt, records, row, &[b"a\"b"], true)?;
    row.push(b"after")?;
    assert_fields(rt, row, &[b"a\"b", b"after"]);
    assert_fill(rt, records, row, &[], false)
}

#[test]
fn adds_to_filled_rows(rt: HostRuntime) -> Result<(), Fail> {
    let mut records = Records::of(rt.alloc(), b"\"a\"\"b\"\n");
    assert_added(&rt, &mut records, &mut Row::new(rt.alloc()))?;
    Ok(())
}
