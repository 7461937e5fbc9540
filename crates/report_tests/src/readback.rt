// What no clause says: that a block is read if memory is ample. What is said of rows with one fault, of each kind, is in many cases of
// `block_cases`.

use pb_readback::{Block, ReadRefused, read};
use pb_rows::{Name, Records};
use std::alloc::Global;
use std::test::Fail;

// For a block: its period and round, how many nodes are named, how many prices it has, the first price, and the ends of the statistic.
type Found = (
    Name,
    u32,
    usize,
    (usize, Option<i128>),
    (i128, Option<i128>),
);

fn found(block: &Block) -> Found {
    let prices = block.stage.prices.as_slice();
    (
        block.period,
        block.round,
        block.names.nodes.len(),
        (prices.len(), prices.first().copied()),
        (block.stage.low, block.stage.high),
    )
}

// What is read of a short text. For a row that can't be read: its number, and the code of its fault.
fn read_of(alloc: Global, text: &[u8]) -> Result<Option<Found>, Option<(u32, u32)>> {
    if 10_000 < text.len() {
        return Err(None);
    }
    let mut records = Records::of(alloc, text);
    match read(alloc, &mut records) {
        Ok(Some(block)) => Ok(Some(found(&block))),
        Ok(None) => Ok(None),
        Err(ReadRefused::At { row, fault }) => Err(Some((row, fault.code()))),
        Err(ReadRefused::NoMemory) => Err(None),
    }
}

#[test]
fn reads_a_block(rt: HostRuntime) -> Result<(), Fail> {
    let text = b"stop\nreport,d,1,1,0,10,0\nnode,env,-7\nsolved,0,converged,0,0,0,5,\nend,d,1\n";
    let period = Name::read(b"d").ok_or("a name")?;
    let want: Found = (period, 1, 1, (1, Some(-7)), (5, None));
    assert_eq!(rt; read_of(rt.alloc(), text), Ok(Some(want)), "a block");
    Ok(())
}

#[test]
fn reads_no_block(rt: HostRuntime) {
    assert_eq!(rt;
        read_of(rt.alloc(), b"over,d1,A\n"),
        Ok(None),
        "a row without a block"
    );
}
