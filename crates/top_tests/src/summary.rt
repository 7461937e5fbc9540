// What no clause says: that a summary is given if memory is ample.

use pb_cli::summary;
use std::test::Fail;

#[test]
fn sums_up_the_least_session(rt: HostRuntime) -> Result<(), Fail> {
    let text = summary(rt.alloc(), 1, 3, 10, 5_000)?;
    let begins: &[u8] = b"summary,1,3,99,0,0,3,0,2,";
    assert!(rt; text.as_slice().starts_with(begins));
    Ok(())
}
