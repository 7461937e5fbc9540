// What is found next, and its row.

ghost use Rattle.std.specs.Prelude.{◌≡◌, ◌+◌, ◌<◌, ◌^◌, length, IfOk, OnErr};
ghost use Rattle.pb_readback.specs.Next.{IsWithinGiven};
ghost use Rattle.pb_readback.specs.WellFormed.{IsWellFormedBlock};
ghost use Rattle.pb_audit.specs.Next.{AppendsFinding};
ghost use Rattle.pb_audit.specs.Judging.{AppendsVerdict};

use crate::rows::{write_no, write_unreadable, write_yes};
use pb_check::{CheckFault, check};
use pb_readback::{Block, ReadRefused, read};
use pb_rows::Records;
use std::alloc::{AllocError, Global};

/// The kinds of findings.
#[derive(Clone, Copy, Debug, PartialEq, Eq)]
pub enum Judged {
    /// A block passes all tests: its row is `yes`.
    Passed,
    /// A block fails a test: its row is `no`.
    Failed,
    /// A row can't be read: its row is `unreadable`, and nothing is judged after it.
    Unreadable,
}

/// Reads the next block of a report, judges it, and appends its row; or the row of a record that can't be read. `None` if neither is left.
/// If memory runs out, `out` is unchanged, and only records that were given count as taken.
pub fn judge_next(
    alloc: Global,
    records: &mut Records,
    out: &mut Vec<u8>,
) -> Result<Option<Judged>, AllocError>
    requires few { records.now.taken + length records.now.left < 2 ^ 31 }
    ensures ok { IfOk result (λ judged. AppendsFinding records.old records.new judged
        out.old.items out.new.items) }
    ensures err { OnErr result (out.new.items ≡ out.old.items) }
    ensures err_records { OnErr result (IsWithinGiven records.old records.new) }
{
    match read(alloc, records) {
        Ok(Some(block)) => match judge_block(alloc, &block, out) {
            Ok(judged) => Ok(Some(judged)),
            Err(error) => Err(error),
        },
        Ok(None) => Ok(None),
        Err(ReadRefused::At { row, fault }) => {
            write_unreadable(alloc, row, fault, out)?;
            Ok(Some(Judged::Unreadable))
        }
        Err(ReadRefused::NoMemory) => Err(AllocError),
    }
}

// Judges a block and appends its row.
fn judge_block(alloc: Global, block: &Block, out: &mut Vec<u8>) -> Result<Judged, AllocError>
    requires { IsWellFormedBlock block.now }
    ensures ok { IfOk result
        (λ judged. AppendsVerdict block.now judged out.old.items out.new.items) }
    ensures err { OnErr result (out.new.items ≡ out.old.items) }
{
    match check(alloc, &block.stage, block.gap, block.sweeps) {
        Ok(()) => {
            write_yes(alloc, block, out)?;
            Ok(Judged::Passed)
        }
        Err(
            CheckFault::At {
                test,
                place,
                stated,
                found,
            },
        ) => {
            write_no(alloc, block, test, place, stated, found, out)?;
            Ok(Judged::Failed)
        }
        Err(CheckFault::NoMemory) => Err(AllocError),
    }
}
