// The C interface, for technicians: each function of `interface` under its C name, with the same promise. C callers find it in the archive
// libinterface.a, and its declarations in include/breezedrum.h.
// The C interface needs each function once more: a crate is a library for other crates or one for C.
#![tactic(auto)]

ghost use Rattle.meanings.specs.Of as of;
ghost use Rattle.meanings.specs.Questions.{check_reply, quorum_reply, greatest_reply, blocks_reply, verdict_reply, minimal_reply, blocking_reply, intact_reply};
ghost use Rattle.std.specs.Prelude.{length};
ghost use Rattle.sheets.specs.Sheets.{sheet_text, read_reply, read_puts, write_reply, room_reply};
ghost use Rattle.report.specs.Report.{report_of};
ghost use Rattle.replies.specs.Shows.{Shows};
ghost use Rattle.interface.specs.Interface.{Fills};

use replies::Reply;

// Checks a packed table.
#[unsafe(no_mangle)]
pub extern "C" fn breezedrum_check(table: &[u64]) -> Reply
    ensures { Shows result (check_reply table.now) }
{
    interface::breezedrum_check(table)
}

// Is `set` a quorum, with `out` counted out?
#[unsafe(no_mangle)]
pub extern "C" fn breezedrum_quorum(table: &[u64], out: u64, set: u64) -> Reply
    ensures { Shows result (quorum_reply table.now out set) }
{
    interface::breezedrum_quorum(table, out, set)
}

// The greatest quorum within `set`, with `out` counted out.
#[unsafe(no_mangle)]
pub extern "C" fn breezedrum_greatest(table: &[u64], out: u64, set: u64) -> Reply
    ensures { Shows result (greatest_reply table.now out set) }
{
    interface::breezedrum_greatest(table, out, set)
}

// Does `set` block `node`: is `node` in `set`, or do the nodes outside `set` not satisfy it?
#[unsafe(no_mangle)]
pub extern "C" fn breezedrum_blocks(table: &[u64], set: u64, node: u64) -> Reply
    ensures { Shows result (blocks_reply table.now set node) }
{
    interface::breezedrum_blocks(table, set, node)
}

// Do all quorums intersect, with `out` counted out?
#[unsafe(no_mangle)]
pub extern "C" fn breezedrum_verdict(table: &[u64], out: u64, allowance: u64) -> Reply
    ensures { Shows result (verdict_reply table.now out allowance) }
{
    interface::breezedrum_verdict(table, out, allowance)
}

// The intact nodes for the ill set `ill`.
#[unsafe(no_mangle)]
pub extern "C" fn breezedrum_intact(table: &[u64], ill: u64, allowance: u64) -> Reply
    ensures { Shows result (intact_reply table.now ill allowance) }
{
    interface::breezedrum_intact(table, ill, allowance)
}

// Reads a sheet into a lent list of words.
#[unsafe(no_mangle)]
pub extern "C" fn breezedrum_read_sheet(sheet: &[u8], table: &mut [u64]) -> Reply
    ensures { Fills result (read_reply sheet.now (length table.old)) (read_puts sheet.now) table.old table.new }
{
    interface::breezedrum_read_sheet(sheet, table)
}

// Writes a table as a sheet into a lent buffer of bytes.
#[unsafe(no_mangle)]
pub extern "C" fn breezedrum_write_sheet(table: &[u64], sheet: &mut [u8]) -> Reply
    ensures { Fills result (write_reply table.now (length sheet.old)) (sheet_text table.now) sheet.old sheet.new }
{
    interface::breezedrum_write_sheet(table, sheet)
}

// The minimal quorums, in the listing order, into a lent list of words.
#[unsafe(no_mangle)]
pub extern "C" fn breezedrum_minimal(table: &[u64], allowance: u64, sets: &mut [u64]) -> Reply
    ensures { Fills result (minimal_reply table.now allowance (length sets.old)) (of.minimal_quorums table.now) sets.old sets.new }
{
    interface::breezedrum_minimal(table, allowance, sets)
}

// The minimal blocking sets, in the listing order, into a lent list of words.
#[unsafe(no_mangle)]
pub extern "C" fn breezedrum_blocking(table: &[u64], allowance: u64, sets: &mut [u64]) -> Reply
    ensures { Fills result (blocking_reply table.now allowance (length sets.old)) (of.minimal_blocking_sets table.now) sets.old sets.new }
{
    interface::breezedrum_blocking(table, allowance, sets)
}

// The report on a sheet, whole, into a lent buffer of bytes.
#[unsafe(no_mangle)]
pub extern "C" fn breezedrum_report(sheet: &[u8], out: &mut [u8]) -> Reply
    ensures { Fills result (room_reply (report_of sheet.now) (length out.old)) (report_of sheet.now) out.old out.new }
{
    interface::breezedrum_report(sheet, out)
}
