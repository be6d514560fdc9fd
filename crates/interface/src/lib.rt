// Every public operation under its C name, for technicians; `interface_c` exports each. A function takes what the operation takes and no more;
// an answer is one struct with the number, the place and the fields of SPECIFICATION 7, 0 where a field is not named.
#![tactic(auto)]

ghost use Rattle.meanings.specs.Of as of;
ghost use Rattle.meanings.specs.Questions.{check_reply, quorum_reply, greatest_reply, blocks_reply, verdict_reply, minimal_reply, blocking_reply, intact_reply};
ghost use Rattle.std.specs.Prelude.{length};
ghost use Rattle.sheets.specs.Sheets.{sheet_text, read_reply, read_puts, write_reply, room_reply};
ghost use Rattle.report.specs.Report.{report_of};
ghost use Rattle.replies.specs.Shows.{Shows};
ghost use Rattle.interface.specs.Interface.{Fills};

use replies::{Reply, Says};

// Checks a packed table.
pub fn breezedrum_check(table: &[u64]) -> Reply
    ensures { Shows result (check_reply table.now) }
{
    faults::check_table(table).reply()
}

// Is `set` a quorum, with `out` counted out?
pub fn breezedrum_quorum(table: &[u64], out: u64, set: u64) -> Reply
    ensures { Shows result (quorum_reply table.now out set) }
{
    quorums::is_quorum(table, out, set).reply()
}

// The greatest quorum within `set`, with `out` counted out.
pub fn breezedrum_greatest(table: &[u64], out: u64, set: u64) -> Reply
    ensures { Shows result (greatest_reply table.now out set) }
{
    quorums::greatest_quorum(table, out, set).reply()
}

// Does `set` block `node`: is `node` in `set`, or do the nodes outside `set` not satisfy it?
pub fn breezedrum_blocks(table: &[u64], set: u64, node: u64) -> Reply
    ensures { Shows result (blocks_reply table.now set node) }
{
    quorums::blocks_node(table, set, node).reply()
}

// Do all quorums intersect, with `out` counted out?
pub fn breezedrum_verdict(table: &[u64], out: u64, allowance: u64) -> Reply
    ensures { Shows result (verdict_reply table.now out allowance) }
{
    verdict::intersect(table, out, allowance).reply()
}

// The intact nodes for the ill set `ill`.
pub fn breezedrum_intact(table: &[u64], ill: u64, allowance: u64) -> Reply
    ensures { Shows result (intact_reply table.now ill allowance) }
{
    intact::intact_nodes(table, ill, allowance).reply()
}

// Reads a sheet into a lent list of words.
pub fn breezedrum_read_sheet(sheet: &[u8], table: &mut [u64]) -> Reply
    ensures { Fills result (read_reply sheet.now (length table.old)) (read_puts sheet.now) table.old table.new }
{
    sheets::read_sheet(sheet, table).reply()
}

// Writes a table as a sheet into a lent buffer of bytes.
pub fn breezedrum_write_sheet(table: &[u64], sheet: &mut [u8]) -> Reply
    ensures { Fills result (write_reply table.now (length sheet.old)) (sheet_text table.now) sheet.old sheet.new }
{
    sheets::write_sheet(table, sheet).reply()
}

// The minimal quorums, in the listing order, into a lent list of words.
pub fn breezedrum_minimal(table: &[u64], allowance: u64, sets: &mut [u64]) -> Reply
    ensures { Fills result (minimal_reply table.now allowance (length sets.old)) (of.minimal_quorums table.now) sets.old sets.new }
{
    lists::minimal_quorums(table, allowance, sets).reply()
}

// The minimal blocking sets, in the listing order, into a lent list of words.
pub fn breezedrum_blocking(table: &[u64], allowance: u64, sets: &mut [u64]) -> Reply
    ensures { Fills result (blocking_reply table.now allowance (length sets.old)) (of.minimal_blocking_sets table.now) sets.old sets.new }
{
    lists::blocking_sets(table, allowance, sets).reply()
}

// The report on a sheet, whole, into a lent buffer of bytes.
pub fn breezedrum_report(sheet: &[u8], out: &mut [u8]) -> Reply
    ensures { Fills result (room_reply (report_of sheet.now) (length out.old)) (report_of sheet.now) out.old out.new }
{
    report::report(sheet, out).reply()
}
