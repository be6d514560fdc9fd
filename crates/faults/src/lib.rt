// Is this list of words a packed table? SPECIFICATION 1 and 7, numbers 1 to 7. Every question opens with it: a fault is handed on by `?`, sound words
// are a `Table` (`sound_table`), and then its sets must lie within the nodes (`inside`), or the number is 8. The records of a sheet's lines are
// checked the same way, but that a written 0 is no unknown archive's threshold (`check_lines`).
// Two passes over the records: the first finds any of 2 to 5 and counts the nodes, the second finds 6 or 7. A record's inner sets
// are counted by walking the run of deeper records after it, so each record is walked by those above it, three at most.
#![tactic(auto)]

ghost use Rattle.std.specs.Prelude.{◌≡◌, true, ◌+◌, ◌*◌, ◌<◌, ◌≤◌, ◌-◌, length};
ghost use Rattle.sets.specs.Sets.{within, everyone};
ghost use Rattle.meanings.specs.Table.{records, nodes as nodes_of, level as level_of, entries as entries_of};
ghost use Rattle.meanings.specs.Faults.{bad_count, no_threshold, shape_fault, line_fault, entry_fault};
ghost use Rattle.meanings.specs.Questions.{check_reply};
ghost use Rattle.answers.specs.Said.{checked_says};
ghost use Rattle.tables.specs.Run.{inner_run};
ghost use Rattle.tables.specs.Heads.{heads_before};
ghost use Rattle.faults.specs.Walk.{highest as highest_of, lines_from, entries_from, Shapely, Counts, Passes, lines_reply, Opens};

use answers::{Fault, Size};
use tables::Table;

// 1: odd word count, no record, over 256.
fn bad_count(t: &[u64]) -> bool
    ensures { result ≡ bad_count t.now }
{
    let words = t.len();
    if words % 2 == 1 {
        return true;
    }
    if words / 2 == 0 {
        return true;
    }
    256 < words / 2
}

// The highest level that record r may have: 0 for the first, one above the record before for any other.
// A record is named by the words and its number here and below, with the bound of an index. As a type it would be asked for that bound where it is
// made, at the same places, which is no plainer.
fn highest(t: &[u64], r: usize) -> u64
    requires { 2 * r + 1 < length t.now }
    ensures { result ≡ highest_of t.now r }
{
    if r == 0 {
        return 0;
    }
    tables::level(t, r - 1) + 1
}

// How many direct inner sets record r has: the records one level deeper in the run of deeper records after it.
fn inner_sets(t: &[u64], r: usize) -> u64
    requires { 2 * r + 1 < length t.now }
    ensures { (result ≡ inner_run (λ j. true) t.now (level_of t.now r) (records t.now - (r + 1)) (r + 1)) × (result ≤ records t.now) }
{
    let above = tables::level(t, r);
    let mut count = 0u64;
    for j in r + 1..t.len() / 2 {
        let here = tables::level(t, j);
        if here <= above {
            return count;
        }
        if here == above + 1 {
            count += 1;
        }
    }
    count
}

// Whether record r has threshold 0 and is no unknown archive: its level is above 0, or it has members or inner sets.
fn no_threshold(t: &[u64], r: usize) -> bool
    requires { 2 * r + 1 < length t.now }
    ensures { result ≡ no_threshold t.now r }
{
    if tables::threshold(t, r) != 0 {
        return false;
    }
    if tables::level(t, r) != 0 {
        return true;
    }
    if tables::members(t, r) != 0 {
        return true;
    }
    inner_sets(t, r) != 0
}

// Record r, with so many nodes before it: the first of 2 to 5 that it meets, or the nodes up to its end.
fn shape(t: &[u64], r: usize, nodes: u64) -> Result<u64, Fault>
    requires { (2 * r + 1 < length t.now) × (nodes ≡ heads_before t.now r) }
    ensures { Counts (shape_fault t.now r) (heads_before t.now (r + 1)) result }
{
    let place = r as u64 + 1;
    if 1024 <= tables::control(t, r) {
        return Err(Fault::Control(place));
    }
    let level = tables::level(t, r);
    if highest(t, r) < level {
        return Err(Fault::Level(place));
    }
    if level == 0 && nodes == 64 {
        return Err(Fault::Nodes(place));
    }
    if no_threshold(t, r) {
        return Err(Fault::Threshold(place));
    }
    if level == 0 {
        return Ok(nodes + 1);
    }
    Ok(nodes)
}

// The same of a line's record: a written 0 is a threshold of 0, whatever else the record has.
fn line(t: &[u64], r: usize, nodes: u64, nought: u64) -> Result<u64, Fault>
    requires { (2 * r + 1 < length t.now) × (nodes ≡ heads_before t.now r) }
    ensures { Counts (line_fault nought t.now r) (heads_before t.now (r + 1)) result }
{
    let nodes = shape(t, r, nodes)?;
    if r as u64 + 1 == nought {
        return Err(Fault::Threshold(nought));
    }
    Ok(nodes)
}

// The first record that meets any of 2 to 5, or the nodes of the table.
fn shapes(t: &[u64], nought: u64) -> Result<u64, Fault>
    ensures { Counts (lines_from nought t.now 0 (records t.now)) (nodes_of t.now) result }
{
    let mut nodes = 0u64;
    for r in 0..t.len() / 2 {
        nodes = line(t, r, nodes, nought)?;
    }
    Ok(nodes)
}

// The entries of record r: its members and its direct inner sets.
// `Shapely` is what the first pass has found of the same words, and these three alone ask for it; a type for words half checked would be no plainer.
fn entries(t: &[u64], r: usize) -> u64
    requires { (2 * r + 1 < length t.now) × Shapely t.now }
    ensures { result ≡ entries_of t.now r }
{
    u64::count_ones(tables::members(t, r)) as u64 + inner_sets(t, r)
}

// Whether a set lies within so many nodes. Any word lies within 64, and no shift goes that far.
pub fn inside(set: u64, nodes: u64) -> bool
    requires { nodes ≤ 64 }
    ensures { result ≡ within set (everyone nodes) }
{
    if nodes == 64 {
        return true;
    }
    set >> nodes == 0
}

// Record r of a table of so many nodes: the first of 6 and 7 that it meets.
fn entry(t: &[u64], r: usize, nodes: u64) -> Result<(), Fault>
    requires { (2 * r + 1 < length t.now) × (nodes ≡ nodes_of t.now) × Shapely t.now }
    ensures { Passes (entry_fault t.now r) result }
{
    let place = r as u64 + 1;
    if !inside(tables::members(t, r), nodes) {
        return Err(Fault::Member(place));
    }
    if entries(t, r) < tables::threshold(t, r) {
        return Err(Fault::Entries(place));
    }
    Ok(())
}

// The first record that meets 6 or 7.
fn all_entries(t: &[u64], nodes: u64) -> Result<(), Fault>
    requires { (nodes ≡ nodes_of t.now) × Shapely t.now }
    ensures { Passes (entries_from t.now 0 (records t.now)) result }
{
    for r in 0..t.len() / 2 {
        entry(t, r, nodes)?;
    }
    Ok(())
}

// Order: 1; then the first record that meets any of 2 to 5, lowest number first; then the first that meets 6 or 7, 6 first. The records are those of
// a sheet's lines, and `nought` is the first line whose threshold is a written 0, or 0.
// 0, which is no line's place, is what the definition has for none (`Faults.check_lines`), so `nought` is no `Option`.
pub fn check_lines(table: &[u64], nought: u64) -> Result<Size, Fault>
    ensures { checked_says result ≡ lines_reply nought table.now }
{
    if bad_count(table) {
        return Err(Fault::Count(0));
    }
    let nodes = shapes(table, nought)?;
    all_entries(table, nodes)?;
    let records = table.len() as u64 / 2;
    Ok(Size { nodes, records })
}

// A table is words, and none of them is a written 0.
pub fn check_table(table: &[u64]) -> Result<Size, Fault>
    ensures { checked_says result ≡ check_reply table.now }
{
    check_lines(table, 0)
}

// The words as a sound table, for a question that is asked of any words; or the fault that their check finds.
pub fn sound_table(words: &[u64]) -> Result<Table<'_>, Fault>
    ensures { Opens words.now result }
{
    let Size { nodes, records: _ } = check_table(words)?;
    Ok(Table::new(words, nodes))
}
