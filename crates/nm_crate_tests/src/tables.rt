use nm_tables::{Entry, PageTable};
use nm_types::Vpn;
use std::alloc::{AllocError, Global};
use std::test::Fail;

/// The last page number that lies inside areas.
const LAST: u64 = 34_359_738_367;

/// Page numbers on both sides of the ends of leaves and nodes, descending.
const ENDS: [u64; 8] = [
    LAST,
    134_217_728,
    134_217_727,
    262_144,
    262_143,
    512,
    511,
    0,
];

/// The same page numbers, ascending.
const UPWARDS: [u64; 8] = [
    0,
    511,
    512,
    262_143,
    262_144,
    134_217_727,
    134_217_728,
    LAST,
];

/// Page numbers from which entries at the ends are listed, and those before which each of these lists ends.
const FIRSTS: [u64; 5] = [511, 0, 512, 134_217_727, LAST];

const BEFORE: [u64; 5] = [262_144, 0, 512, LAST, u64::MAX];

/// The page numbers of all these lists together.
const BETWEEN: [u64; 6] = [511, 512, 262_143, 134_217_727, 134_217_728, LAST];

/// Sets an entry at each of the ends, in their order.
fn set_ends(table: &mut PageTable<Global>) -> Result<(), AllocError> {
    for number in ENDS {
        table.set(Vpn::new(number), Entry::Zero)?;
    }
    Ok(())
}

/// Whether a list has the page of zeros at these page numbers, in this order, and nothing else.
fn are_zeros(told: &[(Vpn, Entry)], numbers: &[u64]) -> bool {
    let mut same = told.len() == numbers.len();
    for ((vpn, entry), number) in told.iter().zip(numbers.iter()) {
        same = same && vpn.number() == *number && *entry == Entry::Zero;
    }
    same
}

/// Whether all entries are listed in ascending order.
fn lists_all(table: &PageTable<Global>) -> Result<bool, AllocError> {
    let entries = table.entries()?;
    Ok(are_zeros(entries.as_slice(), UPWARDS.as_slice()))
}

/// Whether the entries from one page number up to another are listed, after what the list had before.
fn lists_between(table: &PageTable<Global>, alloc: Global) -> Result<bool, AllocError> {
    let mut list = Vec::new(alloc);
    for (first, end) in FIRSTS.iter().zip(BEFORE.iter()) {
        table.list_between(Vpn::new(*first), Vpn::new(*end), &mut list)?;
    }
    Ok(are_zeros(list.as_slice(), BETWEEN.as_slice()))
}

/// Whether entries that are set at each of the ends are listed.
fn lists_ends(table: &mut PageTable<Global>, alloc: Global) -> Result<bool, AllocError> {
    set_ends(table)?;
    Ok(lists_all(table)? && lists_between(table, alloc)?)
}

/// Entries set in descending order, on both sides of the ends of leaves and nodes, are listed in ascending order, all
/// of them and those of a range.
#[test]
fn ends_of_leaves_and_nodes(rt: HostRuntime) -> Result<(), Fail> {
    let mut table = PageTable::new(rt.alloc());
    assert!(rt; lists_ends(&mut table, rt.alloc())?);
    Ok(())
}
