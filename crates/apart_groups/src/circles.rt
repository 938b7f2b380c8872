//! Labels between which the order leads back and forth, which are made one: strongly connected components, as far as two labels
//! tell them. Longer circles are found when labels are sorted. What is found here is tested before it is used.

use crate::labels::{label_of, merge};
use orders::Order;
use rh_base::NoMemory;
use std::alloc::Global;

/// For each label, to which others the order leads from it.
#[derive(Drop)]
struct Rows {
    leads: Vec<Vec<bool>>,
}

impl Rows {
    fn set(&mut self, from: u32, to: u32) {
        if let Some(row) = self.leads.get_mut(from as usize) {
            if let Some(cell) = row.get_mut(to as usize) {
                *cell = true;
            }
        }
    }

    fn has(&self, from: u32, to: u32) -> bool {
        match self.leads.get(from as usize) {
            Some(row) => matches!(row.get(to as usize), Some(true)),
            None => false,
        }
    }
}

/// Rows that lead nowhere.
fn empty_rows(alloc: Global, count: u32) -> Result<Rows, NoMemory> {
    let mut leads = Vec::new(alloc);
    for _label in 0..count {
        leads.push(vec![in alloc; false; count as usize]?)?;
    }
    Ok(Rows { leads })
}

/// A program of the one label comes before one of the other.
fn rows_of(alloc: Global, order: &Order, labels: &[u32]) -> Result<Rows, NoMemory> {
    let count = order.count();
    let mut rows = empty_rows(alloc, count)?;
    for a in 0..count {
        let from = label_of(labels, a);
        for b in 0..count {
            if order.before(a, b) {
                rows.set(from, label_of(labels, b));
            }
        }
    }
    Ok(rows)
}

/// Makes labels one that lead to one another, and tells whether there were any.
fn merge_once(rows: &Rows, count: u32, labels: &mut [u32]) -> bool {
    let mut found = false;
    for to in 0..count {
        for from in to + 1..count {
            if rows.has(to, from) && rows.has(from, to) {
                merge(labels, to, from);
                found = true;
            }
        }
    }
    found
}

/// Makes labels one until no two lead to one another.
pub(crate) fn merge_mutual(
    alloc: Global,
    order: &Order,
    labels: &mut [u32],
) -> Result<(), NoMemory> {
    for _round in 0..order.count() {
        let rows = rows_of(alloc, order, labels)?;
        if !merge_once(&rows, order.count(), labels) {
            return Ok(());
        }
    }
    Ok(())
}
