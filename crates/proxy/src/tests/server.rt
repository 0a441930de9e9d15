//! A server of one table that is a plain sorted list, and has the key.

use super::scripts::KEY;
use mope_base::{Body, Items, OutOfMemory};
use path_code::Side;
use std::alloc::Global;
use std::mem;
use value_cipher::{seal, unseal};
use walk_proto::{Asked, How, Reply, Request};

/// The values in order, and those that the transaction began with; the part of them in whose middle the walk stands; of
/// each place that was found how many values are below it, and how many are not above it; the version, and whether the
/// transaction has changed it.
#[derive(Drop)]
pub(super) struct SortedList {
    values: Vec<u64>,
    first: Vec<u64>,
    low: usize,
    high: usize,
    places: Vec<(usize, usize)>,
    number: u64,
    changed: bool,
}

fn sealed(value: u64) -> Body {
    seal(&KEY, 1 << 40, value)
}

/// The value in the middle of a part.
fn middle(values: &[u64], low: usize, high: usize) -> Option<u64> {
    if low < high {
        values.get(low + (high - low) / 2).copied()
    } else {
        None
    }
}

/// How many of these are below a value.
fn count_below(values: &[u64], value: u64) -> usize {
    let mut count = 0usize;
    'values: for other in values {
        if *other < value {
            count = count.saturating_add(1);
        }
    }
    count
}

/// The values from one index up to another.
fn part(values: &[u64], from: usize, to: usize) -> &[u64] {
    if from <= to && to <= values.len() {
        &values[from..to]
    } else {
        &[]
    }
}

/// The values but those from one index up to another.
fn without(alloc: Global, values: &[u64], from: usize, to: usize) -> Result<Vec<u64>, OutOfMemory> {
    let mut kept = part(values, 0, from).to_vec(alloc)?;
    'values: for value in part(values, to, values.len()) {
        kept.push(*value)?;
    }
    Ok(kept)
}

fn bodies_of(alloc: Global, values: &[u64]) -> Result<Reply, OutOfMemory> {
    let mut bodies = Items::new(alloc);
    'values: for value in values {
        bodies.push(sealed(*value))?;
    }
    Ok(Reply::Rows { width: 1, bodies })
}

/// The answer that values give to a verb.
fn answered(alloc: Global, verb: u8, values: &[u64]) -> Result<Reply, OutOfMemory> {
    match verb {
        0 => bodies_of(alloc, values),
        2 => bodies_of(alloc, part(values, 0, values.len().min(1))),
        3 => bodies_of(
            alloc,
            part(values, values.len().saturating_sub(1), values.len()),
        ),
        _ => Ok(Reply::Count(values.len() as u64)),
    }
}

fn ended(how: How, number: u64) -> Reply {
    Reply::Ended {
        how,
        table: 0,
        number,
    }
}

impl SortedList {
    pub(super) fn new(alloc: Global) -> SortedList {
        SortedList {
            values: Vec::new(alloc),
            first: Vec::new(alloc),
            low: 0,
            high: 0,
            places: Vec::new(alloc),
            number: 0,
            changed: false,
        }
    }

    fn begin(&mut self, alloc: Global) -> Result<Reply, OutOfMemory> {
        self.first = self.values.as_slice().to_vec(alloc)?;
        self.changed = false;
        Ok(ended(How::Began, self.number))
    }

    /// The walk comes to a value, or to its place.
    fn stand(&mut self) -> Result<Reply, OutOfMemory> {
        match middle(self.values.as_slice(), self.low, self.high) {
            Some(value) => Ok(Reply::Node(sealed(value))),
            None => {
                self.places.push((self.low, self.low))?;
                Ok(Reply::Placed)
            }
        }
    }

    fn go(&mut self, side: Side) -> Result<Reply, OutOfMemory> {
        let middle = self.low + self.high.saturating_sub(self.low) / 2;
        match side {
            Side::Left => self.high = middle,
            Side::Right => self.low = middle.saturating_add(1),
        }
        self.stand()
    }

    fn found(&mut self) -> Result<Reply, OutOfMemory> {
        let values = self.values.as_slice();
        let value = middle(values, self.low, self.high).unwrap_or(0);
        let upto = match value.checked_add(1) {
            Some(next) => count_below(values, next),
            None => values.len(),
        };
        let below = count_below(values, value);
        self.places.push((below, upto))?;
        Ok(Reply::Placed)
    }

    /// The last place that was found and wasn't used.
    fn place(&mut self) -> (usize, usize) {
        self.places.pop().unwrap_or((0, 0))
    }

    fn put(&mut self, bodies: &[Body]) -> Result<Reply, OutOfMemory> {
        let (_below, upto) = self.place();
        match bodies.first() {
            Some(body) => {
                if upto <= self.values.len() {
                    self.values.insert(upto, unseal(&KEY, *body))?;
                }
            }
            None => {}
        }
        self.changed = true;
        Ok(Reply::Count(1))
    }

    /// The indices of the values that meet a condition, from one up to another.
    fn range(&mut self, conds: &[(u8, u8)]) -> (usize, usize) {
        let all = self.values.len();
        let op = match conds.first() {
            Some(cond) => cond.1,
            None => return (0, all),
        };
        let (below, upto) = self.place();
        match op {
            0 => (below, upto),
            1 => (0, below),
            2 => (0, upto),
            3 => (upto, all),
            4 => (below, all),
            _ => (self.place().0, upto),
        }
    }

    fn ask(&mut self, alloc: Global, asked: &Asked) -> Result<Reply, OutOfMemory> {
        let (from, to) = self.range(asked.conds.as_slice());
        let values = self.values.as_slice();
        let reply = answered(alloc, asked.verb, part(values, from, to))?;
        if asked.verb == 4 {
            self.values = without(alloc, values, from, to)?;
            self.changed = true;
        }
        Ok(reply)
    }

    fn end(&mut self, alloc: Global, commit: bool) -> Reply {
        if !commit {
            self.values = mem::replace(&mut self.first, Vec::new(alloc));
        } else if self.changed {
            return self.next_version(How::Committed);
        }
        ended(How::Closed, self.number)
    }

    fn next_version(&mut self, how: How) -> Reply {
        self.number = self.number.saturating_add(1);
        ended(how, self.number)
    }

    pub(super) fn reply_to(
        &mut self,
        alloc: Global,
        request: &Request,
    ) -> Result<Reply, OutOfMemory> {
        match request {
            Request::Begin => self.begin(alloc),
            Request::WalkStart {
                table: _,
                column: _,
            } => {
                self.low = 0;
                self.high = self.values.len();
                self.stand()
            }
            Request::Go { side } => self.go(*side),
            Request::Found => self.found(),
            Request::Insert { table: _, bodies } => self.put(bodies.as_slice()),
            Request::Query(asked) => self.ask(alloc, asked),
            Request::End { commit } => Ok(self.end(alloc, *commit)),
            Request::Rebuild {
                table: _,
                column: _,
            } => Ok(self.next_version(How::Installed)),
        }
    }
}
