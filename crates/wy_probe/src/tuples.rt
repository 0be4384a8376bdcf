//! Tuples of positions in lists, one after another.
ghost use Rattle.std.specs.Prelude.{◌≡◌, ◌++◌, ◌≤◌, ◌^◌, ◌&&◌, suc, IfOk, IfSome, MatchOption, None, length, nat_lt, option_map};
ghost use Rattle.wy_probe.specs.Tuples as spec;
ghost use Rattle.wy_probe.specs.Tuples.{Fit};
ghost use Rattle.wy_probe.specs.Turns.{IsTurn};

use std::alloc::{AllocError, Global};

/// The first tuple: each position is 0.
pub fn first_tuple(alloc: Global, lengths: &[u32]) -> Result<Vec<u32>, AllocError>
    ensures value { IfOk result (λ made. made.items ≡ spec.zeros lengths.now) }
{
    let mut made = Vec::new(alloc);
    for length in lengths {
        let _each = length;
        made.push(0)?;
    }
    Ok(made)
}

/// Whether one of the lists has no values, so that there is no tuple.
pub fn has_empty(lengths: &[u32]) -> bool
    ensures value { result ≡ spec.has_empty lengths.now }
{
    for length in lengths {
        if *length == 0 {
            return true;
        }
    }
    false
}

/// The tuple after this one; none behind the last. The tuples come by the sum of their positions, and those of one sum by the
/// first position that differs, the lower first. It takes time linear in the tuple.
pub fn next_tuple_of(
    alloc: Global,
    lengths: &[u32],
    tuple: &[u32],
) -> Result<Option<Vec<u32>>, AllocError>
    requires fit { Fit lengths.now tuple.now }
    requires few { length lengths.now ≤ 2 ^ 31 }
    ensures value { IfOk result (λ next. option_map (λ v. v.items) next ≡ spec.next_tuple lengths.now tuple.now) }
    ensures fit { IfOk result (λ next. IfSome next (λ v. Fit lengths.now v.items)) }
{
    match turn_of(lengths, tuple) {
        Some(turn) => {
            let mut made = Vec::from_slice(alloc, &tuple[..turn.place])?;
            made.push(tuple[turn.place] + 1)?;
            let behind = &lengths[turn.place + 1..];
            let made = with_least(made, behind, turn.room, turn.sum - 1)?;
            Ok(Some(made))
        }
        None => {
            let sum = sum_of(tuple);
            let room = greatest_sum(lengths);
            if sum < room {
                let made = with_least(Vec::new(alloc), lengths, room, sum + 1)?;
                return Ok(Some(made));
            }
            Ok(None)
        }
    }
}

/// The last place at which a position rises while the sum stays the same, with what stands behind it.
#[derive(Clone, Copy, Debug)]
pub struct Turn {
    pub place: usize,
    /// The greatest sum of the positions behind the place.
    pub room: u64,
    /// Their sum in the tuple.
    pub sum: u64,
}

// Whether a position rises while the sum stays the same: where its list has one more, and those behind it have something
// to give.
fn rises(position: u32, length: u32, sum: u64) -> bool
    ensures value { result ≡ (nat_lt (suc position) length && nat_lt 0 sum) }
{
    (position as u64) + 1 < length as u64 && 0 < sum
}

// The turn of the tuple; none behind the last of its sum.
fn turn_of(lengths: &[u32], tuple: &[u32]) -> Option<Turn>
    requires fit { Fit lengths.now tuple.now }
    requires same { length tuple.now ≡ length lengths.now }
    requires few { length lengths.now ≤ 2 ^ 31 }
    ensures value { MatchOption result (spec.next_alike lengths.now tuple.now ≡ None) (IsTurn lengths.now tuple.now) }
{
    let mut sum: u64 = 0;
    let mut room: u64 = 0;
    for turn in 0..tuple.len() {
        let place = tuple.len() - 1 - turn;
        let position = tuple[place];
        let length = lengths[place];
        if rises(position, length, sum) {
            return Some(Turn { place, room, sum });
        }
        sum += position as u64;
        room += length.saturating_sub(1) as u64;
    }
    None
}

// The sum of the positions.
fn sum_of(tuple: &[u32]) -> u64
    requires { length tuple.now ≤ 2 ^ 31 }
    ensures value { result ≡ spec.sum_of tuple.now }
{
    let mut sum: u64 = 0;
    for position in tuple {
        sum += *position as u64;
    }
    sum
}

// The greatest sum of positions in lists of these lengths.
fn greatest_sum(lengths: &[u32]) -> u64
    requires { length lengths.now ≤ 2 ^ 31 }
    ensures value { result ≡ spec.greatest_sum lengths.now }
{
    let mut sum: u64 = 0;
    for length in lengths {
        sum += length.saturating_sub(1) as u64;
    }
    sum
}

// Behind others, the first positions with this sum.
fn with_least(made: Vec<u32>, lengths: &[u32], room: u64, sum: u64) -> Result<Vec<u32>, AllocError>
    requires room { room ≡ spec.greatest_sum lengths.now }
    requires sum { sum ≤ room }
    ensures value { IfOk result (λ more. more.items ≡ made.items ++ spec.least lengths.now sum) }
{
    let mut made = made;
    let mut room = room;
    let mut left = sum;
    for length in lengths {
        room -= length.saturating_sub(1) as u64;
        let position = left.saturating_sub(room);
        left -= position;
        made.push(position as u32)?;
    }
    Ok(made)
}
