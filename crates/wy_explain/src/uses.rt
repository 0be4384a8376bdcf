//! Where the names of conditions are first spoken of.
use crate::parts::{node_at, node_of, put_parts};
use crate::places::{Wanted, node_there};
use std::alloc::Global;
use wy_explain_source::{NoMemory, Seen};
use wy_term::{Cond, CondKind, Node, Terms};

/// For each term the number of the first condition of a declaration that is made of it.
#[derive(Drop)]
pub struct Uses {
    first: Vec<usize>,
}

impl Uses {
    /// The first uses in the conditions of this declaration, in time linear in their terms.
    pub fn of(
        alloc: Global,
        seen: &Seen,
        terms: &Terms,
        conds: &[Cond],
        decl: usize,
    ) -> Result<Uses, NoMemory> {
        let mut first: Vec<usize> = vec![in alloc; usize::MAX; terms.len()]?;
        let mut number = 0usize;
        let start = match seen.nodes.get(decl) {
            Some(node) => node.at,
            None => 0,
        };
        let end = seen.decl_end(decl);
        for cond in conds {
            if start <= cond.at && cond.at < end {
                for hyp in cond.hyps.as_slice() {
                    note(alloc, terms, &mut first, *hyp, number)?;
                }
                note(alloc, terms, &mut first, cond.goal, number)?;
            }
            number = number.saturating_add(1);
        }
        Ok(Uses { first })
    }
}

// Notes the condition at the term and all that it is made of, where none is noted.
fn note(
    alloc: Global,
    terms: &Terms,
    first: &mut Vec<usize>,
    term: u32,
    number: usize,
) -> Result<(), NoMemory> {
    let mut rest: Vec<u32> = Vec::new(alloc);
    rest.push(term)?;
    for _ in 0..u64::MAX {
        let next = match rest.pop() {
            Some(next) => next,
            None => break,
        };
        let at = next as usize;
        if at >= first.len() || first[at] != usize::MAX {
            continue;
        }
        first[at] = number;
        match node_of(terms, next) {
            Some(node) => put_parts(node, &mut rest)?,
            None => {}
        }
    }
    Ok(())
}

/// The place up to which a name has got its value: that of the first condition that speaks of it, for one behind a turn of a loop
/// the loop's end. The other place where no condition does.
pub fn place_of(
    seen: &Seen,
    terms: &Terms,
    conds: &[Cond],
    uses: &Uses,
    word: &[u8],
    number: u128,
    other: u32,
) -> u32 {
    for term in 0..terms.len() {
        let is_it = match node_at(terms, term) {
            Some(Node::ValName(own, count)) => *count == number && own.as_bytes() == word,
            _ => false,
        };
        if is_it {
            return match uses.first.get(term) {
                Some(first) => match conds.get(*first) {
                    Some(cond) => behind(seen, cond),
                    None => other,
                },
                None => other,
            };
        }
    }
    other
}

// The place of a condition in the order of a run.
fn behind(seen: &Seen, cond: &Cond) -> u32 {
    if cond.kind != CondKind::Keep {
        return cond.at;
    }
    match node_there(seen, cond.at, Wanted::Loop) {
        Some(number) => seen.end_of(number),
        None => cond.at,
    }
}
