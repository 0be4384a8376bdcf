//! How the search ends with each condition.
ghost use Rattle.std.specs.Prelude.{◌≡◌, All, length};
ghost use Rattle.wy_vc.specs.Told.{IsCond};

use crate::splitting::splits_of;
use std::alloc::Global;
use wy_explain::{Cond, Counted, NoMemory, Terms};
use wy_search::{Verdict, nothing_carried, search};

/// How the searches end.
#[derive(Drop)]
pub struct Ended {
    /// In the order of the conditions.
    pub verdicts: Vec<Verdict>,
    /// What was counted of one whose budget is spent, and the number of its condition, from 0.
    pub counted: Option<(usize, Counted)>,
}

/// How the search of each condition ends at a budget of leaves, in order. It takes what the searches take. Of the condition with this
/// number, from 1, or of the first one whose budget is spent where it is 0, the splits are counted.
pub fn judged(
    alloc: Global,
    terms: &mut Terms,
    conds: &[Cond],
    budget: u64,
    asked: u64,
) -> Result<Ended, NoMemory>
    requires conds { All (IsCond terms.old) conds.now }
{
    let mut carried = nothing_carried(alloc, terms.len());
    let mut verdicts = Vec::new(alloc);
    for i in 0..conds.len() {
        let verdict = match search(terms, &mut carried, &conds[i], budget) {
            Ok(verdict) => verdict,
            Err(_) => return Err(NoMemory),
        };
        verdicts.push(verdict)?;
    }
    let counted = match first_spent(verdicts.as_slice(), asked) {
        Some(number) => {
            if number < conds.len() {
                let counted = splits_of(alloc, terms, &conds[number], cases(budget))?;
                Some((number, counted))
            } else {
                None
            }
        }
        None => None,
    };
    Ok(Ended { verdicts, counted })
}

// In how many cases splits are counted: a tenth of the budget, from 20 to 200.
fn cases(budget: u64) -> u64 {
    (budget / 10).max(20).min(200)
}

// The number of the first condition that isn't shown, or of the one that is asked for, where its budget is spent.
fn first_spent(verdicts: &[Verdict], asked: u64) -> Option<usize> {
    let mut number = 0usize;
    for verdict in verdicts {
        let is_meant = asked == 0 || asked == (number as u64).saturating_add(1);
        match verdict {
            Verdict::Found(_) => {}
            Verdict::Open(_) => {
                if is_meant {
                    return None;
                }
            }
            Verdict::Spent => {
                if is_meant {
                    return Some(number);
                }
            }
        }
        number = number.saturating_add(1);
    }
    None
}
