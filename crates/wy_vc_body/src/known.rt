//! What is known behind paths that come together.
ghost use Rattle.std.specs.Prelude.{◌≡◌, ◌<◌, ◌++◌, List, length as count_of, map, IfOk, OnOk};
ghost use Rattle.wy_vc_exprs.specs.wy_vc_spec.Joins as spec;
ghost use Rattle.wy_vc_exprs.specs.wy_vc_spec.Variables.{slot_at as slot_of};
ghost use Rattle.wy_term.specs.Nodes.{tree_at};
ghost use Rattle.wy_term.specs.Term.{Term};
ghost use Rattle.wy_vc_body.specs.Known.{AreNames, IsJoined, equation, known_from, one_variable, onto, path_term, renamed, seen_joined, seen_names, unnamed};
ghost use Rattle.wy_vc_body.specs.Paths.{ArePaths, IsPath, seen_path, seen_paths};
ghost use Rattle.wy_vc_exprs.specs.wy_vc_operations.Growing.{AreAt, Kept, Makes};
ghost use Rattle.wy_vc_exprs.specs.Slots.{AreSlots, slots_of};

use crate::here::Here;
use crate::naming::new_name;
use crate::paths::{Path, differ, first_term, most_vars, set_on_all};
use std::alloc::Global;
use wy_data::Name;
use wy_term::NoMemory;
use wy_vc_exprs::{Maker, conjunction, equal, slot_at};

/// What is known behind paths of the variables that were looked at, and the new names, each by its variable and the number of its term.
#[derive(Drop)]
pub struct Joined {
    pub here: Here,
    pub names: Vec<(u32, u32)>,
}

// The variable takes a new name.
fn rename(
    alloc: Global,
    maker: &mut Maker,
    words: &[Name],
    paths: &[Path],
    x: u32,
    joined: &mut Joined,
) -> Result<(), NoMemory>
    requires paths { ArePaths maker.old.terms paths.now }
    requires joined { IsJoined maker.old.terms joined.old }
    ensures kept { OnOk result (Kept maker.old.terms maker.new.terms) }
    ensures node { OnOk result (maker.new.node ≡ maker.old.node) }
    ensures joined { OnOk result (IsJoined maker.new.terms joined.new) }
    ensures value { OnOk result (seen_joined maker.new.terms maker.new.count joined.new ≡ onto (seen_joined maker.old.terms maker.old.count joined.old) (renamed words.now (seen_paths maker.old.terms paths.now) x maker.old.count)) }
{
    let has = set_on_all(paths, x);
    let name = new_name(alloc, maker, words, x)?;
    joined.names.push((x, name))?;
    joined.here.vars.push(Some(name))?;
    joined.here.set.push(has)?;
    Ok(())
}

// The variable stands for what it stands for on the first path that has a term for it.
fn keep(maker: &mut Maker, paths: &[Path], x: u32, joined: &mut Joined) -> Result<(), NoMemory>
    requires paths { ArePaths maker.old.terms paths.now }
    requires joined { IsJoined maker.old.terms joined.old }
    ensures same { OnOk result (maker.new ≡ maker.old) }
    ensures joined { OnOk result (IsJoined maker.new.terms joined.new) }
    ensures value { OnOk result (seen_joined maker.new.terms maker.new.count joined.new ≡ onto (seen_joined maker.old.terms maker.old.count joined.old) (unnamed (seen_paths maker.old.terms paths.now) x maker.old.count)) }
{
    let has = set_on_all(paths, x);
    let term = first_term(paths, x);
    joined.here.vars.push(term)?;
    joined.here.set.push(has)?;
    Ok(())
}

// One variable more.
fn join_variable(
    alloc: Global,
    maker: &mut Maker,
    words: &[Name],
    paths: &[Path],
    x: u32,
    joined: &mut Joined,
) -> Result<(), NoMemory>
    requires paths { ArePaths maker.old.terms paths.now }
    requires joined { IsJoined maker.old.terms joined.old }
    ensures kept { OnOk result (Kept maker.old.terms maker.new.terms) }
    ensures node { OnOk result (maker.new.node ≡ maker.old.node) }
    ensures joined { OnOk result (IsJoined maker.new.terms joined.new) }
    ensures value { OnOk result (seen_joined maker.new.terms maker.new.count joined.new ≡ onto (seen_joined maker.old.terms maker.old.count joined.old) (one_variable words.now (seen_paths maker.old.terms paths.now) x maker.old.count)) }
{
    if differ(&maker.terms, paths, x) {
        rename(alloc, maker, words, paths, x, joined)
    } else {
        keep(maker, paths, x, joined)
    }
}

/// The number of a variable that there is. Want of memory is also the answer where there are more than 2^32 - 1.
pub fn as_number(count: usize) -> Result<u32, NoMemory>
    ensures value { IfOk result (λ n. n ≡ count) }
{
    if count > u32::MAX as usize {
        return Err(NoMemory);
    }
    Ok(count as u32)
}

/// What is known behind these paths, of each variable in turn. Linear in the variables and in the paths.
pub fn known_behind(
    alloc: Global,
    maker: &mut Maker,
    words: &[Name],
    paths: &[Path],
) -> Result<Joined, NoMemory>
    requires paths { ArePaths maker.old.terms paths.now }
    ensures kept { OnOk result (Kept maker.old.terms maker.new.terms) }
    ensures node { OnOk result (maker.new.node ≡ maker.old.node) }
    ensures joined { IfOk result (λ j. IsJoined maker.new.terms j) }
    ensures value { IfOk result (λ j. seen_joined maker.new.terms maker.new.count j ≡ known_from words.now (seen_paths maker.old.terms paths.now) 0 (spec.most_vars (seen_paths maker.old.terms paths.now)) maker.old.count) }
{
    let most = as_number(most_vars(paths))?;
    let mut all = Joined {
        here: Here::new(alloc),
        names: Vec::new(alloc),
    };
    for x in 0..most {
        join_variable(alloc, maker, words, paths, x, &mut all)?;
    }
    Ok(all)
}

// The new name of a variable equals its term, where it has one.
fn equate(
    maker: &mut Maker,
    vars: &[Option<u32>],
    x: u32,
    name: u32,
    since: &mut Vec<u32>,
) -> Result<(), NoMemory>
    requires slots { AreSlots maker.old.terms vars.now }
    requires name { name < count_of maker.old.terms }
    ensures count { OnOk result (maker.new.count ≡ maker.old.count) }
    ensures node { OnOk result (maker.new.node ≡ maker.old.node) }
    ensures kept { OnOk result (Kept maker.old.terms maker.new.terms) }
    ensures made { (fs : List Term) → AreAt maker.old.terms since.old.items fs → OnOk result (AreAt maker.new.terms since.new.items (fs ++ equation (tree_at maker.old.terms name) (slot_of (slots_of maker.old.terms vars.now) x))) }
{
    match slot_at(vars, x) {
        None => Ok(()),
        Some(term) => {
            if (term as usize) >= maker.terms.len() {
                return Err(NoMemory);
            }
            let equation = equal(&mut maker.terms, name, term)?;
            since.push(equation)?;
            Ok(())
        }
    }
}

/// What is so on a path: what it assumed, and that each new name equals the variable's term there. Linear in both.
pub fn path_formula(
    alloc: Global,
    maker: &mut Maker,
    names: &[(u32, u32)],
    path: &Path,
) -> Result<u32, NoMemory>
    requires path { IsPath maker.old.terms path.now }
    requires names { AreNames maker.old.terms names.now }
    ensures count { OnOk result (maker.new.count ≡ maker.old.count) }
    ensures node { OnOk result (maker.new.node ≡ maker.old.node) }
    ensures within { IfOk result (λ r. r < count_of maker.new.terms) }
    ensures made { IfOk result (λ r. Makes maker.old.terms maker.new.terms r (path_term (seen_names maker.old.terms names.now) (seen_path maker.old.terms path.now))) }
{
    let mut since = Vec::from_slice(alloc, path.since.as_slice())?;
    for entry in names {
        equate(
            maker,
            path.here.vars.as_slice(),
            entry.0,
            entry.1,
            &mut since,
        )?;
    }
    conjunction(&mut maker.terms, since)
}

/// What is so on each path. Linear in what they assumed and in the names for each.
pub fn path_formulas(
    alloc: Global,
    maker: &mut Maker,
    names: &[(u32, u32)],
    paths: &[Path],
) -> Result<Vec<u32>, NoMemory>
    requires paths { ArePaths maker.old.terms paths.now }
    requires names { AreNames maker.old.terms names.now }
    ensures count { OnOk result (maker.new.count ≡ maker.old.count) }
    ensures node { OnOk result (maker.new.node ≡ maker.old.node) }
    ensures kept { OnOk result (Kept maker.old.terms maker.new.terms) }
    ensures made { IfOk result (λ ks. AreAt maker.new.terms ks.items (map (path_term (seen_names maker.old.terms names.now)) (seen_paths maker.old.terms paths.now))) }
{
    let mut formulas = Vec::new(alloc);
    for path in paths {
        let formula = path_formula(alloc, maker, names, path)?;
        formulas.push(formula)?;
    }
    Ok(formulas)
}
